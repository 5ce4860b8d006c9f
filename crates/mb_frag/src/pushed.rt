//! What a push answers.

/// What came of a datagram that was pushed.
#[derive(Clone, Copy, PartialEq, Eq)]
pub enum Pushed {
    /// The piece was taken, and the message isn't whole yet.
    NotYet {
        /// The index of the piece that goes on.
        next: u16,
    },
    /// The last piece was taken.
    Whole,
    /// The piece doesn't go on with what is held, and was dropped.
    Dropped {
        /// The index of the piece that goes on, 0 where no message is begun.
        expected: u16,
    },
    /// The datagram is no piece.
    BadPiece {
        /// The offset of the first field that is short or has a value that isn't allowed, or of the first surplus byte.
        at: u16,
    },
}
