//! How far a message has come.

ghost use Rattle.std.specs.Prelude.{◌≡◌};
ghost use Rattle.mb_frag.specs.Stages.{next_index, goes_on};

use crate::piece::Header;

/// How far a message has come.
#[derive(Clone, Copy)]
pub(crate) enum Stage {
    /// No piece has come yet.
    Empty,
    /// The pieces before `next` came.
    Begun { number: u32, count: u16, next: u16 },
    /// All pieces came. No message is begun since.
    Whole,
}

impl Stage {
    /// The index of the piece that goes on, 0 where no message is begun.
    pub(crate) fn next_index(&self) -> u16
        ensures { result ≡ next_index self.now }
    {
        match *self {
            Stage::Begun { next, .. } => next,
            Stage::Empty | Stage::Whole => 0,
        }
    }

    /// Whether a piece is the next one of the message that is begun.
    pub(crate) fn goes_on(&self, header: &Header) -> bool
        ensures { result ≡ goes_on self.now header.now }
    {
        match *self {
            Stage::Begun {
                number,
                count,
                next,
            } => number == header.number && count == header.count && next == header.index,
            Stage::Empty | Stage::Whole => false,
        }
    }
}
