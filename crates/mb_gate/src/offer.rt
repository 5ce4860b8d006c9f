//! What a gate answers.

use mb_base::Counter;

/// What a gate answers to a stamped message of its sender: the first that fits of `Convicted`, `Stale`, `Ahead`, `Illegal` and `Next`.
///
/// `next` is the counter that the gate waits for. It is told as 2^64 - 1 where no counter is left.
#[derive(Clone, Copy, PartialEq, Eq)]
pub enum Offer {
    /// The message has the next counter, and the rule of its kind lets it stand there.
    Next,
    /// The message's counter is below the next one.
    Stale { next: Counter },
    /// The message's counter is above the next one, so some before it are missing.
    Ahead { next: Counter },
    /// The message has the next counter, and the rule of its kind, which has this number, doesn't let it stand there.
    Illegal { rule: u8 },
    /// The gate was closed at this counter, and the message's counter is not below it.
    Convicted { counter: Counter },
}
