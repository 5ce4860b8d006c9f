//! What an event answers, and why it cannot be.

use mb_base::{Counter, Host, NoMemory};
use mb_client::Taken;
use mb_msg::Outcome;
use mb_schedule::Name;
use std::alloc::AllocError;

/// What an event answers.
#[derive(Clone, Copy, PartialEq, Eq)]
pub enum Seen {
    Host(Outcome),
    Client(Taken),
    /// A client was given what is no REPLY.
    Unread(Outcome),
    /// Messages were made.
    Made {
        /// The number of the first of them.
        first: u64,
        count: u32,
    },
    /// It came to someone faulty.
    Lost,
}

/// Why an event did not happen. The first five leave the world unchanged.
#[derive(Clone, Copy, Debug, PartialEq, Eq)]
pub enum WorldStop {
    /// It is the doing of someone who is not faulty.
    NotFaulty {
        name: Name,
    },
    /// It names a message that was not made. The first of these is told.
    NoSuchMessage {
        number: u64,
    },
    /// It names a message of another kind, or one too many for a batch; of a VIEW_CHANGE that would be too large the counter is told.
    WrongKind {
        number: u64,
    },
    /// A certificate in the message that it delivers verifies, and was never made. The first of these is told.
    Forged {
        /// The number of the event, from 1.
        event: u64,
        host: Host,
        counter: Counter,
    },
    /// A tag in the message that it delivers verifies, and was never made.
    ForgedTag {
        /// The number of the event, from 1.
        event: u64,
    },
    /// Memory ran out. Every later event answers `Halted`.
    NoMemory,
    /// An earlier event ran out of memory. Nothing changes.
    Halted,
}

impl From<NoMemory> for WorldStop {
    ghost use Rattle.std.specs.Prelude.{◌≡◌};
    ghost use Rattle.mb_world.specs.declared.seen.WorldStop.TheVariants as stop;

    ghost from_gives = { λ _ e. e ≡ stop.NoMemory };

    fn from(_e: NoMemory) -> WorldStop {
        WorldStop::NoMemory
    }
}

impl From<AllocError> for WorldStop {
    ghost use Rattle.std.specs.Prelude.{◌≡◌};
    ghost use Rattle.mb_world.specs.declared.seen.WorldStop.TheVariants as stop;

    ghost from_gives = { λ _ e. e ≡ stop.NoMemory };

    fn from(_e: AllocError) -> WorldStop {
        WorldStop::NoMemory
    }
}
