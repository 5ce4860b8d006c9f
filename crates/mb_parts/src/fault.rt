//! Why bytes are no message.

ghost use Rattle.std.specs.Prelude.{◌≡◌};
ghost use Rattle.mb_parts.specs.declared.fault.Undecoded.TheVariants.{Malformed, NoMemory};

use mb_base::{BadField, Short};
use std::alloc::{AllocError, AllocFailed};

/// The bytes are no message, or memory ran out before that was known.
#[derive(Clone, Copy, Debug, PartialEq, Eq)]
pub enum Undecoded {
    /// `at` is the offset of the first field that is short or has a value that isn't allowed.
    Malformed { at: usize },
    /// Memory ran out.
    NoMemory,
}

impl From<Short> for Undecoded {
    ghost from_gives = { λ s e. e ≡ Malformed s.at };

    fn from(short: Short) -> Undecoded {
        Undecoded::Malformed { at: short.at }
    }
}

impl From<BadField> for Undecoded {
    ghost from_gives = { λ s e. e ≡ Malformed s.at };

    fn from(field: BadField) -> Undecoded {
        Undecoded::Malformed { at: field.at }
    }
}

impl From<AllocError> for Undecoded {
    ghost from_gives = { λ _ e. e ≡ NoMemory };

    fn from(_e: AllocError) -> Undecoded {
        Undecoded::NoMemory
    }
}

impl<T: Drop> From<AllocFailed<T>> for Undecoded {
    ghost from_gives = { λ _ e. e ≡ NoMemory };

    fn from(_e: AllocFailed<T>) -> Undecoded {
        Undecoded::NoMemory
    }
}
