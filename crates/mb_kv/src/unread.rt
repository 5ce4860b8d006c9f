//! Why a part of a snapshot was not read.

ghost use Rattle.std.specs.Prelude.{◌≡◌};
ghost use Rattle.mb_kv.specs.declared.unread.Unread.TheVariants.{Fault, NoMemory};

use mb_base::{BadField, Short};
use std::alloc::{AllocError, AllocFailed};

/// Why a part of a snapshot was not read.
#[derive(Clone, Copy, Debug)]
pub(crate) enum Unread {
    /// The offset of the first field that is short or has a value that isn't allowed, or of the first surplus byte.
    Fault { at: usize },
    /// Memory ran out.
    NoMemory,
}

impl From<Short> for Unread {
    ghost from_gives = { λ s e. e ≡ Fault s.at };

    fn from(short: Short) -> Unread {
        Unread::Fault { at: short.at }
    }
}

impl From<BadField> for Unread {
    ghost from_gives = { λ s e. e ≡ Fault s.at };

    fn from(field: BadField) -> Unread {
        Unread::Fault { at: field.at }
    }
}

impl From<AllocError> for Unread {
    ghost from_gives = { λ _ e. e ≡ NoMemory };

    fn from(_e: AllocError) -> Unread {
        Unread::NoMemory
    }
}

impl<T: Drop> From<AllocFailed<T>> for Unread {
    ghost from_gives = { λ _ e. e ≡ NoMemory };

    fn from(_e: AllocFailed<T>) -> Unread {
        Unread::NoMemory
    }
}

impl From<mb_base::NoMemory> for Unread {
    ghost from_gives = { λ _ e. e ≡ NoMemory };

    fn from(_e: mb_base::NoMemory) -> Unread {
        Unread::NoMemory
    }
}
