//! Why a state was not restored.

ghost use Rattle.std.specs.Prelude.{◌≡◌};
ghost use Rattle.mb_service.specs.declared.restore.Restore.TheVariants.{NoMemory};

use std::alloc::{AllocError, AllocFailed};

/// Why a state was not restored. The state is then as it was.
#[derive(Clone, Copy, Debug, PartialEq, Eq)]
pub enum Restore {
    /// The parts are no state's snapshot.
    BadSnapshot {
        /// The first bad part.
        part: u8,
        /// The offset in it of the first field that is short or has a value that isn't allowed, or of the first surplus byte.
        at: u32,
    },
    /// Memory ran out.
    NoMemory,
}

impl From<AllocError> for Restore {
    ghost from_gives = { λ _ e. e ≡ NoMemory };

    fn from(_e: AllocError) -> Restore {
        Restore::NoMemory
    }
}

impl<T: Drop> From<AllocFailed<T>> for Restore {
    ghost from_gives = { λ _ e. e ≡ NoMemory };

    fn from(_e: AllocFailed<T>) -> Restore {
        Restore::NoMemory
    }
}

impl From<mb_base::NoMemory> for Restore {
    ghost from_gives = { λ _ e. e ≡ NoMemory };

    fn from(_e: mb_base::NoMemory) -> Restore {
        Restore::NoMemory
    }
}
