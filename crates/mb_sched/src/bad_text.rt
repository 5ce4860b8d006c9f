//! What is wrong with a text.

use mb_base::NoMemory;
use std::alloc::AllocError;

/// Why a text is no schedule, config or record. Lines count from 1.
#[derive(Clone, Copy, Debug, PartialEq, Eq)]
pub enum BadText {
    /// The text has more bytes than its kind may have: 67,108,864 for a record, 16,777,216 for a schedule or a config.
    TooLong,
    /// The first line that breaks the grammar, or is missing.
    BadLine { number: u32 },
    /// Memory ran out. It is the one answer that says nothing of its cause.
    NoMemory,
}

impl From<AllocError> for BadText {
    ghost use Rattle.std.specs.Prelude.{◌≡◌};
    ghost use Rattle.mb_sched.specs.declared.bad_text.BadText.TheVariants as text;

    ghost from_gives = { λ _ e. e ≡ text.NoMemory };

    fn from(_e: AllocError) -> BadText {
        BadText::NoMemory
    }
}

impl From<NoMemory> for BadText {
    ghost use Rattle.std.specs.Prelude.{◌≡◌};
    ghost use Rattle.mb_sched.specs.declared.bad_text.BadText.TheVariants as text;

    ghost from_gives = { λ _ e. e ≡ text.NoMemory };

    fn from(_e: NoMemory) -> BadText {
        BadText::NoMemory
    }
}
