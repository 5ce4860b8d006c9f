//! The limits that several crates have to keep, as `mb_base/specs/Limits` has them, and those of numbers.

use mb_base::{Pos, View};

/// The most bytes of an operation or a result.
pub const TEXT_LIMIT: u16 = 1024;

/// The greatest view and the greatest position, so far below 2^64 that a window more does not wrap.
pub const MAX_PLACE: u64 = (1 << 63) - 1;

/// The greatest view.
pub const MAX_VIEW: View = MAX_PLACE;

/// The greatest position.
pub const MAX_POS: Pos = MAX_PLACE;

/// The most requests of a batch.
pub const MAX_BATCH_REQUESTS: u8 = 16;

/// The most bytes that the requests of a batch have together, without their count.
pub const MAX_BATCH_BYTES: usize = 2048;

/// For how many checkpoint intervals of PREPAREs, COMMITs and CHECKPOINTs a log has room.
pub const LOG_INTERVALS: u8 = 6;

/// The most messages of a log other than PREPAREs, COMMITs and CHECKPOINTs.
pub const OTHER_LIMIT: u16 = 768;

/// The most messages of a LOG.
pub const MAX_ENTRIES: u16 = 64;

/// How many parts a state has with its client table, which is the last of them.
pub const PART_COUNT: u8 = 65;
