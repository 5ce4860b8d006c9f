//! What failed, told on standard error.

use std::fmt::Display;
use std::io;
use std::io::Eprint;

/// Tells in one line what failed, and the system's cause. Where standard error fails too, nothing is told.
pub(crate) fn tell<R: Eprint, D: Display + Drop>(rt: &R, what: D, cause: &io::Error) {
    let _ = eprintln!(rt; "minbft: {what}: {cause}");
}
