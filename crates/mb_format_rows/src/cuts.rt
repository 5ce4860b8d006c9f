//! Rows of all beginnings of bytes.

use crate::runs::Runs;
use crate::stop::Stop;
use std::alloc::Global;

/// A format that bytes may have.
pub trait Judge {
    /// Whether bytes have the format, or their first fault.
    fn judge(&self, alloc: Global, bytes: &[u8]) -> Result<String, Stop>;
}

/// What is said of each beginning that is not the whole, from the shortest to the longest.
pub fn cuts_text<J: Judge>(alloc: Global, judge: &J, bytes: &[u8]) -> Result<String, Stop> {
    let mut runs = Runs::new(alloc);
    for len in 0..bytes.len() {
        runs.add(judge.judge(alloc, &bytes[..len])?);
    }
    runs.finish().ok_or(Stop::NoMemory)
}
