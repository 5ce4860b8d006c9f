//! The process that started this one, and whether it is still there.

use std::os::unix::process::parent_id;
use std::process::Process;
use std::time::{Clock, Duration, Instant};

/// How long a starter that was there is taken to be there still, in microseconds. To ask is a call of the system, and a request to a cluster would be seven
/// of them in a row.
const TAKEN_FOR: u64 = 100;

/// The process that started this one, if its end is to end a link.
#[derive(Drop)]
pub(crate) struct Starter {
    process: Process,
    /// Its number. None where no end counts.
    number: Option<u32>,
    /// When it was last found to be there.
    found: Option<Instant>,
}

impl Starter {
    /// Nobody asked yet whether it is there.
    pub(crate) fn new(process: Process, number: Option<u32>) -> Starter {
        Starter {
            process,
            number,
            found: None,
        }
    }

    /// Whether it has ended, as the system says now.
    pub(crate) fn has_ended<R: Clock>(&mut self, rt: &R) -> bool {
        let Some(number) = self.number else {
            return false;
        };
        let now = Instant::now(rt).ok();
        self.is_other(number, now)
    }

    /// Whether it has ended, as the system says now or said a moment ago.
    pub(crate) fn had_ended<R: Clock>(&mut self, rt: &R) -> bool {
        let Some(number) = self.number else {
            return false;
        };
        let now = Instant::now(rt).ok();
        !is_soon(self.found, now) && self.is_other(number, now)
    }

    /// Whether the parent of this process is another one now.
    fn is_other(&mut self, number: u32, now: Option<Instant>) -> bool {
        if parent_id(self.process) != number {
            return true;
        }
        self.found = now;
        false
    }
}

/// Whether hardly any time has passed between two moments that are known.
fn is_soon(begun: Option<Instant>, now: Option<Instant>) -> bool {
    match (begun, now) {
        (Some(begun), Some(now)) => {
            now.saturating_duration_since(begun) < Duration::from_micros(TAKEN_FOR)
        }
        _ => false,
    }
}
