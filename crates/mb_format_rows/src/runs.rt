//! Texts one behind the other, where equal neighbours are told once with their count.

use std::alloc::Global;
use std::fmt::Write;

/// Texts so far, of which the last run of equal ones is still open.
#[derive(Drop)]
pub struct Runs {
    told: String,
    last: String,
    count: u64,
    failed: bool,
}

impl Runs {
    /// No text yet.
    pub fn new(alloc: Global) -> Runs {
        Runs {
            told: String::new(alloc),
            last: String::new(alloc),
            count: 0,
            failed: false,
        }
    }

    /// One more text. That memory ran out for it is told at the end.
    pub fn add(&mut self, text: String) {
        if self.count > 0 && self.last == text {
            self.count = self.count.saturating_add(1);
            return;
        }
        self.close();
        self.last = text;
        self.count = 1;
    }

    /// Tells the last run.
    fn close(&mut self) {
        if self.count == 0 {
            return;
        }
        let between = if self.told.is_empty() { "" } else { ", " };
        let told = if self.count == 1 {
            write!(self.told, "{between}{}", self.last)
        } else {
            write!(self.told, "{between}{} times {}", self.count, self.last)
        };
        if told.is_err() {
            self.failed = true;
        }
    }

    /// All texts, or None where memory ran out.
    pub fn finish(mut self) -> Option<String> {
        self.close();
        if self.failed { None } else { Some(self.told) }
    }
}
