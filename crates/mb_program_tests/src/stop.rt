//! Why the rows cannot be run, or a story cannot be told.

use mb_base::NoMemory;
use mb_sched::BadText;
use std::alloc::{AllocError, AllocFailed};
use std::io;

/// Why the rows cannot be run, or a story cannot be told.
#[derive(Drop)]
pub enum Stop {
    /// Memory ran out.
    NoMemory,
    /// The file of this name is not there, or is not of its form.
    Unread(String),
    /// The first line of a schedule that is bad.
    BadLine(u32),
    /// A text is too long for a schedule.
    TooLong,
    /// A line could not be printed, or standard input could not be read.
    Unprinted(io::Error),
}

impl From<AllocError> for Stop {
    fn from(_e: AllocError) -> Stop {
        Stop::NoMemory
    }
}

impl<T: Drop> From<AllocFailed<T>> for Stop {
    fn from(_e: AllocFailed<T>) -> Stop {
        Stop::NoMemory
    }
}

impl From<NoMemory> for Stop {
    fn from(_e: NoMemory) -> Stop {
        Stop::NoMemory
    }
}

impl From<BadText> for Stop {
    fn from(bad: BadText) -> Stop {
        match bad {
            BadText::NoMemory => Stop::NoMemory,
            BadText::BadLine { number } => Stop::BadLine(number),
            BadText::TooLong => Stop::TooLong,
        }
    }
}

impl From<io::Error> for Stop {
    fn from(error: io::Error) -> Stop {
        Stop::Unprinted(error)
    }
}
