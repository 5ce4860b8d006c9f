//! Why the rows cannot be answered.

use hex::FromHexError;
use mb_base::NoMemory;
use mb_parts::Undecoded;
use std::alloc::{AllocError, AllocFailed};
use std::io;

/// Why the rows cannot be answered.
#[derive(Drop)]
pub enum Stop {
    /// Memory ran out.
    NoMemory,
    /// A row is not of its form.
    NoRow,
    /// A value that was read has a field without an allowed value.
    Unfit,
    /// A line could not be read or printed.
    Broken(io::Error),
}

impl From<AllocError> for Stop {
    fn from(_e: AllocError) -> Stop {
        Stop::NoMemory
    }
}

impl<T: Drop> From<AllocFailed<T>> for Stop {
    fn from(_e: AllocFailed<T>) -> Stop {
        Stop::NoMemory
    }
}

impl From<NoMemory> for Stop {
    fn from(_e: NoMemory) -> Stop {
        Stop::NoMemory
    }
}

impl From<FromHexError> for Stop {
    fn from(error: FromHexError) -> Stop {
        match error {
            FromHexError::OutOfMemory => Stop::NoMemory,
            _ => Stop::NoRow,
        }
    }
}

impl From<Undecoded> for Stop {
    fn from(error: Undecoded) -> Stop {
        match error {
            Undecoded::NoMemory => Stop::NoMemory,
            Undecoded::Malformed { .. } => Stop::NoRow,
        }
    }
}

impl From<io::Error> for Stop {
    fn from(error: io::Error) -> Stop {
        Stop::Broken(error)
    }
}
