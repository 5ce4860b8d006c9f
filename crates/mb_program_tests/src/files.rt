//! The files that rows name.

use crate::stop::Stop;
use std::fs;

/// What stands for no file.
const NO_FILE: &str = "-";

/// That a file is not there, or not of its form.
pub fn unread(rt: &HostRuntime, name: &str) -> Stop {
    match String::from_str(rt.alloc(), name) {
        Ok(name) => Stop::Unread(name),
        Err(_) => Stop::NoMemory,
    }
}

/// The bytes of a file. There are none where the name stands for no file.
pub fn bytes_of(rt: &HostRuntime, name: &str) -> Result<Vec<u8>, Stop> {
    if name == NO_FILE {
        return Ok(Vec::new(rt.alloc()));
    }
    match fs::read(rt, name) {
        Ok(bytes) => Ok(bytes),
        Err(_) => Err(unread(rt, name)),
    }
}

/// The text of a file. It is empty where the name stands for no file.
pub fn text_of(rt: &HostRuntime, name: &str) -> Result<String, Stop> {
    if name == NO_FILE {
        return Ok(String::new(rt.alloc()));
    }
    match fs::read_to_string(rt, name) {
        Ok(text) => Ok(text),
        Err(_) => Err(unread(rt, name)),
    }
}
