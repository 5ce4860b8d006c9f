//! The beginnings of a schedule.
//!
//! A text that is cut inside a line is bad at that line. One that is cut behind a line is a schedule once its header is there.

use crate::devices::Devices;
use crate::files::bytes_of;
use crate::stop::Stop;
use std::alloc::Global;

/// How many lines a header has.
const HEADER_LINES: usize = 6;

/// The status of a schedule that was run, and of a text with a bad line.
const DONE: u8 = 0;

const BAD_INPUT: u8 = 2;

/// Runs the program over each beginning of a file that is not the whole of it. The answer is the length of the first that is not as expected.
pub fn wrong_beginning(rt: &HostRuntime, input: &str) -> Result<Option<usize>, Stop> {
    let whole = bytes_of(rt, input)?;
    let mut lines = 0usize;
    for len in 0..whole.len() {
        if !is_answered(rt.alloc(), &whole[..len], lines)? {
            return Ok(Some(len));
        }
        if whole[len] == b'\n' {
            lines = lines.saturating_add(1);
        }
    }
    Ok(None)
}

/// Whether the answer to a text with so many line ends is right.
fn is_answered(alloc: Global, text: &[u8], lines: usize) -> Result<bool, Stop> {
    let input = Vec::from_slice(alloc, text)?;
    let mut devices = Devices::quiet(alloc, input)?;
    let is_right = is_right(alloc, &mut devices, text, lines);
    drop(devices);
    is_right
}

/// Whether the program answers right with these devices, from which it reads the text.
fn is_right(alloc: Global, devices: &mut Devices, text: &[u8], lines: usize) -> Result<bool, Stop> {
    let mut words = Vec::new(alloc);
    words.push(String::from_str(alloc, "replay")?)?;
    let status = devices.run(alloc, &words);
    drop(words);
    if lines >= HEADER_LINES && text.ends_with(b"\n") {
        return Ok(status == DONE);
    }
    let number = lines.saturating_add(1);
    let expected = format!(in alloc; "bad line {number}\n")?;
    Ok(status == BAD_INPUT && devices.written() == expected.as_bytes())
}
