//! The trial of a row.

use crate::devices::Devices;
use crate::files::{bytes_of, text_of, unread};
use crate::outside::Outside;
use crate::row::Row;
use crate::stop::Stop;
use std::alloc::{AllocError, Global};
use std::mem;

/// Runs a row, and answers what is not as expected: first of all the status, then what was written, then what came at the link, the spawner and the disk.
pub fn difference(rt: &HostRuntime, row: &Row) -> Result<Option<String>, Stop> {
    let expected = bytes_of(rt, row.output)?;
    let once = bytes_of(rt, row.input)?;
    let outside = outside_of(rt, row.outside)?;
    difference_in(rt.alloc(), row, outside, &once, &expected)
}

/// What the outside does that a file describes.
fn outside_of(rt: &HostRuntime, name: &str) -> Result<Outside, Stop> {
    let text = text_of(rt, name)?;
    match Outside::parsed(rt.alloc(), text.as_str())? {
        Some(outside) => Ok(outside),
        None => Err(unread(rt, name)),
    }
}

/// The difference of a row whose bytes to be read, so often as the outside says, and to be written are these.
fn difference_in(
    alloc: Global,
    row: &Row,
    mut outside: Outside,
    once: &[u8],
    expected: &[u8],
) -> Result<Option<String>, Stop> {
    let input = repeated(alloc, once, outside.times)?;
    let coming = mem::replace(&mut outside.coming, Vec::new(alloc));
    let mut devices = Devices::new(alloc, input, outside)?;
    let status = devices.run(alloc, &row.words);
    let differs = if status == row.status {
        difference_at(alloc, &devices, once, expected, &coming)
    } else {
        told(format!(in alloc; "the status is {status}, not {}", row.status))
    };
    drop(devices);
    differs
}

/// What differs at the devices of a run that ended with its status.
fn difference_at(
    alloc: Global,
    devices: &Devices,
    once: &[u8],
    expected: &[u8],
    coming: &[String],
) -> Result<Option<String>, Stop> {
    if let Some(place) = place_of_difference(devices.written(), expected) {
        return told(format!(in alloc; "byte {place} of what is written differs"));
    }
    let came = devices.came(alloc, once)?;
    difference_of_lines(alloc, &came, coming)
}

/// The text of a difference, if there was memory for it.
fn told(text: Result<String, AllocError>) -> Result<Option<String>, Stop> {
    Ok(Some(text?))
}

/// These bytes so often.
fn repeated(alloc: Global, bytes: &[u8], times: u64) -> Result<Vec<u8>, Stop> {
    let mut all = Vec::new(alloc);
    for _ in 0..times {
        all.extend_from_slice(bytes)?;
    }
    Ok(all)
}

/// Where two byte strings differ first, counted from 1.
fn place_of_difference(found: &[u8], expected: &[u8]) -> Option<usize> {
    let mut place = 1usize;
    for (one, other) in found.iter().zip(expected) {
        if one != other {
            return Some(place);
        }
        place = place.saturating_add(1);
    }
    if found.len() == expected.len() {
        None
    } else {
        Some(place)
    }
}

/// Whether a line has this first word, and does not say that there is none.
fn tells(line: &str, first: &str) -> bool {
    match line.split_once(' ') {
        Some((word, rest)) => word == first && rest != "none",
        None => line == first,
    }
}

/// The lines with this first word. One that says that there is none is left out.
fn lines_with(alloc: Global, lines: &[String], first: &str) -> Result<Vec<String>, Stop> {
    let mut found = Vec::new(alloc);
    for line in lines {
        if tells(line.as_str(), first) {
            found.push(String::from_str(alloc, line.as_str())?)?;
        }
    }
    Ok(found)
}

/// That of what came with this first word other lines are expected.
fn difference_with(
    alloc: Global,
    came: &[String],
    coming: &[String],
    first: &str,
) -> Result<Option<String>, Stop> {
    let came = lines_with(alloc, came, first)?;
    let coming = lines_with(alloc, coming, first)?;
    difference_between(alloc, &came, &coming, first)
}

/// That the lines that came with this first word are not those that were to come.
fn difference_between(
    alloc: Global,
    came: &[String],
    coming: &[String],
    first: &str,
) -> Result<Option<String>, Stop> {
    let mut number = 1usize;
    for (one, other) in came.iter().zip(coming) {
        if one != other {
            return told(format!(in alloc; "number {number} of what it {first} is: {one}"));
        }
        number = number.saturating_add(1);
    }
    if came.len() == coming.len() {
        return Ok(None);
    }
    let (came, coming) = (came.len(), coming.len());
    told(format!(in alloc; "it {first} {came} times, not {coming}"))
}

/// What came that is not expected. First words that no expected line has are left out.
fn difference_of_lines(
    alloc: Global,
    came: &[String],
    coming: &[String],
) -> Result<Option<String>, Stop> {
    for line in coming {
        let Some(first) = line.as_str().split_ascii_whitespace().next() else {
            continue;
        };
        let differs = difference_with(alloc, came, coming, first)?;
        if differs.is_some() {
            return Ok(differs);
        }
    }
    Ok(None)
}
