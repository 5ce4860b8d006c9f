//! Rows of limits: shapes, values that are too long for a message, and the last counter.

use crate::stop::Stop;
use crate::words::{number_before, number_of};
use mb_base::{BadShape, Counter, Digest, Items, Key, Shape, Ui};
use mb_msg::{
    Batch, Body, Message, Prepare, Request, Requests, StateMsg, encode, fields_fit, fits,
};
use mb_usig::{Spent, Usig};
use std::alloc::Global;

/// The secret of the trusted parts in rows: 32 zero bytes.
pub const SECRET: Key = [0; 32];

/// How many digests a STATE has.
const DIGESTS: u8 = 65;

/// What is said of the numbers of a shape.
const ALLOWED: &str = "allowed";

/// The shape of the largest system.
fn largest() -> Result<Shape, Stop> {
    match Shape::new(Shape::MAX_F, Shape::MAX_K, Shape::MAX_CLIENTS) {
        Ok(shape) => Ok(shape),
        Err(_) => Err(Stop::NoRow),
    }
}

/// Whether three numbers are those of a shape, or the first that is outside its limits.
pub fn shape_text(alloc: Global, row: &str) -> Result<String, Stop> {
    let (f, behind) = number_before(row)?;
    let (k, behind) = number_before(behind)?;
    let (clients, _) = number_before(behind)?;
    match Shape::new(f, k, clients) {
        Ok(_) => Ok(String::from_str(alloc, ALLOWED)?),
        Err(BadShape { number }) => Ok(format!(in alloc; "bad number {number}")?),
    }
}

/// So many bytes 5.
fn fives(alloc: Global, count: u64) -> Result<Items<u8>, Stop> {
    let mut bytes = Items::new(alloc);
    for _ in 0..count {
        bytes.push(5)?;
    }
    Ok(bytes)
}

/// How many bytes a message has, if it fits.
fn length_text(alloc: Global, shape: &Shape, message: &Message) -> Result<String, Stop> {
    if !fields_fit(shape, message) {
        return Ok(String::from_str(alloc, "a field has no allowed value")?);
    }
    if !fits(shape, message) {
        return Ok(String::from_str(alloc, "too long")?);
    }
    let bytes = encode(alloc, shape, message)?;
    Ok(format!(in alloc; "{} bytes", bytes.len())?)
}

/// The row of a batch without requests.
const NO_REQUEST: &str = "-";

/// A batch of a request for each word, with an operation of so many bytes.
fn batch_of(alloc: Global, row: &str) -> Result<Batch, Stop> {
    let mut requests = Items::new(alloc);
    let lengths = if row == NO_REQUEST { "" } else { row };
    for word in lengths.split_ascii_whitespace() {
        let op = fives(alloc, number_of(word)?)?;
        requests.push(Request {
            client: 2,
            seq: 7,
            op,
            tag: [0x11; 32],
        })?;
    }
    Ok(Batch {
        requests: Requests::from_items(requests),
    })
}

/// How long a PREPARE of the largest system is whose requests have operations of so many bytes.
pub fn prepare_text(alloc: Global, row: &str) -> Result<String, Stop> {
    let shape = largest()?;
    let message = Message::Prepare(Prepare {
        view: 4,
        pos: 5,
        body: Body::Whole(batch_of(alloc, row)?),
        ui: Ui {
            host: 4,
            counter: 9,
            cert: [0x33; 32],
        },
    });
    let text = length_text(alloc, &shape, &message);
    drop(message);
    text
}

/// How long a STATE of the largest system is whose one part, the last, has so many bytes.
pub fn state_text(alloc: Global, row: &str) -> Result<String, Stop> {
    let shape = largest()?;
    let mut digests: Items<Digest> = Items::new(alloc);
    for _ in 0..DIGESTS {
        digests.push([0x88; 32])?;
    }
    let mut parts = Items::new(alloc);
    parts.push(fives(alloc, number_of(row)?)?)?;
    let message = Message::State(StateMsg {
        host: 2,
        pos: 64,
        digests,
        first: 64,
        parts,
    });
    let text = length_text(alloc, &shape, &message);
    drop(message);
    text
}

/// The next counters of a trusted part that gave this one, up to the second.
pub fn counters_text(alloc: Global, row: &str) -> Result<String, Stop> {
    let last: Counter = number_of(row)?;
    let mut usig = Usig::resumed(largest()?, 0, &SECRET, last);
    let first = counter_text(alloc, &mut usig)?;
    let second = counter_text(alloc, &mut usig)?;
    Ok(format!(in alloc; "{first} {second}")?)
}

/// The next counter of a trusted part.
fn counter_text(alloc: Global, usig: &mut Usig) -> Result<String, Stop> {
    match usig.create_ui(b"some bytes") {
        Ok(ui) => Ok(format!(in alloc; "{}", ui.counter)?),
        Err(Spent) => Ok(String::from_str(alloc, "spent")?),
    }
}
