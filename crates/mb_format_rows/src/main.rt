//! Rows of the formats: calls with their arguments in the standard input, a line each, and their answers in the standard output, line by line.
//!
//! Lines that begin with `#`, and empty ones, are answered by themselves, so that a row and its answer have the same number. Bytes are written as
//! `words.rt` says, and values are told as `teller.rt` says. F K C are the numbers of a shape.
//!
//! | Row | Answer |
//! |---|---|
//! | `piece NAME BYTES` | how many bytes have this name from here on |
//! | `again F K C BYTES` | whether the message is written as it was read, or the offset of the first fault |
//! | `hash F K C BYTES` | length and digest of what the message is written as |
//! | `fields F K C BYTES` | what the message says |
//! | `cuts F K C BYTES` | the offsets of the first faults of all beginnings |
//! | `parts F K C BYTES` | what six parts behind each other say, and length and digest of what they are written as |
//! | `mark F K C BYTES` | what a gate reads, and the digest of what the certificate covers |
//! | `stamped F K C BYTES` | the digest of the body, what the certificate covers, and the bytes of the stamped message |
//! | `restamp F K C BYTES \| BYTES` | the bytes of the message under another identifier |
//! | `shown F K C BYTES`, `members`, `logged` | marks, digests of what is covered, and identifiers of the entries of a VIEW_CHANGE or a LOG, and digests alone of the members of a NEW_VIEW |
//! | `opened F K C BYTES` | digest and end of the plan of an OPEN of two batches |
//! | `usable F K C BYTES` | whether a VIEW_CHANGE is usable, or its first fault |
//! | `follows F K C BYTES` | the plan of a NEW_VIEW, or its first fault |
//! | `plan F K C BYTES \| BYTES` | the plan that VIEW_CHANGEs leave |
//! | `opens F K C BYTES \| BYTES` | whether the second OPEN has the body of the plan of the first |
//! | `shape F K C` | whether the numbers are those of a shape |
//! | `prepare LENGTHS`, `state LENGTH` | how long a PREPARE is whose operations have these lengths, and a STATE whose part has this one |
//! | `counters LAST` | the next two counters of a trusted part |
//! | `schedule TEXT`, `config`, `record` | what the text says and whether it is printed as it was, or its first bad line |
//! | `schedule-cuts TEXT`, `config-cuts` | the same of all beginnings |
//! | `report NAME` | the text of a report |
//!
//! No answer was taken from this program. They are other programs' answers, values worked out by hand from the rules, and what the bytes of a row
//! say field by field.
#![tactic(auto)]

mod changes;
mod cuts;
mod events;
mod formats;
mod limits;
mod normal;
mod parts;
mod plans;
mod reports;
mod runs;
mod stamps;
mod stop;
mod teller;
mod texts;
mod words;

use cuts::cuts_text;
use formats::Messages;
use mb_base::Shape;
use std::alloc::Global;
use std::io;
use std::process::ExitCode;
use stop::Stop;
use texts::{Configs, Schedules};
use words::{Pieces, shape_before};

/// The status where a row cannot be answered.
const FAILED: u8 = 1;

/// The answer to a row whose bytes stand behind a shape.
fn answer_of_bytes(alloc: Global, pieces: &Pieces, call: &str, row: &str) -> Result<String, Stop> {
    let (shape, words) = shape_before(row)?;
    let given = pieces.lists_of(words)?;
    if call == "plan" {
        return plans::plan_text(alloc, &shape, &given);
    }
    match given.as_slice() {
        [bytes] => answer_of_list(alloc, call, &shape, bytes),
        [first, second] => answer_of_two(alloc, call, &shape, first, second),
        _ => Err(Stop::NoRow),
    }
}

/// The answer to a row of one list of bytes.
fn answer_of_list(alloc: Global, call: &str, shape: &Shape, bytes: &[u8]) -> Result<String, Stop> {
    match call {
        "cuts" => cuts_text(alloc, &Messages { shape: *shape }, bytes),
        "parts" => formats::parts_text(alloc, shape, bytes),
        _ => formats::message_text(alloc, call, shape, bytes, &[]),
    }
}

/// The answer to a row of two lists of bytes.
fn answer_of_two(
    alloc: Global,
    call: &str,
    shape: &Shape,
    first: &[u8],
    second: &[u8],
) -> Result<String, Stop> {
    match call {
        "opens" => plans::opens_text(alloc, shape, first, second),
        _ => formats::message_text(alloc, call, shape, first, second),
    }
}

/// The answer to a row whose text stands behind the call.
fn answer_of_text(alloc: Global, call: &str, row: &str) -> Result<String, Stop> {
    let text = texts::text_of_row(alloc, row)?;
    let text = text.as_str();
    match call {
        "schedule" => texts::schedule_text(alloc, text),
        "config" => texts::config_text(alloc, text),
        "record" => texts::record_text(alloc, text),
        "schedule-cuts" => cuts_text(alloc, &Schedules, text.as_bytes()),
        "config-cuts" => cuts_text(alloc, &Configs, text.as_bytes()),
        _ => Err(Stop::NoRow),
    }
}

/// The answer to a line.
fn answer(alloc: Global, pieces: &mut Pieces, line: &str) -> Result<String, Stop> {
    if line.is_empty() || line.starts_with('#') {
        return Ok(String::from_str(alloc, line)?);
    }
    let (call, row) = line.split_once(' ').ok_or(Stop::NoRow)?;
    match call {
        "piece" => pieces.define(row),
        "shape" => limits::shape_text(alloc, row),
        "prepare" => limits::prepare_text(alloc, row),
        "state" => limits::state_text(alloc, row),
        "counters" => limits::counters_text(alloc, row),
        "report" => reports::report_text(alloc, row),
        "schedule" | "config" | "record" | "schedule-cuts" | "config-cuts" => {
            answer_of_text(alloc, call, row)
        }
        _ => answer_of_bytes(alloc, pieces, call, row),
    }
}

/// Answers all lines.
fn answer_all(rt: &HostRuntime) -> Result<(), Stop> {
    let alloc = rt.alloc();
    let mut pieces = Pieces::new(alloc);
    for line in rt.lines(alloc) {
        let line = line?;
        let answer = answer(alloc, &mut pieces, line.as_str())?;
        println!(rt; "{answer}")?;
    }
    Ok(())
}

/// Prints why the next row cannot be answered.
fn tell(rt: &HostRuntime, stop: Stop) -> io::Result<()> {
    match stop {
        Stop::NoMemory => println!(rt; "memory ran out"),
        Stop::NoRow => println!(rt; "this is no row"),
        Stop::Unfit => println!(rt; "a field has no allowed value"),
        Stop::Broken(error) => Err(error),
    }
}

fn main(rt: HostRuntime) -> io::Result<ExitCode> {
    match answer_all(&rt) {
        Ok(()) => Ok(ExitCode::SUCCESS),
        Err(stop) => {
            tell(&rt, stop)?;
            Ok(ExitCode::from(FAILED))
        }
    }
}
