//! What is told of an event, as lines.

use mb_base::NoMemory;
use mb_client::Taken;
use mb_msg::Outcome;
use mb_sched::print_report;
use mb_schedule::Report;
use mb_story::{End, NewMessage, Telling};
use mb_world::{Seen, WorldStop};
use std::alloc::Global;
use std::fmt::Write;

/// How many lines of a report stand before those that say something anew: its name, its numbers, and how many slots there are.
const FRAME_LINES: usize = 3;

/// The last line of a report.
const LAST_LINE: &str = "end";

/// Adds what a host answered that refused nothing.
fn add_outcome(out: &mut String, outcome: Outcome) -> Result<(), NoMemory> {
    match outcome {
        Outcome::Took => writeln!(out, "  took")?,
        Outcome::Again => writeln!(out, "  again")?,
        Outcome::Idle => writeln!(out, "  idle")?,
        Outcome::Stopping => writeln!(out, "  stopping")?,
        _ => {}
    }
    Ok(())
}

/// Adds what an event answered that was not refused. Messages have lines of their own.
fn add_answer(out: &mut String, seen: Seen) -> Result<(), NoMemory> {
    match seen {
        Seen::Host(outcome) | Seen::Unread(outcome) => add_outcome(out, outcome)?,
        Seen::Client(Taken::Waiting { matching }) => writeln!(out, "  waiting {matching}")?,
        Seen::Client(Taken::Accepted { pos }) => writeln!(out, "  accepted {pos}")?,
        Seen::Client(Taken::BadTag | Taken::OtherSeq { .. }) | Seen::Made { .. } => {}
        Seen::Lost => writeln!(out, "  lost")?,
    }
    Ok(())
}

/// Adds a message that was made.
fn add_message(out: &mut String, message: &NewMessage) -> Result<(), NoMemory> {
    let number = message.number;
    match message.client {
        Some(client) => writeln!(out, "  made {number} reply c{client}")?,
        None => writeln!(out, "  made {number}")?,
    }
    Ok(())
}

/// Adds what a report says anew.
fn add_news(alloc: Global, out: &mut String, news: &Report) -> Result<(), NoMemory> {
    let bytes = print_report(alloc, news)?;
    let text = String::from_utf8_lossy(alloc, &bytes)?;
    let mut place = 0usize;
    for line in text.as_str().lines() {
        if place >= FRAME_LINES && line != LAST_LINE {
            writeln!(out, "  {line}")?;
        }
        place = place.saturating_add(1);
    }
    Ok(())
}

/// Adds what is told of an event.
pub fn add_telling(alloc: Global, out: &mut String, telling: &Telling) -> Result<(), NoMemory> {
    add_answer(out, telling.seen)?;
    for message in telling.messages.as_slice() {
        add_message(out, message)?;
    }
    add_news(alloc, out, &telling.news)
}

/// Adds what stands in the way of the event behind those that are told.
pub fn add_stop(out: &mut String, end: &End) -> Result<(), NoMemory> {
    let End::Stopped(stop) = end else {
        return Ok(());
    };
    match *stop {
        WorldStop::NotFaulty { .. } => writeln!(out, "  stopped not faulty")?,
        WorldStop::NoSuchMessage { number } => writeln!(out, "  stopped no message {number}")?,
        WorldStop::WrongKind { number } => writeln!(out, "  stopped wrong kind {number}")?,
        WorldStop::Forged {
            event,
            host,
            counter,
        } => writeln!(out, "  stopped forged event {event} h{host} {counter}")?,
        WorldStop::ForgedTag { event } => writeln!(out, "  stopped forged event {event} tag")?,
        WorldStop::NoMemory | WorldStop::Halted => {}
    }
    Ok(())
}
