//! The story of a text.

ghost use Rattle.std.specs.Prelude.{IfOk};
ghost use Rattle.mb_program_tests.specs.Stories.{IsStoryOf};

use crate::hosts::played;
use crate::printing::{add_stop, add_telling};
use crate::stop::Stop;
use mb_base::NoMemory;
use mb_sched::{BadText, parse_schedule};
use mb_story::Story;
use std::alloc::Global;
use std::fmt::Write;

/// How many lines stand before the events of a schedule.
const HEADER_LINES: usize = 6;

/// The story of the schedule that a text is.
fn story_of(alloc: Global, text: &[u8]) -> Result<Story, BadText>
    ensures { IfOk result (IsStoryOf text.now) }
{
    let schedule = parse_schedule(alloc, text)?;
    let story = played(alloc, &schedule)?;
    Ok(story)
}

/// The lines of a schedule in a story: those that do not begin with a space.
fn schedule_in(alloc: Global, text: &str) -> Result<String, NoMemory> {
    let mut schedule = String::new(alloc);
    for line in text.lines() {
        if !line.starts_with(' ') {
            schedule.push_str(line)?;
            schedule.push_str("\n")?;
        }
    }
    Ok(schedule)
}

/// Adds what is told of an event, which is counted from 0.
fn add_event(alloc: Global, out: &mut String, story: &Story, event: usize) -> Result<(), NoMemory> {
    match story.told.as_slice().get(event) {
        Some(telling) => add_telling(alloc, out, telling),
        None if event == story.told.len() => add_stop(out, &story.end),
        None => Ok(()),
    }
}

/// The lines of a schedule, and behind each event what the story tells of it.
fn told_lines(alloc: Global, schedule: &str, story: &Story) -> Result<String, NoMemory> {
    let mut out = String::new(alloc);
    let mut place = 0usize;
    for line in schedule.lines() {
        writeln!(out, "{line}")?;
        if let Some(event) = place.checked_sub(HEADER_LINES) {
            add_event(alloc, &mut out, story, event)?;
        }
        place = place.saturating_add(1);
    }
    Ok(out)
}

/// The story of a schedule, or of one that is a story already.
pub fn story_text(alloc: Global, text: &str) -> Result<String, Stop> {
    let schedule = schedule_in(alloc, text)?;
    let story = story_of(alloc, schedule.as_bytes())?;
    let lines = told_lines(alloc, schedule.as_str(), &story);
    drop(story);
    Ok(lines?)
}
