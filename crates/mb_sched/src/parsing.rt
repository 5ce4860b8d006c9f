//! A schedule from its text.

ghost use Rattle.std.specs.Prelude.{◌≡◌, ◌≤◌, length};
ghost use Rattle.mb_base.specs.Shapes.{Bytes, host_count, client_count};
ghost use Rattle.mb_sched.specs.Lines.{lines, is_ended, Answers};
ghost use Rattle.mb_schedule.specs.declared.schedule.Schedule.{Schedule};
ghost use Rattle.mb_sched.specs.ScheduleText.{KeepsLimits, schedule_text};
ghost use Rattle.mb_sched.specs.Schedules.{events_from, schedule_of, contents, IsScheduleText, Parses};
ghost use Rattle.mb_schedule.specs.Limits.{max_text};
ghost use Rattle.mb_schedule.specs.Limits.{IsSchedule};

use crate::bad_text::BadText;
use crate::event_lines::event_line;
use crate::header::{Header, Marks, read_header};
use crate::lines::Lines;
use mb_base::{Items, Shape};
use mb_schedule::{Schedule, WorldEvent};
use std::alloc::Global;

/// The most bytes that the text of a schedule may have.
pub const MAX_TEXT: usize = 16_777_216;

/// The number of the first event's line. Lines count from 1.
const FIRST_EVENT_LINE: u32 = 7;

/// Reads the schedule of a text.
///
/// The text is six lines of header and one line for each event, each with LF behind it. Words are
/// parted by one space. `TooLong` comes exactly where the text has more than `MAX_TEXT` bytes, before
/// any other answer. Else `BadLine` comes exactly where some line is bad, with the number of the first,
/// unless memory runs out before.
/// A missing line of the header is bad, and so is a last line without LF. `NoMemory` comes where memory
/// runs out, and nowhere else.
pub fn parse_schedule(alloc: Global, text: &[u8]) -> Result<Schedule, BadText>
    ensures { Parses result text.now }
{
    if text.len() > MAX_TEXT {
        return Err(BadText::TooLong);
    }
    read_schedule(alloc, text)
}

#[tactic(auto, unfolding(crate::specs::Schedules::schedule_of))]
fn read_schedule(alloc: Global, text: &[u8]) -> Result<Schedule, BadText>
    requires { length text.now ≤ max_text }
    ensures { Answers contents result (schedule_of text.now) }
{
    let mut lines = Lines::over(text);
    let Header {
        shape,
        secret,
        faulty: Marks { hosts, clients },
    } = read_header(alloc, &mut lines)?;
    let events = read_events(alloc, shape, lines)?;
    Ok(Schedule {
        shape,
        secret,
        faulty_hosts: hosts,
        faulty_clients: clients,
        events,
    })
}

/// Reads the events, whose lines come behind the header.
fn read_events(
    alloc: Global,
    shape: Shape,
    mut unread: Lines<'_>,
) -> Result<Items<WorldEvent>, BadText>
    requires { length unread.rest.now ≤ max_text }
    ensures { Answers (λ events. events) result (events_from (host_count shape) (client_count shape)
        (is_ended unread.entry.rest.now) 7 (lines unread.entry.rest.now)) }
{
    let mut events = Items::new(alloc);
    let mut number = FIRST_EVENT_LINE;
    while let Some(line) = unread.next_line() {
        let Some(event) = event_line(alloc, shape, line)? else {
            return Err(BadText::BadLine { number });
        };
        events.push(event)?;
        number += 1;
    }
    if !unread.is_empty() {
        return Err(BadText::BadLine { number });
    }
    Ok(events)
}

/// A schedule that keeps the limits is read again from the text that it is printed as.
pub fn printed_schedules_are_read()
    ensures { (s : Schedule) → KeepsLimits s → schedule_of (schedule_text s) ≡ Ok (contents s) }
{}

/// What a text says keeps the limits: the hosts and clients that its events speak of are there, their numbers and bytes are allowed in
/// messages, and at most f hosts are faulty.
pub fn texts_are_schedules()
    ensures { (text : Bytes) (s : Schedule) → IsScheduleText text s → IsSchedule s }
{}
