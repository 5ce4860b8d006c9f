//! Stories: schedules among hosts with the key-value service, and behind each event what it answered, made and executed, and where the one to whom it came
//! stands then.
//!
//! A story has the lines of its schedule, and behind each event what is told of it, in lines that begin with two spaces. So a story can be read as its
//! schedule, and played again it is what it was.
//!
//! | Line | Tells |
//! |---|---|
//! | `took`, `again`, `idle`, `stopping` | what a host answered that refused nothing |
//! | `waiting N`, `accepted P` | what a client made of a reply: N hosts agree so far; it accepted the result of position P |
//! | `lost` | that it came to someone faulty |
//! | `made N`, `made N reply cC` | a message that was made, by its number, and the client that a REPLY is to |
//! | `slot`, `refused`, `host`, `client`, `result` | what the report says anew: batches that nobody had executed, a refusal, where the host or client of the event stands |
//! | `stopped` | what stands in the way of the event. Behind it nothing happens |
//!
//! What is told of an event is proved to be that of the worlds before and behind it (`mb_story`). How it is printed is shown by the stories of
//! `examples`, which were made from another program's reports.

use crate::files::text_of;
use crate::stop::Stop;
use crate::text::story_text;

/// The files of the stories.
const STORIES: [&str; 12] = [
    "stories/one-put.story",
    "stories/commit-first.story",
    "stories/out-of-order.story",
    "stories/repeated-request.story",
    "stories/lost-message.story",
    "stories/two-at-one-position.story",
    "stories/batch.story",
    "stories/state-transfer.story",
    "stories/changed-state.story",
    "stories/view-change.story",
    "stories/wrong-reply.story",
    "stories/forged-certificate.story",
];

/// The number of the first line, from 1, in which two texts differ.
fn first_difference(one: &str, other: &str) -> Option<usize> {
    let mut number = 1usize;
    for (line, another) in one.lines().zip(other.lines()) {
        if line != another {
            return Some(number);
        }
        number = number.saturating_add(1);
    }
    if one.len() == other.len() {
        None
    } else {
        Some(number)
    }
}

/// Plays a story again, and prints whether it is what it was.
fn try_story(rt: &HostRuntime, name: &str) -> Result<bool, Stop> {
    let text = text_of(rt, name)?;
    let story = story_text(rt.alloc(), text.as_str())?;
    let differs = first_difference(text.as_str(), story.as_str());
    match differs {
        None => println!(rt; "{name}: as expected")?,
        Some(line) => println!(rt; "{name}: line {line} differs")?,
    }
    Ok(differs.is_none())
}

/// Plays all stories again, and answers whether all are what they were.
pub fn run_all(rt: &HostRuntime) -> Result<bool, Stop> {
    let mut all_hold = true;
    for name in STORIES {
        let holds = try_story(rt, name)?;
        all_hold = holds && all_hold;
    }
    Ok(all_hold)
}

/// Writes the story of the schedule in standard input.
pub fn tell(rt: &HostRuntime) -> Result<bool, Stop> {
    let mut text = String::new(rt.alloc());
    for line in rt.lines(rt.alloc()) {
        let line = line?;
        text.push_str(line.as_str())?;
        text.push_str("\n")?;
    }
    let story = story_text(rt.alloc(), text.as_str())?;
    print!(rt; "{story}")?;
    Ok(true)
}
