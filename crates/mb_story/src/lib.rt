//! A schedule told event by event, over any service: what each event answered, made and executed, and where the one to whom it came stands then.
//!
//! | File | What it does | Its definitions |
//! |---|---|---|
//! | `telling` | what is told of an event | `specs/Telling` |
//! | `gathering` | the messages that an event made, and the batches by which the one list grew | `specs/Telling` |
//! | `arrivals`, `lines` | to whom an event comes, and the report's lines on it | `specs/Arrivals`, `Telling` |
//! | `events` | one event of a world | `specs/Telling` |
//! | `story` | all events | `specs/Stories` |
//!
//! A world shows no message's bytes. So of a message its number is told, and its client where it is a REPLY.
#![tactic(auto)]

mod arrivals;
mod events;
mod gathering;
mod lines;
mod story;
mod telling;

pub use events::tell;
pub use story::{End, Story, play};
pub use telling::{NewMessage, Telling};
