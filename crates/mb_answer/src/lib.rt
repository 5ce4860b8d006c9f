//! Answers: the statuses of the program, the texts that go with them, and writing them; and what is done with the text of a config.
//!
//! | Module | What it does | Its definitions |
//! |---|---|---|
//! | `answer` | the statuses, and the texts that go with them | `specs/Texts`, `Refusals`, `Records` |
//! | `saying` | writes an answer | `specs/Devices` |
//! | `configs` | reads a config, and runs a client program by it | `specs/Configs`, `Clusters` |
//! | `ends` | how a run ended, as a status | `specs/Clusters` |
#![tactic(auto)]

mod answer;
mod configs;
mod ends;
mod saying;

pub use answer::{
    BAD_INPUT, BAD_JOURNAL, BUDGET, CHILD_ENDED, DIFFERS, DISK_FAULT, DONE, DOUBLE, FORGED, GAP,
    ILLEGAL, JOURNAL_EXISTS, JOURNAL_FULL, LINK_FAULT, NO_MEMORY, Output, SINK_FAULT, SOURCE_FAULT,
    SPAWN_FAULT, USAGE, USAGE_TEXT, bad_journal, bad_line, forged, forged_tag, journal_exists,
    refusal, usage,
};
pub use configs::{cluster, config_from};
pub use saying::{respond, say, tell_unread};
