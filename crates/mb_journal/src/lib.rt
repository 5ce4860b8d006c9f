//! The journal of a node: each event, safe on a disk before the node acts on it.
//!
//! | Files | Have | Their definitions |
//! |---|---|---|
//! | `header`, `records` | the bytes of a file | `specs/Headers`, `Files` |
//! | `making`, `opening` | a file without events; the events of a file | `specs/Making`, `Opening` |
//! | `journal`, `keeping` | one event more | `specs/Keeping` |
//! | `laws` | what a file says, at rest and behind a crash | `specs/Files`, `Keeping` |
//!
//! A gate is a byte. Behind a gate of 1 stand a record and one gate more; behind any other nothing counts. So a record is written and synced behind a shut
//! gate, and then the gate is opened and synced. Whatever a crash leaves, the file still says each acknowledged event, in the order in which they came; an
//! event in whose append the crash fell is there as a whole or not at all.
#![tactic(auto)]

mod header;
mod journal;
mod keeping;
mod laws;
mod making;
mod opening;
mod records;

pub use journal::{AppendStop, Journal};
pub use laws::{cut_journals_are_read, files_say_what_they_spell, journals_at_rest_are_read};
pub use making::{MakeStop, Opened};
pub use opening::OpenStop;
