//! A host at work, and its work done again from its record.
//!
//! A node receives datagrams. One reassembler for each sender puts them together, and each whole message is an event of the host, as is each
//! receive that was quiet. Behind each step two lines of the record are written, and then what the host sends goes out, cut into datagrams.
//! A STOP with a right tag ends it.
//!
//! | Files | Have | Their definitions |
//! |---|---|---|
//! | `inbox`, `receiving` | which messages datagrams make whole | `specs/Receives`, `Inboxes`, `Receiving` |
//! | `entries` | the lines of the record | `specs/Recording` |
//! | `outbox` | messages as datagrams to their peers | `specs/Sends`, `Messages` |
//! | `patience` | how many quiets a host bears | `specs/Patience`, `Events` |
//! | `turn` | one event | `specs/Turns` |
//! | `keeping` | one event in a journal, before its step | `specs/Keeping` |
//! | `node` | one receive, and which event it is | `specs/Events`, `Rounds` |
//! | `serving` | all receives | `specs/Serving` |
//! | `replaying` | the events that a journal had, before the first receive | `specs/Replaying` |
//! | `retracing` | a record against the host's own steps | `specs/Retracing` |
//! | `stops` | why serving ended | `specs/Stops` |
//!
//! What is promised of all receives speaks of the history that a host stands for, whichever it is: the events are those of the receives that the
//! link tells, none left out; the record has an entry for each; what was sent are the pieces of what the host sends. Where serving ends on the
//! way, the last event is cut off, and all before it are whole. With a journal the host takes the step of an event only once it is kept. Whatever a crash
//! leaves of the file, at whatever moment, says each event that was acknowledged until then; one in whose append the crash fell is there as a whole or not.
#![tactic(auto)]

mod entries;
mod inbox;
mod keeping;
mod node;
mod outbox;
mod patience;
mod receiving;
mod replaying;
mod retracing;
mod serving;
mod stops;
mod turn;

pub use replaying::replay;
pub use retracing::{RetraceStop, retrace};
pub use serving::{serve, serve_kept};
pub use stops::ServeStop;
