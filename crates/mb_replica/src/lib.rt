//! What a host holds, and what each given message does to it.
//!
//! A host is a state of the protocol and a keeper. The first is all that it knows of the other hosts and of the order of batches: gates, votes, view
//! changes, its own log. It knows nothing of the service. The keeper executes what is agreed on. Which rules follow what was taken, and how they
//! are carried out, is in `mb_core`.
//!
//! For each kind of message there is one file: why it is refused, and what it does where it is not.
//!
//! A message that nobody needs any more is given to `drop`, which is one call. One that goes out of scope is dropped in place, kind by kind, at each
//! exit at which it lives, and all of that is proved each time.
//!
//! | Files | Have |
//! |---|---|
//! | `state`, `protocol`, `beginning` | a host, and where it stands |
//! | `given`, `stamped`, `arrival`, `identifiers` | a given message; certificate, counter and gate of a stamped one |
//! | `voting`, `prepares`, `commits`, `checkpoints` | PREPARE, COMMIT, CHECKPOINT |
//! | `wishes`, `view_changes`, `new_views`, `enters`, `opens`, `joins` | REQ_VIEW_CHANGE, VIEW_CHANGE, NEW_VIEW, ENTER, OPEN, JOIN |
//! | `requests`, `stored_replies`, `resends`, `logs`, `fetches`, `states`, `stops` | REQUEST, REPLY, RESEND, LOG, FETCH, STATE, STOP |
//! | `holding`, `learning`, `open_votes` | what is held of a view change, what is stable, the votes of OPENs |
//! | `standing`, `sending`, `told` | where a host stands, what a step has sent, and what it tells |
#![tactic(auto)]

mod arrival;
mod beginning;
mod checkpoints;
mod commits;
mod enters;
mod fetches;
mod given;
mod holding;
mod identifiers;
mod joins;
mod learning;
mod logs;
mod new_views;
mod open_votes;
mod opens;
mod plan_digests;
mod prepares;
mod protocol;
mod requests;
mod resends;
mod sending;
mod stamped;
mod standing;
mod state;
mod states;
mod stops;
mod stored_replies;
mod told;
mod view_changes;
mod voting;
mod wishes;

pub use given::Reaction;
pub use protocol::Protocol;
pub use sending::StepOutput;
pub use state::ReplicaState;
pub use told::{Outgoing, Said, StepRecord};
