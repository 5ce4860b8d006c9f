//! All hosts, all clients, and all that was ever made: the events of a schedule, one after the other.
//!
//! | Table | What it answers of a world of the definitions |
//! |---|---|
//! | `members` | each correct host's history, and what each faulty host stamped |
//! | `askers` | each client's side |
//! | `ledger` | what was stamped, asked and tagged, by one look-up each |
//! | `pool` | the message of a number |
//! | `marks` | what is known of the message of a number: that nothing in it is forged, and the digest of its body, where a correct host stamped it |
//! | `line` | the one list of executed batches |
//! | `refused` | the events that a host or a client refused |
//!
//! An event is done in two steps. `allow` only reads: it answers the stop that stands in the way, or what a faulty host is to stamp. Then the event
//! happens. So a stop leaves the world as it was, and nothing is read twice. No event copies the pool, or goes through it.
//!
//! The hosts, the clients and the marks, and what one step does to each table alone, are in `mb_members`.
#![tactic(auto)]

mod addressing;
mod allowed;
mod asking;
mod cleaning;
mod effects;
mod faulty;
mod refusing;
mod reporting;
mod seen;
mod world;

pub use refusing::refusal;
pub use seen::{Seen, WorldStop};
pub use world::World;
