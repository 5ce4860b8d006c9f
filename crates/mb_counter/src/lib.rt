//! A count as a service: the smallest service that hosts can keep, and the pattern for others.
//!
//! | File | What it does | Its definitions |
//! |---|---|---|
//! | `operation` | reads the bytes of an operation | `specs/Operations` |
//! | `results` | spells results | `specs/Operations` |
//! | `counter` | the count, and what an addition does | `specs/Operations` |
//! | `snapshot` | the count as parts, and back | `specs/Snapshots` |
//! | `service` | all of it as a service | `specs/Laws` |
#![tactic(auto)]

mod counter;
mod laws;
mod operation;
mod results;
mod service;
mod snapshot;

pub use counter::Counter;
pub use laws::counters_are_replicable;
