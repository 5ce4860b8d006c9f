//! A schedule, its limits, and the report of what became of it: values alone. Their texts are `mb_sched`'s.
#![tactic(auto)]

mod report;
mod schedule;

pub use report::{ClientLine, HostLine, HostState, LastResult, RefusedLine, Report, Word};
pub use schedule::{Name, Schedule, WorldEvent};
