//! The generator of long schedules: events of three hosts, of which host 2 is faulty, and of four clients.
//!
//! An event is drawn by one step of a linear congruence. Most draws give hosts 0 and 1 the next message of all that were made; clients ask in
//! between, and sometimes a host is nudged, loses patience, is given an old message or none, or host 2 stamps a PREPARE.
#![tactic(auto)]

mod maker;

pub use maker::Maker;
