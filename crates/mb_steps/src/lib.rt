//! The laws of one host's steps: where the messages that it stamps come from, what it leaves undone, and what its own list is.
#![tactic(auto)]

mod laws;

pub use laws::{nothing_is_left_undone, own_lists_are_ordered};
