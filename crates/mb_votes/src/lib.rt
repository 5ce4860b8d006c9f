//! The votes of hosts for the positions of a window, counted as they come.
//!
//! A PREPARE is its sender's vote, a COMMIT its sender's, and an OPEN a vote for each position of its plan. A position is committed where f+1
//! hosts have equal votes: the same counter of the primary, and the same batch. Of each host and position the first vote counts.
#![tactic(auto)]

mod ballot;
mod votes;

pub use mb_model::Vote;
pub use mb_window::Refused;
pub use votes::Votes;
