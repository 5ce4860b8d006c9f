//! The history that byte strings prove: what hosts voted for in them, executed without a vote of one's own.
//!
//! | Kept of what was taken | Module |
//! |---|---|
//! | for each host the list of what it stamped, in order from counter 1 on, and what waits behind a gap | `follower` |
//! | the votes in these lists for each position that isn't executed yet | `votes` |
//! | the plans of whole OPENs, by their digests | `plans` |
//! | the batches that are shown, by their digests | `batches` |
//! | the digests that hosts say their states have | `checkpoints` |
//!
//! A batch is proved at a position where f+1 hosts voted for it, the primary ordered it, and it is shown with tags that verify. Proved batches
//! are executed one position after the other.
#![tactic(auto)]

mod batches;
mod checkpoints;
mod counting;
mod difference;
mod follower;
mod heard;
mod holding;
mod learner;
mod line;
mod plans;
mod proving;
mod shown;
mod votes;

pub use learner::{LearnStop, Learner};
