//! The whole program, over any source, sink, link, spawner and disk: what the words ask for, and the answer to what the source has.
//!
//! | Module | What it does |
//! |---|---|
//! | `command` | reads the words |
//! | `reasons` | says which number makes words no command |
//! | `replay` | runs a schedule in the world of hosts that keep the key-value service |
//! | `soak` | runs drawn events in such a world, and sums them up |
//! | `top` | the call that `main` makes, with all that is promised of it |
//! | `worlds` | holds no code: the host of a node with a journal in a world |
#![tactic(auto)]

mod command;
mod reasons;
mod replay;
mod soak;
mod top;
mod worlds;

pub use command::Command;
pub use reasons::{beyond_limits, is_command};
pub use top::minbft;
pub use worlds::nodes_are_hosts_of_worlds;
