//! The client program of a cluster: it starts a node for each host, asks for operations one after the other, writes each result that f+1 hosts
//! agree on, ends the nodes, and waits for them.
//!
//! - `posting` sends a message to every host, each under a number of its own.
//! - `listener` puts the hosts' pieces together, and counts the replies among their messages.
//! - `asking` asks for operations, and writes their results.
//! - `stopping` tells the hosts to stop.
//! - `nodes` starts the nodes and waits for their ends.
//! - `cluster` has all of a run.
#![tactic(auto)]

mod asking;
mod cluster;
mod lines;
mod listener;
mod nodes;
mod posting;
mod stop;
mod stopping;

pub use cluster::run_cluster;
pub use stop::ClusterStop;
