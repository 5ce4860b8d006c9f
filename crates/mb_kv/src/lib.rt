//! The service that the hosts keep: keys with values.
#![tactic(auto)]

mod bucket;
mod kept;
mod kv;
mod laws;
mod limits;
mod operation;
mod part;
mod results;
mod service;
mod snapshot;
mod unread;

pub use kv::Kv;
pub use laws::kv_is_replicable;
pub use limits::{MAX_KEY, MAX_KEYS, MAX_VALUE};
