//! What a host executes with: its service and the client table, the snapshots of their state, and the parts of a state that it fetches.
//!
//! | Kept | Stands for |
//! |---|---|
//! | service and client table | the state behind all that was executed, or that of the state that was installed since |
//! | snapshots | the parts of the state behind each executed multiple of the interval, from the stable position on |
//! | parts | those of the state at the stable position that were fetched so far |
//!
//! All that a host does with its service goes through here. What it agrees on with other hosts stands apart, and knows nothing of services.
#![tactic(auto)]

mod fetching;
mod keeper;
mod snapshots;

pub use fetching::Fetched;
pub use keeper::Keeper;
pub use mb_cache::Accept;
