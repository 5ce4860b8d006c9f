//! What a service is that hosts keep: a function of its operations, whose state can be given as parts and taken back from them.
#![tactic(auto)]

mod laws;
mod restore;
mod service;

pub use laws::{service_limits_are_those_defined, services_are_replicable};
pub use restore::Restore;
pub use service::{MAX_PART, MAX_RESULT, PARTS, Service};
