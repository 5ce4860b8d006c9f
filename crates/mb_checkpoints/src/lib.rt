//! The CHECKPOINTs of hosts that a host keeps, and the certificates that they make.
//!
//! Where f+1 hosts agree on the state at a position, that state is stable: their CHECKPOINTs are its certificate. Where f+1 hosts agree
//! also on how far they took the messages of a host, they are the certificate of a floor from which that host's log may begin.
#![tactic(auto)]

mod agreement;
mod checkpoints;
mod floors;
mod stable;

pub use checkpoints::Checkpoints;
