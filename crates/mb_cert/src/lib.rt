//! Whether certificates check: f+1 CHECKPOINTs of one state, f+1 that agree on a floor, or a NEW_VIEW with the ENTERs that answer it.
//!
//! A certificate is a list of claims, each that a host's trusted counter bound certain bytes to a number. It checks where it has as many members
//! as asked for, their hosts rise, and the tag of each claim verifies; so they are different hosts, of which at least one is correct. Nothing here
//! takes memory.
//!
//! | Certificate | Members | Each claims |
//! |---|---|---|
//! | stable | f+1; at position 0 none | a CHECKPOINT of the position and state, with the digest of its floors |
//! | floor | f+1 | a CHECKPOINT of the position and state, with the floors that it shows; all with one floor for the owner of the log |
//! | evidence | f backups | an ENTER that answers the NEW_VIEW of the view's primary, which is a claim too |
//!
//! The protocol is MinBFT (Veronese, Correia, Bessani, Lung, Verissimo: *Efficient Byzantine Fault-Tolerance*, IEEE Transactions on Computers,
//! 2013), whose checkpoint certificates are f+1 CHECKPOINTs too.
#![tactic(auto)]

mod bare;
mod evidence;
mod fault;
mod floor;
mod stable;

pub use bare::{
    CHECKPOINT_BARE, ENTER_BARE, NEW_VIEW_BARE, checkpoint_bare, enter_bare, new_view_bare,
};
pub use evidence::CheckEvidence;
pub use fault::{CertFault, Why};
pub use floor::CheckFloor;
pub use stable::CheckStable;
