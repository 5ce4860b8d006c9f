//! The own log of a host: what it stamped since its floor, in the forms in which it is kept.
//!
//! A host shows all that it stamped when it leaves a view, and gives it to hosts that come back. A floor certificate lets the log begin later
//! than at counter 1: f+1 hosts took what stands before it. Of the bodies those go that nobody asks for any more:
//!
//! | Stamped | takes the bodies from what stands before it |
//! |---|---|
//! | OPEN, JOIN | PREPAREs, COMMITs and OPENs: what was voted for before a view was opened is in its plan |
//! | VIEW_CHANGE | VIEW_CHANGEs and NEW_VIEWs: they speak of earlier views |
//!
//! A log has room for 6K PREPAREs, COMMITs and CHECKPOINTs, and for 768 others. All of it is taken as it is made.
//!
//! The protocol is MinBFT (Veronese, Correia, Bessani, Lung, Verissimo: *Efficient Byzantine Fault-Tolerance*, IEEE Transactions on Computers,
//! 2013), whose view changes show logs too.
#![tactic(auto)]

mod kept;
mod kinds;
mod laws;
mod log;
mod proof;

pub use laws::logs_answer_for_histories;
pub use log::OwnLog;
pub use proof::Proof;
