//! What a host holds of a view that goes its way: slots, votes, pending requests and CHECKPOINTs, and what is due of them.
//!
//! A slot is what the primary ordered at a position. A backup that has the slot of the next position stamps its COMMIT; where f+1 hosts voted
//! for a slot it is executed; and the primary orders the pending requests that it has not ordered yet.
#![tactic(auto)]

mod batching;
mod due;
mod filling;
mod laws;
mod normal;
mod pending;
mod slots;

pub use due::Due;
pub use laws::{rules_are_lent, tables_answer_for_histories};
pub use mb_votes::Vote;
pub use mb_window::Refused;
pub use normal::Normal;
