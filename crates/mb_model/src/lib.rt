//! What the protocol is: definitions over lists, which the code and the theorems cite, and the types that they speak of.
#![tactic(auto)]

mod known;
mod laws;

pub use known::{KnownSlot, LastReply, Vote};
pub use laws::{logs_carry_over, plans_ignore_order, quorums_meet};
