//! The parts of states: those that a host fetches, and those that it keeps for others.
//!
//! A state with its client table is 65 parts. A host that is behind fetches the parts of the state at its stable position, and takes only those
//! whose SHA-256 (FIPS 180-4) is certified. It keeps a snapshot of its own state at each executed multiple of the checkpoint interval, from its
//! stable position on, for hosts that are behind it.
#![tactic(auto)]

mod checking;
mod keys;
mod laws;
mod parts;
mod shelf;
mod shelved;

pub use laws::tables_answer_for_histories;
pub use parts::{Kept, Missing, Parts};
pub use shelf::Shelf;
pub use shelved::HashedPart;
