//! What a message says that hosts stamped: each certificate in it, wherever it stands, as the bare message that it is of.
#![tactic(auto)]

mod bare;
mod certified;

pub use certified::certified_in;
