//! Messages that are longer than a datagram: cutting them into pieces, and putting the pieces together.
#![tactic(auto)]

mod cutting;
mod laws;
mod limits;
mod piece;
mod pushed;
mod reassembler;
mod stage;

pub use cutting::cut;
pub use laws::{messages_come_whole_and_in_order, pieces_give_the_message};
pub use limits::{HEADER_LEN, MAX_COUNT, PIECE};
pub use mb_base::MESSAGE_LIMIT;
pub use pushed::Pushed;
pub use reassembler::Reassembler;
