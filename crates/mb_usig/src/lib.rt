//! The trusted counter of a host (USIG), and the keys and tags of all that is signed.
#![tactic(auto)]

mod keyed_hash;
mod keys;
mod origin;
mod pen;
mod remembered;
mod tag_ring;
mod tagged;
mod usig;

pub use keyed_hash::hmac;
pub use mb_base::Ui;
pub use pen::Pen;
pub use usig::{Spent, Usig};
