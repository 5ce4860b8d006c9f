//! A window of positions: so many above a low end, each of which may hold an item. The low end only rises.
//!
//! A window holds what a search in a host's history finds for each position above the stable one: the slots of the host's view, the votes for
//! them, the CHECKPOINTs that are not stable yet. All memory is taken as it is made.
#![tactic(auto)]

mod refused;
mod window;

pub use refused::Refused;
pub use window::Window;
