//! What a host holds of view changes, and which of their rules is due.
//!
//! | Rule | Is due where | What is due |
//! |---|---|---|
//! | 1 | f+1 hosts wish for a view above the host's, or one was announced, or has evidence | VIEW_CHANGE to the greatest such view |
//! | 2 | the host leads its view and left the one before, and f+1 VIEW_CHANGEs to it are stored | NEW_VIEW of the first f+1 |
//! | 3 | the host does not lead its view, left the one before, and its NEW_VIEW is held | ENTER |
//! | 4 | the view is not open for the host, its plan is held, and there is evidence of this plan | OPEN |
//! | 5 | the stable position, which was executed, reaches beyond what was ordered in the view | JOIN |
//!
//! The protocol is MinBFT (Veronese, Correia, Bessani, Lung, Verissimo: *Efficient Byzantine Fault-Tolerance*, IEEE Transactions on Computers,
//! 2013). ENTER, OPEN and JOIN are this product's.
#![tactic(auto)]

mod change;
mod chosen;
mod due;
mod evidence;
mod held_new_view;
mod held_plan;
mod laws;
mod opened;

pub use change::Change;
pub use due::ChangeDue;
pub use held_plan::HeldPlan;
pub use laws::{rules_agree, tables_answer, tables_begin, tables_follow};
