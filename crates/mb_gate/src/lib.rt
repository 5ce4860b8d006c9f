//! Gates: each takes the stamped messages of one sender, in order and without a gap.
//!
//! A sender's trusted counter binds one message to each of the numbers 1, 2, 3 and so on, so what a host stamped is one list, and all hosts see
//! the same. What may stand behind what in it is told by eight rules, one for each kind of stamped message. A correct host keeps them, so a
//! message that breaks its rule convicts its sender.
//!
//! A rule reads where the sender stands: its view, and in which phase it is there; `last`, the position of its last vote in the view or the
//! view's end; `top`, the greatest of those in all views; and `point`, the position of its last CHECKPOINT. A host starts in view 0, which is
//! open, with all positions 0.
//!
//! | Rule | Kind | Needs | Then |
//! |---|---|---|---|
//! | 1 | VIEW_CHANGE | a view above the sender's | that view, Changing, last 0 |
//! | 2 | NEW_VIEW | the sender's view, which it leads; Changing | Entered |
//! | 3 | ENTER | the sender's view, which it doesn't lead; Changing | Entered |
//! | 4 | OPEN | the sender's view; not Open, and of its primary Entered; valid certificates | Open, last is the end |
//! | 5 | JOIN | the sender's view; of the primary of a view above 0 not Changing; a position not below the end nor, in Open, below last; valid certificates | Open, last is the position |
//! | 6 | PREPARE | the sender's view, which it leads; Open; the position behind last | last is the position |
//! | 7 | COMMIT | the sender's view, which it doesn't lead; Open; the position behind last; a valid certificate | last is the position |
//! | 8 | CHECKPOINT | a multiple of the checkpoint interval above point | point is the position |
//!
//! The protocol is MinBFT (Veronese, Correia, Bessani, Lung, Verissimo: *Efficient Byzantine Fault-Tolerance*, IEEE Transactions on Computers,
//! 2013). There too a replica takes another's messages in the order of their counters. ENTER, OPEN and JOIN are this product's.
#![tactic(auto)]

mod gate;
mod kind;
mod laws;
mod offer;
mod recent;
mod rules;

pub use gate::Gate;
pub use laws::gates_keep_lists_in_order;
pub use mb_parts::{Floor, Mark, Phase};
pub use offer::Offer;
