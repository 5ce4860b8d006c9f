//! A host of the protocol: one event after the other, and what follows from each.
//!
//! A step is one event, then the rules, of which the first that is enabled is carried out, again and again, and at its end a FETCH where the
//! host is behind and the event was a Nudge or a STATE, or the stable position rose. The rules and the FETCH follow what was taken. What a host
//! holds, and what each given message does to it, is in `mb_replica`. For each kind of message that a rule stamps there is one file.
//!
//! A message that nobody needs any more is given to `drop`, which is one call. One that goes out of scope is dropped in place, kind by kind, at each
//! exit at which it lives, and all of that is proved each time.
//!
//! | Files | Have |
//! |---|---|
//! | `replica`, `events`, `patience`, `nudges` | a host, its step, and the three sorts of events |
//! | `rules`, `stamping` | which rule is next, and how a message is stamped |
//! | `prepares`, `commits`, `executing`, `checkpoints` | PREPARE, COMMIT, what executes, CHECKPOINT |
//! | `view_changes`, `new_views`, `enters`, `opens`, `joins` | VIEW_CHANGE, NEW_VIEW, ENTER, OPEN, JOIN |
//!
//! The protocol is MinBFT (Veronese, Correia, Bessani, Lung, Verissimo: *Efficient Byzantine Fault-Tolerance*, IEEE Transactions on Computers,
//! 2013). ENTER, OPEN and JOIN are this product's.
#![tactic(auto)]

mod checkpoints;
mod commits;
mod enters;
mod events;
mod executing;
mod joins;
mod new_views;
mod nudges;
mod opens;
mod patience;
mod prepares;
mod replica;
mod rules;
mod stamping;
mod view_changes;

pub use mb_msg::{Event, Outcome, Sent, Slot, Step, To};
pub use replica::{Replica, Stop};
