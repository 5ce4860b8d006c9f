//! What is forged in a message, and what faulty hosts stamp.
//!
//! A certificate or a tag is forged where it verifies, and nobody who may made it. All that was made is kept in a ledger, so that each question
//! is one look-up: a certificate by the host and the counter that it names, a request by its tag, a reply or a wish by its bytes. What is found
//! is compared whole, so that only what nobody made is hashed again.
//!
//! | Search in a world | Answered by |
//! |---|---|
//! | what a host stamped at a counter | `Ledger`, one vector for each host |
//! | whether a client asked for a request | `Asked`, a sorted map |
//! | whether a correct host made a reply or a wish | `Ledger`, a sorted set |
//! | the first forged certificate of a message, in the order of its bytes | `Checker::forged_claim` |
//! | whether a message has a forged tag | `Checker::has_forged_tag` |
//!
//! All certificates of a message count, whole and bare ones alike, those that stand in other messages too.
//!
//! What a faulty host is to stamp is made by `prepare_with`, `commit_for`, `checkpoint_with` and `change_with`, with an identifier of allowed
//! values in the place of the one that it gets when it is stamped.
#![tactic(auto)]

mod asked;
mod checker;
mod claims;
mod contents;
mod ledger;
mod tags;

pub use checker::{Checker, ForgedClaim};
pub use contents::{change_with, checkpoint_with, commit_for, prepare_with};
pub use ledger::Ledger;
