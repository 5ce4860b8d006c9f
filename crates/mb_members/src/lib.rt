//! The hosts and the clients of a world, each for itself, and what their steps leave.
//!
//! Correct hosts make the steps of the protocol, faulty ones stamp what events say, and clients ask and take replies. Which event comes to whom,
//! and what stands in the way of one, is in `mb_world`, where all that is made here stands in one world.
//!
//! | File | What it answers |
//! |---|---|
//! | `members` | all hosts before the first event, and one event at one of them: what a correct host tells of it, nothing at a faulty one |
//! | `stamping` | what a faulty host stamps: its next counter, bound to a content or to any bytes |
//! | `clients` | all clients before the first event, what each signs with, its next request, and whether a reply counts |
//! | `replies` | the client that the bytes of a message are to, exactly where they are a REPLY |
//! | `stamps` | the ledger behind a correct host's step: what it stamped, and the tags that it made |
//! | `marks` | what is known of the message of a number, once a correct host sent it or it was looked through |
//! | `additions` | the messages that were made and the one list of executed batches, behind a step |
//! | `refusals`, `lines` | the line of a refused event, and the lines of a report on hosts and clients |
#![tactic(auto)]

mod additions;
mod clients;
mod lines;
mod marks;
mod members;
mod refusals;
mod replies;
mod stamping;
mod stamps;

pub use additions::{add_messages, extend_line};
pub use clients::{ask_of, askers, pens, reply_in, take_of};
pub use lines::{client_line, client_lines, host_lines, refused_lines, state_of};
pub use marks::{Mark, mark_of, note_clean, note_sent};
pub use members::{FaultyHost, Member, Stamp, new_members, step_at};
pub use refusals::{outcome_line, refused_line};
pub use replies::client_of_reply;
pub use stamping::{stamp_bytes, stamp_content};
pub use stamps::note_step;
