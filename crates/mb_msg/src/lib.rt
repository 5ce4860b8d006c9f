//! The messages of the protocol, and what a host is given and answers.
#![tactic(auto)]

mod body;
mod change;
mod change_bytes;
mod checkpoints;
mod copies;
mod digests;
mod event;
mod hashed;
mod kept;
mod kinds;
mod marks;
mod message;
mod normal;
mod openings;
mod plan;
mod shown_bytes;
mod stamped;
mod stamped_bytes;
mod transfer;
mod transfer_bytes;
mod votes;
mod whole;

pub use change::{
    BareNewView, BareViewChange, ChangeBody, Enter, Join, NewView, NewViewBody, Open, OpenBody,
    Plan, ReqViewChange, ViewChange,
};
pub use digests::{bare_of, commit_bare, prepare_bare, signed_reply, signed_request};
pub use event::{Event, Outcome, Placed, Sent, Slot, Step, To};
pub use hashed::Hashed;
pub use marks::mark_of;
pub use mb_base::MESSAGE_LIMIT;
pub use mb_parts::{
    Batch, Evidence, EvidenceMember, Floor, FloorCert, FloorMember, MAX_POS, MAX_VIEW, Mark, Phase,
    Request, Requests, StableCert, StableMember, TEXT_LIMIT, Undecoded,
};
pub use message::{Body, Message};
pub use normal::{BareCheckpoint, Checkpoint, Commit, Floors, Prepare, Reply, Stop};
pub use plan::digest_of_plan;
pub use stamped::{Shown, Stamped};
pub use transfer::{Fetch, Log, Resend, StateMsg};
pub use whole::{decode, encode, encode_stamped, fields_fit, fits};
