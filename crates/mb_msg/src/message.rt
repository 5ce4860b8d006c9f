//! Any message, and parts that travel in two forms.

use crate::change::{Enter, Join, NewView, Open, ReqViewChange, ViewChange};
use crate::normal::{Checkpoint, Commit, Prepare, Reply, Stop};
use crate::transfer::{Fetch, Log, Resend, StateMsg};
use mb_base::Digest;
use mb_parts::Request;

/// A part that travels whole, or as its SHA-256 digest.
#[derive(PartialEq, Drop)]
pub enum Body<T> {
    Whole(T),
    Bare(Digest),
}

/// Any message.
#[derive(PartialEq, Drop)]
pub enum Message {
    Request(Request),
    Prepare(Prepare),
    Commit(Commit),
    Reply(Reply),
    Checkpoint(Checkpoint),
    ReqViewChange(ReqViewChange),
    ViewChange(ViewChange),
    NewView(NewView),
    Enter(Enter),
    Open(Open),
    Join(Join),
    Resend(Resend),
    Log(Log),
    Fetch(Fetch),
    State(StateMsg),
    Stop(Stop),
}
