//! Messages that a host's trusted counter bound to a number.

use crate::change::{BareNewView, BareViewChange, Enter, Join, NewView, Open, ViewChange};
use crate::normal::{BareCheckpoint, Checkpoint, Commit, Prepare};

/// A message that a host's USIG bound to a counter.
#[derive(PartialEq, Drop)]
pub enum Stamped {
    Prepare(Prepare),
    Commit(Commit),
    Checkpoint(Checkpoint),
    ViewChange(ViewChange),
    NewView(NewView),
    Enter(Enter),
    Open(Open),
    Join(Join),
}

/// A stamped message as a VIEW_CHANGE shows it: some kinds by their digests alone.
#[derive(PartialEq, Drop)]
pub enum Shown {
    Prepare(Prepare),
    Commit(Commit),
    Checkpoint(BareCheckpoint),
    ViewChange(BareViewChange),
    NewView(BareNewView),
    Enter(Enter),
    Open(Open),
    Join(Join),
}
