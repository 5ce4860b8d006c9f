//! What became of every host and client.

use mb_base::{Client, Host, Items, Pos, Seq, View};
use mb_msg::{Phase, Slot};

/// A report, line by line.
#[derive(PartialEq, Drop)]
pub struct Report {
    /// The number of events.
    pub events: u64,
    /// The number of messages that were made.
    pub messages: u64,
    /// The one list of executed batches.
    pub line: Items<Slot>,
    /// The refused events, in the order in which they came.
    pub refused: Items<RefusedLine>,
    /// Each host, in order of their numbers.
    pub hosts: Items<HostLine>,
    /// Each client, in order of their numbers.
    pub clients: Items<ClientLine>,
}

/// The name of an outcome of a refused event.
#[derive(Clone, Copy, PartialEq, Eq)]
pub enum Word {
    Malformed,
    BadUi,
    BadTag,
    Stale,
    Ahead,
    Illegal,
    Convicted,
    NeedBody,
    LaterView,
    BeyondWindow,
    Unusable,
    WrongDigest,
    BadState,
    Old,
    OtherSeq,
}

/// An event that was refused: its number from 1, the outcome's name, and the outcome's numbers in the order of its fields.
#[derive(PartialEq, Drop)]
pub struct RefusedLine {
    pub event: u64,
    pub name: Word,
    pub numbers: Items<u64>,
}

/// A host, and where it stands. A faulty one has no state.
#[derive(PartialEq, Drop)]
pub struct HostLine {
    pub host: Host,
    pub state: Option<HostState>,
}

/// Where a correct host stands.
#[derive(Clone, Copy, PartialEq, Eq)]
pub struct HostState {
    pub view: View,
    pub phase: Phase,
    /// The last executed position.
    pub exec: Pos,
    /// The stable position.
    pub low: Pos,
    /// The number of messages in the log.
    pub log: u32,
    /// The most that the log ever held.
    pub longest: u32,
}

/// A client: how many requests it asked, how many results it accepted, and the last accepted one.
#[derive(PartialEq, Drop)]
pub struct ClientLine {
    pub client: Client,
    pub asked: u64,
    pub accepted: u64,
    pub last: Option<LastResult>,
}

/// An accepted result.
#[derive(PartialEq, Drop)]
pub struct LastResult {
    pub seq: Seq,
    pub pos: Pos,
    pub result: Items<u8>,
}
