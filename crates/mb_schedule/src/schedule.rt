//! A schedule: the system, who is faulty in it, and what happens.

use mb_base::{Client, Counter, Digest, Host, Items, Key, Pos, Seq, Shape, View};

/// A host or a client.
#[derive(Clone, Copy, Debug, PartialEq, Eq)]
pub enum Name {
    Host(Host),
    Client(Client),
}

/// What happens in the system of all hosts and clients. A message is named by its number, from 1, in the order in which messages are made.
/// Operations and results have at most 1,024 bytes.
#[derive(PartialEq, Drop)]
pub enum WorldEvent {
    /// A client asks for an operation. Its REQUEST is a new message.
    Ask {
        client: Client,
        op: Items<u8>,
    },
    /// A message is given to a host.
    Give {
        message: u64,
        host: Host,
    },
    /// A message is given to a client.
    Take {
        message: u64,
        client: Client,
    },
    /// These bytes are given to a host or a client.
    Raw {
        name: Name,
        bytes: Items<u8>,
    },
    /// A host loses patience.
    Patience {
        host: Host,
    },
    /// It is time for a host to ask for what is missing.
    Nudge {
        host: Host,
    },
    /// A faulty client makes a request of this number.
    Sign {
        client: Client,
        seq: Seq,
        op: Items<u8>,
    },
    /// A faulty host makes a reply.
    TagReply {
        host: Host,
        client: Client,
        seq: Seq,
        pos: Pos,
        result: Items<u8>,
    },
    /// A faulty host wishes for a view.
    TagWish {
        host: Host,
        view: View,
    },
    /// A faulty host stamps a PREPARE of the requests of these messages, which are 1 to 16.
    StampPrepare {
        host: Host,
        view: View,
        pos: Pos,
        messages: Items<u64>,
    },
    /// A faulty host stamps the COMMIT of the PREPARE that is this message.
    StampCommit {
        host: Host,
        message: u64,
    },
    /// A faulty host stamps a CHECKPOINT without floors.
    StampCheckpoint {
        host: Host,
        pos: Pos,
        digest: Digest,
    },
    /// A faulty host stamps a VIEW_CHANGE that shows what it stamped after a counter.
    StampChange {
        host: Host,
        view: View,
        after: Counter,
    },
    /// A faulty host stamps the content of this message.
    StampAs {
        host: Host,
        message: u64,
    },
    /// A faulty host stamps these bytes.
    StampRaw {
        host: Host,
        bytes: Items<u8>,
    },
}

/// A recorded schedule.
#[derive(PartialEq, Drop)]
pub struct Schedule {
    pub shape: Shape,
    pub secret: Key,
    /// For each host, whether it is faulty.
    pub faulty_hosts: Items<bool>,
    /// For each client, whether it is faulty.
    pub faulty_clients: Items<bool>,
    pub events: Items<WorldEvent>,
}
