//! The messages by which a host that was away comes back.

use crate::stamped::Stamped;
use mb_base::{Counter, Digest, Host, Items, Pos};
use mb_parts::{Evidence, FloorCert, StableCert};

/// A host asks all others for what they stamped and it did not take.
#[derive(PartialEq, Drop)]
pub struct Resend {
    /// Who asks.
    pub host: Host,
    /// Its stable position.
    pub low: Pos,
    /// The next counter that it expects of each host, by host.
    pub nexts: Items<Counter>,
}

/// What a host stamped, for one that asked.
#[derive(PartialEq, Drop)]
pub struct Log {
    pub host: Host,
    pub floor: Option<FloorCert>,
    pub stable: StableCert,
    pub evidence: Option<Evidence>,
    /// At most 64.
    pub entries: Items<Stamped>,
}

/// A host asks another for the state at a stable position.
#[derive(Clone, Copy, PartialEq, Eq)]
pub struct Fetch {
    /// Who asks.
    pub host: Host,
    /// Who is asked.
    pub of: Host,
    /// A multiple of K above 0.
    pub pos: Pos,
    /// The first part that is wanted, at most 64.
    pub first: u8,
}

/// Some parts of the state at a position.
#[derive(PartialEq, Drop)]
pub struct StateMsg {
    pub host: Host,
    pub pos: Pos,
    /// The digests of all 65 parts.
    pub digests: Items<Digest>,
    /// The number of the first part that is here, at most 64.
    pub first: u8,
    /// At least one part.
    pub parts: Items<Items<u8>>,
}
