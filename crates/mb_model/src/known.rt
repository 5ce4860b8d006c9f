//! What a host knows of positions and clients.

use mb_base::{Counter, Digest, Items, Pos, Seq};
use mb_msg::Batch;

/// A vote: for the batch with this digest, as the primary ordered it at this counter.
#[derive(Clone, Copy, PartialEq, Eq)]
pub struct Vote {
    /// The primary's counter.
    pub counter: Counter,
    /// The digest of the batch.
    pub request: Digest,
}

/// What is known of a position: how the primary ordered it, and the batch where it came whole.
#[derive(PartialEq, Drop)]
pub struct KnownSlot {
    /// The primary's counter.
    pub counter: Counter,
    /// The primary's certificate.
    pub cert: Digest,
    /// The digest of the batch.
    pub digest: Digest,
    /// The batch, where it came whole.
    pub batch: Option<Batch>,
}

/// A client's last executed request: its number, its position, and its result. The number is 0 before the first.
#[derive(PartialEq, Drop)]
pub struct LastReply {
    pub seq: Seq,
    pub pos: Pos,
    pub result: Items<u8>,
}
