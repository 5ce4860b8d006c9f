//! What becomes of a reply.

use mb_base::{Pos, Seq};

/// What becomes of a reply that a client is given.
#[derive(Clone, Copy, PartialEq, Eq)]
pub enum Taken {
    /// It was counted, or dropped where a reply of its host is counted already. Fewer than f+1 hosts agree with it.
    Waiting {
        /// The greatest number of counted replies that agree.
        matching: u8,
    },
    /// f+1 hosts agree with it: its result is accepted.
    Accepted {
        pos: Pos,
    },
    /// It is to another client, or does not have the tag of its host.
    BadTag,
    /// It answers a request whose result is not waited for.
    OtherSeq {
        /// The number of that request.
        seq: Seq,
    },
}
