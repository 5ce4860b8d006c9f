//! Statements that enough hosts stamped: a stable checkpoint, a floor, and the opening of a view.

use crate::floor::Floor;
use mb_base::{Counter, Digest, Host, Items, Pos, View};

/// One host's CHECKPOINT in a stable certificate.
#[derive(Clone, Copy, PartialEq, Eq)]
pub struct StableMember {
    pub host: Host,
    pub counter: Counter,
    /// The SHA-256 digest of the CHECKPOINT's floors.
    pub floors: Digest,
    pub cert: Digest,
}

/// f+1 CHECKPOINTs, of rising hosts, at one position with one state digest.
/// Position 0 needs none: there the digest is 32 zero bytes.
#[derive(PartialEq, Drop)]
pub struct StableCert {
    pub pos: Pos,
    pub state: Digest,
    pub members: Items<StableMember>,
}

/// One host's whole CHECKPOINT in a floor certificate.
#[derive(PartialEq, Drop)]
pub struct FloorMember {
    pub host: Host,
    pub counter: Counter,
    /// What this host took of each host.
    pub floors: Items<Option<Floor>>,
    pub cert: Digest,
}

/// f+1 whole CHECKPOINTs, of rising hosts, at one position with one state digest.
/// Where they agree on a host's floor, that host's log may begin behind it.
#[derive(PartialEq, Drop)]
pub struct FloorCert {
    pub pos: Pos,
    pub state: Digest,
    pub members: Items<FloorMember>,
}

/// One backup's ENTER in the evidence of a view.
#[derive(Clone, Copy, PartialEq, Eq)]
pub struct EvidenceMember {
    pub host: Host,
    pub counter: Counter,
    pub cert: Digest,
}

/// A view's NEW_VIEW, and the ENTERs of f backups, of rising hosts, that answer it.
#[derive(PartialEq, Drop)]
pub struct Evidence {
    /// At least 1.
    pub view: View,
    /// The stable position that the view starts from.
    pub base: Pos,
    /// The last position that the view carries on, at most two checkpoint intervals above the base.
    pub end: Pos,
    /// The digest of what stands at the positions between them.
    pub plan: Digest,
    /// The digest of the NEW_VIEW's body.
    pub body: Digest,
    /// The primary's counter of the NEW_VIEW.
    pub counter: Counter,
    /// The primary's certificate of the NEW_VIEW.
    pub cert: Digest,
    pub members: Items<EvidenceMember>,
}
