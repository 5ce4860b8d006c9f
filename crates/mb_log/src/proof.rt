//! What a log shows.

use mb_base::Items;
use mb_msg::{FloorCert, Shown, StableCert};

/// What a VIEW_CHANGE shows of a log.
#[derive(Drop)]
pub struct Proof {
    /// The certificate with which the log was cut last.
    pub floor: Option<FloorCert>,
    pub stable: StableCert,
    /// Every entry, oldest first.
    pub entries: Items<Shown>,
}
