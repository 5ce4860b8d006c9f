//! What is kept of an OPEN.

use mb_base::{Counter, Digest, View};

/// View, NEW_VIEW's counter and plan digest of a host's last OPEN that was taken, all zero without one.
#[derive(Clone, Copy)]
pub(crate) struct Opened {
    pub(crate) view: View,
    pub(crate) counter: Counter,
    pub(crate) plan: Digest,
}
