//! Bursts of long datagrams: what is sent to a peer faster than it can take it.
//!
//! The socket of a peer has room for six or seven of the longest datagrams. What comes while it is full is lost, and with a piece its whole message; who asks
//! again for that message is sent the same burst. So behind each fourth long datagram to a peer the link waits for a millisecond, in which a peer that is at
//! work takes them. Behind a receive it begins to count anew.
//!
//! Each peer has a count of its own, since each has a socket of its own: a message of many pieces that goes to all waits as often for each of them, and one of
//! a few pieces waits for none.

ghost use Rattle.std.specs.Prelude.{◌≡◌, ◌+◌, ◌<◌, ◌≤◌, ◌↔◌, IsSome, IfSome, slice_index_or, slice_set};
ghost use Rattle.std.specs.Duration.{as_nanos};

use std::time::Duration;

/// A datagram of more bytes is long.
const LONG: usize = 16_384;

/// How many long datagrams to a peer are a burst.
const BURST: u8 = 4;

/// How long the link waits behind a burst, in milliseconds.
const PAUSE: u64 = 1;

/// How many peers there can be.
const PEERS: usize = 256;

/// How many long datagrams were sent to each peer, since the last receive and behind its last burst.
#[derive(Clone, Copy)]
pub(crate) struct Bursts {
    sent: [u8; PEERS],
}

impl Bursts {
    /// Nothing was sent yet.
    pub(crate) fn new() -> Bursts {
        Bursts { sent: [0; PEERS] }
    }

    /// Counts a datagram of so many bytes to a peer. How long to wait behind it, where it ends a burst.
    pub(crate) fn pause_behind(&mut self, peer: u8, bytes: usize) -> Option<Duration>
        ensures pauses { IsSome result ↔ (16_384 < bytes) × (3 ≤ slice_index_or self.old.sent peer 0) }
        ensures pause { IfSome result (λ d. as_nanos d ≡ 1_000_000) }
        ensures ended { IsSome result → self.new.sent ≡ slice_set self.old.sent peer 0 }
        ensures counted { 16_384 < bytes → slice_index_or self.old.sent peer 0 < 3 → self.new.sent ≡ slice_set self.old.sent peer (slice_index_or self.old.sent peer 0 + 1) }
        ensures short { bytes ≤ 16_384 → self.new.sent ≡ self.old.sent }
    {
        if bytes <= LONG {
            return None;
        }
        let place = usize::from(peer);
        let sent = self.sent[place];
        if sent < BURST - 1 {
            self.sent[place] = sent + 1;
            return None;
        }
        self.sent[place] = 0;
        Some(Duration::from_millis(PAUSE))
    }
}
