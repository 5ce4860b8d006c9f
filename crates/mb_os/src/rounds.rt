//! Rounds of datagrams: what a client program sends to one host after the other.
//!
//! A host that gets no processor for some milliseconds loses what its socket has no room for. Of three STOPs that come in a row behind many other datagrams it
//! may so lose all. So a client program that made no receive since its last round waits before the next one. Between two sends of requests it makes one.

use std::time::Duration;

/// How long it waits before a second round, in milliseconds.
const FIRST_PAUSE: u64 = 1;

/// And before each further one.
const LATER_PAUSE: u64 = 3;

/// What a client program sent since its last receive.
#[derive(Clone, Copy, PartialEq, Eq)]
pub(crate) struct Rounds {
    /// The host of the last send, also of one that failed. None where there was none.
    last: Option<u8>,
    /// How long it waits before the next round, in milliseconds.
    pause: u64,
}

impl Rounds {
    /// Nothing was sent yet.
    pub(crate) fn new() -> Rounds {
        Rounds {
            last: None,
            pause: FIRST_PAUSE,
        }
    }

    /// How long it waits before a datagram to a host. None within a round, which goes from lower hosts to higher ones.
    pub(crate) fn pause_before(&mut self, host: u8) -> Option<Duration> {
        let last = self.last;
        self.last = Some(host);
        match last {
            Some(last) if host <= last => {
                let pause = self.pause;
                self.pause = LATER_PAUSE;
                Some(Duration::from_millis(pause))
            }
            _ => None,
        }
    }
}
