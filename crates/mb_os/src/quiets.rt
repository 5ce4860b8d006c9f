//! When a quiet is due: so long behind the last one, or behind the opening, whether datagrams come or not.
//!
//! At quiets a program asks again for what it misses, and some of them without a result make a host lose patience. So nobody who sends without end may keep
//! them away. One that was due while the program was at work is told at its next receive, once, and the time to the next one begins there.

ghost use Rattle.std.specs.Prelude.{◌≡◌, ◌+◌, ◌-◌, ◌*◌, ◌<◌, ◌≤◌, ◌↔◌, IsSome, IfSome};
ghost use Rattle.std.specs.Time.{instant_nanos};
ghost use Rattle.mb_os.specs.Quiets.{interval};

use std::time::{Duration, Instant};

/// The time from a quiet to the next one, in milliseconds.
const INTERVAL: u64 = 50;

/// The nanoseconds of a millisecond.
const MILLISECOND: u64 = 1_000_000;

/// When the last quiet was.
#[derive(Clone, Copy, PartialEq, Eq)]
pub(crate) struct Quiets {
    last: Instant,
}

impl Quiets {
    /// One is told now, or the link is opened now.
    pub(crate) fn since(now: Instant) -> Quiets
        ensures { result.last ≡ now }
    {
        Quiets { last: now }
    }

    /// In how many milliseconds the next one is due, rounded up. None where it is due now.
    pub(crate) fn left(&self, now: Instant) -> Option<u64>
        ensures due { IsSome result ↔ (instant_nanos now < instant_nanos self.now.last + interval) }
        ensures enough { IfSome result (λ n. interval - (instant_nanos now - instant_nanos self.now.last) ≤ n * 1_000_000) }
        ensures rounded { IfSome result (λ n. n * 1_000_000 < interval - (instant_nanos now - instant_nanos self.now.last) + 1_000_000) }
    {
        let spent = now.saturating_duration_since(self.last);
        let left = Duration::from_millis(INTERVAL).saturating_sub(spent);
        if left.is_zero() {
            return None;
        }
        Some(u64::from(left.subsec_nanos()).div_ceil(MILLISECOND))
    }
}
