//! Where hosts say another digest of their states than was found.

use mb_base::{Digest, Pos};

/// The digest that was found at a position, and the one that f+1 hosts say.
#[derive(Clone, Copy, PartialEq, Eq)]
pub(crate) struct Difference {
    pub(crate) pos: Pos,
    pub(crate) found: Digest,
    pub(crate) certified: Digest,
}

impl Difference {
    ghost use Rattle.std.specs.Prelude.{◌≡◌};
    ghost use Rattle.mb_learn.specs.Differences.{lower, lowest};

    /// The one at the lower position, where there are two.
    pub(crate) fn lowest(one: Option<Difference>, other: Option<Difference>) -> Option<Difference>
        ensures { result ≡ lowest one other }
    {
        match one {
            Some(one) => Some(one.lower(other)),
            None => other,
        }
    }

    fn lower(self, other: Option<Difference>) -> Difference
        ensures { result ≡ lower self other }
    {
        match other {
            Some(other) => { if other.pos < self.pos { other } else { self } }
            None => self,
        }
    }
}
