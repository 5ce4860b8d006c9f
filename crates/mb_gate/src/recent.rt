//! Where a sender stood behind its last CHECKPOINTs.

ghost use Rattle.std.specs.Prelude.{◌≡◌, [], ◌∷◌, List, take, find, nat_lt};
ghost use Rattle.mb_parts.specs.declared.floor.Floor.{Floor as TheFloor};
ghost use Rattle.mb_gate.specs.Floors.{KeepsLastTwo};
ghost use Rattle.mb_gate.specs.SenderLogs.{floors_behind};

use mb_base::Pos;
use mb_parts::Floor;

/// Where a sender stood behind the last two of its CHECKPOINTs.
#[derive(Clone, Copy, PartialEq, Eq)]
pub(crate) struct Recent {
    last: Option<Floor>,
    before: Option<Floor>,
}

impl Recent {
    /// A floor stands behind a CHECKPOINT, unless its counter is 0: then it is the start.
    pub(crate) fn start(floor: Floor) -> Recent
        ensures { KeepsLastTwo result (floors_behind floor []) }
    {
        let last = if floor.counter == 0 {
            None
        } else {
            Some(floor)
        };
        Recent { last, before: None }
    }

    /// Adds the latest floor, and forgets the older of two.
    pub(crate) fn push(&mut self, floor: Floor)
        ensures { (floors : List TheFloor) → KeepsLastTwo self.old floors → KeepsLastTwo self.new (floor ∷ floors) }
    {
        self.before = self.last;
        self.last = Some(floor);
    }

    /// The later of the floors whose position is under this one.
    pub(crate) fn below(&self, pos: Pos) -> Option<Floor>
        ensures { (floors : List TheFloor) → KeepsLastTwo self.now floors → result ≡ find (λ f. nat_lt f.point pos) (take 2 floors) }
    {
        self.last
            .filter(|floor| floor.point < pos)
            .or(self.before.filter(|floor| floor.point < pos))
    }
}
