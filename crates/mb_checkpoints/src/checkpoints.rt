//! The CHECKPOINTs that are kept.

ghost use Rattle.std.specs.Prelude.{◌≡◌, ◌<◌, ◌+◌, ◌*◌, ◌^◌, length};
ghost use Rattle.mb_base.specs.Limits.{most_hosts};
ghost use Rattle.mb_base.specs.Shapes.{interval};
ghost use Rattle.mb_msg.specs.Bodies.{body_digest};
ghost use Rattle.mb_msg.specs.Spelling.{floors_body_bytes};
ghost use Rattle.mb_checkpoints.specs.declared.checkpoints.TheConstants.{POSITIONS};

use mb_base::{Digest, Host, NoMemory, Pos, Shape};
use mb_msg::{Body, Checkpoint, MAX_POS};
use mb_window::Window;
use std::alloc::Global;

/// Places for the hosts of one position, 2f+1 with the greatest f.
const HOST_PLACES: u64 = 2 * Shape::MAX_F as u64 + 1;

/// Positions with kept CHECKPOINTs: the stable one, and one and two intervals above it.
const POSITIONS: u64 = 3;

/// A CHECKPOINT, with the digest of its floors.
#[derive(Drop)]
pub(crate) struct KeptCheckpoint {
    pub(crate) message: Checkpoint,
    pub(crate) floors: Digest,
    ghost floors_are: { floors ≡ body_digest floors_body_bytes message.body },
}

/// For each host, and each of the stable position and the two intervals above it, the last CHECKPOINT: the search `checkpoint_of` in a host's
/// history.
///
/// The stable position is the multiple of the interval with the number `first`. The CHECKPOINT of host h at the multiple i is the item of the
/// window's position 7i + h + 1.
#[derive(Drop)]
pub struct Checkpoints {
    pub(crate) shape: Shape,
    pub(crate) first: u64,
    pub(crate) window: Window<KeptCheckpoint>,
    ghost first_in: { first < 2 ^ 61 },
    ghost low_in: { first * interval shape < 2 ^ 63 },
    ghost low_is: { window.low ≡ first * most_hosts },
    ghost width: { length window.items ≡ POSITIONS * most_hosts },
}

impl Checkpoints {
    ghost use Rattle.std.specs.Prelude.{◌≡◌, ◌≤◌, ◌<◌, ◌+◌, ◌*◌, ◌^◌, ℕ, None, IfOk, IfSome};
    ghost use Rattle.std.specs.Option.{option_map};
    ghost use Rattle.mb_base.specs.Shapes.{host_count, interval};
    ghost use Rattle.mb_checkpoints.specs.Kept.{kept_at, low_of, IsKeptPlace, Keeps, KeepsAbove, Represents};

    /// No CHECKPOINTs, and the stable position is 0. All memory is taken here.
    pub fn make(alloc: Global, shape: Shape) -> Result<Checkpoints, NoMemory>
        ensures { IfOk result (λ t. Represents shape t 0 (λ h p. None)) }
    {
        Ok(Checkpoints {
            shape,
            first: 0,
            window: Window::make(alloc, 0, (POSITIONS * HOST_PLACES) as u32)?,
        })
    }

    /// Keeps a CHECKPOINT, in the place of its host's earlier one at that position. It takes no memory.
    pub fn keep(&mut self, checkpoint: Checkpoint)
        requires host { checkpoint.ui.host < host_count self.old.shape }
        requires place { IsKeptPlace self.old checkpoint.pos }
        ensures stands { Keeps self.old checkpoint self.new }
    {
        let number = checkpoint.pos / u64::from(self.shape.k());
        let place = number * HOST_PLACES + u64::from(checkpoint.ui.host) + 1;
        let floors = self.floors_digest(&checkpoint);
        let kept = KeptCheckpoint {
            message: checkpoint,
            floors,
        };
        write(&mut self.window, place, kept);
    }

    /// The digest of the floors of a CHECKPOINT, which is not taken again where a kept one of its position has the same floors.
    pub fn floors_digest(&self, checkpoint: &Checkpoint) -> Digest
        ensures { result ≡ body_digest floors_body_bytes checkpoint.now.body }
    {
        match self.with_floors_of(checkpoint) {
            Some(kept) => kept.floors,
            None => checkpoint.body.floors_digest(),
        }
    }

    /// A kept CHECKPOINT of the same position that came whole with the same floors.
    fn with_floors_of(&self, checkpoint: &Checkpoint) -> Option<&KeptCheckpoint>
        ensures { IfSome result (λ k. k.now.message.body ≡ checkpoint.now.body) }
    {
        let number = checkpoint.pos / u64::from(self.shape.k());
        if number > self.first + 2 {
            return None;
        }
        for host in 0..self.shape.n() {
            match self.get(number, host) {
                Some(kept) if has_same_floors(&kept.message, checkpoint) => return Some(kept),
                _ => {}
            }
        }
        None
    }

    /// A host's CHECKPOINT at a multiple of the interval.
    pub(crate) fn get(&self, number: u64, host: Host) -> Option<&KeptCheckpoint>
        requires host { host < host_count self.now.shape }
        requires number { number ≤ self.now.first + 2 }
        ensures { option_map (λ k. k.now) result ≡ kept_at self.now number host }
    {
        self.window.get(number * HOST_PLACES + u64::from(host) + 1)
    }

    /// The stable position becomes this one, a multiple of the interval. What lies below it is dropped. It takes no memory.
    pub fn raise(&mut self, low: Pos)
        requires above { low_of self.old ≤ low }
        requires most { low ≤ MAX_POS }
        requires multiple { (number : ℕ) × (low ≡ number * interval self.old.shape) }
        ensures stands { KeepsAbove self.old low self.new }
    {
        self.first = low / u64::from(self.shape.k());
        self.window.raise(self.first * HOST_PLACES);
    }
}

/// Whether two CHECKPOINTs came whole with the same floors.
fn has_same_floors(first: &Checkpoint, second: &Checkpoint) -> bool
    ensures { result ≡ true → first.now.body ≡ second.now.body }
{
    let Body::Whole(own) = &first.body else {
        return false;
    };
    let Body::Whole(other) = &second.body else {
        return false;
    };
    own == other
}

ghost use Rattle.std.specs.Prelude.{◌≤◌, true, Some, None, slice_set, ◌-◌};
ghost use Rattle.mb_window.specs.Places.{places};

/// Writes an item into the place of a position of the window, whether it is empty or not.
fn write<T: Drop>(window: &mut Window<T>, pos: Pos, item: T)
    requires above { window.old.low < pos }
    requires within { pos ≤ window.old.low + length window.old.items }
    ensures { window.new ≡ places window.old.low (slice_set window.old.items (pos - window.old.low - 1) (Some item)) }
{
    if let Some(place) = window.get_mut(pos) {
        *place = item;
        return;
    }
    let _put = window.put(pos, item);
}
