//! What a host reads of the messages that another host stamped, and where that stands.

ghost use Rattle.std.specs.Prelude.{◌≡◌, ◌↔◌, ◌++◌, IsTrue, OnOk};
ghost use Rattle.mb_base.specs.Fields.{place_of};
ghost use Rattle.mb_parts.specs.Decoded.{Decodes};
ghost use Rattle.mb_parts.specs.Fits.{FitsFloor};
ghost use Rattle.mb_parts.specs.Spelling.{phase_number, floor_bytes};
ghost use Rattle.mb_parts.specs.Reading.{phase_at, floor_at};

use crate::counting::{count_u8, count_u64};
use crate::fault::Undecoded;
use crate::numbers::{is_counter, is_place, read_counter, read_place};
use crate::part::{Part, Readable};
use mb_base::{Counter, Fields, NoMemory, Pos, Shape, View, put_u8, put_u64};
use std::alloc::Global;

/// Where a host stands in its view: it left the view before, it takes part in the change, or the view is open for it.
#[derive(Clone, Copy, PartialEq, Eq)]
pub enum Phase {
    Changing,
    Entered,
    Open,
}

/// How far a host's stamped messages were taken, right after one of its CHECKPOINTs.
#[derive(Clone, Copy, PartialEq, Eq)]
pub struct Floor {
    /// The counter of that CHECKPOINT.
    pub counter: Counter,
    pub view: View,
    pub phase: Phase,
    /// The position of the last vote in this view, or the view's end where it has none yet.
    pub last: Pos,
    /// The greatest position voted for, in all views.
    pub top: Pos,
    /// The position of the last CHECKPOINT.
    pub point: Pos,
}

/// What is read of a stamped message to see whether it comes in order. A field that the kind does not have is 0.
#[derive(Clone, Copy, PartialEq, Eq)]
pub struct Mark {
    /// The first byte of the message.
    pub kind: u8,
    pub view: View,
    /// The message's position, or that of the stable certificate of a JOIN.
    pub pos: Pos,
    /// The end of the evidence of an OPEN or a JOIN.
    pub end: Pos,
    pub counter: Counter,
}

impl Phase {
    /// 0 for Changing, 1 for Entered, 2 for Open.
    pub(crate) fn number(self) -> u8
        ensures { result ≡ phase_number self }
    {
        match self {
            Phase::Changing => 0,
            Phase::Entered => 1,
            Phase::Open => 2,
        }
    }

    #[tactic(auto, unfolding(crate::specs::Reading::phase_at))]
    fn read(fields: &mut Fields<'_>) -> Result<Phase, Undecoded>
        ensures { Decodes result fields.new (phase_at (place_of fields.old)) }
    {
        match fields.u8_in(0, 2)? {
            0 => Ok(Phase::Changing),
            1 => Ok(Phase::Entered),
            _ => Ok(Phase::Open),
        }
    }
}

impl Part for Floor {
    ghost text = { floor_bytes };

    ghost valid = { λ s. FitsFloor };

    fn fits(&self, shape: &Shape) -> bool {
        is_counter(self.counter)
            && is_place(self.view)
            && is_place(self.last)
            && is_place(self.top)
            && is_place(self.point)
    }

    #[tactic(auto, using(crate::proofs::CountedBytes::counted_behind), unfolding(crate::specs::Spelling::floor_bytes))]
    fn count(&self, shape: &Shape, so_far: usize) -> usize {
        let behind_view = count_u64(count_u64(so_far, self.counter), self.view);
        let behind_phase = count_u8(behind_view, self.phase.number());
        let behind_last = count_u64(behind_phase, self.last);
        count_u64(count_u64(behind_last, self.top), self.point)
    }

    #[tactic(auto, unfolding(crate::specs::Spelling::floor_bytes))]
    fn put(&self, shape: &Shape, out: &mut Vec<u8>) -> Result<(), NoMemory> {
        put_u64(out, self.counter)?;
        put_u64(out, self.view)?;
        put_u8(out, self.phase.number())?;
        put_u64(out, self.last)?;
        put_u64(out, self.top)?;
        put_u64(out, self.point)
    }
}

impl Readable for Floor {
    ghost reads = { λ s. floor_at };

    #[tactic(auto, unfolding(crate::specs::Reading::floor_at))]
    fn read(alloc: Global, shape: &Shape, fields: &mut Fields<'_>) -> Result<Floor, Undecoded> {
        let counter = read_counter(fields)?;
        let view = read_place(fields)?;
        let phase = Phase::read(fields)?;
        let last = read_place(fields)?;
        let top = read_place(fields)?;
        let point = read_place(fields)?;
        Ok(Floor {
            counter,
            view,
            phase,
            last,
            top,
            point,
        })
    }
}
