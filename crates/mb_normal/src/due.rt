//! The rules of the normal case.

use crate::normal::Normal;
use mb_base::{Client, Pos};
use mb_model::KnownSlot;
use mb_msg::{MAX_POS, Request};
use mb_parts::{Floor, Phase};
use mb_votes::Vote;

/// How many batches above the executed ones the primary orders at most.
const AHEAD: u64 = 4;

/// What is due of the normal case.
#[derive(Clone, Copy, PartialEq, Eq)]
pub enum Due {
    Nothing,
    /// COMMIT the slot of a position.
    Commit { pos: Pos },
    /// Execute the batch of a position.
    Execute { pos: Pos },
    /// PREPARE a batch at the next position.
    Prepare,
}

impl Normal {
    ghost use Rattle.std.specs.Prelude.{◌≡◌, ◌+◌, ◌<◌, ◌^◌, ◌&&◌, ◌==◌, ℕ, nat_lt, nat_le, not, is_some, option_copied, IfSome};
    ghost use Rattle.mb_base.specs.Shapes.{client_count, span, quorum, primary};
    ghost use Rattle.mb_base.specs.declared.shape.Shape.{Shape as ShapeValue};
    ghost use Rattle.mb_parts.specs.Fits.{FitsText};
    ghost use Rattle.mb_model.specs.Batches.{first_batch};
    ghost use Rattle.mb_model.specs.Positions.{slot_vote, position_limit};
    ghost use Rattle.mb_normal.specs.Searches.{Searches, matching, unordered, unordered_of};
    ghost use Rattle.mb_normal.specs.Tables.{Represents, batch_of};
    ghost use Rattle.mb_normal.specs.Rules.{first_rule, is_committed, Names, may_prepare};

    /// The first rule of the normal case that is enabled, where this host stands `at`, has executed up to `exec`, and `low` is the stable
    /// position: of another `low` nothing is said. Positions are below 2^63. `room` says whether its log has room for a vote. Every pending request
    /// counts as fresh, since served ones are settled.
    pub fn due(&self, at: &Floor, exec: Pos, low: Pos, room: bool) -> Due
        requires last { at.now.last < 2 ^ 63 }
        requires exec { exec < 2 ^ 63 }
        ensures { (s : ShapeValue) (h : ℕ) (x : Searches) → Represents s h self.now x → x.low ≡ low → Names result (first_rule s h x at.now exec room) }
    {
        if !is_open(at.phase) {
            return Due::Nothing;
        }
        if self.may_commit(at, room) {
            return Due::Commit { pos: at.last + 1 };
        }
        if self.may_execute(exec, low) {
            return Due::Execute { pos: exec + 1 };
        }
        if self.may_prepare(at, exec, low, room) {
            return Due::Prepare;
        }
        Due::Nothing
    }

    /// This host is the primary of its view.
    fn leads(&self, at: &Floor) -> bool
        ensures { result ≡ (self.now.host == primary self.now.shape at.now.view) }
    {
        self.host == self.shape.primary(at.view)
    }

    /// A backup has the slot of the next position, with its batch.
    fn may_commit(&self, at: &Floor, room: bool) -> bool
        requires { at.now.last < 2 ^ 63 }
        ensures { (s : ShapeValue) (h : ℕ) (x : Searches) → Represents s h self.now x
            → result ≡ (not (h == primary s at.now.view) && (room && is_some (batch_of (x.slots (at.now.last + 1))))) }
    {
        !self.leads(at) && room && self.batch_at(at.last + 1).is_some()
    }

    /// All that is stable is executed, and the slot of the next position can be.
    fn may_execute(&self, exec: Pos, low: Pos) -> bool
        requires { exec < 2 ^ 63 }
        ensures { (s : ShapeValue) (h : ℕ) (x : Searches) → Represents s h self.now x → result ≡ (nat_le low exec && is_committed s x (exec + 1) (x.slots (exec + 1))) }
    {
        low <= exec && self.is_committed(exec + 1)
    }

    /// f+1 votes are for the slot of a position, whose batch is there.
    fn is_committed(&self, pos: Pos) -> bool
        ensures { (s : ShapeValue) (h : ℕ) (x : Searches) → Represents s h self.now x → result ≡ is_committed s x pos (x.slots pos) }
    {
        match self.slots.get(pos) {
            Some(slot) => slot.batch.is_some() && self.has_quorum(pos, slot),
            None => false,
        }
    }

    /// f+1 votes are for this slot of a position.
    fn has_quorum(&self, pos: Pos, slot: &KnownSlot) -> bool
        ensures { (s : ShapeValue) (h : ℕ) (x : Searches) → Represents s h self.now x → result ≡ nat_le (quorum s) (matching s x pos (slot_vote slot.now)) }
    {
        let vote = Vote {
            counter: slot.counter,
            request: slot.digest,
        };
        self.shape.quorum() <= self.votes.matching(pos, &vote)
    }

    /// The primary has a request to order, at a position of the window that is not too far ahead.
    fn may_prepare(&self, at: &Floor, exec: Pos, low: Pos, room: bool) -> bool
        requires last { at.now.last < 2 ^ 63 }
        requires exec { exec < 2 ^ 63 }
        ensures { (s : ShapeValue) (h : ℕ) (x : Searches) → Represents s h self.now x → x.low ≡ low → result ≡ may_prepare s x h at.now exec room }
    {
        self.leads(at)
            && self.is_in_window(low, at.last)
            && at.last < exec + AHEAD
            && room
            && self.has_unordered()
    }

    /// Whether the position behind this one is in the window.
    fn is_in_window(&self, low: Pos, last: Pos) -> bool
        ensures { result ≡ (nat_lt low (last + 1) && (nat_le (last + 1) (low + span self.now.shape) && nat_le (last + 1) position_limit)) }
    {
        last < MAX_POS && last >= low && last - low < u64::from(self.shape.span())
    }

    /// Whether a client has a pending request that isn't ordered in the slots.
    fn has_unordered(&self) -> bool
        ensures { (s : ShapeValue) (h : ℕ) (x : Searches) → Represents s h self.now x → result ≡ is_some (first_batch (unordered s x)) }
    {
        for client in 0..self.shape.clients() {
            if self.unordered_of(client).is_some() {
                return true;
            }
        }
        false
    }

    /// A client's pending request, where it is above the client's greatest number in the slots.
    pub(crate) fn unordered_of(&self, client: Client) -> Option<&Request>
        requires { client < client_count self.now.shape }
        ensures found { (s : ShapeValue) (h : ℕ) (x : Searches) → Represents s h self.now x → option_copied result ≡ unordered_of s x client }
        ensures short { IfSome result (λ r. FitsText r.now.op) }
    {
        match self.pending.get(client) {
            Some(request) if request.seq > self.slots.greatest_of(client) => Some(request),
            _ => None,
        }
    }
}

ghost use Rattle.std.specs.Prelude.{◌≡◌};
ghost use Rattle.mb_parts.specs.Ordered.{phase_is_open};

fn is_open(phase: Phase) -> bool
    ensures { result ≡ phase_is_open phase }
{
    phase == Phase::Open
}
