//! A gate for the stamped messages of one sender.

ghost use Rattle.std.specs.Prelude.{◌<◌};
ghost use Rattle.mb_base.specs.Shapes.{host_count};

use crate::kind::Kind;
use crate::offer::Offer;
use crate::recent::Recent;
use crate::rules;
use mb_base::{Counter, Host, Pos, Shape};
use mb_parts::{Floor, Mark, Phase};

/// Takes the stamped messages of one sender, one counter after the other, as long as each may stand behind those before it. The first that
/// may not closes the gate for good.
///
/// The caller passes marks of messages whose identifier is the sender's and verifies.
#[derive(Clone, Copy, PartialEq, Eq)]
pub struct Gate {
    shape: Shape,
    sender: Host,
    /// Where the sender stands behind the last message that was taken.
    at: Floor,
    /// The counter of the message that closed the gate.
    closed: Option<Counter>,
    recent: Recent,
    ghost sender_in: { sender < host_count shape },
}

impl Gate {
    ghost use Rattle.std.specs.Prelude.{◌≡◌, ◌+◌, ◌-◌, ◌^◌, ◌<◌, min, Some, IsTrue};
    ghost use Rattle.mb_base.specs.Shapes.{host_count};
    ghost use Rattle.mb_parts.specs.Bares.{Bare};
    ghost use Rattle.mb_parts.specs.Ordered.{initial_floor};
    ghost use Rattle.mb_parts.specs.Rules.{shut_before};
    ghost use Rattle.mb_gate.specs.Answers.{answer, log_after, may_jump, log_after_jump, TakesNext};
    ghost use Rattle.mb_gate.specs.Marks.{IsMarkOf, is_stamped_kind};
    ghost use Rattle.mb_gate.specs.Represents.{Represents};
    ghost use Rattle.mb_gate.specs.SenderLogs.{SenderLog, log_from, standing, floor_below};

    /// A gate for a sender of which nothing was taken yet. It waits for counter 1.
    pub fn new(shape: Shape, sender: Host) -> Gate
        requires { sender < host_count shape }
        ensures { Represents result (log_from shape sender initial_floor) }
    {
        let start = Floor {
            counter: 0,
            view: 0,
            phase: Phase::Open,
            last: 0,
            top: 0,
            point: 0,
        };
        Gate::from(shape, sender, start)
    }

    /// A gate that stands at a floor, as after a jump to it.
    pub fn from(shape: Shape, sender: Host, floor: Floor) -> Gate
        requires { sender < host_count shape }
        ensures { Represents result (log_from shape sender floor) }
    {
        Gate {
            shape,
            sender,
            at: floor,
            closed: None,
            recent: Recent::start(floor),
        }
    }

    /// What `offer` would answer.
    pub fn judge(&self, mark: &Mark, inner: bool) -> Offer
        requires { IsTrue (is_stamped_kind mark.now.kind) }
        ensures { (log : SenderLog) (m : Bare) → Represents self.now log → IsMarkOf mark.now m
            → result ≡ answer log m mark.now.counter inner }
    {
        if let Some(counter) = self.conviction(mark.counter) {
            return Offer::Convicted { counter };
        }
        let next = self.next();
        if mark.counter <= self.at.counter {
            return Offer::Stale { next };
        }
        if mark.counter > next {
            return Offer::Ahead { next };
        }
        let kind = Kind::of(mark);
        if !rules::permits(&self.shape, self.sender, &self.at, kind, mark, inner) {
            return Offer::Illegal { rule: kind.rule() };
        }
        Offer::Next
    }

    /// Offers a message by its mark. The gate advances at `Next`, is closed at `Illegal`, and doesn't change otherwise.
    ///
    /// `inner` says that the certificates in the message are valid: the evidence of an OPEN, evidence and stable certificate of a JOIN, the
    /// PREPARE's certificate in a COMMIT. It isn't read for the other kinds.
    pub fn offer(&mut self, mark: &Mark, inner: bool) -> Offer
        requires { IsTrue (is_stamped_kind mark.now.kind) }
        ensures answer { (log : SenderLog) (m : Bare) → Represents self.old log → IsMarkOf mark.now m
            → result ≡ answer log m mark.now.counter inner }
        ensures stands { (log : SenderLog) (m : Bare) → Represents self.old log → IsMarkOf mark.now m
            → Represents self.new (log_after log m mark.now.counter result) }
    {
        let answer = self.judge(mark, inner);
        match answer {
            Offer::Next => self.follow(mark),
            Offer::Illegal { .. } => self.close(mark.counter),
            Offer::Stale { .. } | Offer::Ahead { .. } | Offer::Convicted { .. } => {}
        }
        answer
    }

    /// Takes a message that is next: one that was judged so before, or one of the gate's own host. It is not judged again.
    pub fn follow(&mut self, mark: &Mark)
        requires { IsTrue (is_stamped_kind mark.now.kind) }
        ensures { TakesNext self.old mark.now self.new }
    {
        let kind = Kind::of(mark);
        self.at = rules::behind(&self.at, kind, mark);
        if let Kind::Checkpoint = kind {
            self.recent.push(self.at);
        }
    }

    /// Closes the gate at a counter. One that is closed is closed at this counter from now on.
    pub fn close(&mut self, counter: Counter)
        ensures { (log : SenderLog) → Represents self.old log → Represents self.new (record log { closed = Some counter }) }
    {
        self.closed = Some(counter);
    }

    /// Goes on from a floor, and forgets what stands before it. True exactly where the floor's counter is not below the next one and the gate
    /// is not closed; the gate doesn't change otherwise.
    pub fn jump(&mut self, floor: &Floor) -> bool
        ensures answer { (log : SenderLog) → Represents self.old log → result ≡ may_jump log floor.now }
        ensures stands { (log : SenderLog) → Represents self.old log → Represents self.new (log_after_jump log floor.now) }
    {
        if self.closed.is_some() || floor.counter <= self.at.counter {
            return false;
        }
        *self = Gate::from(self.shape, self.sender, *floor);
        true
    }

    /// Of where the sender stood behind its last two CHECKPOINTs that were taken, the later whose position is under `below`. A jump counts as
    /// one, and forgets those before it.
    pub fn floor(&self, below: Pos) -> Option<Floor>
        ensures { (log : SenderLog) → Represents self.now log → result ≡ floor_below log below }
    {
        self.recent.below(below)
    }

    /// Where the sender stands behind what was taken.
    pub fn at(&self) -> Floor
        ensures { (log : SenderLog) → Represents self.now log → result ≡ standing log }
    {
        self.at
    }

    /// The counter that the gate waits for, or 2^64 - 1 where none is left.
    fn next(&self) -> Counter
        ensures { result ≡ min (self.now.at.counter + 1) (2 ^ 64 - 1) }
    {
        self.at.counter.saturating_add(1)
    }

    /// Where the gate was closed at a counter that is not above this one: that counter.
    fn conviction(&self, counter: Counter) -> Option<Counter>
        ensures { result ≡ shut_before self.now.closed counter }
    {
        self.closed.filter(|closed| *closed <= counter)
    }
}
