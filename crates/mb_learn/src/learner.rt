//! The learner.

ghost use Rattle.std.specs.Prelude.{◌≡◌, false};
ghost use Rattle.std.proofs.Props.{props};
ghost use Rattle.mb_learn.specs.AllowedProps.{stamped_prop};
ghost use Rattle.mb_learn.specs.Running.{IsRunning};

use crate::difference::Difference;
use crate::heard::Heard;
use crate::line::Line;
use mb_base::{Digest, Key, NoMemory, Pos, Shape};
use mb_msg::Slot;
use mb_service::Service;
use std::alloc::Global;

/// Why a byte string was not learnt from.
#[derive(Clone, Copy, Debug, PartialEq, Eq)]
pub enum LearnStop {
    /// An earlier call ended with `NoMemory` or `Differs`.
    Halted,
    /// At the lowest such position f+1 hosts say that their states have another digest than the learner's.
    Differs {
        /// The position.
        pos: Pos,
        /// The learner's digest there.
        found: Digest,
        /// The digest that f+1 hosts say.
        certified: Digest,
    },
    /// Memory ran out.
    NoMemory,
}

impl From<NoMemory> for LearnStop {
    ghost use Rattle.std.specs.Prelude.{◌≡◌};
    ghost use Rattle.mb_learn.specs.declared.learner.LearnStop.TheVariants as variants;

    ghost from_gives = { λ _ stop. stop ≡ variants.NoMemory };

    fn from(_e: NoMemory) -> LearnStop {
        LearnStop::NoMemory
    }
}

/// Executes what byte strings prove, one position after the other, over a service.
#[derive(Drop)]
pub struct Learner<V> {
    heard: Heard,
    line: Line<V>,
    halted: bool,
    ghost runs: { halted ≡ false → IsRunning heard line } by { Prim.hlevel (props, stamped_prop) },
}

impl<V: Service + Drop> Learner<V> {
    ghost use Rattle.std.specs.Prelude.{◌≡◌, ◌+◌, ◌≤◌, ◌++◌, ◌∷◌, [], true, OnOk, IfOk, IfSome, IfNone, length};
    ghost use Rattle.mb_cache.specs.Represents.{machine_of, snapshots_of};
    ghost use Rattle.mb_learn.specs.declared.difference.Difference.{Difference as TheDifference};
    ghost use Rattle.mb_learn.specs.Differences.{IsDifference, IsLowest, IsNowhere};
    ghost use Rattle.mb_learn.specs.Halting.{Halts};
    ghost use Rattle.mb_learn.specs.Hearing.{AddsNews};
    ghost use Rattle.mb_learn.specs.Proved.{digest_behind};
    ghost use Rattle.mb_learn.specs.Learners.{Represents, Answers, WhereLearnt, ExecutesProved, Compared};

    /// A learner that took nothing yet. The service is the one from which the hosts of the system start.
    pub fn make(
        alloc: Global,
        shape: Shape,
        secret: &Key,
        service: V,
    ) -> Result<Learner<V>, NoMemory>
        ensures { IfOk result (Represents shape secret.now (machine_of V.machine) (snapshots_of V.machine) service [] []) }
    {
        Ok(Learner {
            heard: Heard::make(alloc, shape, secret)?,
            line: Line::make(alloc, shape, service)?,
            halted: false,
        })
    }

    /// Takes one byte string, executes what is proved by now, and answers how many positions these are. Bytes that show nothing are taken, too.
    ///
    /// `Differs` comes exactly where f+1 hosts say another digest of the state at an executed multiple of the interval than the learner has there.
    pub fn learn(&mut self, alloc: Global, bytes: &[u8]) -> Result<u64, LearnStop>
        ensures answers { WhereLearnt V.machine self.old (λ s secret initial taken slots. Answers s secret (machine_of V.machine) (snapshots_of V.machine) initial (taken ++ bytes.now ∷ []) slots result self.new) }
        ensures halts { Halts self.old result self.new }
    {
        if self.halted {
            return Err(LearnStop::Halted);
        }
        self.halted = true;
        self.heard.take(alloc, bytes)?;
        let before = self.line.executed();
        self.execute_proved(alloc)?;
        self.compare()?;
        self.halted = false;
        Ok(self.line.executed() - before)
    }

    /// The executed positions, from 1 on.
    pub fn line(&self) -> &[Slot]
        ensures { WhereLearnt V.machine self.now (λ s secret initial taken slots. result.now ≡ slots) }
    {
        self.line.slots()
    }

    /// The state digest at the last executed position. The state stays as it is.
    pub fn state(&mut self, alloc: Global) -> Result<Digest, NoMemory>
        ensures digest { WhereLearnt V.machine self.old (λ s secret initial taken slots. IfOk result (λ d. d ≡ digest_behind s (machine_of V.machine) initial (snapshots_of V.machine) slots (length slots))) }
        ensures kept { self.new ≡ self.old }
    {
        self.line.state(alloc)
    }

    /// Whether an earlier call ended with `NoMemory` or `Differs`.
    pub fn halted(&self) -> bool
        ensures { result ≡ self.now.halted }
    {
        self.halted
    }

    /// Executes one position after the other, as long as a batch is proved at the next one.
    fn execute_proved(&mut self, alloc: Global) -> Result<(), NoMemory>
        requires halted { self.old.halted ≡ true }
        requires running { IsRunning self.old.heard self.old.line }
        ensures running { OnOk result (IsRunning self.new.heard self.new.line) }
        ensures halted { self.new.halted ≡ true }
        ensures longer { OnOk result (length self.old.line.slots.items ≤ length self.new.line.slots.items) }
        ensures executed { ExecutesProved V.machine self.old result self.new }
        ensures news { OnOk result (AddsNews self.old.heard self.new.heard) }
    {
        while let Some(batch) = self.heard.proved() {
            self.line.execute(alloc, batch)?;
            self.heard.votes.raise();
            self.heard.newly_said.push(self.line.executed())?;
        }
        Ok(())
    }

    /// Compares the digests that hosts say newly, or of what is newly executed, with the own ones.
    fn compare(&mut self) -> Result<(), LearnStop>
        requires { self.old.halted ≡ true }
        ensures { Compared self.old result self.new }
    {
        let lowest = self.lowest_difference();
        self.heard.newly_said.clear();
        match lowest {
            Some(difference) => {
                let found = difference.found;
                let certified = difference.certified;
                Err(LearnStop::Differs {
                    pos: difference.pos,
                    found,
                    certified,
                })
            }
            None => Ok(()),
        }
    }

    /// What differs at the lowest of the noted positions.
    fn lowest_difference(&self) -> Option<Difference>
        ensures some { IfSome result (IsLowest self.now.heard self.now.line self.now.heard.newly_said.items) }
        ensures none { IfNone result (IsNowhere self.now.heard self.now.line self.now.heard.newly_said.items) }
    {
        let mut lowest = None;
        for pos in self.heard.newly_said.as_slice() {
            lowest = Difference::lowest(lowest, self.difference_at(*pos));
        }
        lowest
    }

    /// What differs at a position.
    fn difference_at(&self, pos: Pos) -> Option<Difference>
        ensures some { IfSome result (λ d. (d.pos ≡ pos) × IsDifference self.now.heard self.now.line d) }
        ensures none { IfNone result ((d : TheDifference) → d.pos ≡ pos → IsDifference self.now.heard self.now.line d → ⊥) }
    {
        let found = self.line.state_at(pos)?;
        let certified = self
            .heard
            .checkpoints
            .other_than(&self.heard.shape, pos, found)?;
        Some(Difference {
            pos,
            found: *found,
            certified,
        })
    }
}
