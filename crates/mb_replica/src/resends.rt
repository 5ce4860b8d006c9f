//! RESEND: a host asks another for what it stamped, and gets a LOG.

use crate::sending::StepOutput;
use crate::state::ReplicaState;
use mb_base::{Counter, Duplicate, Items, NoMemory};
use mb_msg::{FloorCert, Log, Message, Outcome, Resend, To};
use mb_service::Service;
use std::alloc::Global;

impl<V: Service + Drop> ReplicaState<V> {
    ghost use Rattle.std.specs.Prelude.{OnOk, ◌≡◌, IfOk, nat_le, None, if◌then◌else◌, map};
    ghost use Rattle.mb_model.specs.Sending.{Progress, send, to_all, next_of};
    ghost use Rattle.mb_model.specs.Given.{give_resend};
    ghost use Rattle.mb_replica.specs.Represents.{StandsAt, HasHistory, Represents};
    ghost use Rattle.std.specs.List.{range_with_len};
    ghost use Rattle.mb_base.specs.Shapes.{host_count};
    ghost use Rattle.mb_msg.specs.Fits.{FitsResend};
    ghost use Rattle.mb_model.specs.Histories.{Identity, History};
    ghost use Rattle.mb_model.specs.Stable.{log_floor};
    ghost use Rattle.mb_model.specs.OwnLog.{log_start};
    ghost use Rattle.mb_model.specs.PlainChecks.{resend_refusal, has_news_for};
    ghost use Rattle.mb_model.specs.Making.{expected, log_for, resend};

    /// Another host's, to which there is something to send.
    #[tactic(auto, unfolding(mb_model::specs::PlainChecks::resend_refusal))]
    fn resend_refusal(&self, m: &Resend) -> Option<Outcome>
        requires { FitsResend self.now.protocol.shape m.now }
        ensures { (me : Identity V) (d : History) → Represents me self.now d → result ≡ resend_refusal me d m.now }
    {
        if m.host == self.protocol.host {
            return Some(Outcome::Idle);
        }
        (!self.has_news_for(m)).then_some(Outcome::Idle)
    }

    /// A message that the host has not taken, or a greater stable position.
    fn has_news_for(&self, m: &Resend) -> bool
        requires { FitsResend self.now.protocol.shape m.now }
        ensures { (me : Identity V) (d : History) → Represents me self.now d → result ≡ has_news_for me d m.now }
    {
        self.expected(m) <= self.protocol.usig.counter() || m.low < self.low()
    }

    /// The counter that the asking host expects of this one.
    fn expected(&self, m: &Resend) -> Counter
        requires { FitsResend self.now.protocol.shape m.now }
        ensures { (me : Identity V) (d : History) → Represents me self.now d → result ≡ expected me m.now }
    {
        m.nexts.as_slice()[usize::from(self.protocol.host)]
    }

    /// A LOG goes to who asks.
    pub(crate) fn give_resend(
        &self,
        alloc: Global,
        m: &Resend,
        done: &mut StepOutput,
    ) -> Result<Outcome, NoMemory>
        requires fits { FitsResend self.now.protocol.shape m.now }
        requires history { HasHistory self.now }
        ensures { (me : Identity V) (x : Progress) → StandsAt me self.now done.old x → IfOk result (λ o. (o ≡ (give_resend me m.now x).outcome) × StandsAt me self.now done.new (give_resend me m.now x).left) }
    {
        if let Some(outcome) = self.resend_refusal(m) {
            return Ok(outcome);
        }
        let message = self.log_for(alloc, m)?;
        self.send_own(alloc, To::Host(m.host), message, done)?;
        Ok(Outcome::Took)
    }

    /// What the asking host has not taken yet.
    fn log_for(&self, alloc: Global, m: &Resend) -> Result<Message, NoMemory>
        requires { FitsResend self.now.protocol.shape m.now }
        ensures { (me : Identity V) (d : History) → Represents me self.now d → IfOk result (λ o. o ≡ log_for me d m.now) }
    {
        let expected = self.expected(m);
        Ok(Message::Log(Log {
            host: self.protocol.host,
            floor: self.floor_for(alloc, expected)?,
            stable: self.protocol.stable.duplicate(alloc)?,
            evidence: self.evidence_here(alloc)?,
            entries: self.protocol.log.since(alloc, expected)?,
        }))
    }

    /// The floor is shown where the messages that are expected are cut away.
    fn floor_for(&self, alloc: Global, expected: Counter) -> Result<Option<FloorCert>, NoMemory>
        ensures { (me : Identity V) (d : History) → Represents me self.now d → IfOk result (λ o. o ≡ (if nat_le expected (log_start me d) then log_floor me d else None)) }
    {
        match self.protocol.log.floor() {
            Some(cert) if expected <= self.protocol.log.start() => Ok(Some(cert.duplicate(alloc)?)),
            _ => Ok(None),
        }
    }

    // ---- the own one

    /// Asks all for what they stamped.
    pub fn send_resend(&self, alloc: Global, done: &mut StepOutput) -> Result<(), NoMemory>
        requires { HasHistory self.now }
        ensures { (me : Identity V) (x : Progress) → StandsAt me self.now done.old x → OnOk result (StandsAt me self.now done.new (send (to_all (resend me x.history)) x)) }
    {
        let message = self.resend(alloc)?;
        self.send_own(alloc, To::All, message, done)
    }

    fn resend(&self, alloc: Global) -> Result<Message, NoMemory>
        ensures { (me : Identity V) (d : History) → Represents me self.now d → IfOk result (λ o. o ≡ resend me d) }
    {
        Ok(Message::Resend(Resend {
            host: self.protocol.host,
            low: self.low(),
            nexts: self.nexts(alloc)?,
        }))
    }

    /// The next counter that is expected of each host, the greatest one also where none is left.
    fn nexts(&self, alloc: Global) -> Result<Items<Counter>, NoMemory>
        ensures { (me : Identity V) (d : History) → Represents me self.now d → IfOk result (λ o. o ≡ map (next_of d) (range_with_len 0 (host_count me.shape))) }
    {
        let mut nexts = Items::new(alloc);
        for gate in self.protocol.gates.as_slice() {
            nexts.push(gate.at().counter.saturating_add(1))?;
        }
        Ok(nexts)
    }
}
