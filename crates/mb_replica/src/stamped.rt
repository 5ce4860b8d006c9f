//! A given stamped message: why it is refused, and what it does where it is not.

use crate::arrival::{Arrival, Checked, Finding};
use crate::state::ReplicaState;
use mb_base::{Counter, Digest, Host, NoMemory, Ui};
use mb_msg::{Body, Commit, Mark, Outcome, Plan, Stamped};
use mb_service::Service;
use std::alloc::Global;

impl<V: Service + Drop> ReplicaState<V> {
    ghost use Rattle.std.specs.Prelude.{◌<◌, Some, None, OnOk, ◌≡◌, IfOk, IsTrue};
    ghost use Rattle.mb_base.specs.Shapes.{host_count};
    ghost use Rattle.mb_model.specs.Sending.{Progress};
    ghost use Rattle.mb_model.specs.Given.{give_stamped, closing, accept};
    ghost use Rattle.mb_replica.specs.Represents.{Represents, HasHistory};
    ghost use Rattle.mb_replica.specs.Steps.{AnswersQuietly, Goes, Closes};
    ghost use Rattle.mb_replica.specs.declared.sending.StepOutput.{StepOutput};
    ghost use Rattle.mb_msg.specs.declared.stamped.Stamped.TheVariants as stamped;
    ghost use Rattle.mb_msg.specs.Fits.{FitsStamped};
    ghost use Rattle.mb_model.specs.Histories.{Identity, History};
    ghost use Rattle.mb_model.specs.GateChecks.{identifier_refusal};
    ghost use Rattle.mb_model.specs.KindChecks.{kind_refusal, stamped_refusal};
    ghost use Rattle.mb_replica.specs.Arrivals.{IsArrival};
    ghost use Rattle.mb_replica.specs.Told.{KnowsBody};
    ghost use Rattle.mb_replica.specs.Holding.{Announces};
    ghost use Rattle.mb_gate.specs.Marks.{is_stamped_kind};
    ghost use Rattle.mb_replica.specs.Between.{AwaitsGate, IsNoCommit, LetsPass, GateFollows, GateCloses};
    ghost use Rattle.mb_msg.specs.AsStamped.{stamped_digest};

    /// Gives a stamped message, of which the digest of the body may be known.
    pub(crate) fn give_stamped(
        &mut self,
        alloc: Global,
        message: Stamped,
        known: &Option<Digest>,
    ) -> Result<Outcome, NoMemory>
        requires fits { FitsStamped self.old.protocol.shape message }
        requires stands { HasHistory self.old }
        requires known { KnowsBody known.now message }
        ensures { AnswersQuietly (λ me x. give_stamped me message x) result self.old self.new }
    {
        let known = self.known_body(&message, known);
        let arrival = Arrival::of(alloc, &self.protocol.shape, message, &known)?;
        let checked = self.checked(alloc, arrival)?;
        match checked.finding.refusal {
            None => {
                self.accept(alloc, checked.arrival, checked.finding.plan)?;
                Ok(Outcome::Took)
            }
            Some(outcome) => {
                self.closing(outcome, &checked.arrival.ui);
                drop(checked);
                Ok(outcome)
            }
        }
    }

    /// The digest of a message's body, where it is known: that of a COMMIT may be kept in the slot of its position, that of a CHECKPOINT with a
    /// kept one of its position, and else it is taken here.
    fn known_body(&self, message: &Stamped, known: &Option<Digest>) -> Option<Digest>
        requires { KnowsBody known.now message.now }
        ensures { KnowsBody result message.now }
    {
        match message {
            Stamped::Commit(m) if known.is_none() => self.digest_in_slot(m),
            Stamped::Checkpoint(m) if known.is_none() => {
                Some(self.protocol.normal.floors_digest(m))
            }
            _ => *known,
        }
    }

    /// The digest of a COMMIT's batch, where the slot of its position has the same batch and keeps its digest.
    fn digest_in_slot(&self, m: &Commit) -> Option<Digest>
        ensures { KnowsBody result (stamped.Commit m.now) }
    {
        let Body::Whole(batch) = &m.body else {
            return None;
        };
        let ordered = self.protocol.normal.batch_at(m.pos)?;
        if ordered == batch {
            ordered.kept_digest()
        } else {
            None
        }
    }

    /// A stamped message, and what is found of it. Those of view changes may be large and keep digests: the others are not moved for it.
    fn checked(&self, alloc: Global, arrival: Arrival) -> Result<Checked, NoMemory>
        requires { IsArrival self.now.protocol.shape arrival }
        ensures arrives { IfOk result (λ c. IsArrival self.now.protocol.shape c.arrival × (c.arrival.message ≡ arrival.message)) }
        ensures refusal { (me : Identity V) (d : History) → Represents me self.now d → IfOk result (λ c. c.finding.refusal ≡ stamped_refusal me d c.arrival.message) }
        ensures plan { IfOk result (λ c. c.finding.refusal ≡ None → Announces self.now c.arrival.message c.finding.plan) }
    {
        match &arrival.message {
            Stamped::ViewChange(_) | Stamped::NewView(_) | Stamped::Open(_) => {
                self.checked_change(alloc, arrival)
            }
            _ => {
                let finding = self.finding(alloc, &arrival);
                arrival.with_finding(finding)
            }
        }
    }

    /// What is found of a message that keeps no digests.
    #[tactic(auto, unfolding(mb_model::specs::KindChecks::stamped_refusal))]
    fn finding(&self, alloc: Global, arrival: &Arrival) -> Result<Finding, NoMemory>
        requires { IsArrival self.now.protocol.shape arrival.now }
        ensures refusal { (me : Identity V) (d : History) → Represents me self.now d → IfOk result (λ f. f.refusal ≡ stamped_refusal me d arrival.now.message) }
        ensures plan { IfOk result (λ f. f.refusal ≡ None → Announces self.now arrival.now.message f.plan) }
    {
        let finding = self.identifier_finding(alloc, arrival)?;
        if finding.refusal.is_some() {
            return Ok(finding);
        }
        self.kind_finding(alloc, &arrival.message)
    }

    /// A stamped message, and what is found of it. Once its identifier has passed, a VIEW_CHANGE, a NEW_VIEW or an OPEN keeps digests.
    #[inline(never)]
    #[tactic(auto, unfolding(mb_model::specs::KindChecks::stamped_refusal))]
    fn checked_change(&self, alloc: Global, arrival: Arrival) -> Result<Checked, NoMemory>
        requires { IsArrival self.now.protocol.shape arrival }
        ensures arrives { IfOk result (λ c. IsArrival self.now.protocol.shape c.arrival × (c.arrival.message ≡ arrival.message)) }
        ensures refusal { (me : Identity V) (d : History) → Represents me self.now d → IfOk result (λ c. c.finding.refusal ≡ stamped_refusal me d c.arrival.message) }
        ensures plan { IfOk result (λ c. c.finding.refusal ≡ None → Announces self.now c.arrival.message c.finding.plan) }
    {
        let finding = self.identifier_finding(alloc, &arrival);
        let checked = arrival.with_finding(finding)?;
        if checked.finding.refusal.is_some() {
            return Ok(checked);
        }
        let arrival = checked.arrival.with_digests(alloc, &self.protocol.shape)?;
        let arrival = self.with_plan_digests(alloc, arrival)?;
        let finding = self.kind_finding(alloc, &arrival.message);
        arrival.with_finding(finding)
    }

    /// The same, of its identifier alone.
    fn identifier_finding(&self, alloc: Global, arrival: &Arrival) -> Result<Finding, NoMemory>
        requires { IsArrival self.now.protocol.shape arrival.now }
        ensures { (me : Identity V) (d : History) → Represents me self.now d → IfOk result (λ f. f.refusal ≡ identifier_refusal me d arrival.now.message) }
    {
        let refusal = self.identifier_refusal(alloc, arrival)?;
        Ok(Finding::without_plan(refusal))
    }

    /// A given message, of which an OPEN keeps the digests of its batches. An error is want of memory.
    fn with_plan_digests(&self, alloc: Global, arrival: Arrival) -> Result<Arrival, NoMemory>
        requires { FitsStamped self.now.protocol.shape arrival.message }
        ensures { IfOk result (λ a. a ≡ arrival) }
    {
        let Arrival {
            message,
            ui,
            mark,
            body,
        } = arrival;
        let message = match message {
            Stamped::Open(m) => Stamped::Open(self.with_batch_digests(alloc, m)?),
            other => other,
        };
        Ok(Arrival {
            message,
            ui,
            mark,
            body,
        })
    }

    /// The same, of its kind. Of an ENTER and of a JOIN the gate asks all that there is.
    fn kind_finding(&self, alloc: Global, message: &Stamped) -> Result<Finding, NoMemory>
        requires { FitsStamped self.now.protocol.shape message.now }
        ensures refusal { (me : Identity V) (d : History) → Represents me self.now d → IfOk result (λ f. f.refusal ≡ kind_refusal me d message.now) }
        ensures plan { IfOk result (λ f. f.refusal ≡ None → Announces self.now message.now f.plan) }
    {
        match message {
            Stamped::Prepare(m) => {
                let refusal = self.vote_refusal(alloc, m.view, m.pos, &m.body)?;
                Ok(Finding::without_plan(refusal))
            }
            Stamped::Commit(m) => {
                let refusal = self.vote_refusal(alloc, m.view, m.pos, &m.body)?;
                Ok(Finding::without_plan(refusal))
            }
            Stamped::Checkpoint(m) => Ok(Finding::without_plan(self.checkpoint_refusal(m.pos))),
            Stamped::ViewChange(m) => Ok(Finding::without_plan(self.change_refusal(alloc, m)?)),
            Stamped::NewView(m) => self.new_view_finding(alloc, m),
            Stamped::Open(m) => Ok(Finding::without_plan(self.open_refusal(alloc, m)?)),
            Stamped::Enter(_) | Stamped::Join(_) => Ok(Finding::without_plan(None)),
        }
    }

    /// A message that may not stand there closes its sender's gate at its counter.
    pub(crate) fn closing(&mut self, outcome: Outcome, ui: &Ui)
        requires { ui.now.host < host_count self.old.protocol.shape }
        ensures { (me : Identity V) (x : Progress) → Closes me x ui.now outcome self.old self.new }
    {
        if let Outcome::Illegal { .. } = outcome {
            self.close_gate(ui.host, ui.counter);
        }
    }

    // ---- one gate

    /// The gate of a host takes a message that is next there.
    pub fn gate_follows(&mut self, host: Host, mark: &Mark)
        requires host { host < host_count self.old.protocol.shape }
        requires kind { IsTrue (is_stamped_kind mark.now.kind) }
        ensures { GateFollows host mark.now self.old self.new }
    {
        self.protocol.gates[usize::from(host)].follow(mark);
    }

    fn close_gate(&mut self, host: Host, counter: Counter)
        requires { host < host_count self.old.protocol.shape }
        ensures { GateCloses host counter self.old self.new }
    {
        self.protocol.gates[usize::from(host)].close(counter);
    }

    // ---- what is accepted

    /// Accepts a message that passed the checks: its sender's gate takes it, and its kind does what it does. The plan is the one that it announces.
    fn accept(
        &mut self,
        alloc: Global,
        arrival: Arrival,
        plan: Option<Plan>,
    ) -> Result<(), NoMemory>
        requires arrives { IsArrival self.old.protocol.shape arrival }
        requires passes { LetsPass self.old arrival.message }
        requires plan { Announces self.old arrival.message plan }
        ensures { (me : Identity V) (x : Progress) → (done : StepOutput) → Goes me x (stamped_refusal me x.history arrival.message ≡ None) (accept me arrival.message x) result self.old done self.new done }
    {
        let Arrival {
            message,
            ui,
            mark,
            body,
        } = arrival;
        if let Stamped::Commit(m) = message {
            self.accept_commit(m, body, &mark);
            return Ok(());
        }
        self.accept_kind(alloc, message, body, plan)?;
        self.gate_follows(ui.host, &mark);
        Ok(())
    }

    /// What a message of a kind other than COMMIT does, but for its sender's gate.
    fn accept_kind(
        &mut self,
        alloc: Global,
        message: Stamped,
        body: Digest,
        plan: Option<Plan>,
    ) -> Result<(), NoMemory>
        requires fits { FitsStamped self.old.protocol.shape message }
        requires body { body ≡ stamped_digest message }
        requires passes { LetsPass self.old message }
        requires plan { Announces self.old message plan }
        ensures { (me : Identity V) (d : History) → Represents me self.old d → IsNoCommit message → stamped_refusal me d message ≡ None → OnOk result (AwaitsGate me self.old self.new message d) }
    {
        match message {
            Stamped::Prepare(m) => {
                self.accept_prepare(m, body);
                Ok(())
            }
            Stamped::Commit(_) => Ok(()),
            Stamped::Checkpoint(m) => self.accept_checkpoint(alloc, m),
            Stamped::ViewChange(m) => self.accept_change(m),
            Stamped::NewView(m) => self.accept_new_view(alloc, m, body, plan),
            Stamped::Enter(m) => {
                self.accept_enter(m);
                Ok(())
            }
            Stamped::Open(m) => self.accept_open(alloc, m),
            Stamped::Join(m) => {
                self.accept_join(m);
                Ok(())
            }
        }
    }
}
