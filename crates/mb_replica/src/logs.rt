//! LOG: what stands before its entries, then the entries as given messages, each at the gate of its own sender.

ghost use Rattle.std.specs.Prelude.{◌≡◌, Some, option_and_then};
ghost use Rattle.mb_parts.specs.Certificates.{first_floor};
ghost use Rattle.mb_msg.specs.declared.event.Outcome.TheVariants as outcome;
ghost use Rattle.mb_replica.specs.Answers.{goes_on};

use crate::given::Reaction;
use crate::state::ReplicaState;
use mb_base::{Host, Items, NoMemory};
use mb_cert::{CheckEvidence, CheckFloor, CheckStable};
use mb_msg::{Evidence, Floor, FloorCert, Log, Outcome, Stamped};
use mb_service::Service;
use std::alloc::Global;

impl<V: Service + Drop> ReplicaState<V> {
    ghost use Rattle.std.specs.Prelude.{◌<◌, ◌==◌, false, None, ◌≡◌};
    ghost use Rattle.mb_base.specs.Shapes.{host_count};
    ghost use Rattle.std.specs.List.{AllByRecursion};
    ghost use Rattle.mb_msg.specs.declared.message.Message.TheVariants as message;
    ghost use Rattle.mb_msg.specs.Fits.{FitsStamped, FitsLog};
    ghost use Rattle.mb_model.specs.Sending.{Progress, write};
    ghost use Rattle.mb_model.specs.Histories.{Accepted, Identity, History};
    ghost use Rattle.mb_model.specs.Given.{give_log, give_entries, jump, floor_shown};
    ghost use Rattle.mb_replica.specs.Represents.{StandsAt, Represents};
    ghost use Rattle.mb_replica.specs.Steps.{Moves, AnswersQuietly, Reacts, Jumps};
    ghost use Rattle.mb_replica.specs.Holding.{IsStepping};
    ghost use Rattle.mb_replica.specs.declared.sending.StepOutput.{StepOutput};
    ghost use Rattle.mb_parts.specs.Fits.{FitsFloorCert, FitsEvidence};
    ghost use Rattle.std.specs.Option.{IfSome};
    ghost use Rattle.mb_model.specs.PlainChecks.{log_refusal, is_certified_floor, is_certified_evidence};

    /// The rules follow each LOG that checks before its entries.
    pub(crate) fn give_log(&mut self, alloc: Global, m: Log) -> Result<Reaction, NoMemory>
        requires fits { FitsLog self.old.protocol.shape m }
        requires stepping { IsStepping self.old }
        ensures { (me : Identity V) (x : Progress) → (done : StepOutput) → StandsAt me self.old done x → Reacts me (message.Log m) (give_log me m x) result self.new done }
    {
        if let Some(outcome) = self.log_refusal(&m) {
            return Ok(Reaction::of(outcome));
        }
        let entries = self.accept_log(m);
        Ok(Reaction {
            outcome: self.give_entries(alloc, entries)?,
            rules_follow: true,
            asks: false,
        })
    }

    /// One after the other. Another outcome than those that go on ends it.
    fn give_entries(&mut self, alloc: Global, entries: Items<Stamped>) -> Result<Outcome, NoMemory>
        requires fit { AllByRecursion (FitsStamped self.old.protocol.shape) entries }
        requires stepping { IsStepping self.old }
        ensures { AnswersQuietly (λ me x. give_entries me entries x) result self.old self.new }
    {
        for entry in entries.into_vec() {
            let outcome = self.give_stamped(alloc, entry, &None)?;
            if !goes_on(outcome) {
                return Ok(outcome);
            }
        }
        Ok(Outcome::Took)
    }

    /// The certificates before its entries, then whether it is another host's.
    #[tactic(auto, unfolding(mb_model::specs::PlainChecks::log_refusal))]
    fn log_refusal(&self, m: &Log) -> Option<Outcome>
        requires { FitsLog self.now.protocol.shape m.now }
        ensures { (me : Identity V) (d : History) → Represents me self.now d → result ≡ log_refusal me m.now }
    {
        if !self.is_certified_floor(m.host, &m.floor) {
            return unusable(1);
        }
        if m.stable
            .check(&self.protocol.shape, &self.protocol.usig)
            .is_err()
        {
            return unusable(2);
        }
        if !self.is_certified_evidence(&m.evidence) {
            return unusable(12);
        }
        (m.host == self.protocol.host).then_some(Outcome::Idle)
    }

    fn is_certified_floor(&self, host: Host, floor: &Option<FloorCert>) -> bool
        requires { IfSome floor.now (FitsFloorCert self.now.protocol.shape) }
        ensures { (me : Identity V) (d : History) → Represents me self.now d → result ≡ is_certified_floor me host floor.now }
    {
        match floor {
            None => true,
            Some(cert) => cert
                .check(&self.protocol.shape, &self.protocol.usig, host)
                .is_ok(),
        }
    }

    fn is_certified_evidence(&self, evidence: &Option<Evidence>) -> bool
        requires { IfSome evidence.now (FitsEvidence self.now.protocol.shape) }
        ensures { (me : Identity V) (d : History) → Represents me self.now d → result ≡ is_certified_evidence me evidence.now }
    {
        match evidence {
            None => true,
            Some(evidence) => evidence
                .check(&self.protocol.shape, &self.protocol.usig)
                .is_ok(),
        }
    }

    /// The jump, then what stands before the entries: a stable certificate is learnt, and evidence that is news held. The entries are left.
    fn accept_log(&mut self, m: Log) -> Items<Stamped>
        requires { FitsLog self.old.protocol.shape m }
        ensures entries { result ≡ m.entries }
        ensures same { self.new.protocol.shape ≡ self.old.protocol.shape }
        ensures stands { (me : Identity V) (x : Progress) → Moves me x (log_refusal me m ≡ None) (write (Accepted (message.Log m)) (jump me m.host (floor_shown me m.host m.floor) x)) self.old self.new }
    {
        let Log {
            host,
            floor,
            stable,
            evidence,
            entries,
        } = m;
        self.jump(host, floor_shown(host, &floor));
        self.hold_shown(evidence);
        self.learn(stable);
        entries
    }

    /// The gate of a host jumps forward to a floor, where it isn't closed.
    fn jump(&mut self, host: Host, floor: Option<Floor>)
        requires { host < host_count self.old.protocol.shape }
        ensures same { self.new.protocol.shape ≡ self.old.protocol.shape }
        ensures stands { (me : Identity V) (x : Progress) → Jumps me x host floor self.old self.new }
    {
        if let Some(floor) = floor {
            let _jumped = self.protocol.gates[usize::from(host)].jump(&floor);
        }
    }
}

/// It goes on behind an entry that is taken, stale or idle.
fn goes_on(outcome: Outcome) -> bool
    ensures { result ≡ goes_on outcome }
{
    match outcome {
        Outcome::Took | Outcome::Stale { .. } | Outcome::Idle => true,
        _ => false,
    }
}

/// A LOG in which a part does not check, for this reason.
fn unusable(reason: u8) -> Option<Outcome>
    ensures { result ≡ Some (outcome.Unusable 0 reason) }
{
    Some(Outcome::Unusable { index: 0, reason })
}

/// The floor of a host that its LOG shows. It was checked.
fn floor_shown(host: Host, floor: &Option<FloorCert>) -> Option<Floor>
    ensures { result ≡ option_and_then (λ c. first_floor host c.members) floor.now }
{
    match floor {
        None => None,
        Some(cert) => cert.first_floor(host),
    }
}
