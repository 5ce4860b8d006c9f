//! A host, and its step over one event.

ghost use Rattle.std.specs.Prelude.{◌≡◌, ◌<◌, [], length, false, IfOk};
ghost use Rattle.mb_base.specs.Shapes.{host_count};
ghost use Rattle.mb_model.specs.Histories.{Identity, History, here};
ghost use Rattle.mb_model.specs.Stable.{low_of};
ghost use Rattle.mb_model.specs.OwnLog.{own_log, log_longest};
ghost use Rattle.mb_model.specs.Positions.{exec_of};
ghost use Rattle.mb_core.specs.Halting.{Halts};
ghost use Rattle.mb_replica.specs.Lengths.{AreMessageLong, AreOutgoingLong};
ghost use Rattle.mb_replica.specs.Represents.{Serves, IsStep, IsTold};
ghost use Rattle.mb_core.specs.Represents.{Represents, IsHost, IsAtRest, StepsAs};
ghost use Rattle.mb_replica.specs.Told.{KnowsEvent};
ghost use Rattle.mb_replica.specs.Waiting.{wants};

use crate::events::on_event;
use mb_base::{Digest, Host, Key, NoMemory, Pos, Shape};
use mb_msg::{Event, Floor, Step};
use mb_replica::{ReplicaState, StepOutput, StepRecord};
use mb_service::Service;
use std::alloc::Global;

/// Why a step did not end.
#[derive(Clone, Copy, Debug, PartialEq, Eq)]
pub enum Stop {
    /// Memory ran out. Every later step answers `Halted`.
    NoMemory,
    /// An earlier step ran out of memory.
    Halted,
}

/// A host of the protocol.
#[derive(Drop)]
pub struct Replica<V: Service> {
    state: ReplicaState<V>,
    halted: bool,
}

impl<V: Service + Drop> Replica<V> {
    /// A host that nothing has happened to. Its number is below the number of hosts.
    pub fn make(
        alloc: Global,
        shape: Shape,
        host: Host,
        secret: &Key,
        service: V,
    ) -> Result<Replica<V>, NoMemory>
        requires { host < host_count shape }
        ensures stands { (me : Identity V) → Serves V.machine me → me.initial ≡ service → IfOk result (λ r. IsHost me r → Represents me r []) }
        ensures host { IfOk result (λ r. (r.state.protocol.shape ≡ shape) × (r.state.protocol.host ≡ host) × (r.state.protocol.usig.secret ≡ secret.now)) }
        ensures rests { IfOk result (λ r. IsAtRest V.machine r) }
        ensures runs { IfOk result (λ r. r.halted ≡ false) }
    {
        Ok(Replica {
            state: ReplicaState::make(alloc, shape, host, secret, service)?,
            halted: false,
        })
    }

    /// One event at this host: its outcome, and what it sent, executed and took over. Each message that it sent has the length of one.
    ///
    /// After `NoMemory` every later call is `Halted`, and only then.
    pub fn step(&mut self, alloc: Global, event: &Event) -> Result<Step, Stop>
        requires { self.old.halted ≡ false → IsAtRest V.machine self.old }
        ensures stands { StepsAs V.machine event.now IsStep self.old result self.new }
        ensures lengths { IfOk result (λ s. AreMessageLong s.sent) }
        ensures rests { self.new.halted ≡ false → IsAtRest V.machine self.new }
        ensures halts { Halts self.old result self.new }
    {
        let told = self.step_told(alloc, event, &None)?;
        match told.into_step(alloc) {
            Ok(step) => Ok(step),
            Err(NoMemory) => {
                self.halted = true;
                Err(Stop::NoMemory)
            }
        }
    }

    /// The same event, of whose message the digest of the body may be known. It tells also what this host stamped in each message that it sent.
    pub fn step_told(
        &mut self,
        alloc: Global,
        event: &Event,
        known: &Option<Digest>,
    ) -> Result<StepRecord, Stop>
        requires rests { self.old.halted ≡ false → IsAtRest V.machine self.old }
        requires known { KnowsEvent self.old.state.protocol.shape known.now event.now }
        ensures stands { StepsAs V.machine event.now IsTold self.old result self.new }
        ensures lengths { IfOk result (λ t. AreOutgoingLong t.sent) }
        ensures rests { self.new.halted ≡ false → IsAtRest V.machine self.new }
        ensures halts { Halts self.old result self.new }
    {
        if self.halted {
            return Err(Stop::Halted);
        }
        let mut done = StepOutput::new(alloc);
        match on_event(&mut self.state, alloc, event, known, &mut done) {
            Ok(outcome) => {
                self.halted = false;
                Ok(done.into_told(outcome))
            }
            Err(NoMemory) => {
                self.halted = true;
                Err(Stop::NoMemory)
            }
        }
    }

    // ---- what is seen of a host

    /// The size of the system: hosts, clients and the interval of checkpoints.
    pub fn shape(&self) -> Shape
        ensures { result ≡ self.now.state.protocol.shape }
    {
        self.state.protocol.shape
    }

    /// The number of this host.
    pub fn host(&self) -> Host
        ensures { result ≡ self.now.state.protocol.host }
    {
        self.state.protocol.host
    }

    /// Where this host stands: where the gate for its own messages stands.
    pub fn at(&self) -> Floor
        ensures { (me : Identity V) (d : History) → Represents me self.now d → result ≡ here me d }
    {
        self.state.here()
    }

    /// The last executed position.
    pub fn exec(&self) -> Pos
        ensures { (me : Identity V) (d : History) → Represents me self.now d → result ≡ exec_of d }
    {
        self.state.protocol.exec
    }

    /// The stable position.
    pub fn low(&self) -> Pos
        ensures low_is { result ≡ self.now.state.protocol.stable.pos }
        ensures reads { (me : Identity V) (d : History) → Represents me self.now d → result ≡ low_of me d }
    {
        self.state.low()
    }

    /// Whether this host waits for something: a request is pending, or its view is not open.
    pub fn wants(&self) -> bool
        ensures { (me : Identity V) (d : History) → Represents me self.now d → result ≡ wants me d }
    {
        self.state.wants()
    }

    /// The number of messages in the own log.
    pub fn log_len(&self) -> u32
        ensures { (me : Identity V) (d : History) → Represents me self.now d → result ≡ length (own_log me d) }
    {
        self.state.protocol.log.len()
    }

    /// The most messages that the own log ever held.
    pub fn log_longest(&self) -> u32
        ensures { (me : Identity V) (d : History) → Represents me self.now d → result ≡ log_longest me d }
    {
        self.state.protocol.log.longest()
    }

    /// Whether an earlier step ran out of memory.
    pub fn halted(&self) -> bool
        ensures { result ≡ self.now.halted }
    {
        self.halted
    }
}
