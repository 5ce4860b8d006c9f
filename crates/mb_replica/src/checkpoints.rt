//! CHECKPOINT: the digest of the state at a position, and the floors of all hosts under it.

use crate::state::ReplicaState;
use mb_base::{NoMemory, Pos};
use mb_msg::{Checkpoint, Outcome};
use mb_service::Service;
use std::alloc::Global;

impl<V: Service + Drop> ReplicaState<V> {
    ghost use Rattle.mb_msg.specs.declared.stamped.Stamped.TheVariants as stamped;
    ghost use Rattle.mb_msg.specs.Fits.{FitsCheckpoint};
    ghost use Rattle.mb_model.specs.KindChecks.{stamped_refusal, checkpoint_refusal};
    ghost use Rattle.mb_replica.specs.Between.{AwaitsGate, LetsPass, AwaitsKeeping, BringsKept, KeepingStands, WritesKept};
    ghost use Rattle.std.specs.Prelude.{◌≡◌, ◌<◌, None, OnOk, ◌∷◌};
    ghost use Rattle.mb_model.specs.Histories.{Identity, Entry, History};
    ghost use Rattle.mb_replica.specs.Represents.{Represents};

    pub(crate) fn checkpoint_refusal(&self, pos: Pos) -> Option<Outcome>
        ensures { (me : Identity V) (d : History) → Represents me self.now d → result ≡ checkpoint_refusal me d pos }
    {
        self.is_beyond(pos).then_some(self.beyond_window())
    }

    /// One that is not below the stable position is kept: the certificate that it completes is learnt, and then the own log is cut.
    pub(crate) fn accept_checkpoint(&mut self, alloc: Global, m: Checkpoint) -> Result<(), NoMemory>
        requires fits { FitsCheckpoint self.old.protocol.shape m }
        requires passes { LetsPass self.old (stamped.Checkpoint m) }
        ensures { (me : Identity V) (d : History) → Represents me self.old d → stamped_refusal me d (stamped.Checkpoint m) ≡ None → OnOk result (AwaitsGate me self.old self.new (stamped.Checkpoint m) d) }
    {
        if m.pos < self.low() {
            return Ok(());
        }
        self.keep_checkpoint(alloc, m)?;
        self.cut_log(alloc)
    }

    /// One is kept, and the certificate that it completes is learnt.
    pub fn keep_checkpoint(&mut self, alloc: Global, m: Checkpoint) -> Result<(), NoMemory>
        requires fits { FitsCheckpoint self.old.protocol.shape m }
        requires brings { BringsKept self.old m }
        ensures stands { (me : Identity V) (e : Entry) (d : History) → AwaitsKeeping me self.old m e d → OnOk result (KeepingStands me self.new (e ∷ d)) }
        ensures writes { OnOk result (WritesKept self.old self.new) }
    {
        self.protocol.normal.keep(m)?;
        self.learn_agreed(alloc)
    }
}
