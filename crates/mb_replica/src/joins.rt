//! JOIN: a host goes on in its view at the stable position.

use crate::state::ReplicaState;
use mb_base::{Duplicate, NoMemory};
use mb_msg::{Evidence, Join};
use mb_service::Service;
use std::alloc::Global;

impl<V: Service + Drop> ReplicaState<V> {
    ghost use Rattle.std.specs.Prelude.{None, ◌≡◌, Some, IfOk};
    ghost use Rattle.mb_replica.specs.Represents.{Represents};
    ghost use Rattle.mb_msg.specs.declared.stamped.Stamped.TheVariants as stamped;
    ghost use Rattle.mb_msg.specs.Fits.{FitsJoin};
    ghost use Rattle.mb_model.specs.KindChecks.{stamped_refusal};
    ghost use Rattle.mb_replica.specs.Between.{AwaitsGate};
    ghost use Rattle.mb_model.specs.Histories.{Identity, History, view_of};
    ghost use Rattle.mb_model.specs.Held.{evidence_in, evidence_of};

    /// A JOIN shows evidence and a stable certificate.
    pub(crate) fn accept_join(&mut self, m: Join)
        requires { FitsJoin self.old.protocol.shape m }
        ensures { (me : Identity V) (d : History) → Represents me self.old d → stamped_refusal me d (stamped.Join m) ≡ None → AwaitsGate me self.old self.new (stamped.Join m) d }
    {
        let Join {
            evidence,
            stable,
            ..
        } = m;
        self.hold_shown(evidence);
        self.learn(stable);
    }

    /// The held evidence, where it is of this host's view.
    pub fn evidence_here(&self, alloc: Global) -> Result<Option<Evidence>, NoMemory>
        ensures { (me : Identity V) (d : History) → Represents me self.now d → IfOk result (λ o. o ≡ evidence_in (view_of me d) (evidence_of me d)) }
    {
        match self.protocol.change.evidence_in(self.view()) {
            Some(evidence) => Ok(Some(evidence.duplicate(alloc)?)),
            None => Ok(None),
        }
    }
}
