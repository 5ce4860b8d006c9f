//! VIEW_CHANGE: a host leaves for another view, and shows all of its own log.

ghost use Rattle.std.specs.Prelude.{◌≡◌};
ghost use Rattle.mb_model.specs.UsableLogs.{is_whole};

use crate::state::ReplicaState;
use mb_base::NoMemory;
use mb_msg::{Body, Outcome, ViewChange};
use mb_plan::{BadProof, usable_knowing};
use mb_service::Service;
use std::alloc::Global;

impl<V: Service + Drop> ReplicaState<V> {
    ghost use Rattle.std.specs.Prelude.{None, ◌≡◌, Some, OnOk, IfOk, ◌&&◌};
    ghost use Rattle.mb_replica.specs.Represents.{Represents};
    ghost use Rattle.mb_msg.specs.declared.stamped.Stamped.TheVariants as stamped;
    ghost use Rattle.mb_msg.specs.Fits.{FitsViewChange};
    ghost use Rattle.mb_model.specs.UsableLogs.{is_whole};
    ghost use Rattle.mb_model.specs.Held.{is_current};
    ghost use Rattle.mb_model.specs.KindChecks.{stamped_refusal, change_refusal};
    ghost use Rattle.mb_replica.specs.Between.{AwaitsGate};
    ghost use Rattle.mb_model.specs.Histories.{Identity, History};

    /// What it shows, where it is whole and current.
    pub(crate) fn change_refusal(
        &self,
        alloc: Global,
        m: &ViewChange,
    ) -> Result<Option<Outcome>, NoMemory>
        requires { FitsViewChange self.now.protocol.shape m.now }
        ensures { (me : Identity V) (d : History) → Represents me self.now d → IfOk result (λ o. o ≡ change_refusal me d m.now) }
    {
        if !self.is_current(m.view) {
            return Ok(None);
        }
        let known = self.planned(self.evidence_view());
        match usable_knowing(alloc, &self.protocol.shape, &self.protocol.usig, known, m) {
            Ok(()) => Ok(None),
            Err(BadProof::At { index, reason }) => Ok(Some(Outcome::Unusable { index, reason })),
            Err(BadProof::NoMemory) => Err(NoMemory),
        }
    }

    /// A VIEW_CHANGE is a wish of its sender. A whole one of a current view is stored.
    pub(crate) fn accept_change(&mut self, m: ViewChange) -> Result<(), NoMemory>
        requires { FitsViewChange self.old.protocol.shape m }
        ensures { (me : Identity V) (d : History) → Represents me self.old d → stamped_refusal me d (stamped.ViewChange m) ≡ None → OnOk result (AwaitsGate me self.old self.new (stamped.ViewChange m) d) }
    {
        let is_stored = self.is_stored(&m);
        self.protocol.change.wish(m.ui.host, m.view);
        if is_stored {
            return self.protocol.change.store(m);
        }
        Ok(())
    }

    fn is_stored(&self, m: &ViewChange) -> bool
        ensures { (me : Identity V) (d : History) → Represents me self.now d → result ≡ (is_whole m.now.body && is_current me d m.now.view) }
    {
        is_whole(&m.body) && self.is_current(m.view)
    }
}

/// It is in form 1.
fn is_whole<B>(body: &Body<B>) -> bool
    ensures { result ≡ is_whole body.now }
{
    match body {
        Body::Whole(_) => true,
        Body::Bare(_) => false,
    }
}
