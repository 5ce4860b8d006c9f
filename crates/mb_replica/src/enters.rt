//! ENTER: a backup answers the NEW_VIEW of its view.

use crate::state::ReplicaState;
use mb_msg::Enter;
use mb_service::Service;

impl<V: Service + Drop> ReplicaState<V> {
    ghost use Rattle.std.specs.Prelude.{None, ◌≡◌};
    ghost use Rattle.mb_msg.specs.declared.stamped.Stamped.TheVariants as stamped;
    ghost use Rattle.mb_msg.specs.Fits.{FitsEnter};
    ghost use Rattle.mb_model.specs.Histories.{History, Identity};
    ghost use Rattle.mb_model.specs.KindChecks.{stamped_refusal};
    ghost use Rattle.mb_replica.specs.Represents.{Represents};
    ghost use Rattle.mb_replica.specs.Between.{AwaitsGate};

    /// An ENTER is kept as its sender's.
    pub(crate) fn accept_enter(&mut self, m: Enter)
        requires { FitsEnter self.old.protocol.shape m }
        ensures { (me : Identity V) (d : History) → Represents me self.old d → stamped_refusal me d (stamped.Enter m) ≡ None → AwaitsGate me self.old self.new (stamped.Enter m) d }
    {
        self.protocol.change.enter(m);
    }
}
