//! PREPARE: a batch that the primary orders at a position.

use crate::state::ReplicaState;
use crate::voting::whole_batch;
use mb_base::Digest;
use mb_msg::Prepare;
use mb_service::Service;

impl<V: Service + Drop> ReplicaState<V> {
    ghost use Rattle.std.specs.Prelude.{None, ◌≡◌};
    ghost use Rattle.mb_replica.specs.Represents.{Represents};
    ghost use Rattle.mb_msg.specs.declared.stamped.Stamped.TheVariants as stamped;
    ghost use Rattle.mb_msg.specs.Fits.{FitsPrepare};
    ghost use Rattle.mb_model.specs.KindChecks.{stamped_refusal};
    ghost use Rattle.mb_msg.specs.AsStamped.{stamped_digest};
    ghost use Rattle.mb_replica.specs.Between.{AwaitsGate, WritesNormal};
    ghost use Rattle.mb_model.specs.Histories.{Identity, History};

    /// A PREPARE is the slot of its position, and its sender's vote.
    pub(crate) fn accept_prepare(&mut self, m: Prepare, digest: Digest)
        requires fits { FitsPrepare self.old.protocol.shape m }
        requires digest { digest ≡ stamped_digest (stamped.Prepare m) }
        ensures awaits { (me : Identity V) (d : History) → Represents me self.old d → stamped_refusal me d (stamped.Prepare m) ≡ None → AwaitsGate me self.old self.new (stamped.Prepare m) d }
        ensures writes { WritesNormal self.old self.new }
    {
        if self.counts_at(m.view, m.pos) {
            self.count_vote(m.pos, m.ui.host, m.ui.counter, digest);
            let batch = whole_batch(m.body, digest);
            self.put_slot(m.pos, &m.ui, digest, batch);
        }
    }
}
