//! STOP: it changes nothing here.

use crate::state::ReplicaState;
use mb_msg::{Outcome, Stop};
use mb_service::Service;

impl<V: Service + Drop> ReplicaState<V> {
    ghost use Rattle.std.specs.Prelude.{◌≡◌};
    ghost use Rattle.mb_model.specs.Histories.{Identity, History};
    ghost use Rattle.mb_model.specs.PlainChecks.{stop_answer};
    ghost use Rattle.mb_replica.specs.Represents.{Represents};

    pub(crate) fn stop_answer(&self, m: &Stop) -> Outcome
        ensures { (me : Identity V) (d : History) → Represents me self.now d → result ≡ stop_answer me m.now }
    {
        if self.protocol.usig.verify_stop(&m.tag) {
            Outcome::Stopping
        } else {
            Outcome::BadTag
        }
    }
}
