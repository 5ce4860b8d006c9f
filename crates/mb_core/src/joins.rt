//! JOIN: a host goes on in its view at the stable position.

ghost use Rattle.std.specs.Prelude.{None, ◌≡◌, IfOk};
ghost use Rattle.mb_replica.specs.Represents.{Represents};
ghost use Rattle.mb_core.specs.Steps.{CarriesOut};
ghost use Rattle.mb_model.specs.Sending.{Progress};
ghost use Rattle.mb_model.specs.EnabledRules as rules;
ghost use Rattle.mb_core.specs.declared.rules.Due.TheVariants as due;
ghost use Rattle.mb_core.specs.Due.{IsDue};
ghost use Rattle.mb_model.specs.Histories.{Identity, History};
ghost use Rattle.mb_model.specs.Making.{join_evidence};

use crate::stamping::{NO_UI, publish, sign};
use mb_base::{Duplicate, NoMemory};
use mb_msg::{Evidence, Join, Stamped};
use mb_replica::{ReplicaState, StepOutput};
use mb_service::Service;
use std::alloc::Global;

/// Opens the view at the stable position.
pub(crate) fn join<V: Service + Drop>(
    replica: &mut ReplicaState<V>,
    alloc: Global,
    done: &mut StepOutput,
) -> Result<(), NoMemory>
    requires { IsDue V.machine replica.old done.old due.Join }
    ensures { (me : Identity V) (x : Progress) → CarriesOut me x rules.Join result replica.old done.old replica.new done.new }
{
    let evidence = join_evidence(replica, alloc)?;
    let stable = replica.protocol.stable.duplicate(alloc)?;
    let join = Join {
        view: replica.view(),
        evidence,
        stable,
        ui: NO_UI,
    };
    let signed = sign(replica, alloc, Stamped::Join(join))?;
    publish(replica, alloc, signed.message, signed.body, done)
}

/// Evidence of the view is shown in each view but 0.
fn join_evidence<V: Service + Drop>(
    replica: &ReplicaState<V>,
    alloc: Global,
) -> Result<Option<Evidence>, NoMemory>
    ensures { (me : Identity V) (d : History) → Represents me replica.now d → IfOk result (λ o. o ≡ join_evidence me d) }
{
    if replica.view() == 0 {
        return Ok(None);
    }
    replica.evidence_here(alloc)
}
