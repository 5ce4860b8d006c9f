//! PREPARE: a batch that the primary orders at a position.

ghost use Rattle.std.specs.Prelude.{ℕ, Some};
ghost use Rattle.mb_core.specs.Steps.{CarriesOut};
ghost use Rattle.mb_parts.specs.declared.batch.Batch.{Batch as BatchValue};
ghost use Rattle.mb_model.specs.Histories.{Identity};
ghost use Rattle.mb_model.specs.Sending.{Progress};
ghost use Rattle.mb_model.specs.EnabledRules as rules;
ghost use Rattle.mb_core.specs.declared.rules.Due.TheVariants as due;
ghost use Rattle.mb_core.specs.Due.{IsDue};

use crate::rules::next_position;
use crate::stamping::{NO_UI, publish, sign};
use mb_base::{Duplicate, NoMemory};
use mb_msg::{Body, Prepare, Stamped};
use mb_replica::{ReplicaState, StepOutput};
use mb_service::Service;
use std::alloc::Global;

/// Orders pending requests at the next position.
pub(crate) fn prepare<V: Service + Drop>(
    replica: &mut ReplicaState<V>,
    alloc: Global,
    done: &mut StepOutput,
) -> Result<(), NoMemory>
    requires { IsDue V.machine replica.old done.old due.Prepare }
    ensures { (me : Identity V) (x : Progress) (pos : ℕ) (b : BatchValue) → CarriesOut me x (rules.Prepare pos b) result replica.old done.old replica.new done.new }
{
    let pos = next_position(replica);
    let batch = replica.protocol.normal.batch(alloc)?;
    let kept = batch.duplicate(alloc)?;
    let prepare = Prepare {
        view: replica.view(),
        pos,
        body: Body::Whole(batch),
        ui: NO_UI,
    };
    let signed = sign(replica, alloc, Stamped::Prepare(prepare))?;
    let ordered = kept.with_digest(signed.body);
    replica.put_slot(pos, &signed.ui, signed.body, Some(ordered));
    replica.count_vote(pos, replica.protocol.host, signed.ui.counter, signed.body);
    publish(replica, alloc, signed.message, signed.body, done)
}
