//! COMMIT: the vote of a backup for a batch that the primary ordered.

ghost use Rattle.std.specs.Prelude.{Some};
ghost use Rattle.mb_parts.specs.declared.batch.Batch.{Batch as BatchValue};
ghost use Rattle.mb_model.specs.declared.known.KnownSlot.{KnownSlot};
ghost use Rattle.mb_model.specs.Histories.{Identity};
ghost use Rattle.mb_model.specs.Sending.{Progress};
ghost use Rattle.mb_model.specs.EnabledRules as rules;
ghost use Rattle.mb_core.specs.declared.rules.Due.TheVariants as due;
ghost use Rattle.mb_core.specs.Due.{IsDue};
ghost use Rattle.mb_core.specs.Steps.{CarriesOut};

use crate::stamping::{NO_UI, publish, sign};
use mb_base::{Duplicate, NoMemory, Pos};
use mb_msg::{Body, Commit, Stamped};
use mb_replica::{ReplicaState, StepOutput};
use mb_service::Service;
use std::alloc::Global;

/// Votes for the batch that the primary ordered at a position.
pub(crate) fn commit<V: Service + Drop>(
    replica: &mut ReplicaState<V>,
    alloc: Global,
    pos: Pos,
    done: &mut StepOutput,
) -> Result<(), NoMemory>
    requires { IsDue V.machine replica.old done.old (due.Commit pos) }
    ensures { (me : Identity V) (x : Progress) (k : KnownSlot) (b : BatchValue) → CarriesOut me x (rules.Commit pos k b) result replica.old done.old replica.new done.new }
{
    let Some(order) = replica.protocol.normal.cert_at(pos) else {
        return Ok(());
    };
    let counter = order.0;
    let cert = order.1;
    let Some(batch) = replica.protocol.normal.batch_at(pos) else {
        return Ok(());
    };
    let copy = batch.duplicate(alloc)?;
    let commit = Commit {
        view: replica.view(),
        pos,
        counter,
        cert,
        body: Body::Whole(copy),
        ui: NO_UI,
    };
    let signed = sign(replica, alloc, Stamped::Commit(commit))?;
    replica.count_vote(pos, replica.protocol.host, counter, signed.body);
    publish(replica, alloc, signed.message, signed.body, done)
}
