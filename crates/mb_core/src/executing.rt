//! Executing the batch of a position, and the CHECKPOINT behind a multiple of the interval.

ghost use Rattle.std.specs.Prelude.{ℕ, true, List, [], ◌∷◌, Some, None, OnOk, ◌≡◌, IfOk, ◌<◌, ◌≤◌, ◌%◌, ◌==◌, length};
ghost use Rattle.mb_base.specs.Limits.{snapshot_limit};
ghost use Rattle.mb_base.specs.Shapes.{client_count, interval};
ghost use Rattle.mb_parts.specs.declared.request.Request.{Request as RequestValue};
ghost use Rattle.mb_parts.specs.declared.batch.Batch.{Batch as BatchValue};
ghost use Rattle.mb_msg.specs.declared.event.Placed.{Placed as PlacedValue};
ghost use Rattle.mb_model.specs.Histories.{Identity, History};
ghost use Rattle.mb_model.specs.Positions.{slot_at};
ghost use Rattle.mb_model.specs.EnabledRules.{Execute};
ghost use Rattle.mb_model.specs.Sending.{Progress};
ghost use Rattle.mb_model.specs.CarriedOut.{serve_all, serve, with_reply, close_slot, at_interval, with_checkpoint};
ghost use Rattle.mb_steps.specs.Arises.{JustExecuted};
ghost use Rattle.mb_normal.specs.Tables.{batch_of};
ghost use Rattle.mb_core.specs.declared.rules.Due.TheVariants as due;
ghost use Rattle.mb_core.specs.Due.{IsDue};
ghost use Rattle.mb_replica.specs.Represents.{Serves, StandsAt, Represents};
ghost use Rattle.mb_replica.specs.Steps.{StepsWhere};
ghost use Rattle.mb_core.specs.Steps.{CarriesOut, ServesAll, ServesOne, RepliesTo, KeepsSnapshot};
ghost use Rattle.mb_core.specs.Serving.{ServesOn, IsInBatch, IsBehindBatch, WritesShelf};
ghost use Rattle.mb_fetch.specs.Snapshots.{parts_at};
ghost use Rattle.mb_cache.specs.Represents.{snapshots_of};

use crate::checkpoints::checkpoint;
use crate::stamping::has_room;
use mb_base::{Client, Duplicate, Items, NoMemory, Pos};
use mb_msg::{Batch, Placed, Request, Slot};
use mb_replica::{ReplicaState, StepOutput};
use mb_service::Service;
use std::alloc::Global;

/// Executes the batch of a position. This needs no room in the log.
pub(crate) fn execute<V: Service + Drop>(
    replica: &mut ReplicaState<V>,
    alloc: Global,
    pos: Pos,
    done: &mut StepOutput,
) -> Result<(), NoMemory>
    requires { IsDue V.machine replica.old done.old (due.Execute pos) }
    ensures { (me : Identity V) (x : Progress) (b : BatchValue) → Serves V.machine me → CarriesOut me x (Execute pos b) result replica.old done.old replica.new done.new }
{
    let Some(batch) = batch_at(replica, alloc, pos)? else {
        return Ok(());
    };
    let requests = serve_all(replica, alloc, pos, batch, done)?;
    close_slot(replica, alloc, pos, requests, done)?;
    at_interval(replica, alloc, pos, done)
}

// ---- the requests, one after the other

/// Executes all requests of a batch, and tells which were fresh.
fn serve_all<V: Service + Drop>(
    replica: &mut ReplicaState<V>,
    alloc: Global,
    pos: Pos,
    batch: Batch,
    done: &mut StepOutput,
) -> Result<Items<Placed>, NoMemory>
    requires { IsInBatch V.machine replica.old done.old pos batch.requests [] }
    ensures { (me : Identity V) (x : Progress) → Serves V.machine me → ServesAll me x pos batch.requests result replica.old done.old replica.new done.new }
{
    let mut requests = Items::new(alloc);
    for request in batch.requests.into_vec() {
        let fresh = serve(replica, alloc, pos, &request, done)?;
        requests.push(Placed { request, fresh })?;
    }
    Ok(requests)
}

/// Executes a request, and tells whether it is fresh.
fn serve<V: Service + Drop>(
    replica: &mut ReplicaState<V>,
    alloc: Global,
    pos: Pos,
    request: &Request,
    done: &mut StepOutput,
) -> Result<bool, NoMemory>
    requires { (more : List RequestValue) × ((served : List PlacedValue) × IsInBatch V.machine replica.old done.old pos (request.now ∷ more) served) }
    ensures { (me : Identity V) (x : Progress) → ServesOne V.machine me x pos request.now result replica.old done.old replica.new done.new }
{
    let fresh = replica.keeper.execute(alloc, pos, request)?;
    replica.protocol.normal.settle(request.client, request.seq);
    with_reply(replica, alloc, fresh, request.client, done)?;
    Ok(fresh)
}

/// A fresh request is answered to its client.
fn with_reply<V: Service + Drop>(
    replica: &ReplicaState<V>,
    alloc: Global,
    fresh: bool,
    client: Client,
    done: &mut StepOutput,
) -> Result<(), NoMemory>
    requires client { client < client_count replica.now.protocol.shape }
    requires clients { length replica.now.keeper.served.table ≡ client_count replica.now.protocol.shape }
    ensures { (me : Identity V) (x : Progress) (p : PlacedValue) → RepliesTo me x p client fresh result replica.now done.old done.new }
{
    if fresh {
        return replica.send_stored_reply(alloc, client, done);
    }
    Ok(())
}

// ---- the whole batch

/// The position is executed.
fn close_slot<V: Service + Drop>(
    replica: &mut ReplicaState<V>,
    alloc: Global,
    pos: Pos,
    requests: Items<Placed>,
    done: &mut StepOutput,
) -> Result<(), NoMemory>
    requires { IsInBatch V.machine replica.old done.old pos [] requests }
    ensures { (me : Identity V) (x : Progress) → Serves V.machine me → ServesOn me replica.old done.old pos [] requests x → OnOk result (StandsAt me replica.new done.new (close_slot me pos x)) }
{
    keep_at_interval(replica, alloc, pos)?;
    replica.protocol.exec = pos;
    done.executed.push(Slot { pos, requests })?;
    Ok(())
}

/// At a multiple of the interval a snapshot is kept of the present state.
fn keep_at_interval<V: Service + Drop>(
    replica: &mut ReplicaState<V>,
    alloc: Global,
    pos: Pos,
) -> Result<(), NoMemory>
    requires above { (other : ℕ) → pos ≤ other → parts_at replica.old.keeper.snapshots other ≡ None }
    requires room { length replica.old.keeper.snapshots < snapshot_limit }
    ensures writes { OnOk result (WritesShelf replica.old replica.new) }
    ensures kept { OnOk result (KeepsSnapshot (snapshots_of V.machine) pos replica.old replica.new) }
{
    if !replica.is_at_interval(pos) {
        return Ok(());
    }
    replica.keeper.keep_snapshot(alloc, pos)
}

/// At a multiple of the interval a CHECKPOINT follows.
fn at_interval<V: Service + Drop>(
    replica: &mut ReplicaState<V>,
    alloc: Global,
    pos: Pos,
    done: &mut StepOutput,
) -> Result<(), NoMemory>
    requires { IsBehindBatch V.machine replica.old done.old pos }
    ensures { StepsWhere (Serves V.machine) (λ me x. JustExecuted me x.history pos) (λ me x. at_interval me pos x) result replica.old done.old replica.new done.new }
{
    if replica.is_at_interval(pos) {
        return with_checkpoint(replica, alloc, pos, done);
    }
    Ok(())
}

/// A CHECKPOINT is stamped where there is room for one at this moment, and else never.
fn with_checkpoint<V: Service + Drop>(
    replica: &mut ReplicaState<V>,
    alloc: Global,
    pos: Pos,
    done: &mut StepOutput,
) -> Result<(), NoMemory>
    requires interval { (pos % interval replica.old.protocol.shape == 0) ≡ true }
    requires standing { IsBehindBatch V.machine replica.old done.old pos }
    ensures { StepsWhere (Serves V.machine) (λ me x. JustExecuted me x.history pos) (λ me x. with_checkpoint me pos x) result replica.old done.old replica.new done.new }
{
    if !has_room(replica) {
        return Ok(());
    }
    let state = replica.keeper.digest(alloc, pos)?;
    checkpoint(replica, alloc, pos, state, done)
}

/// A copy of the batch that is known at a position.
fn batch_at<V: Service + Drop>(
    replica: &ReplicaState<V>,
    alloc: Global,
    pos: Pos,
) -> Result<Option<Batch>, NoMemory>
    ensures { (me : Identity V) (d : History) → Represents me replica.now d → IfOk result (λ b. b ≡ batch_of (slot_at me d pos)) }
{
    match replica.protocol.normal.batch_at(pos) {
        Some(batch) => Ok(Some(batch.duplicate(alloc)?)),
        None => Ok(None),
    }
}
