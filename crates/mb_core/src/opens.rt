//! OPEN: a host opens its view with evidence of the plan, and the plan.

ghost use Rattle.std.specs.Prelude.{None, ◌≡◌, ◌^◌, ◌<◌, Some, OnOk, IfOk, option_map, map, slice_get};
ghost use Rattle.mb_replica.specs.Represents.{Represents};
ghost use Rattle.mb_msg.specs.declared.stamped.Stamped.TheVariants as stamped;
ghost use Rattle.mb_msg.specs.Stamps.{with_ui};
ghost use Rattle.mb_parts.specs.declared.certificates.Evidence.{Evidence as EvidenceValue};
ghost use Rattle.mb_msg.specs.declared.change.Plan.{Plan as PlanValue};
ghost use Rattle.mb_model.specs.Sending.{Progress};
ghost use Rattle.mb_model.specs.EnabledRules as rules;
ghost use Rattle.mb_core.specs.declared.rules.Due.TheVariants as due;
ghost use Rattle.mb_core.specs.Due.{IsDue};
ghost use Rattle.mb_model.specs.Histories.{Identity, History};
ghost use Rattle.mb_model.specs.Held.{plan_at, plan_of_view};
ghost use Rattle.mb_replica.specs.Between.{WritesNormal, WritesChange};
ghost use Rattle.mb_replica.specs.Holding.{length_in};
ghost use Rattle.mb_core.specs.Steps.{CarriesOut};
ghost use Rattle.mb_change.specs.Searches.{with_evidence};
ghost use Rattle.mb_change.specs.Represents.{StandsWith};
ghost use Rattle.mb_parts.specs.Bares.{batch_digest};
ghost use Rattle.mb_core.specs.Carrying.{CarriesOn, CarriesMore};
ghost use Rattle.mb_model.specs.Making.{opening};

use crate::stamping::{NO_UI, publish, sign};
use mb_base::{Digest, Duplicate, NoMemory, Ui, View};
use mb_msg::{Body, Evidence, MAX_POS, Open, OpenBody, Stamped};
use mb_replica::{ReplicaState, StepOutput};
use mb_service::Service;
use std::alloc::Global;

/// Opens the view with its evidence and its plan, which become slots and own votes.
pub(crate) fn open<V: Service + Drop>(
    replica: &mut ReplicaState<V>,
    alloc: Global,
    done: &mut StepOutput,
) -> Result<(), NoMemory>
    requires { IsDue V.machine replica.old done.old due.Open }
    ensures { (me : Identity V) (x : Progress) (e : EvidenceValue) (plan : PlanValue) → CarriesOut me x (rules.Open e plan) result replica.old done.old replica.new done.new }
{
    let view = replica.view();
    let found = replica.protocol.change.evidence_for(alloc, view)?;
    let Some(evidence) = found else {
        return Ok(());
    };
    let opening = opening(replica, alloc, view, &evidence)?;
    let Some(message) = opening else {
        return Ok(());
    };
    let signed = sign(replica, alloc, message)?;
    let signed = carry_on(replica, alloc, view, &evidence).and(Ok(signed))?;
    hold_own_evidence(replica, evidence);
    publish(replica, alloc, signed.message, signed.body, done)
}

/// What the own OPEN shows as evidence is held.
fn hold_own_evidence<V: Service + Drop>(replica: &mut ReplicaState<V>, evidence: Evidence)
    ensures writes { WritesChange replica.old replica.new }
    ensures holds { StandsWith replica.old.protocol.change (with_evidence evidence) replica.new.protocol.change }
{
    replica.protocol.change.hold_evidence(evidence);
}

/// The OPEN with this evidence and the plan of a view, before it is stamped.
fn opening<V: Service + Drop>(
    replica: &ReplicaState<V>,
    alloc: Global,
    view: View,
    evidence: &Evidence,
) -> Result<Option<Stamped>, NoMemory>
    ensures { (me : Identity V) (d : History) → Represents me replica.now d → IfOk result (λ o. o ≡ option_map (λ plan. with_ui NO_UI (opening evidence.now plan)) (plan_at me d view)) }
{
    let Some(held) = replica.protocol.change.plan_at(view) else {
        return Ok(None);
    };
    let plan = held.plan();
    let body = OpenBody {
        stable: plan.base.duplicate(alloc)?,
        batches: plan.batches.duplicate(alloc)?,
    };
    Ok(Some(Stamped::Open(Open {
        evidence: evidence.duplicate(alloc)?,
        body: Body::Whole(body),
        ui: NO_UI,
    })))
}

// ---- what the own OPEN carries on

/// The batches of the plan of a view become slots and own votes, at the positions of the window: elsewhere they are refused.
fn carry_on<V: Service + Drop>(
    replica: &mut ReplicaState<V>,
    alloc: Global,
    view: View,
    evidence: &Evidence,
) -> Result<(), NoMemory>
    requires { evidence.now.base < 2 ^ 63 }
    ensures writes { WritesNormal replica.old replica.new }
    ensures carries { OnOk result (CarriesOn view evidence.now replica.old replica.new) }
{
    for index in 0..replica.plan_length(view) {
        carry_on_at(replica, alloc, view, evidence, index)?;
    }
    Ok(())
}

/// The batch of the plan with this index, as the NEW_VIEW of the evidence ordered it.
fn carry_on_at<V: Service + Drop>(
    replica: &mut ReplicaState<V>,
    alloc: Global,
    view: View,
    evidence: &Evidence,
    index: usize,
) -> Result<(), NoMemory>
    requires base { evidence.now.base < 2 ^ 63 }
    requires index { index < length_in (plan_of_view view replica.old.protocol.change.plan) }
    ensures writes { WritesNormal replica.old replica.new }
    ensures carries { OnOk result (CarriesMore view evidence.now index replica.old replica.new) }
{
    let Some(held) = replica.protocol.change.plan_at(view) else {
        return Ok(());
    };
    let plan = held.plan();
    let pos = evidence.base + index as u64 + 1;
    if pos > MAX_POS {
        return Ok(());
    }
    let batch = plan.batches.as_slice()[index].duplicate(alloc)?;
    let digest = digest_at(replica, view, index);
    let ui = Ui {
        host: replica.protocol.host,
        counter: evidence.counter,
        cert: evidence.cert,
    };
    replica.put_slot(pos, &ui, digest, Some(batch));
    replica.count_vote(pos, replica.protocol.host, evidence.counter, digest);
    Ok(())
}

/// The digest of the batch of the plan with this index.
fn digest_at<V: Service + Drop>(replica: &ReplicaState<V>, view: View, index: usize) -> Digest
    requires { index < length_in (plan_of_view view replica.now.protocol.change.plan) }
    ensures { (plan : PlanValue) → plan_of_view view replica.now.protocol.change.plan ≡ Some plan → slice_get (map batch_digest plan.batches) index ≡ Some result }
{
    let Some(held) = replica.protocol.change.plan_at(view) else {
        return [0; 32];
    };
    held.batches()[index]
}
