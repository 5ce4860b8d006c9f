//! NEW_VIEW: the primary of a view announces the plan of f+1 VIEW_CHANGEs.

ghost use Rattle.mb_msg.specs.declared.stamped.Stamped.TheVariants as stamped;
ghost use Rattle.mb_msg.specs.AsStamped.{stamped_digest};
ghost use Rattle.mb_msg.specs.Stamps.{with_ui};
ghost use Rattle.mb_replica.specs.Between.{WritesChange};
ghost use Rattle.mb_msg.specs.declared.change.NewView.{NewView as NewViewValue};
ghost use Rattle.mb_change.specs.Searches.{with_new_view};
ghost use Rattle.mb_change.specs.Represents.{StandsWith};
ghost use Rattle.std.specs.Prelude.{List, ◌≡◌, Some, OnOk};
ghost use Rattle.mb_msg.specs.declared.change.ViewChange.{ViewChange as ViewChangeValue};
ghost use Rattle.mb_model.specs.Sending.{Progress};
ghost use Rattle.mb_model.specs.EnabledRules as rules;
ghost use Rattle.mb_core.specs.declared.rules.Due.TheVariants as due;
ghost use Rattle.mb_core.specs.Due.{IsDue};
ghost use Rattle.mb_replica.specs.Represents.{Represents};
ghost use Rattle.mb_core.specs.Steps.{CarriesOut};
ghost use Rattle.mb_msg.specs.Plans.{CanHash};
ghost use Rattle.mb_model.specs.Histories.{Identity, History, view_of};
ghost use Rattle.mb_model.specs.Making.{new_view_with};
ghost use Rattle.mb_msg.specs.declared.message.Message.TheVariants as message;

use crate::stamping::{NO_UI, publish, sign};
use mb_base::{Digest, Duplicate, Items, NoMemory};
use mb_msg::{Body, NewView, NewViewBody, Plan, Stamped, ViewChange};
use mb_replica::{ReplicaState, StepOutput};
use mb_service::Service;
use std::alloc::Global;

/// Announces the plan of the first f+1 VIEW_CHANGEs.
pub(crate) fn announce<V: Service + Drop>(
    replica: &mut ReplicaState<V>,
    alloc: Global,
    done: &mut StepOutput,
) -> Result<(), NoMemory>
    requires { IsDue V.machine replica.old done.old due.Announce }
    ensures { (me : Identity V) (x : Progress) (changes : List ViewChangeValue) → CarriesOut me x (rules.Announce changes) result replica.old done.old replica.new done.new }
{
    let view = replica.view();
    let found = replica.protocol.change.chosen(alloc, view)?;
    let Some(changes) = found else {
        return Ok(());
    };
    let planned = replica.plan_from(alloc, changes.as_slice())?;
    let Some(plan) = planned else {
        return Ok(());
    };
    let message = new_view(replica, changes, &plan);
    let signed = sign(replica, alloc, message)?;
    let signed = hold_own(replica, alloc, &signed.message, signed.body).and(Ok(signed))?;
    let signed = replica.hold_plan(alloc, view, plan).and(Ok(signed))?;
    replica.count_opens(view);
    publish(replica, alloc, signed.message, signed.body, done)
}

/// The own NEW_VIEW is held as another's.
fn hold_own<V: Service + Drop>(
    replica: &mut ReplicaState<V>,
    alloc: Global,
    message: &Stamped,
    digest: Digest,
) -> Result<(), NoMemory>
    requires { digest ≡ stamped_digest message.now }
    ensures writes { WritesChange replica.old replica.new }
    ensures holds { (m : NewViewValue) → message.now ≡ stamped.NewView m → OnOk result (StandsWith replica.old.protocol.change (with_new_view m) replica.new.protocol.change) }
{
    let Stamped::NewView(own) = message else {
        return Ok(());
    };
    let copy = own.duplicate(alloc)?;
    replica.protocol.change.hold_new_view(copy, digest);
    Ok(())
}

/// The NEW_VIEW of this host's view with the plan of these, before it is stamped.
fn new_view<V: Service + Drop>(
    replica: &ReplicaState<V>,
    changes: Vec<ViewChange>,
    plan: &Plan,
) -> Stamped
    requires { CanHash plan.now }
    ensures { (me : Identity V) (d : History) → Represents me replica.now d → result ≡ with_ui NO_UI (new_view_with me (view_of me d) changes.items plan.now) }
{
    Stamped::NewView(NewView {
        view: replica.view(),
        base: plan.base.pos,
        end: plan.end(),
        plan: plan.digest(),
        body: Body::Whole(NewViewBody {
            changes: Items::from_vec(changes),
        }),
        ui: NO_UI,
    })
}
