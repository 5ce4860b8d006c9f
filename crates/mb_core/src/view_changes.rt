//! VIEW_CHANGE: a host leaves for another view, and shows all of its own log.

ghost use Rattle.std.specs.Prelude.{◌≡◌, true, is_none, OnOk, IfOk};
ghost use Rattle.mb_model.specs.UsableLogs.{is_whole};
ghost use Rattle.mb_replica.specs.Represents.{IsHost, Represents};
ghost use Rattle.mb_core.specs.Carrying.{StoresOwn};
ghost use Rattle.mb_change.specs.Searches.{with_wish};
ghost use Rattle.mb_change.specs.Represents.{StandsWith};
ghost use Rattle.mb_normal.specs.Searches.{without_votes};
ghost use Rattle.mb_normal.specs.Tables.{Becomes};
ghost use Rattle.mb_msg.specs.declared.stamped.Stamped.TheVariants as stamped;
ghost use Rattle.mb_msg.specs.Fits.{FitsViewChange, FitsStamped};
ghost use Rattle.mb_msg.specs.declared.change.ViewChange.{ViewChange as ViewChangeValue};
ghost use Rattle.mb_msg.specs.Stamps.{with_ui};
ghost use Rattle.mb_replica.specs.Between.{WritesChange, WritesNormal};
ghost use Rattle.mb_core.specs.Steps.{CarriesOut};
ghost use Rattle.mb_model.specs.Sending.{Progress};
ghost use Rattle.mb_model.specs.EnabledRules as rules;
ghost use Rattle.mb_core.specs.declared.rules.Due.TheVariants as due;
ghost use Rattle.mb_core.specs.Due.{IsDue};
ghost use Rattle.mb_model.specs.Histories.{Identity, History};
ghost use Rattle.mb_model.specs.Making.{view_change};
ghost use Rattle.mb_model.specs.Held.{change_fault};

use crate::stamping::{NO_UI, publish, sign};
use mb_base::{Duplicate, NoMemory, View};
use mb_msg::{Body, ChangeBody, Hashed, Stamped, ViewChange};
use mb_plan::{BadProof, usable};
use mb_replica::{ReplicaState, StepOutput};
use mb_service::Service;
use std::alloc::Global;

/// Leaves for another view. Slots and votes are those of the view that is left.
pub(crate) fn change_view<V: Service + Drop>(
    replica: &mut ReplicaState<V>,
    alloc: Global,
    view: View,
    done: &mut StepOutput,
) -> Result<(), NoMemory>
    requires { IsDue V.machine replica.old done.old (due.ChangeView view) }
    ensures { (me : Identity V) (x : Progress) → CarriesOut me x (rules.ChangeView view) result replica.old done.old replica.new done.new }
{
    let message = view_change(replica, alloc, view)?;
    let signed = sign(replica, alloc, message)?;
    wish_own(replica, view);
    let signed = store_own(replica, alloc, &signed.message).and(Ok(signed))?;
    clear_votes(replica);
    replica.count_opens(view);
    publish(replica, alloc, signed.message, signed.body, done)
}

/// This host asks for a view.
fn wish_own<V: Service + Drop>(replica: &mut ReplicaState<V>, view: View)
    ensures writes { WritesChange replica.old replica.new }
    ensures wishes { StandsWith replica.old.protocol.change (with_wish replica.old.protocol.host view) replica.new.protocol.change }
{
    replica.protocol.change.wish(replica.protocol.host, view);
}

/// No slots and votes any more.
fn clear_votes<V: Service + Drop>(replica: &mut ReplicaState<V>)
    ensures writes { WritesNormal replica.old replica.new }
    ensures clears { Becomes replica.old.protocol.normal replica.new.protocol.normal without_votes }
{
    replica.protocol.normal.clear();
}

/// The VIEW_CHANGE to a view, with all of the own log, before it is stamped.
fn view_change<V: Service + Drop>(
    replica: &ReplicaState<V>,
    alloc: Global,
    view: View,
) -> Result<Stamped, NoMemory>
    ensures { (me : Identity V) (d : History) → Represents me replica.now d → IfOk result (λ o. o ≡ with_ui NO_UI (view_change me d view)) }
{
    let proof = replica.protocol.log.proof(alloc, &replica.protocol.stable)?;
    let body = ChangeBody {
        floor: proof.floor,
        stable: proof.stable,
        entries: proof.entries,
    };
    Ok(Stamped::ViewChange(ViewChange {
        view,
        body: Body::Whole(Hashed::new(body)),
        ui: NO_UI,
    }))
}

/// The own VIEW_CHANGE is stored where it is usable.
#[tactic(auto, using(mb_msg::proofs::Opened::change_can_digest))]
fn store_own<V: Service + Drop>(
    replica: &mut ReplicaState<V>,
    alloc: Global,
    message: &Stamped,
) -> Result<(), NoMemory>
    requires { FitsStamped replica.old.protocol.shape message.now }
    ensures writes { WritesChange replica.old replica.new }
    ensures stores { (me : Identity V) (m : ViewChangeValue) → IsHost me replica.old → message.now ≡ stamped.ViewChange m → is_whole m.body ≡ true → OnOk result (StoresOwn me m replica.old replica.new) }
{
    let Stamped::ViewChange(change) = message else {
        return Ok(());
    };
    let own = change.duplicate(alloc)?.with_digests();
    if !is_usable(replica, alloc, &own)? {
        return Ok(());
    }
    replica.protocol.change.store(own)
}

/// What it shows has no fault.
fn is_usable<V: Service + Drop>(
    replica: &ReplicaState<V>,
    alloc: Global,
    m: &ViewChange,
) -> Result<bool, NoMemory>
    requires { FitsViewChange replica.now.protocol.shape m.now }
    ensures { (me : Identity V) → IsHost me replica.now → IfOk result (λ b. b ≡ is_none (change_fault me m.now)) }
{
    match usable(alloc, &replica.protocol.shape, &replica.protocol.usig, m) {
        Ok(()) => Ok(true),
        Err(BadProof::At { .. }) => Ok(false),
        Err(BadProof::NoMemory) => Err(NoMemory),
    }
}
