//! Whether a NEW_VIEW follows from its members.

ghost use Rattle.std.specs.Prelude.{◌≡◌, ◌<◌, length, IfOk};
ghost use Rattle.std.specs.List.{AllByRecursion};
ghost use Rattle.mb_msg.specs.Fits.{FitsViewChange, FitsMember, FitsNewViewBody, FitsNewView};
ghost use Rattle.mb_msg.specs.Plans.{CanHash};
ghost use Rattle.mb_model.specs.KindChecks.{is_member, member_fault, members_fault, announces};
ghost use Rattle.mb_plan.specs.Looked.{AreFound, AreLooked};
ghost use Rattle.mb_plan.specs.NewViews.{checker, AnswersMembers, Announced, OfMembers, FollowsFrom, Follows};

use crate::looked::{PLACES, Place};
use crate::planning::{PlanFault, plan_beside};
use crate::shown::{BadProof, usable_beside};
use mb_base::{NoMemory, Shape, View};
use mb_msg::{Batch, Body, NewView, NewViewBody, Plan, ViewChange};
use mb_usig::Usig;
use std::alloc::Global;

/// Why a NEW_VIEW is not one.
#[derive(Clone, Copy, Debug, PartialEq, Eq)]
pub enum NewViewFault {
    /// It shows no f+1 VIEW_CHANGEs of different hosts.
    Few,
    /// The index of the first member that fails, and the first reason that fails for it.
    Unusable { index: u8, reason: u8 },
    /// Base, end or digest differ from those of the members' plan.
    OtherPlan,
    NoMemory,
}

impl From<NoMemory> for NewViewFault {
    ghost use Rattle.std.specs.Prelude.{◌≡◌};
    ghost use Rattle.mb_plan.specs.declared.new_view.NewViewFault.TheVariants as variants;

    ghost from_gives = { λ _ proof. proof ≡ variants.NoMemory };

    fn from(_e: NoMemory) -> NewViewFault {
        NewViewFault::NoMemory
    }
}

/// The reason of a member that is none: it is of another view, or its tag does not verify.
const NO_MEMBER: u8 = 10;

/// Whether a member is of the NEW_VIEW's view, and its tag verifies.
fn is_member(
    alloc: Global,
    shape: &Shape,
    usig: &Usig,
    view: View,
    member: &ViewChange,
) -> Result<bool, NoMemory>
    requires { FitsViewChange shape.now member.now }
    ensures { IfOk result (λ is. is ≡ is_member (checker shape.now usig.now.secret) view member.now) }
{
    let bare = member.bare(alloc, shape)?;
    Ok(member.view == view && usig.verify_ui(bare.as_slice(), &member.ui))
}

/// The reason that fails for a member: 10 where it is none. `places` is what was found of the votes of other members, and `known` are batches that may
/// keep their digests.
fn member_fault<'a>(
    alloc: Global,
    shape: &Shape,
    usig: &Usig,
    known: &[Batch],
    places: &mut [Place<'a>],
    view: View,
    member: &'a ViewChange,
) -> Result<Option<u8>, NoMemory>
    requires fits { (usig.now.shape ≡ shape.now) × FitsViewChange shape.now member.now }
    requires places { AreFound shape.now usig.now.secret places.old }
    ensures places { AreFound shape.now usig.now.secret places.new }
    ensures fault { IfOk result (λ reason. reason ≡ member_fault (checker shape.now usig.now.secret) view member.now) }
{
    if !is_member(alloc, shape, usig, view, member)? {
        return Ok(Some(NO_MEMBER));
    }
    match usable_beside(alloc, shape, usig, known, places, member) {
        Ok(()) => Ok(None),
        Err(BadProof::At { reason, .. }) => Ok(Some(reason)),
        Err(BadProof::NoMemory) => Err(NoMemory),
    }
}

/// Looks at all members, up to the first that fails. `places` is what was found of their votes.
fn check_members<'a>(
    alloc: Global,
    shape: &Shape,
    usig: &Usig,
    known: &[Batch],
    places: &mut [Place<'a>],
    view: View,
    members: &'a [ViewChange],
) -> Result<(), NewViewFault>
    requires fits { (usig.now.shape ≡ shape.now) × AllByRecursion (FitsMember shape.now) members.now × (length members.now < 255) }
    requires places { AreFound shape.now usig.now.secret places.old }
    ensures places { AreFound shape.now usig.now.secret places.new }
    ensures fault { AnswersMembers (members_fault (checker shape.now usig.now.secret) view 0 members.now) result }
{
    for index in 0..members.len() {
        let member = &members[index];
        if let Some(reason) = member_fault(alloc, shape, usig, known, places, view, member)? {
            let index = index as u8;
            return Err(NewViewFault::Unusable { index, reason });
        }
    }
    Ok(())
}

/// The plan, where it is the one that the NEW_VIEW announces.
fn announced(new_view: &NewView, plan: Plan) -> Result<Plan, NewViewFault>
    requires { CanHash plan }
    ensures { Announced new_view.now plan result }
{
    let is_announced = new_view.base == plan.base.pos
        && new_view.end == plan.end()
        && new_view.plan == plan.digest();
    if is_announced {
        Ok(plan)
    } else {
        Err(NewViewFault::OtherPlan)
    }
}

/// The plan of members of which none fails. `places` is what was found of their votes.
fn plan_of_members(
    alloc: Global,
    shape: &Shape,
    places: &[Place<'_>],
    members: &[ViewChange],
) -> Result<Plan, NewViewFault>
    requires fits { AllByRecursion (FitsMember shape.now) members.now }
    requires places { AreLooked places.now }
    ensures { OfMembers shape.now members.now result }
{
    match plan_beside(alloc, shape, places, members) {
        Ok(plan) => Ok(plan),
        Err(PlanFault::Few) => Err(NewViewFault::Few),
        Err(PlanFault::NoMemory) => Err(NewViewFault::NoMemory),
    }
}

/// The same where the body is whole.
fn check_body(
    alloc: Global,
    shape: &Shape,
    usig: &Usig,
    known: &[Batch],
    new_view: &NewView,
    body: &NewViewBody,
) -> Result<Plan, NewViewFault>
    requires { (usig.now.shape ≡ shape.now) × FitsNewViewBody shape.now body.now }
    ensures { FollowsFrom shape.now usig.now.secret new_view.now body.now result }
{
    let members = body.changes.as_slice();
    let mut places = [Place {
        looked: None,
        stamped: None,
    }; PLACES];
    let view = new_view.view;
    check_members(alloc, shape, usig, known, &mut places, view, members)?;
    let plan = plan_of_members(alloc, shape, &places, members)?;
    announced(new_view, plan)
}

/// The plan of a NEW_VIEW's members, where each is usable and it is the one that the NEW_VIEW announces; else the first member that fails and the
/// first reason that fails for it, which is 10 for one of another view or with a wrong tag; else that the NEW_VIEW announces another plan. The
/// batches of the plan keep their digests. `Few` tells that its body came as its digest. The shape is that of the trusted part, and each field has
/// an allowed value, so a body that came whole has f+1 members of different hosts. `NoMemory` tells that memory ran out, and nothing of the NEW_VIEW.
pub fn check_new_view(
    alloc: Global,
    shape: &Shape,
    usig: &Usig,
    new_view: &NewView,
) -> Result<Plan, NewViewFault>
    requires { (usig.now.shape ≡ shape.now) × FitsNewView shape.now new_view.now }
    ensures { Follows shape.now usig.now.secret new_view.now new_view.now.body result }
{
    check_new_view_knowing(alloc, shape, usig, &[], new_view)
}

/// The same, by who may know batches of it: `known` are some that may keep their digests, as those of a plan that is held. Of the same batches in an OPEN
/// these digests are taken.
pub fn check_new_view_knowing(
    alloc: Global,
    shape: &Shape,
    usig: &Usig,
    known: &[Batch],
    new_view: &NewView,
) -> Result<Plan, NewViewFault>
    requires { (usig.now.shape ≡ shape.now) × FitsNewView shape.now new_view.now }
    ensures { Follows shape.now usig.now.secret new_view.now new_view.now.body result }
{
    match &new_view.body {
        Body::Whole(body) => check_body(alloc, shape, usig, known, new_view, body),
        Body::Bare(_) => Err(NewViewFault::Few),
    }
}
