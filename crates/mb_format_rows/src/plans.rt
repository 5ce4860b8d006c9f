//! Rows of VIEW_CHANGEs and NEW_VIEWs: whether what they show is usable, and what they leave to the next view.

ghost use Rattle.std.specs.Prelude.{◌↔◌, IsTrue};
ghost use Rattle.mb_msg.specs.Fits.{FitsMember};

use crate::limits::SECRET;
use crate::stop::Stop;
use crate::teller::{Teller, Told};
use mb_base::Shape;
use mb_msg::{Body, Message, Open, Plan, ViewChange, decode};
use mb_parts::Part;
use mb_plan::{BadProof, NewViewFault, PlanFault, check_new_view, check_open, plan_of, usable};
use mb_usig::Usig;
use std::alloc::Global;

impl Told for Plan {
    fn tell(&self, teller: &mut Teller) {
        self.base.tell(teller);
        teller.list("batches", self.batches.as_slice());
    }
}

/// Whether a VIEW_CHANGE is usable, or its first fault.
pub fn usable_text(alloc: Global, shape: &Shape, message: &Message) -> Result<String, Stop> {
    let Message::ViewChange(change) = message else {
        return Err(Stop::NoRow);
    };
    if !change.fits(shape) {
        return Err(Stop::Unfit);
    }
    let usig = Usig::new(*shape, 0, &SECRET);
    match usable(alloc, shape, &usig, change) {
        Ok(()) => Ok(String::from_str(alloc, "usable")?),
        Err(BadProof::NoMemory) => Err(Stop::NoMemory),
        Err(BadProof::At { index, reason }) => {
            Ok(format!(in alloc; "entry {index} reason {reason}")?)
        }
    }
}

/// The plan that a NEW_VIEW announces, or its first fault.
pub fn follow_text(alloc: Global, shape: &Shape, message: &Message) -> Result<String, Stop> {
    let Message::NewView(new_view) = message else {
        return Err(Stop::NoRow);
    };
    if !new_view.fits(shape) {
        return Err(Stop::Unfit);
    }
    let usig = Usig::new(*shape, 0, &SECRET);
    match check_new_view(alloc, shape, &usig, new_view) {
        Ok(plan) => plan_told(alloc, plan),
        Err(fault) => follow_fault_text(alloc, fault),
    }
}

fn follow_fault_text(alloc: Global, fault: NewViewFault) -> Result<String, Stop> {
    match fault {
        NewViewFault::Few => Ok(String::from_str(alloc, "too few")?),
        NewViewFault::OtherPlan => Ok(String::from_str(alloc, "another plan")?),
        NewViewFault::NoMemory => Err(Stop::NoMemory),
        NewViewFault::Unusable { index, reason } => {
            Ok(format!(in alloc; "member {index} reason {reason}")?)
        }
    }
}

fn plan_told(alloc: Global, plan: Plan) -> Result<String, Stop> {
    let mut teller = Teller::new(alloc);
    plan.tell(&mut teller);
    teller.finish()
}

/// The VIEW_CHANGE that these bytes are.
fn change_of(alloc: Global, shape: &Shape, bytes: &[u8]) -> Result<ViewChange, Stop> {
    match decode(alloc, shape, bytes)? {
        Message::ViewChange(change) => Ok(change),
        other => {
            drop(other);
            Err(Stop::NoRow)
        }
    }
}

/// Whether it is whole, and each field of it has an allowed value.
fn is_whole(shape: &Shape, change: &ViewChange) -> bool
    ensures { IsTrue result ↔ FitsMember shape.now change.now }
{
    match &change.body {
        Body::Whole(_) => change.fits(shape),
        Body::Bare(_) => false,
    }
}

/// The plan that at most two VIEW_CHANGEs leave.
fn plan_left(alloc: Global, shape: &Shape, changes: &[ViewChange]) -> Result<Plan, PlanFault> {
    match changes {
        [] => plan_of(alloc, shape, changes),
        [one] if is_whole(shape, one) => plan_of(alloc, shape, changes),
        [one, other] if is_whole(shape, one) && is_whole(shape, other) => {
            plan_of(alloc, shape, changes)
        }
        _ => Err(PlanFault::Few),
    }
}

/// The plan that the VIEW_CHANGEs of these bytes leave.
pub fn plan_text(alloc: Global, shape: &Shape, given: &[Vec<u8>]) -> Result<String, Stop> {
    let mut changes = Vec::new(alloc);
    for bytes in given {
        changes.push(change_of(alloc, shape, bytes)?)?;
    }
    match plan_left(alloc, shape, &changes) {
        Ok(plan) => plan_told(alloc, plan),
        Err(PlanFault::Few) => Ok(String::from_str(alloc, "too few")?),
        Err(PlanFault::NoMemory) => Err(Stop::NoMemory),
    }
}

/// The OPEN that these bytes are.
fn open_of(alloc: Global, shape: &Shape, bytes: &[u8]) -> Result<Open, Stop> {
    match decode(alloc, shape, bytes)? {
        Message::Open(open) => Ok(open),
        other => {
            drop(other);
            Err(Stop::NoRow)
        }
    }
}

/// Whether the body of the second OPEN is that of the plan of the first.
pub fn opens_text(
    alloc: Global,
    shape: &Shape,
    first: &[u8],
    second: &[u8],
) -> Result<String, Stop> {
    let first = open_of(alloc, shape, first)?;
    let second = open_of(alloc, shape, second)?;
    let opens = opens(alloc, shape, &first, &second);
    drop(first);
    drop(second);
    let text = if opens? { "its body" } else { "another body" };
    Ok(String::from_str(alloc, text)?)
}

fn opens(alloc: Global, shape: &Shape, first: &Open, second: &Open) -> Result<bool, Stop> {
    let Body::Whole(body) = &second.body else {
        return Err(Stop::NoRow);
    };
    if !first.evidence.fits(shape) || !body.fits(shape) {
        return Err(Stop::Unfit);
    }
    let usig = Usig::new(*shape, 0, &SECRET);
    Ok(check_open(alloc, shape, &usig, &first.evidence, body)?)
}
