//! The certificates in a message, each as the bare message that it says its host stamped, in the order of the bytes.

ghost use Rattle.std.specs.Prelude.{◌≡◌, ◌∷◌, ◌++◌, [], None, OnOk, IfOk, IfSome};
ghost use Rattle.std.specs.List.{flat_map, AllByRecursion};
ghost use Rattle.mb_base.specs.declared.shape.Shape.{Shape as TheShape};
ghost use Rattle.mb_parts.specs.Claims.{stable_claims, floor_claims, evidence_claims, new_view_claim};
ghost use Rattle.mb_parts.specs.Fits.{FitsStable, FitsFloorCert, FitsEvidence};
ghost use Rattle.mb_parts.specs.Spelling.{batch_bytes};
ghost use Rattle.mb_msg.specs.AsStamped.{stamped_digest};
ghost use Rattle.mb_msg.specs.Stamps.{as_stamped};
ghost use Rattle.mb_msg.specs.Bodies.{FitsBody, body_digest, inside_whole};
ghost use Rattle.mb_msg.specs.Fits.{FitsFields, FitsStamped, FitsShown, FitsCommit, FitsOpen, FitsJoin, FitsChangeBody, FitsViewChange, FitsNewViewBody, FitsLog};
ghost use Rattle.mb_msg.specs.declared.message.Message.TheVariants as kind;
ghost use Rattle.mb_model.specs.Compared.{inside_some};
ghost use Rattle.mb_model.specs.GateChecks.{stamp_claim};
ghost use Rattle.mb_model.specs.Inside.{named_claim, open_claims, join_claims, shown_claims, change_claims, member_claims, new_view_claims, claims_in_stamped, stamped_claims, claims_in};
ghost use Rattle.mb_certified.specs.Certified.{stable_stamp, floor_stamp, new_view_stamp, enter_stamp, enters_of, named_stamp, inner_of, Adds, AreCertified};

use crate::bare::{bare_form, stamped_of};
use mb_base::{Digest, NoMemory, Shape, Ui};
use mb_msg::{
    Body, ChangeBody, Checkpoint, Commit, Enter, Evidence, FloorCert, Join, Log, Message, NewView,
    NewViewBody, Open, Prepare, Shown, StableCert, Stamped, ViewChange,
};
use mb_parts::{EvidenceMember, FloorMember, StableMember, floors_digest};
use std::alloc::Global;

type Added = Result<(), NoMemory>;

// ---- in certificates: each member stands for a message that its host is to have stamped

fn stable_stamp(cert: &StableCert, member: &StableMember) -> Stamped
    ensures { result ≡ stable_stamp cert.now member.now }
{
    Stamped::Checkpoint(Checkpoint {
        pos: cert.pos,
        state: cert.state,
        body: Body::Bare(member.floors),
        ui: Ui {
            host: member.host,
            counter: member.counter,
            cert: member.cert,
        },
    })
}

fn add_stable(cert: &StableCert, out: &mut Vec<Stamped>) -> Added
    ensures { (s : TheShape) → FitsStable s cert.now → OnOk result (Adds s out.old.items out.new.items (stable_claims cert.now)) }
{
    for member in cert.members.as_slice() {
        out.push(stable_stamp(cert, member))?;
    }
    Ok(())
}

fn floor_stamp(cert: &FloorCert, member: &FloorMember) -> Stamped
    ensures { result ≡ floor_stamp cert.now member.now }
{
    Stamped::Checkpoint(Checkpoint {
        pos: cert.pos,
        state: cert.state,
        body: Body::Bare(floors_digest(member.floors.as_slice())),
        ui: Ui {
            host: member.host,
            counter: member.counter,
            cert: member.cert,
        },
    })
}

fn add_floor(cert: &FloorCert, out: &mut Vec<Stamped>) -> Added
    ensures { (s : TheShape) → FitsFloorCert s cert.now → OnOk result (Adds s out.old.items out.new.items (floor_claims cert.now)) }
{
    for member in cert.members.as_slice() {
        out.push(floor_stamp(cert, member))?;
    }
    Ok(())
}

fn new_view_stamp(shape: &Shape, e: &Evidence) -> Stamped
    ensures { result ≡ new_view_stamp shape.now e.now }
{
    Stamped::NewView(NewView {
        view: e.view,
        base: e.base,
        end: e.end,
        plan: e.plan,
        body: Body::Bare(e.body),
        ui: Ui {
            host: shape.primary(e.view),
            counter: e.counter,
            cert: e.cert,
        },
    })
}

fn enter_stamp(e: &Evidence, member: &EvidenceMember) -> Stamped
    ensures { result ≡ enter_stamp e.now member.now }
{
    Stamped::Enter(Enter {
        view: e.view,
        counter: e.counter,
        plan: e.plan,
        ui: Ui {
            host: member.host,
            counter: member.counter,
            cert: member.cert,
        },
    })
}

fn add_enters(e: &Evidence, out: &mut Vec<Stamped>) -> Added
    ensures { (s : TheShape) → FitsEvidence s e.now → OnOk result (Adds s out.old.items out.new.items (enters_of e.now)) }
{
    for member in e.members.as_slice() {
        out.push(enter_stamp(e, member))?;
    }
    Ok(())
}

fn add_evidence(shape: &Shape, e: &Evidence, out: &mut Vec<Stamped>) -> Added
    requires { FitsEvidence shape.now e.now }
    ensures { OnOk result (Adds shape.now out.old.items out.new.items (evidence_claims shape.now e.now)) }
{
    out.push(new_view_stamp(shape, e))?;
    add_enters(e, out)
}

fn add_some_floor(cert: &Option<FloorCert>, out: &mut Vec<Stamped>) -> Added
    ensures { (s : TheShape) → IfSome cert.now (FitsFloorCert s) → OnOk result (Adds s out.old.items out.new.items (inside_some floor_claims cert.now)) }
{
    match cert {
        Some(cert) => add_floor(cert, out),
        None => Ok(()),
    }
}

fn add_some_evidence(shape: &Shape, e: &Option<Evidence>, out: &mut Vec<Stamped>) -> Added
    requires { IfSome e.now (FitsEvidence shape.now) }
    ensures { OnOk result (Adds shape.now out.old.items out.new.items (inside_some (evidence_claims shape.now) e.now)) }
{
    match e {
        Some(e) => add_evidence(shape, e, out),
        None => Ok(()),
    }
}

// ---- in stamped messages, without their own

/// The PREPARE that a COMMIT names, of which the batch has this digest.
fn named_stamp(shape: &Shape, m: &Commit, batch: &Digest) -> Stamped
    ensures { result ≡ named_stamp shape.now m.now batch.now }
{
    Stamped::Prepare(Prepare {
        view: m.view,
        pos: m.pos,
        body: Body::Bare(*batch),
        ui: Ui {
            host: shape.primary(m.view),
            counter: m.counter,
            cert: m.cert,
        },
    })
}

fn add_named(shape: &Shape, m: &Commit, batch: &Digest, out: &mut Vec<Stamped>) -> Added
    requires { FitsCommit shape.now m.now × (batch.now ≡ body_digest batch_bytes m.now.body) }
    ensures { OnOk result (Adds shape.now out.old.items out.new.items (named_claim shape.now m.now ∷ [])) }
{
    out.push(named_stamp(shape, m, batch))?;
    Ok(())
}

fn add_open(shape: &Shape, m: &Open, out: &mut Vec<Stamped>) -> Added
    requires { FitsOpen shape.now m.now }
    ensures { OnOk result (Adds shape.now out.old.items out.new.items (open_claims shape.now m.now)) }
{
    add_evidence(shape, &m.evidence, out)?;
    match &m.body {
        Body::Whole(body) => add_stable(&body.stable, out),
        Body::Bare(_) => Ok(()),
    }
}

fn add_join(shape: &Shape, m: &Join, out: &mut Vec<Stamped>) -> Added
    requires { FitsJoin shape.now m.now }
    ensures { OnOk result (Adds shape.now out.old.items out.new.items (join_claims shape.now m.now)) }
{
    add_some_evidence(shape, &m.evidence, out)?;
    add_stable(&m.stable, out)
}

/// In the head of a message, and in the body of an OPEN. `body` is the digest of its body.
fn add_inner(shape: &Shape, m: &Stamped, body: &Digest, out: &mut Vec<Stamped>) -> Added
    requires { FitsStamped shape.now m.now × (body.now ≡ stamped_digest m.now) }
    ensures { OnOk result (Adds shape.now out.old.items out.new.items (inner_of shape.now m.now)) }
{
    match m {
        Stamped::Commit(m) => add_named(shape, m, body, out),
        Stamped::Open(m) => add_open(shape, m, out),
        Stamped::Join(m) => add_join(shape, m, out),
        _ => Ok(()),
    }
}

/// The message's own certificate. `body` is the digest of its body.
fn add_own(alloc: Global, m: &Stamped, body: &Digest, out: &mut Vec<Stamped>) -> Added
    ensures { (s : TheShape) → FitsStamped s m.now → body.now ≡ stamped_digest m.now → OnOk result (Adds s out.old.items out.new.items (stamp_claim m.now ∷ [])) }
{
    out.push(bare_form(alloc, m, body)?)?;
    Ok(())
}

// ---- in what a VIEW_CHANGE or a NEW_VIEW shows

/// In the message that an entry of a shown log is, with its own certificate behind the others.
fn add_entry(alloc: Global, shape: &Shape, m: &Stamped, out: &mut Vec<Stamped>) -> Added
    requires { FitsStamped shape.now m.now }
    ensures { OnOk result (Adds shape.now out.old.items out.new.items (inner_of shape.now m.now ++ stamp_claim m.now ∷ [])) }
{
    let body = m.body_digest(alloc, shape)?;
    add_inner(shape, m, &body, out)?;
    add_own(alloc, m, &body, out)
}

/// In an entry of a shown log. The message that it is ends by one call: at the end of its scope it would be dropped in place, kind by kind, at each exit.
fn add_shown(alloc: Global, shape: &Shape, entry: &Shown, out: &mut Vec<Stamped>) -> Added
    requires { FitsShown shape.now entry.now }
    ensures { OnOk result (Adds shape.now out.old.items out.new.items (shown_claims shape.now entry.now)) }
{
    let message = stamped_of(alloc, entry)?;
    let added = add_entry(alloc, shape, &message, out);
    drop(message);
    added
}

fn add_entries(alloc: Global, shape: &Shape, entries: &[Shown], out: &mut Vec<Stamped>) -> Added
    requires { AllByRecursion (FitsShown shape.now) entries.now }
    ensures { OnOk result (Adds shape.now out.old.items out.new.items (flat_map (shown_claims shape.now) entries.now)) }
{
    for entry in entries {
        add_shown(alloc, shape, entry, out)?;
    }
    Ok(())
}

fn add_change_body(alloc: Global, shape: &Shape, body: &ChangeBody, out: &mut Vec<Stamped>) -> Added
    requires { FitsChangeBody shape.now body.now }
    ensures { OnOk result (Adds shape.now out.old.items out.new.items (change_claims shape.now body.now)) }
{
    add_some_floor(&body.floor, out)?;
    add_stable(&body.stable, out)?;
    add_entries(alloc, shape, body.entries.as_slice(), out)
}

fn add_change(alloc: Global, shape: &Shape, m: &ViewChange, out: &mut Vec<Stamped>) -> Added
    requires { FitsViewChange shape.now m.now }
    ensures { OnOk result (Adds shape.now out.old.items out.new.items (inside_whole (change_claims shape.now) m.now.body)) }
{
    match &m.body {
        Body::Whole(body) => add_change_body(alloc, shape, body.as_part(), out),
        Body::Bare(_) => Ok(()),
    }
}

/// A VIEW_CHANGE in a NEW_VIEW, with its own certificate behind the others.
fn add_member(alloc: Global, shape: &Shape, m: &ViewChange, out: &mut Vec<Stamped>) -> Added
    requires { FitsViewChange shape.now m.now }
    ensures { OnOk result (Adds shape.now out.old.items out.new.items (member_claims shape.now m.now)) }
{
    add_change(alloc, shape, m, out)?;
    out.push(Stamped::ViewChange(ViewChange {
        view: m.view,
        body: Body::Bare(m.body.change_digest(alloc, shape)?),
        ui: m.ui,
    }))?;
    Ok(())
}

fn add_members(
    alloc: Global,
    shape: &Shape,
    members: &[ViewChange],
    out: &mut Vec<Stamped>,
) -> Added
    requires { AllByRecursion (FitsViewChange shape.now) members.now }
    ensures { OnOk result (Adds shape.now out.old.items out.new.items (flat_map (member_claims shape.now) members.now)) }
{
    for member in members {
        add_member(alloc, shape, member, out)?;
    }
    Ok(())
}

fn add_new_view(
    alloc: Global,
    shape: &Shape,
    body: &Body<NewViewBody>,
    out: &mut Vec<Stamped>,
) -> Added
    requires { FitsBody (FitsNewViewBody shape.now) body.now }
    ensures { OnOk result (Adds shape.now out.old.items out.new.items (inside_whole (new_view_claims shape.now) body.now)) }
{
    match body {
        Body::Whole(body) => add_members(alloc, shape, body.changes.as_slice(), out),
        Body::Bare(_) => Ok(()),
    }
}

// ---- in whole messages

/// In a message, without its own. `body` is the digest of its body.
fn add_inside(
    alloc: Global,
    shape: &Shape,
    m: &Stamped,
    body: &Digest,
    out: &mut Vec<Stamped>,
) -> Added
    requires { FitsStamped shape.now m.now × (body.now ≡ stamped_digest m.now) }
    ensures { OnOk result (Adds shape.now out.old.items out.new.items (claims_in_stamped shape.now m.now)) }
{
    match m {
        Stamped::ViewChange(m) => add_change(alloc, shape, m, out),
        Stamped::NewView(m) => add_new_view(alloc, shape, &m.body, out),
        _ => add_inner(shape, m, body, out),
    }
}

fn add_stamped(alloc: Global, shape: &Shape, m: &Stamped, out: &mut Vec<Stamped>) -> Added
    requires { FitsStamped shape.now m.now }
    ensures { OnOk result (Adds shape.now out.old.items out.new.items (stamped_claims shape.now m.now)) }
{
    let body = m.body_digest(alloc, shape)?;
    add_inside(alloc, shape, m, &body, out)?;
    add_own(alloc, m, &body, out)
}

fn add_all(alloc: Global, shape: &Shape, entries: &[Stamped], out: &mut Vec<Stamped>) -> Added
    requires { AllByRecursion (FitsStamped shape.now) entries.now }
    ensures { OnOk result (Adds shape.now out.old.items out.new.items (flat_map (stamped_claims shape.now) entries.now)) }
{
    for entry in entries {
        add_stamped(alloc, shape, entry, out)?;
    }
    Ok(())
}

fn add_log(alloc: Global, shape: &Shape, m: &Log, out: &mut Vec<Stamped>) -> Added
    requires { FitsLog shape.now m.now }
    ensures { OnOk result (Adds shape.now out.old.items out.new.items (claims_in shape.now (kind.Log m.now))) }
{
    add_some_floor(&m.floor, out)?;
    add_stable(&m.stable, out)?;
    add_some_evidence(shape, &m.evidence, out)?;
    add_all(alloc, shape, m.entries.as_slice(), out)
}

/// In a message that isn't stamped.
fn add_other(alloc: Global, shape: &Shape, message: &Message, out: &mut Vec<Stamped>) -> Added
    requires { FitsFields shape.now message.now × (as_stamped message.now ≡ None) }
    ensures { OnOk result (Adds shape.now out.old.items out.new.items (claims_in shape.now message.now)) }
{
    match message {
        Message::Log(m) => add_log(alloc, shape, m, out),
        _ => Ok(()),
    }
}

fn add_message(alloc: Global, shape: &Shape, message: Message, out: &mut Vec<Stamped>) -> Added
    requires { FitsFields shape.now message }
    ensures { OnOk result (Adds shape.now out.old.items out.new.items (claims_in shape.now message)) }
{
    match message.into_stamped() {
        Ok(stamped) => {
            let added = add_stamped(alloc, shape, &stamped, out);
            drop(stamped);
            added
        }
        Err(other) => {
            let added = add_other(alloc, shape, &other, out);
            drop(other);
            added
        }
    }
}

/// All certificates of a message, whole and bare ones alike. Each field of the message has an allowed value.
pub fn certified_in(
    alloc: Global,
    shape: &Shape,
    message: Message,
) -> Result<Vec<Stamped>, NoMemory>
    requires { FitsFields shape.now message }
    ensures { IfOk result (λ v. AreCertified shape.now v.items (claims_in shape.now message)) }
{
    let mut out = Vec::new(alloc);
    add_message(alloc, shape, message, &mut out)?;
    Ok(out)
}
