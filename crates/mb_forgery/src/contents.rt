//! What an event has a faulty host stamp, before it has an identifier.

ghost use Rattle.std.specs.Prelude.{◌≡◌, ◌≤◌, false, length, reverse, replicate, None, IfOk, IfSome, option_map};
ghost use Rattle.std.specs.List.{AllByRecursion};
ghost use Rattle.mb_base.specs.Shapes.{host_count};
ghost use Rattle.mb_base.specs.declared.shape.Shape.{Shape as ShapeRecord};
ghost use Rattle.mb_parts.specs.Fits.{IsPlace, IsPosition, FitsBatch};
ghost use Rattle.mb_msg.specs.declared.stamped.Stamped.TheVariants as stamped;
ghost use Rattle.mb_msg.specs.AsStamped.{stamped_digest};
ghost use Rattle.mb_msg.specs.Fits.{FitsFields, FitsStamped, shown_limit};
ghost use Rattle.mb_model.specs.OwnLog.{behind_opening, as_shown};
ghost use Rattle.mb_world_model.specs.FaultyHosts.{prepare_with, commit_for, checkpoint_with};
ghost use Rattle.mb_forgery.specs.Contents.{unstamped, change_of, is_opening, entry_of, entries_of};

use mb_base::{Digest, Items, NoMemory, Pos, Shape, Ui, View};
use mb_msg::{
    BareCheckpoint, BareNewView, BareViewChange, Batch, Body, ChangeBody, Checkpoint, Commit,
    Floor, Floors, Hashed, Message, Prepare, Shown, StableCert, Stamped, ViewChange,
};
use std::alloc::Global;

/// Stands in a message until it is stamped. Its fields have allowed values, so that the message can be written.
const PLACEHOLDER: Ui = Ui {
    host: 0,
    counter: 1,
    cert: [0; 32],
};

/// The whole PREPARE of a batch at a position of a view.
pub fn prepare_with(view: View, pos: Pos, batch: Batch) -> Stamped
    ensures content { result ≡ unstamped (prepare_with view pos batch) }
    ensures fits { (s : ShapeRecord) → IsPlace view → IsPosition pos → FitsBatch s batch → FitsStamped s result }
{
    Stamped::Prepare(Prepare {
        view,
        pos,
        body: Body::Whole(batch),
        ui: PLACEHOLDER,
    })
}

/// The whole COMMIT of a whole PREPARE. None exactly for another message.
pub fn commit_for(message: Message) -> Option<Stamped>
    ensures content { result ≡ option_map unstamped (commit_for message) }
    ensures fits { (s : ShapeRecord) → FitsFields s message → IfSome result (FitsStamped s) }
{
    let Message::Prepare(m) = message else {
        return None;
    };
    let Prepare {
        view,
        pos,
        body,
        ui,
    } = m;
    match body {
        Body::Whole(batch) => {
            let cert = ui.cert;
            Some(Stamped::Commit(Commit {
                view,
                pos,
                counter: ui.counter,
                cert,
                body: Body::Whole(batch),
                ui: PLACEHOLDER,
            }))
        }
        Body::Bare(_) => None,
    }
}

/// A whole CHECKPOINT without floors.
pub fn checkpoint_with(
    alloc: Global,
    shape: &Shape,
    pos: Pos,
    state: &Digest,
) -> Result<Stamped, NoMemory>
    requires { IsPosition pos }
    ensures content { IfOk result (λ m. m ≡ unstamped (checkpoint_with (host_count shape.now) pos state.now)) }
    ensures fits { IfOk result (FitsStamped shape.now) }
{
    let floors = no_floors(alloc, shape.n())?;
    Ok(Stamped::Checkpoint(Checkpoint {
        pos,
        state: *state,
        body: Body::Whole(Floors { floors }),
        ui: PLACEHOLDER,
    }))
}

fn no_floors(alloc: Global, hosts: u8) -> Result<Items<Option<Floor>>, NoMemory>
    ensures { IfOk result (λ floors. floors ≡ replicate hosts None) }
{
    let mut floors = Items::new(alloc);
    for _ in 0..hosts {
        floors.push(None)?;
    }
    Ok(floors)
}

/// The VIEW_CHANGE with no floor and no stable certificate that shows these messages, oldest first: at most 6K + 768, each field of which has an
/// allowed value.
pub fn change_with(
    alloc: Global,
    shape: &Shape,
    view: View,
    messages: Vec<Stamped>,
) -> Result<Stamped, NoMemory>
    requires view { IsPosition view }
    requires fits { AllByRecursion (FitsStamped shape.now) messages.items }
    requires count { length messages.items ≤ shown_limit shape.now }
    ensures content { IfOk result (λ m. m ≡ unstamped (change_of view (reverse messages.items))) }
    ensures fits { IfOk result (FitsStamped shape.now) }
{
    let body = ChangeBody {
        floor: None,
        stable: StableCert {
            pos: 0,
            state: [0; 32],
            members: Items::new(alloc),
        },
        entries: entries_of(alloc, shape, messages)?,
    };
    Ok(Stamped::ViewChange(ViewChange {
        view,
        body: Body::Whole(Hashed::new(body)),
        ui: PLACEHOLDER,
    }))
}

/// Messages, oldest first, as entries: each loses its body behind the later ones, from the last back.
fn entries_of(
    alloc: Global,
    shape: &Shape,
    mut messages: Vec<Stamped>,
) -> Result<Items<Shown>, NoMemory>
    requires { AllByRecursion (FitsStamped shape.now) messages.items }
    ensures { IfOk result (λ entries. entries ≡ reverse (entries_of false (reverse messages.items))) }
{
    let mut entries = Vec::with_capacity(alloc, messages.len())?;
    let mut behind_opening = false;
    while let Some(message) = messages.pop() {
        let opens = is_opening(&message);
        entries.push(entry_of(alloc, shape, message, behind_opening)?)?;
        behind_opening = behind_opening || opens;
    }
    entries.reverse();
    Ok(Items::from_vec(entries))
}

/// An OPEN or a JOIN: what stands before it is shown without the bodies of votes and OPENs.
fn is_opening(message: &Stamped) -> bool
    ensures { result ≡ is_opening message.now }
{
    matches!(message, Stamped::Open(_) | Stamped::Join(_))
}

/// A message as an entry of a VIEW_CHANGE, behind which an opening stands or not.
fn entry_of(
    alloc: Global,
    shape: &Shape,
    mut message: Stamped,
    behind_opening: bool,
) -> Result<Shown, NoMemory>
    requires { FitsStamped shape.now message }
    ensures { IfOk result (λ entry. entry ≡ entry_of behind_opening message) }
{
    let body = message.body_digest(alloc, shape)?;
    if !behind_opening {
        return Ok(shown(message, body));
    }
    shorten(&mut message, body);
    Ok(shown(message, body))
}

/// Takes the body of a vote or an OPEN. `body` is its digest.
fn shorten(message: &mut Stamped, body: Digest)
    requires { body ≡ stamped_digest message.old }
    ensures value { message.new ≡ behind_opening message.old }
    ensures digest { body ≡ stamped_digest message.new }
{
    match message {
        Stamped::Prepare(m) => m.body = Body::Bare(body),
        Stamped::Commit(m) => m.body = Body::Bare(body),
        Stamped::Open(m) => m.body = Body::Bare(body),
        _ => {}
    }
}

/// Votes and OPENs keep their form, the others are shown without their bodies. `body` is the digest of the message's.
fn shown(message: Stamped, body: Digest) -> Shown
    requires { body ≡ stamped_digest message }
    ensures { result ≡ as_shown message }
{
    match message {
        Stamped::Prepare(m) => Shown::Prepare(m),
        Stamped::Commit(m) => Shown::Commit(m),
        Stamped::Checkpoint(m) => {
            let state = m.state;
            Shown::Checkpoint(BareCheckpoint {
                pos: m.pos,
                state,
                body,
                ui: m.ui,
            })
        }
        Stamped::ViewChange(m) => Shown::ViewChange(BareViewChange {
            view: m.view,
            body,
            ui: m.ui,
        }),
        Stamped::NewView(m) => {
            let plan = m.plan;
            Shown::NewView(BareNewView {
                view: m.view,
                base: m.base,
                end: m.end,
                plan,
                body,
                ui: m.ui,
            })
        }
        Stamped::Enter(m) => Shown::Enter(m),
        Stamped::Open(m) => Shown::Open(m),
        Stamped::Join(m) => Shown::Join(m),
    }
}
