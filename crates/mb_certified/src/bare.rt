//! Stamped messages without their bodies.

ghost use Rattle.std.specs.Prelude.{◌≡◌, IfOk};
ghost use Rattle.mb_certified.specs.Certified.{bare_form, stamped_of};

use mb_base::{Digest, Duplicate, NoMemory};
use mb_msg::{Body, Checkpoint, Commit, NewView, Open, Prepare, Shown, Stamped, ViewChange};
use std::alloc::Global;

/// The message with this digest in the place of its body. A kind without a body stays as it is.
pub(crate) fn bare_form(
    alloc: Global,
    message: &Stamped,
    body: &Digest,
) -> Result<Stamped, NoMemory>
    ensures { IfOk result (λ m. m ≡ bare_form body.now message.now) }
{
    let body = *body;
    Ok(match message {
        Stamped::Prepare(m) => Stamped::Prepare(Prepare {
            view: m.view,
            pos: m.pos,
            body: Body::Bare(body),
            ui: m.ui,
        }),
        Stamped::Commit(m) => Stamped::Commit(Commit {
            view: m.view,
            pos: m.pos,
            counter: m.counter,
            cert: m.cert,
            body: Body::Bare(body),
            ui: m.ui,
        }),
        Stamped::Checkpoint(m) => Stamped::Checkpoint(Checkpoint {
            pos: m.pos,
            state: m.state,
            body: Body::Bare(body),
            ui: m.ui,
        }),
        Stamped::ViewChange(m) => Stamped::ViewChange(ViewChange {
            view: m.view,
            body: Body::Bare(body),
            ui: m.ui,
        }),
        Stamped::NewView(m) => Stamped::NewView(NewView {
            view: m.view,
            base: m.base,
            end: m.end,
            plan: m.plan,
            body: Body::Bare(body),
            ui: m.ui,
        }),
        Stamped::Open(m) => Stamped::Open(Open {
            evidence: m.evidence.duplicate(alloc)?,
            body: Body::Bare(body),
            ui: m.ui,
        }),
        Stamped::Enter(_) | Stamped::Join(_) => message.duplicate(alloc)?,
    })
}

/// The message that an entry of a shown log is.
pub(crate) fn stamped_of(alloc: Global, entry: &Shown) -> Result<Stamped, NoMemory>
    ensures { IfOk result (λ m. m ≡ stamped_of entry.now) }
{
    Ok(match entry {
        Shown::Prepare(m) => Stamped::Prepare(m.duplicate(alloc)?),
        Shown::Commit(m) => Stamped::Commit(m.duplicate(alloc)?),
        Shown::Checkpoint(m) => Stamped::Checkpoint(Checkpoint {
            pos: m.pos,
            state: m.state,
            body: Body::Bare(m.body),
            ui: m.ui,
        }),
        Shown::ViewChange(m) => Stamped::ViewChange(ViewChange {
            view: m.view,
            body: Body::Bare(m.body),
            ui: m.ui,
        }),
        Shown::NewView(m) => Stamped::NewView(NewView {
            view: m.view,
            base: m.base,
            end: m.end,
            plan: m.plan,
            body: Body::Bare(m.body),
            ui: m.ui,
        }),
        Shown::Enter(m) => Stamped::Enter(*m),
        Shown::Open(m) => Stamped::Open(m.duplicate(alloc)?),
        Shown::Join(m) => Stamped::Join(m.duplicate(alloc)?),
    })
}
