//! A message of the log.

use mb_base::{Digest, Duplicate, NoMemory};
use mb_msg::{BareCheckpoint, BareNewView, BareViewChange, Body, Shown, Stamped};
use std::alloc::Global;
use std::marker::Model;

/// A stamped message in the form in which it is kept, with the digest of its body, which was hashed once.
#[derive(Drop)]
pub(crate) struct Kept {
    message: Stamped,
    body: Digest,
}

impl Model for Kept {
    ghost use Rattle.std.specs.Prelude.{◌≡◌};
    ghost use Rattle.mb_msg.specs.declared.stamped.Stamped.{Stamped};
    ghost use Rattle.mb_msg.specs.AsStamped.{stamped_digest};

    ghost Value = { Stamped };

    ghost view = { λ k. k.message };

    ghost invariant = { λ k. k.body ≡ stamped_digest k.message };
}

impl Kept {
    ghost use Rattle.std.specs.Prelude.{◌≡◌, IfOk};
    ghost use Rattle.mb_msg.specs.AsStamped.{stamped_digest};
    ghost use Rattle.mb_model.specs.OwnLog.{behind, behind_opening, behind_change, as_shown};

    /// A message with the digest of its body, 32 zero bytes where it has none.
    pub(crate) fn new(message: Stamped, body: Digest) -> Kept
        requires { body ≡ stamped_digest message }
        ensures { result ≡ message }
    {
        Kept { message, body }
    }

    pub(crate) fn message(&self) -> &Stamped
        ensures { result.now ≡ self.now }
    {
        &self.message
    }

    /// Takes the body that is not kept once this message is stamped behind.
    pub(crate) fn shorten_behind(&mut self, later: &Stamped)
        ensures { self.new ≡ behind later.now self.old }
    {
        match later {
            Stamped::Open(_) | Stamped::Join(_) => self.shorten_behind_opening(),
            Stamped::ViewChange(_) => self.shorten_behind_change(),
            _ => {}
        }
    }

    /// Votes and OPENs lose their bodies.
    fn shorten_behind_opening(&mut self)
        ensures { self.new ≡ behind_opening self.old }
    {
        let body = self.body;
        match &mut self.message {
            Stamped::Prepare(m) => m.body = Body::Bare(body),
            Stamped::Commit(m) => m.body = Body::Bare(body),
            Stamped::Open(m) => m.body = Body::Bare(body),
            _ => {}
        }
    }

    /// VIEW_CHANGEs and NEW_VIEWs lose their bodies.
    fn shorten_behind_change(&mut self)
        ensures { self.new ≡ behind_change self.old }
    {
        let body = self.body;
        match &mut self.message {
            Stamped::ViewChange(m) => m.body = Body::Bare(body),
            Stamped::NewView(m) => m.body = Body::Bare(body),
            _ => {}
        }
    }

    /// The message as an entry of a VIEW_CHANGE: votes and OPENs keep their form, the others are shown without their bodies.
    pub(crate) fn as_shown(&self, alloc: Global) -> Result<Shown, NoMemory>
        ensures { IfOk result (λ shown. shown ≡ as_shown self.now) }
    {
        let body = self.body;
        match &self.message {
            Stamped::Prepare(m) => Ok(Shown::Prepare(m.duplicate(alloc)?)),
            Stamped::Commit(m) => Ok(Shown::Commit(m.duplicate(alloc)?)),
            Stamped::Checkpoint(m) => Ok(Shown::Checkpoint(BareCheckpoint {
                pos: m.pos,
                state: m.state,
                body,
                ui: m.ui,
            })),
            Stamped::ViewChange(m) => Ok(Shown::ViewChange(BareViewChange {
                view: m.view,
                body,
                ui: m.ui,
            })),
            Stamped::NewView(m) => Ok(Shown::NewView(BareNewView {
                view: m.view,
                base: m.base,
                end: m.end,
                plan: m.plan,
                body,
                ui: m.ui,
            })),
            Stamped::Enter(m) => Ok(Shown::Enter(*m)),
            Stamped::Open(m) => Ok(Shown::Open(m.duplicate(alloc)?)),
            Stamped::Join(m) => Ok(Shown::Join(m.duplicate(alloc)?)),
        }
    }
}
