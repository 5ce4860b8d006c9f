//! Digests that are taken before a message is checked, and kept beside what they are of: in a VIEW_CHANGE those of the batches that it shows votes
//! for, so that a plan that is made of it hashes none of them again; in a NEW_VIEW those of what its members show, which their certificates cover.

ghost use Rattle.std.specs.Prelude.{◌≡◌, IfOk};
ghost use Rattle.std.specs.List.{AllByRecursion};
ghost use Rattle.mb_msg.specs.Fits.{CanDigestVote, CanDigestVotes, FitsMember, FitsViewChange, FitsNewViewBody, FitsNewView, FitsStamped};
ghost use Rattle.mb_msg.specs.Bodies.{FitsBody};

use crate::change::{ChangeBody, NewView, NewViewBody, ViewChange};
use crate::hashed::Hashed;
use crate::message::Body;
use crate::stamped::{Shown, Stamped};
use mb_base::{Items, NoMemory, Shape};
use std::alloc::Global;

impl Shown {
    /// A vote keeps the digest of its batch. Other entries have none.
    fn keep_digest(&mut self)
        requires { CanDigestVote self.old }
        ensures { self.new ≡ self.old }
    {
        match self {
            Shown::Prepare(m) => m.body.keep_digest(),
            Shown::Commit(m) => m.body.keep_digest(),
            _ => {}
        }
    }
}

impl ChangeBody {
    /// What it shows, whose votes keep the digests of their batches.
    fn with_digests(self) -> ChangeBody
        requires { CanDigestVotes self }
        ensures { result ≡ self }
    {
        let ChangeBody {
            floor,
            stable,
            entries,
        } = self;
        ChangeBody {
            floor,
            stable,
            entries: digested(entries),
        }
    }
}

/// These entries, of which the votes keep the digests of their batches.
fn digested(entries: Items<Shown>) -> Items<Shown>
    requires { AllByRecursion CanDigestVote entries }
    ensures { result ≡ entries }
{
    let mut kept = entries.into_vec();
    for entry in kept.iter_mut() {
        entry.keep_digest();
    }
    Items::from_vec(kept)
}

impl ViewChange {
    /// This VIEW_CHANGE. Its votes keep the digests of their batches, and beside all that it shows stands none. Each batch that it votes for has 1 to
    /// 16 requests, each with an operation of at most 1,024 bytes.
    pub fn with_digests(self) -> ViewChange
        requires { FitsBody CanDigestVotes self.body }
        ensures { result ≡ self }
    {
        let ViewChange { view, body, ui } = self;
        let body = match body {
            Body::Whole(shown) => Body::Whole(Hashed::new(shown.into_part().with_digests())),
            bare => bare,
        };
        ViewChange { view, body, ui }
    }

    /// This VIEW_CHANGE. Beside what it shows stands the digest of that. Each field has an allowed value. An error is want of memory.
    fn with_digest(self, alloc: Global, shape: &Shape) -> Result<ViewChange, NoMemory>
        requires { FitsViewChange shape.now self }
        ensures { IfOk result (λ m. m ≡ self) }
    {
        let ViewChange { view, body, ui } = self;
        let body = match body {
            Body::Whole(shown) => Body::Whole(shown.with_digest(alloc, shape)?),
            bare => bare,
        };
        Ok(ViewChange { view, body, ui })
    }
}

impl NewViewBody {
    /// These members. Beside what each shows stands the digest of that. Each field has an allowed value. An error is want of memory.
    fn with_digests(self, alloc: Global, shape: &Shape) -> Result<NewViewBody, NoMemory>
        requires { AllByRecursion (FitsMember shape.now) self.changes }
        ensures { IfOk result (λ b. b ≡ self) }
    {
        let mut changes = Items::new(alloc);
        for change in self.changes.into_vec() {
            changes.push(change.with_digest(alloc, shape)?)?;
        }
        Ok(NewViewBody { changes })
    }
}

impl NewView {
    /// This NEW_VIEW. Beside what each member shows stands the digest of that. Each field has an allowed value. An error is want of memory.
    pub fn with_digests(self, alloc: Global, shape: &Shape) -> Result<NewView, NoMemory>
        requires { FitsNewView shape.now self }
        ensures { IfOk result (λ m. m ≡ self) }
    {
        let NewView {
            view,
            base,
            end,
            plan,
            body,
            ui,
        } = self;
        let body = match body {
            Body::Whole(members) => Body::Whole(members.with_digests(alloc, shape)?),
            bare => bare,
        };
        Ok(NewView {
            view,
            base,
            end,
            plan,
            body,
            ui,
        })
    }
}

impl Stamped {
    /// This message. A VIEW_CHANGE keeps the digests of the batches that it votes for, a NEW_VIEW those of what its members show. Each field has an
    /// allowed value. An error is want of memory, which may come for a NEW_VIEW alone.
    #[tactic(auto, using(crate::proofs::Opened::change_can_digest))]
    pub fn with_digests(self, alloc: Global, shape: &Shape) -> Result<Stamped, NoMemory>
        requires { FitsStamped shape.now self }
        ensures { IfOk result (λ m. m ≡ self) }
    {
        match self {
            Stamped::ViewChange(m) => Ok(Stamped::ViewChange(m.with_digests())),
            Stamped::NewView(m) => Ok(Stamped::NewView(m.with_digests(alloc, shape)?)),
            other => Ok(other),
        }
    }
}
