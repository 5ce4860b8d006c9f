//! What was heard of all hosts.

ghost use Rattle.std.specs.Prelude.{◌≡◌, ◌<◌, ℕ, [], length, slice_get, Option, Some, None, IfOk};
ghost use Rattle.std.specs.List.{AllByRecursion};
ghost use Rattle.mb_base.specs.Shapes.{Bytes, host_count};
ghost use Rattle.mb_parts.specs.Bares.{Bare};
ghost use Rattle.mb_learn.specs.declared.follower.Follower.{Follower as TheFollower};
ghost use Rattle.mb_learn.specs.Followers.{Follows, IsFollowing};

use crate::batches::Batches;
use crate::checkpoints::Checkpoints;
use crate::follower::Follower;
use crate::plans::Plans;
use crate::votes::Votes;
use mb_base::{Counter, Digest, Duplicate, Host, Key, NoMemory, Pos, Shape, View};
use mb_certified::certified_in;
use mb_msg::{Message, Stamped, Undecoded, decode};
use mb_usig::Usig;
use std::alloc::Global;

/// An OPEN in the list of its host.
#[derive(Clone, Copy, PartialEq, Eq)]
pub(crate) struct Opening {
    pub(crate) host: Host,
    pub(crate) view: View,
    /// The counter of the NEW_VIEW.
    pub(crate) counter: Counter,
    pub(crate) plan: Digest,
}

/// All that the byte strings that were taken show.
#[derive(Drop)]
pub(crate) struct Heard {
    pub(crate) shape: Shape,
    pub(crate) usig: Usig,
    pub(crate) followers: Vec<Follower>,
    pub(crate) openings: Vec<Opening>,
    pub(crate) votes: Votes,
    pub(crate) plans: Plans,
    pub(crate) batches: Batches,
    pub(crate) checkpoints: Checkpoints,
    /// Where hosts say something of their states that they didn't say before this call.
    pub(crate) newly_said: Vec<Pos>,
}

impl Heard {
    ghost use Rattle.std.specs.Prelude.{◌≡◌, ◌<◌, ◌∷◌, ◌++◌, [], ℕ, List, Option, map, length, true, false, OnOk, IfOk};
    ghost use Rattle.std.specs.List.{AllByRecursion};
    ghost use Rattle.mb_base.specs.Shapes.{host_count};
    ghost use Rattle.mb_parts.specs.Bares.{Bare};
    ghost use Rattle.mb_msg.specs.Fits.{FitsFields};
    ghost use Rattle.mb_model.specs.Verified.{verifies};
    ghost use Rattle.mb_model.specs.GateChecks.{stamp_claim};
    ghost use Rattle.mb_model.specs.Inside.{claims_in};
    ghost use Rattle.mb_certified.specs.Certified.{IsBareStamp};
    ghost use Rattle.mb_learn.specs.Shown.{shown_in};
    ghost use Rattle.mb_learn.specs.Tables.{AddsSaid};
    ghost use Rattle.mb_learn.specs.Hearing.{IsReady, HearsAll, HearsOf, KeepsPlace, Takes, SaysToo, SaysOnly, newly_said, WhereHearsAll, WhereHearsOf, KeepsWhole, FollowsHost, StaysWhole};

    /// Nothing was taken yet.
    pub(crate) fn make(alloc: Global, shape: Shape, secret: &Key) -> Result<Heard, NoMemory>
        ensures nothing { IfOk result (HearsOf shape secret.now [] (λ h. [])) }
        ensures ready { IfOk result IsReady }
        ensures start { IfOk result (λ t. t.votes.executed ≡ 0) }
        ensures news { IfOk result (λ t. t.newly_said.items ≡ []) }
        ensures shape { IfOk result (λ t. t.shape ≡ shape) }
    {
        Ok(Heard {
            shape,
            usig: Usig::new(shape, 0, secret),
            followers: followers_of(alloc, shape)?,
            openings: Vec::new(alloc),
            votes: Votes::make(alloc),
            plans: Plans::make(alloc),
            batches: Batches::make(alloc),
            checkpoints: Checkpoints::make(alloc),
            newly_said: Vec::new(alloc),
        })
    }

    /// Takes a byte string. Bytes that are no message show nothing.
    pub(crate) fn take(&mut self, alloc: Global, bytes: &[u8]) -> Result<(), NoMemory>
        requires { IsReady self.old }
        ensures takes { WhereHearsOf self.old (λ s secret taken. OnOk result ((longer : ℕ → List Bare) × HearsOf s secret (taken ++ bytes.now ∷ []) longer self.new)) }
        ensures keeps { OnOk result (KeepsPlace self.old self.new) }
    {
        match decode(alloc, &self.shape, bytes) {
            Ok(message) => self.take_message(alloc, message),
            Err(Undecoded::Malformed { .. }) => Ok(()),
            Err(Undecoded::NoMemory) => Err(NoMemory),
        }
    }

    /// Takes what a message shows whole, and then its certificates.
    fn take_message(&mut self, alloc: Global, message: Message) -> Result<(), NoMemory>
        requires fits { FitsFields self.old.shape message }
        requires ready { IsReady self.old }
        ensures takes { WhereHearsAll self.old (λ s secret claims shown lists. OnOk result ((longer : ℕ → List Bare) × HearsAll s secret (claims ++ claims_in s message) (shown ++ shown_in message) longer self.new)) }
        ensures keeps { OnOk result (KeepsPlace self.old self.new) }
    {
        let message = self.hold_message(alloc, message)?;
        let stamps = certified_in(alloc, &self.shape, message)?;
        self.take_stamps(alloc, stamps.as_slice())
    }

    /// Takes what certificates say that hosts stamped, one after the other.
    fn take_stamps(&mut self, alloc: Global, stamps: &[Stamped]) -> Result<(), NoMemory>
        requires bare { AllByRecursion (IsBareStamp self.old.shape) stamps.now }
        requires ready { IsReady self.old }
        ensures { OnOk result (Takes (map stamp_claim stamps.now) self.old self.new) }
    {
        for stamp in stamps {
            self.take_stamp(alloc, stamp)?;
        }
        Ok(())
    }

    /// Takes what a certificate says that a host stamped.
    fn take_stamp(&mut self, alloc: Global, stamp: &Stamped) -> Result<(), NoMemory>
        requires bare { IsBareStamp self.old.shape stamp.now }
        requires ready { IsReady self.old }
        ensures { OnOk result (Takes (stamp_claim stamp.now ∷ []) self.old self.new) }
    {
        if self.is_known(stamp) {
            return Ok(());
        }
        if !self.is_certified(alloc, stamp)? {
            return Ok(());
        }
        self.note_said(alloc, stamp)?;
        self.keep(alloc, stamp)
    }

    /// Whether it says nothing new, even if its host stamped it.
    fn is_known(&self, stamp: &Stamped) -> bool
        requires bare { IsBareStamp self.now.shape stamp.now }
        requires ready { IsReady self.now }
        ensures { result ≡ true → WhereHearsAll self.now (λ s secret claims shown lists. HearsAll s secret (claims ++ stamp_claim stamp.now ∷ []) shown lists self.now) }
    {
        !self.awaits(stamp) && self.newly_said_by(stamp).is_none()
    }

    /// Whether the list of its host may go on with it.
    fn awaits(&self, stamp: &Stamped) -> bool
        requires bare { IsBareStamp self.now.shape stamp.now }
        requires ready { IsReady self.now }
        ensures { result ≡ false → StaysWhole self.now (stamp_claim stamp.now) }
    {
        let ui = stamp.ui();
        self.followers[usize::from(ui.host)].awaits(ui.counter)
    }

    /// What a CHECKPOINT says of its host's state that isn't known yet.
    fn newly_said_by(&self, stamp: &Stamped) -> Option<(Pos, Digest)>
        ensures { result ≡ newly_said self.now.checkpoints stamp.now }
    {
        match stamp {
            Stamped::Checkpoint(m) if !self.checkpoints.has(m.pos, m.ui.host, &m.state) => {
                Some((m.pos, m.state))
            }
            _ => None,
        }
    }

    /// Whether the host stamped it.
    fn is_certified(&self, alloc: Global, stamp: &Stamped) -> Result<bool, NoMemory>
        requires { IsBareStamp self.now.shape stamp.now }
        ensures { IfOk result (λ right. right ≡ verifies self.now.usig.secret (stamp_claim stamp.now)) }
    {
        let bare = stamp.bare(alloc, &self.shape)?;
        Ok(self.usig.verify_ui(bare.as_slice(), &stamp.ui()))
    }

    /// Notes what a CHECKPOINT that its host stamped says of the host's state.
    fn note_said(&mut self, alloc: Global, stamp: &Stamped) -> Result<(), NoMemory>
        requires { IsReady self.old }
        ensures { verifies self.old.usig.secret (stamp_claim stamp.now) ≡ true → OnOk result (SaysToo (stamp_claim stamp.now) self.old self.new) }
    {
        match self.newly_said_by(stamp) {
            Some(said) => {
                let state = said.1;
                self.add_said(alloc, said.0, stamp.ui().host, state)
            }
            None => Ok(()),
        }
    }

    /// A host says that its state has this digest at a position. That is noted.
    fn add_said(
        &mut self,
        alloc: Global,
        pos: Pos,
        host: Host,
        state: Digest,
    ) -> Result<(), NoMemory>
        ensures said { OnOk result (AddsSaid self.old.checkpoints pos (record { host = host; state = state }) self.new.checkpoints) }
        ensures noted { OnOk result (self.new.newly_said.items ≡ self.old.newly_said.items ++ pos ∷ []) }
        ensures rest { OnOk result (SaysOnly self.old self.new) }
    {
        self.checkpoints.add(alloc, pos, host, state)?;
        self.newly_said.push(pos)?;
        Ok(())
    }

    /// Keeps what its host stamped, where the host's list may go on with it, and goes on with the list.
    fn keep(&mut self, alloc: Global, stamp: &Stamped) -> Result<(), NoMemory>
        requires bare { IsBareStamp self.old.shape stamp.now }
        requires ready { IsReady self.old }
        ensures follows { verifies self.old.usig.secret (stamp_claim stamp.now) ≡ true → KeepsWhole self.old (stamp_claim stamp.now) result self.new }
        ensures keeps { OnOk result (KeepsPlace self.old self.new) }
    {
        let ui = stamp.ui();
        if !self.followers[usize::from(ui.host)].awaits(ui.counter) {
            return Ok(());
        }
        self.followers[usize::from(ui.host)].keep(stamp.duplicate(alloc)?)?;
        self.follow(alloc, ui.host)
    }

    /// Goes on with the list of a host, as far as it is in order.
    fn follow(&mut self, alloc: Global, host: Host) -> Result<(), NoMemory>
        requires within { host < host_count self.old.shape }
        requires ready { IsReady self.old }
        ensures follows { FollowsHost self.old host result self.new }
        ensures keeps { OnOk result (KeepsPlace self.old self.new) }
    {
        while let Some(stamp) = self.followers[usize::from(host)].advance(alloc, &self.usig)? {
            let counted = self.count(alloc, &stamp).and(Ok(stamp))?;
            drop(counted);
        }
        Ok(())
    }
}

/// A follower of each host.
fn followers_of(alloc: Global, shape: Shape) -> Result<Vec<Follower>, NoMemory>
    ensures count { IfOk result (λ v. length v.items ≡ host_count shape) }
    ensures ready { IfOk result (λ v. AllByRecursion (IsFollowing shape) v.items) }
    ensures follow { (secret : Bytes) (first : ℕ → ℕ → Option Bare) → ((h c : ℕ) → first h c ≡ None) → IfOk result (λ v. (h : ℕ) (f : TheFollower) → slice_get v.items h ≡ Some f → Follows shape secret h (first h) f []) }
{
    let mut followers = Vec::with_capacity(alloc, usize::from(shape.n()))?;
    for host in 0..shape.n() {
        followers.push(Follower::make(alloc, shape, host))?;
    }
    Ok(followers)
}
