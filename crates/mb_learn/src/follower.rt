//! What one host stamped, in order from counter 1 on.

ghost use Rattle.std.specs.Prelude.{◌≡◌};
ghost use Rattle.mb_msg.specs.Stamps.{bare_of};
ghost use Rattle.mb_learn.specs.Followers.{led_by};

use mb_base::{Counter, Host, NoMemory, Shape, View};
use mb_gate::{Gate, Offer};
use mb_msg::Stamped;
use mb_plan::inner_valid;
use mb_usig::Usig;
use std::alloc::Global;
use std::collections::BTreeMap;

/// The list of what a host stamped as far as it is in order: at each counter the message that was shown first, while a gate takes it.
#[derive(Drop)]
pub(crate) struct Follower {
    shape: Shape,
    gate: Gate,
    /// The list ends for good at a message that may not stand where it stands.
    ended: bool,
    /// What was shown first at counters behind the list.
    waiting: BTreeMap<Counter, Stamped>,
    /// For each counter in the list the view that the message there leads.
    led: Vec<Option<View>>,
}

impl Follower {
    ghost use Rattle.std.specs.Prelude.{◌≡◌, ◌+◌, ◌<◌, [], ℕ, List, Option, None, true, false, IfOk, IfSome, OnOk, IsTrue};
    ghost use Rattle.std.specs.BTreeMap.{btree_map_len};
    ghost use Rattle.mb_base.specs.Shapes.{Bytes, host_count};
    ghost use Rattle.mb_base.specs.declared.shape.Shape.{Shape as TheShape};
    ghost use Rattle.mb_parts.specs.Bares.{Bare};
    ghost use Rattle.mb_parts.specs.Counters.{at_counter};
    ghost use Rattle.mb_model.specs.Committed.{leads};
    ghost use Rattle.mb_learn.specs.Followers.{Follows, IsAwaited, Advances, IsFollowing, StaysShown, KeepsShown, OffersNext};
    ghost use Rattle.mb_certified.specs.Certified.{IsBareStamp};

    /// Nothing was shown yet.
    pub(crate) fn make(alloc: Global, shape: Shape, host: Host) -> Follower
        requires { host < host_count shape }
        ensures ready { IsFollowing shape result }
        ensures follows { (secret : Bytes) (first : ℕ → Option Bare) → ((c : ℕ) → first c ≡ None) → Follows shape secret host first result [] }
    {
        Follower {
            shape,
            gate: Gate::new(shape, host),
            ended: false,
            waiting: BTreeMap::new(alloc),
            led: Vec::new(alloc),
        }
    }

    /// Whether what is shown at a counter is the first there, and may come into the list.
    pub(crate) fn awaits(&self, counter: Counter) -> bool
        ensures yes { (s : TheShape) (secret : Bytes) (host : ℕ) (first : ℕ → Option Bare) (l : List Bare) → Follows s secret host first self.now l → IsTrue result → IsAwaited s secret host first self.now l counter }
        ensures no { StaysShown self.now counter result }
    {
        if self.ended {
            return false;
        }
        if counter <= self.led.len() as u64 {
            return false;
        }
        !self.waiting.contains_key(&counter)
    }

    /// Keeps what was shown first at a counter.
    pub(crate) fn keep(&mut self, stamp: Stamped) -> Result<(), NoMemory>
        requires bare { IsBareStamp self.old.shape stamp }
        requires ready { IsFollowing self.old.shape self.old }
        ensures ready { OnOk result (IsFollowing self.old.shape self.new) }
        ensures follows { KeepsShown self.old stamp result self.new }
    {
        let none = self.waiting.insert(stamp.ui().counter, stamp)?;
        drop(none);
        Ok(())
    }

    /// Takes what stands at the next counter into the list, and gives it. None where nothing was shown there, or the list ends.
    pub(crate) fn advance(
        &mut self,
        alloc: Global,
        usig: &Usig,
    ) -> Result<Option<Stamped>, NoMemory>
        requires { IsFollowing self.old.shape self.old }
        ensures ready { OnOk result (IsFollowing self.old.shape self.new) }
        ensures advances { (s : TheShape) (host : ℕ) (first : ℕ → Option Bare) (l : List Bare) → Follows s usig.now.secret host first self.old l → IfOk result (λ m. Advances s usig.now.secret host first l m self.new) }
        ensures bare { IfOk result (λ m. IfSome m (IsBareStamp self.old.shape)) }
        ensures fewer { IfOk result (λ m. IfSome m (λ _. btree_map_len self.new.waiting < btree_map_len self.old.waiting)) }
    {
        if self.ended {
            return Ok(None);
        }
        let next = self.led.len() as u64 + 1;
        let Some(stamp) = self.waiting.remove(&next) else {
            return Ok(None);
        };
        if self.offer(alloc, usig, &stamp)? {
            self.led.push(led_by(&stamp))?;
            return Ok(Some(stamp));
        }
        drop(stamp);
        self.ended = true;
        Ok(None)
    }

    /// Offers what stands at the next counter to the gate, and tells whether it takes it.
    fn offer(&mut self, alloc: Global, usig: &Usig, stamp: &Stamped) -> Result<bool, NoMemory>
        requires { IsBareStamp self.old.shape stamp.now }
        ensures gate { OffersNext self.old usig.now.secret stamp.now result self.new }
        ensures rest { (self.new.shape ≡ self.old.shape) × (self.new.ended ≡ self.old.ended) × (self.new.waiting ≡ self.old.waiting) × (self.new.led ≡ self.old.led) }
    {
        let body = stamp.body_digest(alloc, &self.shape)?;
        let inner = inner_valid(alloc, &self.shape, usig, stamp, &body)?;
        match self.gate.offer(&stamp.mark(), inner) {
            Offer::Next => Ok(true),
            _ => Ok(false),
        }
    }

    /// Whether the message at a counter of the list leads a view.
    pub(crate) fn leads(&self, view: View, counter: Counter) -> bool
        ensures { (s : TheShape) (secret : Bytes) (host : ℕ) (first : ℕ → Option Bare) (l : List Bare) → Follows s secret host first self.now l → result ≡ leads view (at_counter l counter) }
    {
        if counter == 0 || counter > self.led.len() as u64 {
            return false;
        }
        self.led[(counter - 1) as usize] == Some(view)
    }
}

/// The view that a message leads: a PREPARE or NEW_VIEW of it.
fn led_by(stamp: &Stamped) -> Option<View>
    ensures { result ≡ led_by (bare_of stamp.now) }
{
    match stamp {
        Stamped::Prepare(m) => Some(m.view),
        Stamped::NewView(m) => Some(m.view),
        _ => None,
    }
}
