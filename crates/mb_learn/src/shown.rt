//! What stands whole in a message: votes with their batches, and OPENs with their plans.

use crate::heard::Heard;
use mb_base::NoMemory;
use mb_msg::{Body, Log, Message, NewViewBody, Open, Shown, Stamped, ViewChange};
use std::alloc::Global;

impl Heard {
    ghost use Rattle.std.specs.Prelude.{◌≡◌, ◌∷◌, [], None, OnOk, IfOk};
    ghost use Rattle.std.specs.List.{flat_map, AllByRecursion};
    ghost use Rattle.mb_msg.specs.Bodies.{FitsBody, inside_whole};
    ghost use Rattle.mb_msg.specs.declared.stamped.Shown.TheVariants as shown;
    ghost use Rattle.mb_msg.specs.declared.stamped.Stamped.TheVariants as stamped;
    ghost use Rattle.mb_msg.specs.Fits.{FitsFields, FitsStamped, FitsShown, FitsOpen, FitsViewChange, FitsNewViewBody, FitsLog};
    ghost use Rattle.mb_msg.specs.Stamps.{as_stamped};
    ghost use Rattle.mb_learn.specs.Shown.{log_shown, shown_by, shown_in};
    ghost use Rattle.mb_learn.specs.Hearing.{IsReady, Holds};

    /// Holds the batches and plans that a message shows. It is given back as it was.
    pub(crate) fn hold_message(
        &mut self,
        alloc: Global,
        message: Message,
    ) -> Result<Message, NoMemory>
        requires fits { FitsFields self.old.shape message }
        requires ready { IsReady self.old }
        ensures same { IfOk result (λ m. m ≡ message) }
        ensures holds { OnOk result (Holds (shown_in message) self.old self.new) }
    {
        match message.into_stamped() {
            Ok(stamped) => {
                let held = self.hold_stamped(alloc, &stamped).and(Ok(stamped))?;
                Ok(held.into_message())
            }
            Err(other) => {
                let held = self.hold_other(alloc, &other).and(Ok(other))?;
                Ok(held)
            }
        }
    }

    /// Of a message that isn't stamped.
    fn hold_other(&mut self, alloc: Global, message: &Message) -> Result<(), NoMemory>
        requires fits { FitsFields self.old.shape message.now × (as_stamped message.now ≡ None) }
        requires ready { IsReady self.old }
        ensures { OnOk result (Holds (shown_in message.now) self.old self.new) }
    {
        match message {
            Message::Log(m) => self.hold_log(alloc, m),
            _ => Ok(()),
        }
    }

    fn hold_log(&mut self, alloc: Global, m: &Log) -> Result<(), NoMemory>
        requires fits { FitsLog self.old.shape m.now }
        requires ready { IsReady self.old }
        ensures { OnOk result (Holds (flat_map shown_by m.now.entries) self.old self.new) }
    {
        self.hold_all(alloc, m.entries.as_slice())
    }

    fn hold_all(&mut self, alloc: Global, entries: &[Stamped]) -> Result<(), NoMemory>
        requires fits { AllByRecursion (FitsStamped self.old.shape) entries.now }
        requires ready { IsReady self.old }
        ensures { OnOk result (Holds (flat_map shown_by entries.now) self.old self.new) }
    {
        for entry in entries {
            self.hold_stamped(alloc, entry)?;
        }
        Ok(())
    }

    fn hold_stamped(&mut self, alloc: Global, stamped: &Stamped) -> Result<(), NoMemory>
        requires fits { FitsStamped self.old.shape stamped.now }
        requires ready { IsReady self.old }
        ensures { OnOk result (Holds (shown_by stamped.now) self.old self.new) }
    {
        match stamped {
            Stamped::Prepare(m) => self.hold_prepare(alloc, m),
            Stamped::Commit(m) => self.hold_commit(alloc, m),
            Stamped::Open(m) => self.hold_stamped_open(alloc, stamped, m),
            Stamped::ViewChange(m) => self.hold_change(alloc, m),
            Stamped::NewView(m) => self.hold_new_view(alloc, &m.body),
            _ => Ok(()),
        }
    }

    /// Of an OPEN that stands by itself or in a LOG.
    fn hold_stamped_open(
        &mut self,
        alloc: Global,
        whole: &Stamped,
        m: &Open,
    ) -> Result<(), NoMemory>
        requires fits { FitsOpen self.old.shape m.now × (whole.now ≡ stamped.Open m.now) }
        requires ready { IsReady self.old }
        ensures { OnOk result (Holds (shown.Open m.now ∷ []) self.old self.new) }
    {
        if !self.lacks_some(m) {
            return Ok(());
        }
        let bare = whole.bare(alloc, &self.shape)?;
        self.hold_open(alloc, m, bare.as_slice())
    }

    fn hold_new_view(&mut self, alloc: Global, body: &Body<NewViewBody>) -> Result<(), NoMemory>
        requires fits { FitsBody (FitsNewViewBody self.old.shape) body.now }
        requires ready { IsReady self.old }
        ensures { OnOk result (Holds (inside_whole (λ b. flat_map log_shown b.changes) body.now) self.old self.new) }
    {
        match body {
            Body::Whole(body) => self.hold_changes(alloc, body.changes.as_slice()),
            Body::Bare(_) => Ok(()),
        }
    }

    fn hold_changes(&mut self, alloc: Global, changes: &[ViewChange]) -> Result<(), NoMemory>
        requires fits { AllByRecursion (FitsViewChange self.old.shape) changes.now }
        requires ready { IsReady self.old }
        ensures { OnOk result (Holds (flat_map log_shown changes.now) self.old self.new) }
    {
        for change in changes {
            self.hold_change(alloc, change)?;
        }
        Ok(())
    }

    fn hold_change(&mut self, alloc: Global, m: &ViewChange) -> Result<(), NoMemory>
        requires fits { FitsViewChange self.old.shape m.now }
        requires ready { IsReady self.old }
        ensures { OnOk result (Holds (log_shown m.now) self.old self.new) }
    {
        match &m.body {
            Body::Whole(body) => self.hold_entries(alloc, body.as_part().entries.as_slice()),
            Body::Bare(_) => Ok(()),
        }
    }

    fn hold_entries(&mut self, alloc: Global, entries: &[Shown]) -> Result<(), NoMemory>
        requires fits { AllByRecursion (FitsShown self.old.shape) entries.now }
        requires ready { IsReady self.old }
        ensures { OnOk result (Holds entries.now self.old self.new) }
    {
        for entry in entries {
            self.hold_entry(alloc, entry)?;
        }
        Ok(())
    }

    fn hold_entry(&mut self, alloc: Global, entry: &Shown) -> Result<(), NoMemory>
        requires fits { FitsShown self.old.shape entry.now }
        requires ready { IsReady self.old }
        ensures { OnOk result (Holds (entry.now ∷ []) self.old self.new) }
    {
        match entry {
            Shown::Prepare(m) => self.hold_prepare(alloc, m),
            Shown::Commit(m) => self.hold_commit(alloc, m),
            Shown::Open(m) => self.hold_shown_open(alloc, entry, m),
            _ => Ok(()),
        }
    }

    /// Of an OPEN in a shown log.
    fn hold_shown_open(&mut self, alloc: Global, entry: &Shown, m: &Open) -> Result<(), NoMemory>
        requires fits { FitsOpen self.old.shape m.now × (entry.now ≡ shown.Open m.now) }
        requires ready { IsReady self.old }
        ensures { OnOk result (Holds (shown.Open m.now ∷ []) self.old self.new) }
    {
        if !self.lacks_some(m) {
            return Ok(());
        }
        let bare = entry.bare(alloc, &self.shape)?;
        self.hold_open(alloc, m, bare.as_slice())
    }
}
