//! What stands in the way of an event, and what a faulty host is to stamp. Nothing is written.

ghost use Rattle.std.specs.Prelude.{◌≡◌, not};
ghost use Rattle.mb_world_model.specs.WorldEvents.{culprit};
ghost use Rattle.mb_world.specs.Contents.{stamping_host};

use crate::seen::WorldStop;
use crate::world::World;
use mb_base::{Counter, Host, Items, MESSAGE_LIMIT, NoMemory, View};
use mb_forgery::{Checker, ForgedClaim, change_with, checkpoint_with, commit_for, prepare_with};
use mb_members::{Member, mark_of};
use mb_msg::{Batch, Message, Stamped, Undecoded, decode};
use mb_parts::{LOG_INTERVALS, MAX_BATCH_BYTES, OTHER_LIMIT, Part, Request, Requests};
use mb_schedule::{Name, WorldEvent};
use mb_service::Service;
use std::alloc::Global;

/// Who has to be faulty, so that an event can be.
pub(crate) fn culprit_of(event: &WorldEvent) -> Option<Name>
    ensures { result ≡ culprit event.now }
{
    match event {
        WorldEvent::Sign { client, .. } => Some(Name::Client(*client)),
        WorldEvent::TagReply { host, .. }
        | WorldEvent::TagWish { host, .. }
        | WorldEvent::StampPrepare { host, .. }
        | WorldEvent::StampCommit { host, .. }
        | WorldEvent::StampCheckpoint { host, .. }
        | WorldEvent::StampChange { host, .. }
        | WorldEvent::StampAs { host, .. }
        | WorldEvent::StampRaw { host, .. } => Some(Name::Host(*host)),
        _ => None,
    }
}

/// The faulty host of an event that names a content.
pub(crate) fn stamping_host(event: &WorldEvent) -> Option<Host>
    ensures { result ≡ stamping_host event.now }
{
    match event {
        WorldEvent::StampPrepare { host, .. }
        | WorldEvent::StampCommit { host, .. }
        | WorldEvent::StampCheckpoint { host, .. }
        | WorldEvent::StampChange { host, .. }
        | WorldEvent::StampAs { host, .. } => Some(*host),
        _ => None,
    }
}

impl<V: Service + Drop> World<V> {
    ghost use Rattle.std.specs.Prelude.{◌≡◌, ◌≤◌, ◌<◌, ◌+◌, ◌-◌, ◌^◌, true, not, length, reverse, find, is_none, Some, None, Ok, Err, option_map, option_and_then, IfOk, IfSome};
    ghost use Rattle.std.specs.Bool.{then_some};
    ghost use Rattle.std.specs.List.{AllByRecursion};
    ghost use Rattle.mb_base.specs.Limits.{batch_limit};
    ghost use Rattle.mb_base.specs.Shapes.{host_count};
    ghost use Rattle.mb_parts.specs.Fits.{IsPosition, FitsBatch, FitsRequest};
    ghost use Rattle.mb_msg.specs.Fits.{Fits, FitsStamped};
    ghost use Rattle.mb_msg.specs.Stamps.{as_stamped};
    ghost use Rattle.mb_schedule.specs.Limits.{EventFits, NameFits, is_faulty};
    ghost use Rattle.mb_world_model.specs.World.{World as WorldState, System, numbered, read, message_at};
    ghost use Rattle.mb_world_model.specs.WorldEvents.{is_faulty_name};
    ghost use Rattle.mb_world_model.specs.FaultyHosts.{commit_for, content, misfit, batch_from, request_at, stamped_after, change_after, is_sendable_change};
    ghost use Rattle.mb_world_model.specs.Stops.{NoSuchMessage, WrongKind, name_stop, missing_stop, content_stop, to_correct, stop_of};
    ghost use Rattle.mb_msg.specs.declared.message.Message.{Message as MessageData};
    ghost use Rattle.mb_world_model.specs.Forged.{forged_claim, has_forged_tag};
    ghost use Rattle.mb_forgery.specs.Checks.{AsksIn, told};
    ghost use Rattle.mb_world.specs.declared.seen.WorldStop.TheVariants as stop;
    ghost use Rattle.mb_world.specs.Answers.{Tells, TellsStop};
    ghost use Rattle.mb_world.specs.Contents.{Gives, Stamps, IsAllowed, found_in, rest_stop};
    ghost use Rattle.mb_world.specs.Tables.{RepresentsWorld};
    ghost use Rattle.mb_world.specs.Happening.{FromEach, FromEachWith};

    /// Whether an event can be, and the content that it has a faulty host stamp, if any. Of several stops the first comes in this order:
    /// `NotFaulty`, `NoSuchMessage`, `WrongKind`, `Forged`, `ForgedTag`.
    pub(crate) fn allow(
        &self,
        alloc: Global,
        event: &WorldEvent,
    ) -> Result<Option<Stamped>, WorldStop>
        requires fits { EventFits self.now.shape event.now }
        requires few { self.now.events < 2 ^ 64 - 1 }
        ensures stops { (y : System V) (x : WorldState) → RepresentsWorld y self.now x → Tells (stop_of y.schedule x event.now) result }
        ensures content { (y : System V) (x : WorldState) → RepresentsWorld y self.now x → IfOk result (IsAllowed y.schedule x event.now) }
        ensures fits { IfOk result (λ o. IfSome o (FitsStamped self.now.shape)) }
        ensures runs { (result ≡ Err stop.Halted) → ⊥ }
    {
        if let Some(stop) = self.name_stop(event) {
            return Err(stop);
        }
        if let Some(number) = self.missing(event) {
            return Err(WorldStop::NoSuchMessage { number });
        }
        self.content_of(alloc, event)
    }

    /// What an event has a faulty host stamp, and what is forged in what it delivers: who it names and what it names is there.
    fn content_of(&self, alloc: Global, event: &WorldEvent) -> Result<Option<Stamped>, WorldStop>
        requires fits { EventFits self.now.shape event.now }
        requires few { self.now.events < 2 ^ 64 - 1 }
        ensures stops { (y : System V) (x : WorldState) → RepresentsWorld y self.now x → name_stop y.schedule x event.now ≡ None → Tells (rest_stop y.schedule x event.now) result }
        ensures content { (y : System V) (x : WorldState) → RepresentsWorld y self.now x → name_stop y.schedule x event.now ≡ None → IfOk result (Stamps y.schedule x event.now) }
        ensures fits { IfOk result (λ o. IfSome o (FitsStamped self.now.shape)) }
        ensures runs { (result ≡ Err stop.Halted) → ⊥ }
    {
        match event {
            WorldEvent::Give { message, host } => self.check_message(
                alloc,
                Name::Host(*host),
                *message,
            ),
            WorldEvent::Take { message, client } => self.check_message(
                alloc,
                Name::Client(*client),
                *message,
            ),
            WorldEvent::Raw { name, bytes } => self.check_bytes(alloc, *name, bytes.as_slice()),
            WorldEvent::StampPrepare {
                view,
                pos,
                messages,
                ..
            } => {
                let batch = self.batch_of(alloc, messages.as_slice())?;
                Ok(Some(prepare_with(*view, *pos, batch)))
            }
            WorldEvent::StampCommit { message, .. } => self.commit_of(alloc, *message),
            WorldEvent::StampCheckpoint { pos, digest, .. } => {
                Ok(Some(checkpoint_with(alloc, &self.shape, *pos, digest)?))
            }
            WorldEvent::StampChange { host, view, after } => {
                self.change_of(alloc, *host, *view, *after)
            }
            WorldEvent::StampAs { message, .. } => self.stamped_of(alloc, *message),
            WorldEvent::Ask { .. }
            | WorldEvent::Patience { .. }
            | WorldEvent::Nudge { .. }
            | WorldEvent::Sign { .. }
            | WorldEvent::TagReply { .. }
            | WorldEvent::TagWish { .. }
            | WorldEvent::StampRaw { .. } => Ok(None),
        }
    }

    // ---- names and numbers

    /// Whether it is a faulty host or client.
    pub(crate) fn is_faulty(&self, name: Name) -> bool
        requires { NameFits self.now.shape name }
        ensures { (y : System V) (x : WorldState) → RepresentsWorld y self.now x → result ≡ is_faulty_name y.schedule name }
    {
        match name {
            Name::Host(host) => self.faulty_hosts[usize::from(host)],
            Name::Client(client) => self.faulty_clients[usize::from(client)],
        }
    }

    /// It is the doing of someone who is not faulty.
    fn name_stop(&self, event: &WorldEvent) -> Option<WorldStop>
        requires { EventFits self.now.shape event.now }
        ensures stop { (y : System V) (x : WorldState) → RepresentsWorld y self.now x → TellsStop (name_stop y.schedule x event.now) result }
        ensures runs { (result ≡ Some stop.Halted) → ⊥ }
    {
        match culprit_of(event) {
            Some(name) if !self.is_faulty(name) => Some(WorldStop::NotFaulty { name }),
            _ => None,
        }
    }

    /// The number of the first message that an event names and that was not made.
    fn missing(&self, event: &WorldEvent) -> Option<u64>
        ensures { (y : System V) (x : WorldState) → RepresentsWorld y self.now x → option_map NoSuchMessage result ≡ missing_stop y.schedule x event.now }
    {
        match event {
            WorldEvent::Give { message, .. }
            | WorldEvent::Take { message, .. }
            | WorldEvent::StampCommit { message, .. }
            | WorldEvent::StampAs { message, .. } => self.first_missing(&[*message]),
            WorldEvent::StampPrepare { messages, .. } => self.first_missing(messages.as_slice()),
            _ => None,
        }
    }

    fn first_missing(&self, numbers: &[u64]) -> Option<u64>
        ensures { result ≡ find (λ n. is_none (numbered self.now.pool.items n)) numbers.now }
    {
        for number in numbers {
            if self.message(*number).is_none() {
                return Some(*number);
            }
        }
        None
    }

    // ---- contents

    /// The message of a number, where its bytes are one.
    fn read(&self, alloc: Global, number: u64) -> Result<Option<Message>, NoMemory>
        ensures message { (y : System V) (x : WorldState) → RepresentsWorld y self.now x → IfOk result (λ o. o ≡ message_at y.schedule x number) }
        ensures fits { IfOk result (λ o. IfSome o (Fits self.now.shape)) }
    {
        let Some(bytes) = self.message(number) else {
            return Ok(None);
        };
        self.read_bytes(alloc, bytes.as_slice())
    }

    fn read_bytes(&self, alloc: Global, bytes: &[u8]) -> Result<Option<Message>, NoMemory>
        ensures message { (y : System V) (x : WorldState) → RepresentsWorld y self.now x → IfOk result (λ o. o ≡ read y.schedule bytes.now) }
        ensures fits { IfOk result (λ o. IfSome o (Fits self.now.shape)) }
    {
        match decode(alloc, &self.shape, bytes) {
            Ok(message) => Ok(Some(message)),
            Err(Undecoded::Malformed { .. }) => Ok(None),
            Err(Undecoded::NoMemory) => Err(NoMemory),
        }
    }

    /// The request of a number, where the message is a REQUEST.
    fn request_of(&self, alloc: Global, number: u64) -> Result<Option<Request>, NoMemory>
        ensures request { (y : System V) (x : WorldState) → RepresentsWorld y self.now x → IfOk result (λ o. o ≡ request_at y.schedule x number) }
        ensures fits { IfOk result (λ o. IfSome o (FitsRequest self.now.shape)) }
    {
        match self.read(alloc, number)? {
            Some(Message::Request(request)) => Ok(Some(request)),
            _ => Ok(None),
        }
    }

    /// The requests of these messages, where each is a REQUEST, and they have at most 2,048 bytes.
    fn batch_of(&self, alloc: Global, numbers: &[u64]) -> Result<Batch, WorldStop>
        requires { (1 ≤ length numbers.now) × (length numbers.now ≤ batch_limit) }
        ensures stops { (y : System V) (x : WorldState) → RepresentsWorld y self.now x → Tells (option_map WrongKind (misfit y.schedule x 0 numbers.now)) result }
        ensures batch { (y : System V) (x : WorldState) → RepresentsWorld y self.now x → IfOk result (λ b. b ≡ batch_from y.schedule x numbers.now) }
        ensures fits { IfOk result (FitsBatch self.now.shape) }
        ensures runs { (result ≡ Err stop.Halted) → ⊥ }
    {
        let mut requests = Items::new(alloc);
        let mut used = 0;
        for number in numbers {
            let Some(request) = self.request_of(alloc, *number)? else {
                return Err(WorldStop::WrongKind { number: *number });
            };
            used = request.count(&self.shape, used);
            if used > MAX_BATCH_BYTES {
                return Err(WorldStop::WrongKind { number: *number });
            }
            requests.push(request)?;
        }
        Ok(Batch {
            requests: Requests::from_items(requests),
        })
    }

    /// The COMMIT of the whole PREPARE that is this message.
    fn commit_of(&self, alloc: Global, number: u64) -> Result<Option<Stamped>, WorldStop>
        ensures stops { (y : System V) (x : WorldState) → RepresentsWorld y self.now x → Tells (content_stop y.schedule x number commit_for) result }
        ensures content { (y : System V) (x : WorldState) → RepresentsWorld y self.now x → IfOk result (Gives (content y.schedule x number commit_for)) }
        ensures fits { IfOk result (λ o. IfSome o (FitsStamped self.now.shape)) }
        ensures runs { (result ≡ Err stop.Halted) → ⊥ }
    {
        let Some(message) = self.read(alloc, number)? else {
            return Err(WorldStop::WrongKind { number });
        };
        match commit_for(message) {
            Some(content) => Ok(Some(content)),
            None => Err(WorldStop::WrongKind { number }),
        }
    }

    /// The stamped message that this message is.
    fn stamped_of(&self, alloc: Global, number: u64) -> Result<Option<Stamped>, WorldStop>
        ensures stops { (y : System V) (x : WorldState) → RepresentsWorld y self.now x → Tells (content_stop y.schedule x number as_stamped) result }
        ensures content { (y : System V) (x : WorldState) → RepresentsWorld y self.now x → IfOk result (Gives (content y.schedule x number as_stamped)) }
        ensures fits { IfOk result (λ o. IfSome o (FitsStamped self.now.shape)) }
        ensures runs { (result ≡ Err stop.Halted) → ⊥ }
    {
        let Some(message) = self.read(alloc, number)? else {
            return Err(WorldStop::WrongKind { number });
        };
        match message.into_stamped() {
            Ok(content) => Ok(Some(content)),
            Err(other) => {
                drop(other);
                Err(WorldStop::WrongKind { number })
            }
        }
    }

    /// A VIEW_CHANGE that shows what a faulty host stamped after a counter. It has neither too many entries nor too many bytes.
    fn change_of(
        &self,
        alloc: Global,
        host: Host,
        view: View,
        counter: Counter,
    ) -> Result<Option<Stamped>, WorldStop>
        requires host { host < host_count self.now.shape }
        requires view { IsPosition view }
        ensures stops { FromEach self.now (λ y x. is_faulty y.schedule host ≡ true → Tells (then_some (not (is_sendable_change y.schedule x host view counter)) (WrongKind counter)) result) }
        ensures content { (y : System V) (x : WorldState) → RepresentsWorld y self.now x → is_faulty y.schedule host ≡ true → IfOk result (Gives (Some (change_after y.schedule x host view counter))) }
        ensures fits { IfOk result (λ o. IfSome o (FitsStamped self.now.shape)) }
        ensures runs { (result ≡ Err stop.Halted) → ⊥ }
    {
        let messages = self.stamped_after(alloc, host, counter)?;
        if messages.len()
            > LOG_INTERVALS as usize * usize::from(self.shape.k()) + OTHER_LIMIT as usize
        {
            return Err(WorldStop::WrongKind { number: counter });
        }
        let content = change_with(alloc, &self.shape, view, messages)?;
        if content.count(&self.shape, 0) > MESSAGE_LIMIT {
            return Err(WorldStop::WrongKind { number: counter });
        }
        Ok(Some(content))
    }

    /// What a faulty host stamped after a counter, oldest first, as far as it is messages of the grammar.
    fn stamped_after(
        &self,
        alloc: Global,
        host: Host,
        counter: Counter,
    ) -> Result<Vec<Stamped>, NoMemory>
        requires { host < host_count self.now.shape }
        ensures after { (y : System V) (x : WorldState) → RepresentsWorld y self.now x → is_faulty y.schedule host ≡ true → IfOk result (λ v. reverse v.items ≡ stamped_after y.schedule x host counter) }
        ensures fits { IfOk result (λ v. AllByRecursion (FitsStamped self.now.shape) v.items) }
    {
        let mut messages = Vec::new(alloc);
        let Member::Faulty(faulty) = &self.members[usize::from(host)] else {
            return Ok(messages);
        };
        let count = faulty.messages.len();
        let first = counter.min(count as u64) as usize;
        for bytes in &faulty.messages.as_slice()[first..] {
            if let Some(stamped) = self.read_stamped(alloc, bytes.as_slice())? {
                messages.push(stamped)?;
            }
        }
        Ok(messages)
    }

    /// The stamped message of these bytes, where they are one.
    fn read_stamped(&self, alloc: Global, bytes: &[u8]) -> Result<Option<Stamped>, NoMemory>
        ensures message { (y : System V) (x : WorldState) → RepresentsWorld y self.now x → IfOk result (λ o. o ≡ option_and_then as_stamped (read y.schedule bytes.now)) }
        ensures fits { IfOk result (λ o. IfSome o (FitsStamped self.now.shape)) }
    {
        match self.read_bytes(alloc, bytes)? {
            Some(message) => Ok(message.into_stamped().ok()),
            None => Ok(None),
        }
    }

    // ---- what is forged

    /// What is forged in the message of a number, where it is delivered to someone correct.
    fn check_message(
        &self,
        alloc: Global,
        name: Name,
        number: u64,
    ) -> Result<Option<Stamped>, WorldStop>
        requires name { NameFits self.now.shape name }
        requires few { self.now.events < 2 ^ 64 - 1 }
        ensures stops { FromEach self.now (λ y x. Tells (found_in y.schedule x (option_and_then (read y.schedule) (to_correct y.schedule x (is_faulty_name y.schedule name) (numbered x.pool number)))) result) }
        ensures none { IfOk result (λ o. o ≡ None) }
        ensures runs { (result ≡ Err stop.Halted) → ⊥ }
    {
        let mark = mark_of(self.marks.as_slice(), number);
        if mark.clean {
            return Ok(None);
        }
        match self.message(number) {
            Some(bytes) => self.check_bytes(alloc, name, bytes.as_slice()),
            None => Ok(None),
        }
    }

    /// What is forged in these bytes, where they are delivered to someone correct and are a message.
    fn check_bytes(
        &self,
        alloc: Global,
        name: Name,
        bytes: &[u8],
    ) -> Result<Option<Stamped>, WorldStop>
        requires name { NameFits self.now.shape name }
        requires few { self.now.events < 2 ^ 64 - 1 }
        ensures stops { FromEach self.now (λ y x. Tells (found_in y.schedule x (option_and_then (read y.schedule) (to_correct y.schedule x (is_faulty_name y.schedule name) (Some bytes.now)))) result) }
        ensures none { IfOk result (λ o. o ≡ None) }
        ensures runs { (result ≡ Err stop.Halted) → ⊥ }
    {
        if self.is_faulty(name) {
            return Ok(None);
        }
        match self.read_bytes(alloc, bytes)? {
            Some(message) => {
                let found = self.check_forged(alloc, &message);
                drop(message);
                found
            }
            None => Ok(None),
        }
    }

    fn checker(&self) -> Checker<'_>
        ensures asks { (y : System V) (x : WorldState) → RepresentsWorld y self.now x → AsksIn y.schedule x result }
        ensures shape { result.shape.now ≡ self.now.shape }
    {
        Checker {
            shape: &self.shape,
            usig: &self.usig,
            pens: self.pens.as_slice(),
            faulty_hosts: self.faulty_hosts.as_slice(),
            faulty_clients: self.faulty_clients.as_slice(),
            ledger: &self.ledger,
        }
    }

    /// What is forged in a message.
    fn check_forged(&self, alloc: Global, message: &Message) -> Result<Option<Stamped>, WorldStop>
        requires fits { Fits self.now.shape message.now }
        requires few { self.now.events < 2 ^ 64 - 1 }
        ensures stops { (y : System V) (x : WorldState) → RepresentsWorld y self.now x → Tells (found_in y.schedule x (Some message.now)) result }
        ensures none { IfOk result (λ o. o ≡ None) }
        ensures runs { (result ≡ Err stop.Halted) → ⊥ }
    {
        let checker = self.checker();
        let claim = checker.forged_claim(alloc, message)?;
        let tag = checker.has_forged_tag(alloc, message)?;
        self.found(claim, tag)
    }

    /// The stop of what was found in a message: its first forged certificate, or else a forged tag.
    fn found(&self, claim: Option<ForgedClaim>, tag: bool) -> Result<Option<Stamped>, WorldStop>
        requires { self.now.events < 2 ^ 64 - 1 }
        ensures stops { FromEachWith MessageData self.now (λ y x m. claim ≡ option_map told (forged_claim y.schedule x m) → tag ≡ has_forged_tag y.schedule x m → Tells (found_in y.schedule x (Some m)) result) }
        ensures none { IfOk result (λ o. o ≡ None) }
        ensures runs { (result ≡ Err stop.Halted) → ⊥ }
    {
        let event = self.events + 1;
        if let Some(claim) = claim {
            return Err(WorldStop::Forged {
                event,
                host: claim.host,
                counter: claim.counter,
            });
        }
        if tag {
            return Err(WorldStop::ForgedTag { event });
        }
        Ok(None)
    }
}
