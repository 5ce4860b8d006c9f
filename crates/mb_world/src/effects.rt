//! What is given to hosts and clients, and what a host's step leaves in the world.

use crate::refusing::note_refusal;
use crate::seen::Seen;
use crate::world::World;
use mb_base::{Client, Digest, Duplicate, Host, Items, NoMemory};
use mb_members::{add_messages, extend_line, mark_of, note_sent, note_step, step_at};
use mb_msg::Event;
use mb_replica::StepRecord;
use mb_schedule::Name;
use mb_service::Service;
use std::alloc::Global;

impl<V: Service + Drop> World<V> {
    ghost use Rattle.std.specs.Prelude.{◌≡◌, ◌<◌, ◌+◌, ◌-◌, ◌^◌, true, None, IfOk, OnOk};
    ghost use Rattle.mb_base.specs.Shapes.{client_count, host_count};
    ghost use Rattle.mb_schedule.specs.declared.schedule.WorldEvent.TheVariants.{Give, Take, Raw};
    ghost use Rattle.mb_replica.specs.Told.{KnowsBytes, KnowsEvent};
    ghost use Rattle.mb_schedule.specs.Limits.{is_faulty, NameFits};
    ghost use Rattle.mb_msg.specs.declared.event.Event.TheVariants.{Given};
    ghost use Rattle.mb_world_model.specs.World.{World as WorldState, System, arrives, lost_or, steps, stepped, numbered, answered, give_host, give_client, signal};
    ghost use Rattle.mb_world_model.specs.WorldSteps.{with_message, happens};
    ghost use Rattle.mb_world_model.specs.Stops.{stop_of};
    ghost use Rattle.mb_members.specs.Hosts.{IsSystem};
    ghost use Rattle.mb_members.specs.Members.{AllRun};
    ghost use Rattle.mb_world.specs.Answers.{as_answer};
    ghost use Rattle.mb_unforged.specs.Reached.{IsReached};
    ghost use Rattle.mb_world.specs.Sent.{SendsClean};
    ghost use Rattle.mb_world.specs.Tables.{RepresentsWorld, HasWorld, Leaves};
    ghost use Rattle.mb_world.specs.Happening.{FromServing, FromReached, Happens, Enters};

    // ---- answers

    /// The event is done, with this answer.
    pub(crate) fn note(&mut self, alloc: Global, seen: Seen) -> Result<Seen, NoMemory>
        requires few { self.old.events < 2 ^ 64 - 1 }
        requires halted { self.old.halted ≡ true }
        ensures stands { (y : System V) (x : WorldState) → RepresentsWorld y self.old x → IfOk result (λ a. Leaves y self.new (as_answer a) x (answered (as_answer seen) x)) }
        ensures members { self.new.members ≡ self.old.members }
        ensures halted { self.new.halted ≡ self.old.halted }
        ensures shape { self.new.shape ≡ self.old.shape }
        ensures counts { OnOk result (self.new.events ≡ self.old.events + 1) }
    {
        self.events += 1;
        note_refusal(alloc, &mut self.refused, self.events, seen)?;
        Ok(seen)
    }

    // ---- hosts

    /// A host makes the step of an event. At a faulty one it is lost.
    fn step(
        &mut self,
        alloc: Global,
        host: Host,
        event: &Event,
        known: &Option<Digest>,
    ) -> Result<Seen, NoMemory>
        requires host { host < host_count self.old.shape }
        requires few { self.old.events < 2 ^ 64 - 1 }
        requires known { KnowsEvent self.old.shape known.now event.now }
        requires runs { AllRun self.old.members.items }
        requires has { HasWorld V.machine self.old }
        requires halted { self.old.halted ≡ true }
        ensures stands { FromServing V.machine self.old (λ y x. SendsClean y x host event.now → Happens y x (lost_or (is_faulty y.schedule host) (steps y host event.now) x) result self.new) }
        ensures runs { OnOk result (AllRun self.new.members.items) }
        ensures halted { self.new.halted ≡ self.old.halted }
        ensures shape { self.new.shape ≡ self.old.shape }
        ensures counts { OnOk result (self.new.events ≡ self.old.events + 1) }
    {
        match step_at(alloc, &mut self.members, host, event, known)? {
            Some(told) => self.stepped(alloc, host, told),
            None => self.note(alloc, Seen::Lost),
        }
    }

    /// What a correct host's step leaves.
    fn stepped(&mut self, alloc: Global, host: Host, told: StepRecord) -> Result<Seen, NoMemory>
        requires host { host < host_count self.old.shape }
        requires few { self.old.events < 2 ^ 64 - 1 }
        requires halted { self.old.halted ≡ true }
        ensures stands { Enters self.old host told result self.new }
        ensures members { self.new.members ≡ self.old.members }
        ensures halted { self.new.halted ≡ self.old.halted }
        ensures shape { self.new.shape ≡ self.old.shape }
        ensures counts { OnOk result (self.new.events ≡ self.old.events + 1) }
    {
        let StepRecord {
            outcome,
            sent,
            executed,
            ..
        } = told;
        note_step(alloc, &mut self.ledger, host, sent.as_slice())?;
        let count = self.pool.len() + 1;
        note_sent(&mut self.marks, count, sent.as_slice())?;
        add_messages(&mut self.pool, sent)?;
        extend_line(&mut self.line, executed)?;
        self.note(alloc, Seen::Host(outcome))
    }

    /// Lost patience, or a Nudge.
    pub(crate) fn signal(
        &mut self,
        alloc: Global,
        host: Host,
        event: &Event,
    ) -> Result<Seen, NoMemory>
        requires host { host < host_count self.old.shape }
        requires few { self.old.events < 2 ^ 64 - 1 }
        requires runs { AllRun self.old.members.items }
        requires has { HasWorld V.machine self.old }
        requires halted { self.old.halted ≡ true }
        ensures stands { (y : System V) (x : WorldState) → IsSystem V.machine y → RepresentsWorld y self.old x → SendsClean y x host event.now
            → IfOk result (λ a. Leaves y self.new (as_answer a) x (signal y host event.now x)) }
        ensures runs { OnOk result (AllRun self.new.members.items) }
        ensures halted { self.new.halted ≡ self.old.halted }
        ensures shape { self.new.shape ≡ self.old.shape }
        ensures counts { OnOk result (self.new.events ≡ self.old.events + 1) }
    {
        self.step(alloc, host, event, &None)
    }

    /// Bytes come to a host. To a faulty one nothing comes of them.
    fn give_host(
        &mut self,
        alloc: Global,
        host: Host,
        bytes: Items<u8>,
        known: &Option<Digest>,
    ) -> Result<Seen, NoMemory>
        requires host { host < host_count self.old.shape }
        requires few { self.old.events < 2 ^ 64 - 1 }
        requires known { KnowsBytes self.old.shape known.now bytes }
        requires runs { AllRun self.old.members.items }
        requires has { HasWorld V.machine self.old }
        requires halted { self.old.halted ≡ true }
        ensures stands { FromServing V.machine self.old (λ y x. SendsClean y (arrives y.schedule host bytes x) host (Given bytes) → Happens y x (give_host y host bytes x) result self.new) }
        ensures runs { OnOk result (AllRun self.new.members.items) }
        ensures halted { self.new.halted ≡ self.old.halted }
        ensures shape { self.new.shape ≡ self.old.shape }
        ensures counts { OnOk result (self.new.events ≡ self.old.events + 1) }
    {
        self.step(alloc, host, &Event::Given(bytes), known)
    }

    /// A message is given to a host.
    pub(crate) fn give(&mut self, alloc: Global, number: u64, host: Host) -> Result<Seen, NoMemory>
        requires host { host < host_count self.old.shape }
        requires few { self.old.events < 2 ^ 64 - 1 }
        requires runs { AllRun self.old.members.items }
        requires has { HasWorld V.machine self.old }
        requires halted { self.old.halted ≡ true }
        requires allowed { (y : System V) (x : WorldState) → RepresentsWorld y self.old x → stop_of y.schedule x (Give number host) ≡ None }
        ensures stands { FromReached V.machine self.old (λ y x. Happens y x (with_message (give_host y host) (numbered x.pool number) x) result self.new) }
        ensures runs { OnOk result (AllRun self.new.members.items) }
        ensures halted { self.new.halted ≡ self.old.halted }
        ensures shape { self.new.shape ≡ self.old.shape }
        ensures counts { OnOk result (self.new.events ≡ self.old.events + 1) }
    {
        match self.message(number) {
            Some(bytes) => {
                let bytes = bytes.duplicate(alloc)?;
                let known = mark_of(self.marks.as_slice(), number).body;
                self.mark_clean(Name::Host(host), number)?;
                self.give_host(alloc, host, bytes, &known)
            }
            None => self.note(alloc, Seen::Lost),
        }
    }

    // ---- clients

    /// Bytes come to a client. To a faulty one nothing comes of them.
    fn give_client(&mut self, alloc: Global, client: Client, bytes: &[u8]) -> Result<Seen, NoMemory>
        requires client { client < client_count self.old.shape }
        requires few { self.old.events < 2 ^ 64 - 1 }
        requires halted { self.old.halted ≡ true }
        ensures stands { (y : System V) (x : WorldState) → RepresentsWorld y self.old x → IfOk result (λ a. Leaves y self.new (as_answer a) x (give_client y.schedule client bytes.now x)) }
        ensures members { self.new.members ≡ self.old.members }
        ensures halted { self.new.halted ≡ self.old.halted }
        ensures shape { self.new.shape ≡ self.old.shape }
        ensures counts { OnOk result (self.new.events ≡ self.old.events + 1) }
    {
        if self.faulty_clients[usize::from(client)] {
            return self.note(alloc, Seen::Lost);
        }
        self.client_reads(alloc, client, bytes)
    }

    /// A message is given to a client.
    pub(crate) fn take(
        &mut self,
        alloc: Global,
        number: u64,
        client: Client,
    ) -> Result<Seen, NoMemory>
        requires client { client < client_count self.old.shape }
        requires few { self.old.events < 2 ^ 64 - 1 }
        requires halted { self.old.halted ≡ true }
        requires allowed { (y : System V) (x : WorldState) → RepresentsWorld y self.old x → stop_of y.schedule x (Take number client) ≡ None }
        ensures stands { (y : System V) (x : WorldState) → RepresentsWorld y self.old x
            → IfOk result (λ a. Leaves y self.new (as_answer a) x (with_message (give_client y.schedule client) (numbered x.pool number) x)) }
        ensures members { self.new.members ≡ self.old.members }
        ensures halted { self.new.halted ≡ self.old.halted }
        ensures shape { self.new.shape ≡ self.old.shape }
        ensures counts { OnOk result (self.new.events ≡ self.old.events + 1) }
    {
        match self.message(number) {
            Some(bytes) => {
                let bytes = bytes.duplicate(alloc)?;
                self.mark_clean(Name::Client(client), number)?;
                self.give_client(alloc, client, bytes.as_slice())
            }
            None => self.note(alloc, Seen::Lost),
        }
    }

    /// Bytes are given to a host or a client.
    pub(crate) fn raw(
        &mut self,
        alloc: Global,
        name: Name,
        bytes: &Items<u8>,
    ) -> Result<Seen, NoMemory>
        requires name { NameFits self.old.shape name }
        requires few { self.old.events < 2 ^ 64 - 1 }
        requires runs { AllRun self.old.members.items }
        requires has { HasWorld V.machine self.old }
        requires halted { self.old.halted ≡ true }
        requires allowed { (y : System V) (x : WorldState) → RepresentsWorld y self.old x → stop_of y.schedule x (Raw name bytes.now) ≡ None }
        ensures stands { (y : System V) (x : WorldState) → IsSystem V.machine y → IsReached y x → RepresentsWorld y self.old x
            → IfOk result (λ a. Leaves y self.new (as_answer a) x (happens y x (Raw name bytes.now))) }
        ensures runs { OnOk result (AllRun self.new.members.items) }
        ensures halted { self.new.halted ≡ self.old.halted }
        ensures shape { self.new.shape ≡ self.old.shape }
        ensures counts { OnOk result (self.new.events ≡ self.old.events + 1) }
    {
        match name {
            Name::Host(host) => {
                let bytes = bytes.duplicate(alloc)?;
                self.give_host(alloc, host, bytes, &None)
            }
            Name::Client(client) => self.give_client(alloc, client, bytes.as_slice()),
        }
    }
}
