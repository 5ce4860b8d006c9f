//! All hosts, all clients and all that was ever made: the events of a schedule, one after the other.

ghost use Rattle.std.specs.Prelude.{◌≡◌, false, length};
ghost use Rattle.mb_base.specs.Shapes.{client_count, host_count};
ghost use Rattle.mb_members.specs.Members.{AllRun, AreOf, StampedWithin};
ghost use Rattle.mb_members.specs.Askers.{AskedWithin, AreOfShape};

use crate::allowed::{culprit_of, stamping_host};
use crate::seen::{Seen, WorldStop};
use mb_base::{Client, Host, Items, Key, NoMemory, Shape};
use mb_client::Asker;
use mb_core::Replica;
use mb_forgery::Ledger;
use mb_members::{Mark, Member, askers, new_members, pens};
use mb_msg::{Event, Slot, Stamped};
use mb_schedule::{RefusedLine, WorldEvent};
use mb_service::Service;
use mb_usig::{Pen, Usig};
use std::alloc::Global;

/// All hosts, all clients and all that was ever made.
#[derive(Drop)]
pub struct World<V: Service> {
    pub(crate) shape: Shape,
    /// Verifies certificates and wishes, and stamps nothing.
    pub(crate) usig: Usig,
    /// For each client, what it signs with.
    pub(crate) pens: Vec<Pen>,
    pub(crate) faulty_hosts: Vec<bool>,
    pub(crate) faulty_clients: Vec<bool>,
    pub(crate) members: Vec<Member<V>>,
    pub(crate) askers: Vec<Asker>,
    /// All that was stamped, asked and tagged.
    pub(crate) ledger: Ledger,
    /// The messages in the order in which they were made. Message 1 is the first.
    pub(crate) pool: Vec<Items<u8>>,
    /// By its number, what is known of a message. What was made stays made, so this stays so.
    pub(crate) marks: Vec<Mark>,
    /// The one list of executed batches.
    pub(crate) line: Vec<Slot>,
    pub(crate) refused: Vec<RefusedLine>,
    /// How many events happened.
    pub(crate) events: u64,
    /// Whether an event is not done: it runs, or memory ran out in it.
    halted: bool,
    ghost one_shape: { (usig.shape ≡ shape) × (ledger.shape ≡ shape) },
    ghost pens_len: { length pens.items ≡ client_count shape },
    ghost faulty_hosts_len: { length faulty_hosts.items ≡ host_count shape },
    ghost faulty_clients_len: { length faulty_clients.items ≡ client_count shape },
    ghost members_len: { length members.items ≡ host_count shape },
    ghost askers_len: { length askers.items ≡ client_count shape },
    ghost all_run: { halted ≡ false → AllRun members.items },
    ghost members_of: { AreOf shape members.items },
    ghost stamped_in: { StampedWithin events members.items },
    ghost asked_in: { AskedWithin events askers.items },
    ghost askers_shape: { AreOfShape shape askers.items },
}

impl<V: Service + Drop> World<V> {
    ghost use Rattle.std.specs.Prelude.{◌≡◌, ◌<◌, ◌+◌, ◌-◌, ◌^◌, false, true, length, option_copied, is_some, None, IfOk, IfSome, OnOk};
    ghost use Rattle.mb_base.specs.Shapes.{client_count, host_count};
    ghost use Rattle.mb_msg.specs.Fits.{FitsStamped};
    ghost use Rattle.mb_schedule.specs.Limits.{EventFits};
    ghost use Rattle.mb_world_model.specs.World.{World as WorldState, System, numbered};
    ghost use Rattle.mb_world_model.specs.WorldSteps.{happens};
    ghost use Rattle.mb_world_model.specs.Stops.{stop_of};
    ghost use Rattle.mb_client.specs.Represents.{Represents};
    ghost use Rattle.mb_members.specs.Hosts.{IsSystem};
    ghost use Rattle.mb_members.specs.Members.{AllRun, IsHost};
    ghost use Rattle.mb_world.specs.Answers.{as_answer, Tells};
    ghost use Rattle.mb_world.specs.Contents.{IsAllowed, stamping_host};
    ghost use Rattle.mb_world_model.specs.WorldEvents.{culprit};
    ghost use Rattle.mb_unforged.specs.Reached.{IsReached};
    ghost use Rattle.mb_world.specs.Tables.{RepresentsWorld, HasWorld, Leaves, WorldHalts};
    ghost use Rattle.mb_world.specs.Happening.{MakesWorld};

    /// The world before the first event. The lists have a member for each host, each client and each host.
    pub fn make(
        alloc: Global,
        shape: Shape,
        secret: &Key,
        faulty_hosts: &[bool],
        faulty_clients: &[bool],
        services: Vec<V>,
    ) -> Result<World<V>, NoMemory>
        requires hosts { length faulty_hosts.now ≡ host_count shape }
        requires clients { length faulty_clients.now ≡ client_count shape }
        requires services { length services.items ≡ host_count shape }
        ensures stands { MakesWorld V.machine shape secret.now faulty_hosts.now faulty_clients.now services.items result }
        ensures runs { IfOk result (λ w. w.halted ≡ false) }
        ensures none { IfOk result (λ w. w.events ≡ 0) }
        ensures shape { IfOk result (λ w. w.shape ≡ shape) }
    {
        Ok(World {
            shape,
            usig: Usig::new(shape, 0, secret),
            pens: pens(alloc, shape, secret)?,
            faulty_hosts: Vec::from_slice(alloc, faulty_hosts)?,
            faulty_clients: Vec::from_slice(alloc, faulty_clients)?,
            members: new_members(alloc, shape, secret, faulty_hosts, services)?,
            askers: askers(alloc, shape, secret)?,
            ledger: Ledger::make(alloc, shape)?,
            pool: Vec::new(alloc),
            marks: Vec::new(alloc),
            line: Vec::new(alloc),
            refused: Vec::new(alloc),
            events: 0,
            halted: false,
        })
    }

    /// One event, of a world that is reached: one to which events lead, none of which was stopped. Of several stops the first comes in this order:
    /// `Halted`, `NotFaulty`, `NoSuchMessage`, `WrongKind`, `Forged`, `ForgedTag`.
    pub fn world_step(&mut self, alloc: Global, event: &WorldEvent) -> Result<Seen, WorldStop>
        requires fits { EventFits self.old.shape event.now }
        requires few { self.old.events < 2 ^ 64 - 1 }
        requires has { self.old.halted ≡ false → HasWorld V.machine self.old }
        ensures stands { (y : System V) (x : WorldState) → IsSystem V.machine y → IsReached y x → RepresentsWorld y self.old x
            → IfOk result (λ a. Leaves y self.new (as_answer a) x (happens y x event.now)) }
        ensures stops { (y : System V) (x : WorldState) → RepresentsWorld y self.old x → Tells (stop_of y.schedule x event.now) result }
        ensures has { IfOk result (λ a. HasWorld V.machine self.new) }
        ensures halts { WorldHalts self.old result self.new }
        ensures shape { self.new.shape ≡ self.old.shape }
        ensures counts { OnOk result (self.new.events ≡ self.old.events + 1) }
    {
        if self.halted {
            return Err(WorldStop::Halted);
        }
        match self.allow(alloc, event) {
            Ok(content) => {
                self.halted = true;
                let seen = self.happen(alloc, event, content)?;
                self.halted = false;
                Ok(seen)
            }
            Err(WorldStop::NoMemory) => {
                self.halted = true;
                Err(WorldStop::NoMemory)
            }
            Err(stop) => Err(stop),
        }
    }

    /// An event that nothing stands in the way of.
    fn happen(
        &mut self,
        alloc: Global,
        event: &WorldEvent,
        content: Option<Stamped>,
    ) -> Result<Seen, NoMemory>
        requires fits { EventFits self.old.shape event.now }
        requires few { self.old.events < 2 ^ 64 - 1 }
        requires runs { AllRun self.old.members.items }
        requires has { HasWorld V.machine self.old }
        requires halted { self.old.halted ≡ true }
        requires content { IfSome content (FitsStamped self.old.shape) }
        requires allowed { (y : System V) (x : WorldState) → RepresentsWorld y self.old x → IsAllowed y.schedule x event.now content }
        ensures stands { (y : System V) (x : WorldState) → IsSystem V.machine y → IsReached y x → RepresentsWorld y self.old x
            → IfOk result (λ a. Leaves y self.new (as_answer a) x (happens y x event.now)) }
        ensures runs { OnOk result (AllRun self.new.members.items) }
        ensures halted { self.new.halted ≡ self.old.halted }
        ensures shape { self.new.shape ≡ self.old.shape }
        ensures counts { OnOk result (self.new.events ≡ self.old.events + 1) }
    {
        match stamping_host(event) {
            Some(host) => self.stamp_some(alloc, host, content),
            None => match culprit_of(event) {
                Some(_) => self.fabricate(alloc, event),
                None => self.deliver(alloc, event),
            },
        }
    }

    /// An event that can be whoever is faulty.
    fn deliver(&mut self, alloc: Global, event: &WorldEvent) -> Result<Seen, NoMemory>
        requires fits { EventFits self.old.shape event.now }
        requires few { self.old.events < 2 ^ 64 - 1 }
        requires runs { AllRun self.old.members.items }
        requires has { HasWorld V.machine self.old }
        requires halted { self.old.halted ≡ true }
        requires free { culprit event.now ≡ None }
        requires there { (y : System V) (x : WorldState) → RepresentsWorld y self.old x → stop_of y.schedule x event.now ≡ None }
        ensures stands { (y : System V) (x : WorldState) → IsSystem V.machine y → IsReached y x → RepresentsWorld y self.old x
            → IfOk result (λ a. Leaves y self.new (as_answer a) x (happens y x event.now)) }
        ensures runs { OnOk result (AllRun self.new.members.items) }
        ensures halted { self.new.halted ≡ self.old.halted }
        ensures shape { self.new.shape ≡ self.old.shape }
        ensures counts { OnOk result (self.new.events ≡ self.old.events + 1) }
    {
        match event {
            WorldEvent::Ask { client, op } => self.ask(alloc, *client, op),
            WorldEvent::Give { message, host } => self.give(alloc, *message, *host),
            WorldEvent::Take { message, client } => self.take(alloc, *message, *client),
            WorldEvent::Raw { name, bytes } => self.raw(alloc, *name, bytes),
            WorldEvent::Patience { host } => self.signal(alloc, *host, &Event::Patience),
            WorldEvent::Nudge { host } => self.signal(alloc, *host, &Event::Nudge),
            _ => unreachable!(),
        }
    }

    /// What a faulty host or client makes, but for stamps that name a content.
    fn fabricate(&mut self, alloc: Global, event: &WorldEvent) -> Result<Seen, NoMemory>
        requires fits { EventFits self.old.shape event.now }
        requires few { self.old.events < 2 ^ 64 - 1 }
        requires runs { AllRun self.old.members.items }
        requires plain { stamping_host event.now ≡ None }
        requires faulty { is_some (culprit event.now) ≡ true }
        requires there { (y : System V) (x : WorldState) → RepresentsWorld y self.old x → stop_of y.schedule x event.now ≡ None }
        ensures stands { (y : System V) (x : WorldState) → RepresentsWorld y self.old x
            → IfOk result (λ a. Leaves y self.new (as_answer a) x (happens y x event.now)) }
        ensures runs { OnOk result (AllRun self.new.members.items) }
        ensures halted { self.new.halted ≡ self.old.halted }
        ensures shape { self.new.shape ≡ self.old.shape }
        ensures counts { OnOk result (self.new.events ≡ self.old.events + 1) }
    {
        match event {
            WorldEvent::Sign { client, seq, op } => self.sign(alloc, *client, *seq, op),
            WorldEvent::TagReply {
                host,
                client,
                seq,
                pos,
                result: answer,
            } => self.tag_reply(alloc, *host, *client, *seq, *pos, answer),
            WorldEvent::TagWish { host, view } => self.tag_wish(alloc, *host, *view),
            WorldEvent::StampRaw { host, bytes } => self.stamp_raw(alloc, *host, bytes.as_slice()),
            _ => unreachable!(),
        }
    }

    // ---- what is there

    /// The one list of executed batches.
    pub fn line(&self) -> &[Slot]
        ensures { (y : System V) (x : WorldState) → RepresentsWorld y self.now x → result.now ≡ x.line }
    {
        self.line.as_slice()
    }

    /// A correct host. None exactly for a faulty one.
    pub fn host(&self, host: Host) -> Option<&Replica<V>>
        requires { host < host_count self.now.shape }
        ensures { (y : System V) (x : WorldState) → RepresentsWorld y self.now x → IsHost y host (x.histories host) (option_copied result) }
    {
        match &self.members[usize::from(host)] {
            Member::Correct(replica) => Some(replica),
            Member::Faulty(_) => None,
        }
    }

    /// A client's side.
    pub fn client(&self, client: Client) -> &Asker
        requires { client < client_count self.now.shape }
        ensures { (y : System V) (x : WorldState) → RepresentsWorld y self.now x → Represents y.schedule.shape y.schedule.secret client result.now (x.askers client) }
    {
        &self.askers[usize::from(client)]
    }

    /// The number of messages that were made.
    pub fn pool(&self) -> u64
        ensures count { (y : System V) (x : WorldState) → RepresentsWorld y self.now x → result ≡ length x.pool }
        ensures limit { result < 2 ^ 63 }
    {
        self.pool.len() as u64
    }

    /// The number of events that happened.
    pub fn events(&self) -> u64
        ensures { result ≡ self.now.events }
    {
        self.events
    }

    /// Whether an earlier event ran out of memory.
    pub fn halted(&self) -> bool
        ensures { result ≡ self.now.halted }
    {
        self.halted
    }

    /// The message of a number. None exactly where it was not made.
    pub(crate) fn message(&self, number: u64) -> Option<&Items<u8>>
        ensures { option_copied result ≡ numbered self.now.pool.items number }
    {
        let index = number.checked_sub(1)?;
        if index >= self.pool.len() as u64 {
            return None;
        }
        Some(&self.pool[index as usize])
    }
}
