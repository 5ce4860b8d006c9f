//! A node between two receives, and one receive of it with what follows.

ghost use Rattle.std.specs.Prelude.{◌≡◌, ◌≤◌, ◌<◌, ◌+◌, ◌-◌, ◌^◌, false, [], IfOk, IfErr, IfSome, OnOk, IsErrOf};
ghost use Rattle.mb_base.specs.Shapes.{host_count};
ghost use Rattle.mb_core.specs.Represents.{IsAtRest};
ghost use Rattle.mb_node.specs.Inboxes.{HasReceived};
ghost use Rattle.mb_edge.specs.Faults.{TellsFaults};
ghost use Rattle.mb_node.specs.Rounds.{RoundsOver, event_of};
ghost use Rattle.mb_node.specs.Patience.{standing, fresh, is_spent};
ghost use Rattle.mb_node.specs.Keeping.{RoundsKept};
ghost use Rattle.mb_node.specs.Receiving.{ArrivalFits};
ghost use Rattle.mb_journal.specs.Files.{EventFits};
ghost use Rattle.mb_node.specs.Stops.{IsOfDisk};
ghost use Rattle.mb_model.specs.Histories.{Identity, History};
ghost use Rattle.mb_core.specs.Represents.{Represents};

use crate::keeping::keep;
use crate::outbox::Outbox;
use crate::patience::{Patience, Standing};
use crate::receiving::{Arrival, Receiver};
use crate::stops::ServeStop;
use crate::turn::take_turn;
use mb_base::{Host, NoMemory, Shape, View};
use mb_core::Replica;
use mb_edge::{Disk, Link, Sink};
use mb_journal::Journal;
use mb_msg::Event;
use mb_service::Service;
use std::alloc::Global;

/// What a node keeps between two receives, beside the host.
#[derive(Drop)]
pub(crate) struct Node {
    receiver: Receiver,
    outbox: Outbox,
    patience: Patience,
}

impl Node {
    /// That of a host which stands in this view. Nothing was received and sent yet.
    pub(crate) fn make(
        alloc: Global,
        shape: Shape,
        host: Host,
        view: View,
    ) -> Result<Node, NoMemory>
        ensures inbox { IfOk result (λ node. HasReceived shape [] node.receiver.inbox) }
        ensures outbox { IfOk result (λ node. node.outbox ≡ record { host = host; hosts = host_count shape; number = 0 }) }
        ensures patience { IfOk result (λ node. node.patience ≡ fresh view) }
    {
        Ok(Node {
            receiver: Receiver::make(alloc, shape)?,
            outbox: Outbox {
                host,
                hosts: shape.n(),
                number: 0,
            },
            patience: Patience::new(view),
        })
    }

    /// One receive, and the event that it is. Whether that was a right STOP.
    pub(crate) fn round<V: Service + Drop, K: Sink, L: Link>(
        &mut self,
        alloc: Global,
        replica: &mut Replica<V>,
        link: &mut L,
        out: &mut K,
    ) -> Result<bool, ServeStop>
        requires few { self.old.patience.quiets < 2 ^ 64 - 1 }
        requires runs { replica.old.halted ≡ false }
        requires rests { IsAtRest V.machine replica.old }
        ensures rounds { RoundsOver V.machine self.old self.new replica.old replica.new (L.seen link.old) (L.seen link.new) (K.seen out.old) (K.seen out.new) result }
        ensures alone { IfErr result (λ s. ¬ IsOfDisk s) }
        ensures few { self.new.patience.quiets ≤ self.old.patience.quiets + 1 }
        ensures runs { OnOk result (replica.new.halted ≡ false) }
        ensures rests { replica.new.halted ≡ false → IsAtRest V.machine replica.new }
        ensures opens { (L.seen link.new).opens ≡ (L.seen link.old).opens }
        ensures link { TellsFaults (L.never_fails link.old) (L.never_fails link.new) (L.seen link.old).faults (L.seen link.new).faults (IsErrOf result ServeStop.LinkFault) }
        ensures sink { TellsFaults (K.never_fails out.old) (K.never_fails out.new) (K.seen out.old).faults (K.seen out.new).faults (IsErrOf result ServeStop.SinkFault) }
    {
        let arrival = self.receiver.receive(alloc, link)?;
        let Some(event) = self.event_of(replica, arrival) else {
            return Ok(false);
        };
        let turn = take_turn(alloc, replica, link, out, &mut self.outbox, event)?;
        self.patience = self.patience.behind(turn.shown);
        Ok(turn.stops)
    }

    /// One receive, whose event is kept in a journal before its step. Whether that was a right STOP.
    pub(crate) fn kept_round<V: Service + Drop, K: Sink, L: Link, D: Disk>(
        &mut self,
        alloc: Global,
        replica: &mut Replica<V>,
        journal: &mut Journal,
        disk: &mut D,
        link: &mut L,
        out: &mut K,
    ) -> Result<bool, ServeStop>
        requires few { self.old.patience.quiets < 2 ^ 64 - 1 }
        requires runs { replica.old.halted ≡ false }
        requires rests { IsAtRest V.machine replica.old }
        requires keeps { journal.old.halted ≡ false }
        ensures rounds { RoundsKept V.machine self.old self.new replica.old replica.new journal.old journal.new (D.seen disk.old) (D.seen disk.new) (L.seen link.old) (L.seen link.new) (K.seen out.old) (K.seen out.new) result }
        ensures few { self.new.patience.quiets ≤ self.old.patience.quiets + 1 }
        ensures runs { OnOk result (replica.new.halted ≡ false) }
        ensures rests { replica.new.halted ≡ false → IsAtRest V.machine replica.new }
        ensures keeps { OnOk result (journal.new.halted ≡ false) }
        ensures opens { (L.seen link.new).opens ≡ (L.seen link.old).opens }
        ensures link { TellsFaults (L.never_fails link.old) (L.never_fails link.new) (L.seen link.old).faults (L.seen link.new).faults (IsErrOf result ServeStop.LinkFault) }
        ensures sink { TellsFaults (K.never_fails out.old) (K.never_fails out.new) (K.seen out.old).faults (K.seen out.new).faults (IsErrOf result ServeStop.SinkFault) }
        ensures disk { TellsFaults (D.never_fails disk.old) (D.never_fails disk.new) (D.seen disk.old).faults (D.seen disk.new).faults (IsErrOf result ServeStop.DiskFault) }
    {
        let arrived = self.receiver.receive(alloc, link)?;
        let Some(event) = self.event_of(replica, arrived) else {
            return Ok(false);
        };
        keep(journal, disk, &event)?;
        let turn = take_turn(alloc, replica, link, out, &mut self.outbox, event)?;
        self.patience = self.patience.behind(turn.shown);
        Ok(turn.stops)
    }

    /// The event of what arrived.
    fn event_of<V: Service + Drop>(&self, replica: &Replica<V>, arrival: Arrival) -> Option<Event>
        ensures event { (me : Identity V) (d : History) → Represents me replica.now d → result ≡ event_of (is_spent (standing me d) self.now.patience) arrival }
        ensures fits { ArrivalFits arrival → IfSome result EventFits }
    {
        match arrival {
            Arrival::Message(message) => Some(Event::Given(message)),
            Arrival::Nothing => None,
            Arrival::Quiet if self.patience.is_spent(&Standing::of(replica)) => {
                Some(Event::Patience)
            }
            Arrival::Quiet => Some(Event::Nudge),
        }
    }
}
