//! Schedules, configs and records as texts of one line.

use crate::teller::{Teller, Told};
use mb_base::Shape;
use mb_msg::Event;
use mb_sched::{Config, Entry, Name, Record, Schedule, WorldEvent};

impl Told for bool {
    fn tell(&self, teller: &mut Teller) {
        teller.word(if *self { "faulty" } else { "correct" });
    }
}

fn tell_shape(teller: &mut Teller, shape: &Shape) {
    teller.number("f", u64::from(shape.f()));
    teller.number("k", u64::from(shape.k()));
    teller.number("clients", u64::from(shape.clients()));
}

fn tell_name(teller: &mut Teller, name: Name) {
    match name {
        Name::Host(host) => teller.number("host", u64::from(host)),
        Name::Client(client) => teller.number("client", u64::from(client)),
    }
}

/// Tells what happens at a host or a client without a stamp or a tag.
fn tell_plain(teller: &mut Teller, event: &WorldEvent) {
    match event {
        WorldEvent::Ask { client, op } => {
            teller.number("ask client", u64::from(*client));
            teller.bytes("op", op.as_slice());
        }
        WorldEvent::Give { message, host } => {
            teller.number("give message", *message);
            teller.number("host", u64::from(*host));
        }
        WorldEvent::Take { message, client } => {
            teller.number("take message", *message);
            teller.number("client", u64::from(*client));
        }
        WorldEvent::Raw { name, bytes } => {
            teller.bytes("raw bytes", bytes.as_slice());
            tell_name(teller, *name);
        }
        WorldEvent::Patience { host } => teller.number("patience host", u64::from(*host)),
        WorldEvent::Nudge { host } => teller.number("nudge host", u64::from(*host)),
        _ => {}
    }
}

/// Tells what a faulty client or host makes without its counter.
fn tell_tagged(teller: &mut Teller, event: &WorldEvent) {
    match event {
        WorldEvent::Sign { client, seq, op } => {
            teller.number("sign client", u64::from(*client));
            teller.number("seq", *seq);
            teller.bytes("op", op.as_slice());
        }
        WorldEvent::TagReply {
            host,
            client,
            seq,
            pos,
            result,
        } => {
            teller.number("reply host", u64::from(*host));
            teller.number("client", u64::from(*client));
            teller.number("seq", *seq);
            teller.number("pos", *pos);
            teller.bytes("result", result.as_slice());
        }
        WorldEvent::TagWish { host, view } => {
            teller.number("wish host", u64::from(*host));
            teller.number("view", *view);
        }
        _ => {}
    }
}

/// Tells what a faulty host stamps.
fn tell_stamped(teller: &mut Teller, event: &WorldEvent) {
    match event {
        WorldEvent::StampPrepare {
            host,
            view,
            pos,
            messages,
        } => {
            teller.number("prepare host", u64::from(*host));
            teller.number("view", *view);
            teller.number("pos", *pos);
            teller.list("messages", messages.as_slice());
        }
        WorldEvent::StampCommit { host, message } => {
            teller.number("commit host", u64::from(*host));
            teller.number("message", *message);
        }
        WorldEvent::StampCheckpoint { host, pos, digest } => {
            teller.number("checkpoint host", u64::from(*host));
            teller.number("pos", *pos);
            teller.bytes("digest", digest);
        }
        WorldEvent::StampChange { host, view, after } => {
            teller.number("change host", u64::from(*host));
            teller.number("view", *view);
            teller.number("counter", *after);
        }
        _ => {}
    }
}

/// Tells what a faulty host stamps of another's message, or of bytes alone.
fn tell_stamped_as(teller: &mut Teller, event: &WorldEvent) {
    match event {
        WorldEvent::StampAs { host, message } => {
            teller.number("as host", u64::from(*host));
            teller.number("message", *message);
        }
        WorldEvent::StampRaw { host, bytes } => {
            teller.number("stamp host", u64::from(*host));
            teller.bytes("bytes", bytes.as_slice());
        }
        _ => {}
    }
}

impl Told for WorldEvent {
    fn tell(&self, teller: &mut Teller) {
        tell_plain(teller, self);
        tell_tagged(teller, self);
        tell_stamped(teller, self);
        tell_stamped_as(teller, self);
    }
}

impl Told for Schedule {
    fn tell(&self, teller: &mut Teller) {
        tell_shape(teller, &self.shape);
        teller.bytes("secret", &self.secret);
        teller.list("hosts", self.faulty_hosts.as_slice());
        teller.list("clients", self.faulty_clients.as_slice());
        teller.list("events", self.events.as_slice());
    }
}

impl Told for Config {
    fn tell(&self, teller: &mut Teller) {
        tell_shape(teller, &self.shape);
        teller.bytes("secret", &self.secret);
        teller.number("port", u64::from(self.port));
        teller.list("operations", self.ops.as_slice());
    }
}

impl Told for Entry {
    fn tell(&self, teller: &mut Teller) {
        match &self.event {
            Event::Given(bytes) => teller.bytes("given", bytes.as_slice()),
            Event::Patience => teller.word("patience"),
            Event::Nudge => teller.word("nudge"),
        }
        teller.number("sent", u64::from(self.count));
        teller.bytes("digest", &self.digest);
    }
}

impl Told for Record {
    fn tell(&self, teller: &mut Teller) {
        self.config.tell(teller);
        teller.number("id", u64::from(self.id));
        teller.list("entries", self.entries.as_slice());
    }
}
