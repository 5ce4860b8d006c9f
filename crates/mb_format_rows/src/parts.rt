//! Parts of messages as texts.

use crate::teller::{Teller, Told};
use mb_base::Items;
use mb_parts::{
    Batch, Evidence, EvidenceMember, Floor, FloorCert, FloorMember, Mark, Phase, Request,
    StableCert, StableMember,
};

impl Told for Request {
    fn tell(&self, teller: &mut Teller) {
        teller.number("request client", u64::from(self.client));
        teller.number("seq", self.seq);
        teller.bytes("op", self.op.as_slice());
        teller.bytes("tag", &self.tag);
    }
}

impl Told for Batch {
    fn tell(&self, teller: &mut Teller) {
        teller.list("batch", self.requests.as_slice());
    }
}

/// The word for a phase.
fn phase_word(phase: Phase) -> &'static str {
    match phase {
        Phase::Changing => "changing",
        Phase::Entered => "entered",
        Phase::Open => "open",
    }
}

impl Told for Floor {
    fn tell(&self, teller: &mut Teller) {
        teller.number("counter", self.counter);
        teller.number("view", self.view);
        teller.word(phase_word(self.phase));
        teller.number("last", self.last);
        teller.number("top", self.top);
        teller.number("point", self.point);
    }
}

impl Told for Option<Floor> {
    fn tell(&self, teller: &mut Teller) {
        match self {
            Some(floor) => floor.tell(teller),
            None => teller.word("none"),
        }
    }
}

impl Told for FloorMember {
    fn tell(&self, teller: &mut Teller) {
        teller.number("host", u64::from(self.host));
        teller.number("counter", self.counter);
        teller.list("floors", self.floors.as_slice());
        teller.bytes("cert", &self.cert);
    }
}

impl Told for FloorCert {
    fn tell(&self, teller: &mut Teller) {
        teller.number("pos", self.pos);
        teller.bytes("state", &self.state);
        teller.list("members", self.members.as_slice());
    }
}

impl Told for StableMember {
    fn tell(&self, teller: &mut Teller) {
        teller.number("host", u64::from(self.host));
        teller.number("counter", self.counter);
        teller.bytes("floors", &self.floors);
        teller.bytes("cert", &self.cert);
    }
}

impl Told for StableCert {
    fn tell(&self, teller: &mut Teller) {
        teller.number("stable", self.pos);
        teller.bytes("state", &self.state);
        teller.list("members", self.members.as_slice());
    }
}

impl Told for EvidenceMember {
    fn tell(&self, teller: &mut Teller) {
        teller.number("host", u64::from(self.host));
        teller.number("counter", self.counter);
        teller.bytes("cert", &self.cert);
    }
}

impl Told for Evidence {
    fn tell(&self, teller: &mut Teller) {
        teller.number("view", self.view);
        teller.number("base", self.base);
        teller.number("end", self.end);
        teller.bytes("plan", &self.plan);
        teller.bytes("body", &self.body);
        teller.number("counter", self.counter);
        teller.bytes("cert", &self.cert);
        teller.list("members", self.members.as_slice());
    }
}

impl Told for Mark {
    fn tell(&self, teller: &mut Teller) {
        teller.number("kind", u64::from(self.kind));
        teller.number("view", self.view);
        teller.number("pos", self.pos);
        teller.number("end", self.end);
        teller.number("counter", self.counter);
    }
}

impl Told for Items<u8> {
    fn tell(&self, teller: &mut Teller) {
        teller.bytes("bytes", self.as_slice());
    }
}

impl Told for u64 {
    fn tell(&self, teller: &mut Teller) {
        teller.number("counter", *self);
    }
}

impl Told for [u8; 32] {
    fn tell(&self, teller: &mut Teller) {
        teller.bytes("digest", self);
    }
}
