//! Messages of a view that goes its way, and those by which a host comes back, as texts.

use crate::teller::{Teller, Told};
use mb_msg::{
    BareCheckpoint, Checkpoint, Commit, Fetch, Floors, Log, Prepare, Reply, Resend, StateMsg,
};

impl Told for Prepare {
    fn tell(&self, teller: &mut Teller) {
        teller.word("prepare");
        teller.number("view", self.view);
        teller.number("pos", self.pos);
        teller.body(&self.body);
        teller.ui(&self.ui);
    }
}

impl Told for Commit {
    fn tell(&self, teller: &mut Teller) {
        teller.word("commit");
        teller.number("view", self.view);
        teller.number("pos", self.pos);
        teller.number("prepared", self.counter);
        teller.bytes("cert", &self.cert);
        teller.body(&self.body);
        teller.ui(&self.ui);
    }
}

impl Told for Reply {
    fn tell(&self, teller: &mut Teller) {
        teller.number("reply host", u64::from(self.host));
        teller.number("client", u64::from(self.client));
        teller.number("seq", self.seq);
        teller.number("pos", self.pos);
        teller.bytes("result", self.result.as_slice());
        teller.bytes("tag", &self.tag);
    }
}

impl Told for Floors {
    fn tell(&self, teller: &mut Teller) {
        teller.list("floors", self.floors.as_slice());
    }
}

impl Told for Checkpoint {
    fn tell(&self, teller: &mut Teller) {
        teller.number("checkpoint pos", self.pos);
        teller.bytes("state", &self.state);
        teller.body(&self.body);
        teller.ui(&self.ui);
    }
}

impl Told for BareCheckpoint {
    fn tell(&self, teller: &mut Teller) {
        teller.number("checkpoint pos", self.pos);
        teller.bytes("state", &self.state);
        teller.bytes("digest", &self.body);
        teller.ui(&self.ui);
    }
}

impl Told for Resend {
    fn tell(&self, teller: &mut Teller) {
        teller.number("resend host", u64::from(self.host));
        teller.number("low", self.low);
        teller.list("nexts", self.nexts.as_slice());
    }
}

impl Told for Log {
    fn tell(&self, teller: &mut Teller) {
        teller.number("log host", u64::from(self.host));
        teller.optional("floor", &self.floor);
        self.stable.tell(teller);
        teller.optional("evidence", &self.evidence);
        teller.list("entries", self.entries.as_slice());
    }
}

impl Told for Fetch {
    fn tell(&self, teller: &mut Teller) {
        teller.number("fetch host", u64::from(self.host));
        teller.number("of", u64::from(self.of));
        teller.number("pos", self.pos);
        teller.number("first", u64::from(self.first));
    }
}

impl Told for StateMsg {
    fn tell(&self, teller: &mut Teller) {
        teller.number("state host", u64::from(self.host));
        teller.number("pos", self.pos);
        teller.list("digests", self.digests.as_slice());
        teller.number("first", u64::from(self.first));
        teller.list("parts", self.parts.as_slice());
    }
}
