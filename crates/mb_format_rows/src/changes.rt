//! Messages that change the view, and any message, as texts.

use crate::teller::{Teller, Told};
use mb_msg::{
    BareNewView, BareViewChange, ChangeBody, Enter, Hashed, Join, Message, NewView, NewViewBody,
    Open, OpenBody, ReqViewChange, Shown, Stamped, ViewChange,
};

impl Told for ReqViewChange {
    fn tell(&self, teller: &mut Teller) {
        teller.number("wish host", u64::from(self.host));
        teller.number("view", self.view);
        teller.bytes("tag", &self.tag);
    }
}

impl Told for Hashed<ChangeBody> {
    fn tell(&self, teller: &mut Teller) {
        let body = self.as_part();
        teller.optional("floor", &body.floor);
        body.stable.tell(teller);
        teller.list("entries", body.entries.as_slice());
    }
}

impl Told for ViewChange {
    fn tell(&self, teller: &mut Teller) {
        teller.number("change view", self.view);
        teller.body(&self.body);
        teller.ui(&self.ui);
    }
}

impl Told for BareViewChange {
    fn tell(&self, teller: &mut Teller) {
        teller.number("change view", self.view);
        teller.bytes("digest", &self.body);
        teller.ui(&self.ui);
    }
}

impl Told for NewViewBody {
    fn tell(&self, teller: &mut Teller) {
        teller.list("members", self.changes.as_slice());
    }
}

impl Told for NewView {
    fn tell(&self, teller: &mut Teller) {
        teller.number("new-view view", self.view);
        teller.number("base", self.base);
        teller.number("end", self.end);
        teller.bytes("plan", &self.plan);
        teller.body(&self.body);
        teller.ui(&self.ui);
    }
}

impl Told for BareNewView {
    fn tell(&self, teller: &mut Teller) {
        teller.number("new-view view", self.view);
        teller.number("base", self.base);
        teller.number("end", self.end);
        teller.bytes("plan", &self.plan);
        teller.bytes("digest", &self.body);
        teller.ui(&self.ui);
    }
}

impl Told for Enter {
    fn tell(&self, teller: &mut Teller) {
        teller.number("enter view", self.view);
        teller.number("announced", self.counter);
        teller.bytes("plan", &self.plan);
        teller.ui(&self.ui);
    }
}

impl Told for OpenBody {
    fn tell(&self, teller: &mut Teller) {
        self.stable.tell(teller);
        teller.list("batches", self.batches.as_slice());
    }
}

impl Told for Open {
    fn tell(&self, teller: &mut Teller) {
        teller.word("open");
        self.evidence.tell(teller);
        teller.body(&self.body);
        teller.ui(&self.ui);
    }
}

impl Told for Join {
    fn tell(&self, teller: &mut Teller) {
        teller.number("join view", self.view);
        teller.optional("evidence", &self.evidence);
        self.stable.tell(teller);
        teller.ui(&self.ui);
    }
}

impl Told for Shown {
    fn tell(&self, teller: &mut Teller) {
        match self {
            Shown::Prepare(m) => m.tell(teller),
            Shown::Commit(m) => m.tell(teller),
            Shown::Checkpoint(m) => m.tell(teller),
            Shown::ViewChange(m) => m.tell(teller),
            Shown::NewView(m) => m.tell(teller),
            Shown::Enter(m) => m.tell(teller),
            Shown::Open(m) => m.tell(teller),
            Shown::Join(m) => m.tell(teller),
        }
    }
}

impl Told for Stamped {
    fn tell(&self, teller: &mut Teller) {
        match self {
            Stamped::Prepare(m) => m.tell(teller),
            Stamped::Commit(m) => m.tell(teller),
            Stamped::Checkpoint(m) => m.tell(teller),
            Stamped::ViewChange(m) => m.tell(teller),
            Stamped::NewView(m) => m.tell(teller),
            Stamped::Enter(m) => m.tell(teller),
            Stamped::Open(m) => m.tell(teller),
            Stamped::Join(m) => m.tell(teller),
        }
    }
}

impl Told for Message {
    fn tell(&self, teller: &mut Teller) {
        match self {
            Message::Request(m) => m.tell(teller),
            Message::Prepare(m) => m.tell(teller),
            Message::Commit(m) => m.tell(teller),
            Message::Reply(m) => m.tell(teller),
            Message::Checkpoint(m) => m.tell(teller),
            Message::ReqViewChange(m) => m.tell(teller),
            Message::ViewChange(m) => m.tell(teller),
            Message::NewView(m) => m.tell(teller),
            Message::Enter(m) => m.tell(teller),
            Message::Open(m) => m.tell(teller),
            Message::Join(m) => m.tell(teller),
            Message::Resend(m) => m.tell(teller),
            Message::Log(m) => m.tell(teller),
            Message::Fetch(m) => m.tell(teller),
            Message::State(m) => m.tell(teller),
            Message::Stop(m) => teller.bytes("stop tag", &m.tag),
        }
    }
}
