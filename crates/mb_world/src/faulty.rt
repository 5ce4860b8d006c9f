//! What faulty hosts and clients make: tags for any reply, wish or request of their own, and stamps for any content.

ghost use Rattle.std.specs.Prelude.{◌≡◌};

use crate::asking::add_message;
use crate::seen::Seen;
use crate::world::World;
use mb_base::{Client, Duplicate, Host, Items, NoMemory, Pos, Seq, View};
use mb_members::{Member, Stamp, stamp_bytes, stamp_content};
use mb_msg::{
    Message, Reply, ReqViewChange, Request, Stamped, encode, signed_reply, signed_request,
};
use mb_service::Service;
use mb_usig::Usig;
use std::alloc::Global;

impl<V: Service + Drop> World<V> {
    ghost use Rattle.std.specs.Prelude.{◌≡◌, ◌<◌, ◌+◌, ◌-◌, ◌^◌, true, Some, option_map, IfOk, IfSome, OnOk};
    ghost use Rattle.mb_base.specs.Shapes.{client_count, host_count};
    ghost use Rattle.mb_parts.specs.Fits.{IsCounter, IsPlace, IsPosition, FitsText};
    ghost use Rattle.mb_msg.specs.declared.stamped.Stamped.{Stamped as StampedData};
    ghost use Rattle.mb_msg.specs.declared.message.Message.TheVariants as kind;
    ghost use Rattle.mb_msg.specs.Fits.{Fits, FitsStamped};
    ghost use Rattle.mb_msg.specs.Spelling.{spelling};
    ghost use Rattle.mb_schedule.specs.Limits.{is_faulty};
    ghost use Rattle.mb_world_model.specs.World.{World as WorldState, System, made, request_of};
    ghost use Rattle.mb_world_model.specs.FaultyHosts.{reply_of_host, wish_of_host, stamp_content, stamp_bytes};
    ghost use Rattle.mb_forgery.specs.Contents.{unstamped};
    ghost use Rattle.mb_members.specs.Members.{AllRun};
    ghost use Rattle.mb_world.specs.Answers.{as_answer};
    ghost use Rattle.mb_world.specs.Tables.{RepresentsWorld, Leaves};
    ghost use Rattle.mb_world.specs.Happening.{FromEach, FromEachWith, Happens};

    // ---- tags

    /// A faulty client makes a request of this number. It does not count as asked.
    pub(crate) fn sign(
        &mut self,
        alloc: Global,
        client: Client,
        seq: Seq,
        op: &Items<u8>,
    ) -> Result<Seen, NoMemory>
        requires client { client < client_count self.old.shape }
        requires seq { IsCounter seq }
        requires op { FitsText op.now }
        requires few { self.old.events < 2 ^ 64 - 1 }
        ensures stands { FromEach self.old (λ y x. Happens y x (made y.schedule (spelling (kind.Request (request_of y.schedule client seq op.now))) x) result self.new) }
        ensures kept { AllRun self.old.members.items → AllRun self.new.members.items }
        ensures halted { self.new.halted ≡ self.old.halted }
        ensures shape { self.new.shape ≡ self.old.shape }
        ensures counts { OnOk result (self.new.events ≡ self.old.events + 1) }
    {
        let message = self.request_with(alloc, client, seq, op)?;
        self.add(alloc, &message)
    }

    /// A faulty host makes a reply with its right tag.
    pub(crate) fn tag_reply(
        &mut self,
        alloc: Global,
        host: Host,
        client: Client,
        seq: Seq,
        pos: Pos,
        answer: &Items<u8>,
    ) -> Result<Seen, NoMemory>
        requires host { host < host_count self.old.shape }
        requires client { client < client_count self.old.shape }
        requires seq { IsCounter seq }
        requires pos { IsPlace pos }
        requires answer { FitsText answer.now }
        requires few { self.old.events < 2 ^ 64 - 1 }
        ensures stands { FromEach self.old (λ y x. is_faulty y.schedule host ≡ true → Happens y x (made y.schedule (spelling (reply_of_host y.schedule host client seq pos answer.now)) x) result self.new) }
        ensures kept { AllRun self.old.members.items → AllRun self.new.members.items }
        ensures halted { self.new.halted ≡ self.old.halted }
        ensures shape { self.new.shape ≡ self.old.shape }
        ensures counts { OnOk result (self.new.events ≡ self.old.events + 1) }
    {
        let message = self.reply_with(alloc, host, client, seq, pos, answer)?;
        self.add(alloc, &message)
    }

    /// A faulty host makes a wish with its right tag.
    pub(crate) fn tag_wish(
        &mut self,
        alloc: Global,
        host: Host,
        view: View,
    ) -> Result<Seen, NoMemory>
        requires host { host < host_count self.old.shape }
        requires view { IsPosition view }
        requires few { self.old.events < 2 ^ 64 - 1 }
        ensures stands { FromEach self.old (λ y x. is_faulty y.schedule host ≡ true → Happens y x (made y.schedule (spelling (wish_of_host y.schedule host view)) x) result self.new) }
        ensures kept { AllRun self.old.members.items → AllRun self.new.members.items }
        ensures halted { self.new.halted ≡ self.old.halted }
        ensures shape { self.new.shape ≡ self.old.shape }
        ensures counts { OnOk result (self.new.events ≡ self.old.events + 1) }
    {
        let message = Message::ReqViewChange(ReqViewChange {
            host,
            view,
            tag: self.trusted(host).tag_wish(view),
        });
        self.add(alloc, &message)
    }

    /// One more message is made.
    fn add(&mut self, alloc: Global, message: &Message) -> Result<Seen, NoMemory>
        requires fits { Fits self.old.shape message.now }
        requires few { self.old.events < 2 ^ 64 - 1 }
        ensures stands { (y : System V) (x : WorldState) → RepresentsWorld y self.old x → IfOk result (λ a. Leaves y self.new (as_answer a) x (made y.schedule (spelling message.now) x)) }
        ensures kept { AllRun self.old.members.items → AllRun self.new.members.items }
        ensures halted { self.new.halted ≡ self.old.halted }
        ensures shape { self.new.shape ≡ self.old.shape }
        ensures counts { OnOk result (self.new.events ≡ self.old.events + 1) }
    {
        self.events += 1;
        let bytes = encode(alloc, &self.shape, message)?;
        add_message(&mut self.pool, bytes)
    }

    fn request_with(
        &self,
        alloc: Global,
        client: Client,
        seq: Seq,
        op: &Items<u8>,
    ) -> Result<Message, NoMemory>
        requires client { client < client_count self.now.shape }
        requires seq { IsCounter seq }
        requires op { FitsText op.now }
        ensures message { (y : System V) (x : WorldState) → RepresentsWorld y self.now x → IfOk result (λ m. m ≡ kind.Request (request_of y.schedule client seq op.now)) }
        ensures fits { IfOk result (Fits self.now.shape) }
    {
        let signed = signed_request(alloc, client, seq, op.as_slice())?;
        Ok(Message::Request(Request {
            client,
            seq,
            op: op.duplicate(alloc)?,
            tag: self.pens[usize::from(client)].tag_request(signed.as_slice()),
        }))
    }

    fn reply_with(
        &self,
        alloc: Global,
        host: Host,
        client: Client,
        seq: Seq,
        pos: Pos,
        answer: &Items<u8>,
    ) -> Result<Message, NoMemory>
        requires host { host < host_count self.now.shape }
        requires client { client < client_count self.now.shape }
        requires seq { IsCounter seq }
        requires pos { IsPlace pos }
        requires answer { FitsText answer.now }
        ensures message { (y : System V) (x : WorldState) → RepresentsWorld y self.now x → is_faulty y.schedule host ≡ true → IfOk result (λ m. m ≡ reply_of_host y.schedule host client seq pos answer.now) }
        ensures fits { IfOk result (Fits self.now.shape) }
    {
        let signed = signed_reply(alloc, client, seq, pos, answer.as_slice())?;
        Ok(Message::Reply(Reply {
            host,
            client,
            seq,
            pos,
            result: answer.duplicate(alloc)?,
            tag: self.trusted(host).tag_reply(client, signed.as_slice()),
        }))
    }

    /// The trusted part of a faulty host.
    fn trusted(&self, host: Host) -> &Usig
        requires { host < host_count self.now.shape }
        ensures faulty { (y : System V) (x : WorldState) → RepresentsWorld y self.now x → is_faulty y.schedule host ≡ true
            → (result.now.host ≡ host) × (result.now.secret ≡ y.schedule.secret) }
        ensures shape { result.now.shape ≡ self.now.shape }
    {
        match &self.members[usize::from(host)] {
            Member::Correct(_) => &self.usig,
            Member::Faulty(faulty) => &faulty.usig,
        }
    }

    // ---- stamps

    /// A faulty host stamps a content.
    pub(crate) fn stamp_some(
        &mut self,
        alloc: Global,
        host: Host,
        content: Option<Stamped>,
    ) -> Result<Seen, NoMemory>
        requires host { host < host_count self.old.shape }
        requires content { IfSome content (FitsStamped self.old.shape) }
        requires few { self.old.events < 2 ^ 64 - 1 }
        requires halted { self.old.halted ≡ true }
        ensures stands { FromEachWith StampedData self.old (λ y x m. is_faulty y.schedule host ≡ true → option_map unstamped content ≡ Some (unstamped m) → Happens y x (stamp_content y.schedule host m x) result self.new) }
        ensures kept { AllRun self.old.members.items → AllRun self.new.members.items }
        ensures halted { self.new.halted ≡ self.old.halted }
        ensures shape { self.new.shape ≡ self.old.shape }
        ensures counts { OnOk result (self.new.events ≡ self.old.events + 1) }
    {
        match content {
            Some(content) => self.stamp(alloc, host, content),
            None => self.note(alloc, Seen::Lost),
        }
    }

    /// A content is stamped as a faulty host's next message.
    fn stamp(&mut self, alloc: Global, host: Host, content: Stamped) -> Result<Seen, NoMemory>
        requires host { host < host_count self.old.shape }
        requires content { FitsStamped self.old.shape content }
        requires few { self.old.events < 2 ^ 64 - 1 }
        ensures stands { FromEachWith StampedData self.old (λ y x m. is_faulty y.schedule host ≡ true → unstamped content ≡ unstamped m → Happens y x (stamp_content y.schedule host m x) result self.new) }
        ensures kept { AllRun self.old.members.items → AllRun self.new.members.items }
        ensures halted { self.new.halted ≡ self.old.halted }
        ensures shape { self.new.shape ≡ self.old.shape }
        ensures counts { OnOk result (self.new.events ≡ self.old.events + 1) }
    {
        self.events += 1;
        match stamp_content(alloc, &self.shape, &mut self.members, host, content)? {
            Some(Stamp { bare, message }) => {
                self.ledger.note_stamp(host, bare)?;
                add_message(&mut self.pool, message)
            }
            None => Ok(Seen::Lost),
        }
    }

    /// Any bytes can be stamped. The message is these bytes and the identifier.
    pub(crate) fn stamp_raw(
        &mut self,
        alloc: Global,
        host: Host,
        bare: &[u8],
    ) -> Result<Seen, NoMemory>
        requires host { host < host_count self.old.shape }
        requires few { self.old.events < 2 ^ 64 - 1 }
        ensures stands { (y : System V) (x : WorldState) → RepresentsWorld y self.old x → is_faulty y.schedule host ≡ true
            → IfOk result (λ a. Leaves y self.new (as_answer a) x (stamp_bytes y.schedule host bare.now x)) }
        ensures kept { AllRun self.old.members.items → AllRun self.new.members.items }
        ensures halted { self.new.halted ≡ self.old.halted }
        ensures shape { self.new.shape ≡ self.old.shape }
        ensures counts { OnOk result (self.new.events ≡ self.old.events + 1) }
    {
        self.events += 1;
        match stamp_bytes(alloc, &self.shape, &mut self.members, host, bare)? {
            Some(Stamp { bare, message }) => {
                self.ledger.note_stamp(host, bare)?;
                add_message(&mut self.pool, message)
            }
            None => Ok(Seen::Lost),
        }
    }
}
