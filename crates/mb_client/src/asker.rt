//! A client: what it asked, and what it accepted.

ghost use Rattle.std.specs.Prelude.{◌≡◌, ◌<◌, ◌≤◌, length, true};
ghost use Rattle.mb_base.specs.Shapes.{client_count, host_count};

use crate::kept_reply::KeptReply;
use crate::replies::Replies;
use crate::reply_tag::has_host_tag;
use crate::taken::Taken;
use mb_base::{Client, Items, Key, NoMemory, Pos, Seq, Shape};
use mb_msg::{Reply, Request, signed_request};
use mb_usig::Pen;
use std::alloc::Global;

/// A client. It waits for the result of its last request, and accepts it where f+1 hosts tell it.
#[derive(Drop)]
pub struct Asker {
    shape: Shape,
    client: Client,
    /// What its requests are signed with, and the hosts' replies to it are checked with.
    pen: Pen,
    /// The number of its last request, 0 before the first.
    number: Seq,
    /// Whether the result of that request is waited for.
    waits: bool,
    replies: Replies,
    /// How many results it accepted.
    accepted: u64,
    /// The reply that completed the last of them.
    last: Option<KeptReply>,
    ghost client_in: { client < client_count shape },
    ghost pen_is: { pen.client ≡ client },
    ghost replies_len: { length replies.by_host.items ≡ host_count shape },
    ghost accepted_in: { accepted ≤ number },
    ghost one_open: { waits ≡ true → accepted < number },
}

impl Asker {
    ghost use Rattle.std.specs.Prelude.{◌≡◌, ◌<◌, ◌≤◌, ◌+◌, ◌-◌, ◌^◌, ℕ, length, true, false, IfOk, OnOk, OnErr};
    ghost use Rattle.std.specs.Option.{option_map};
    ghost use Rattle.mb_base.specs.Shapes.{Bytes, client_count, host_count};
    ghost use Rattle.mb_parts.specs.Fits.{FitsText, FitsRequest};
    ghost use Rattle.mb_model.specs.Clients.{Asker as Asking, no_asker, asks, is_right, is_awaited, completes, taken, takes, left_by, Accepted};
    ghost use Rattle.mb_client.specs.Represents.{Represents, newest, as_taken, request_of, result_of};

    /// A client that asked nothing yet, with room for a result of each host and for the last accepted one.
    pub fn make(
        alloc: Global,
        shape: Shape,
        secret: &Key,
        client: Client,
    ) -> Result<Asker, NoMemory>
        requires { client < client_count shape }
        ensures { IfOk result (λ a. Represents shape secret.now client a no_asker) }
    {
        Ok(Asker {
            shape,
            client,
            pen: Pen::new(secret, client),
            number: 0,
            waits: false,
            replies: Replies::make(alloc, shape.n())?,
            accepted: 0,
            last: None,
        })
    }

    /// How many requests it asked, which is the number of the last one.
    pub fn asked(&self) -> u64
        ensures value { result ≡ self.now.number }
        ensures asked { (s : Shape) (secret : Bytes) (client : ℕ) (a : Asking) → Represents s secret client self.now a → result ≡ a.number }
    {
        self.number
    }

    /// How many results it accepted.
    pub fn accepted(&self) -> u64
        ensures { (s : Shape) (secret : Bytes) (client : ℕ) (a : Asking) → Represents s secret client self.now a → result ≡ length a.accepted }
    {
        self.accepted
    }

    /// The last result that it accepted: the number of the request, its position, and the result.
    pub fn result(&self) -> Option<(Seq, Pos, &[u8])>
        ensures { (s : Shape) (secret : Bytes) (client : ℕ) (a : Asking) → Represents s secret client self.now a
            → option_map (λ r. (r.0, r.1, r.2.now)) result ≡ option_map result_of (newest a.accepted) }
    {
        match &self.last {
            Some(reply) => Some((reply.seq(), reply.pos(), reply.result())),
            None => None,
        }
    }

    /// Asks for an operation of at most 1,024 bytes, by a request with the next number, and waits for its result. The request before it is no
    /// longer waited for. After `NoMemory` nothing changed.
    pub fn ask(&mut self, alloc: Global, op: &[u8]) -> Result<Request, NoMemory>
        requires op { FitsText op.now }
        requires few { self.old.number < 2 ^ 64 - 1 }
        ensures request { (s : Shape) (secret : Bytes) (client : ℕ) (a : Asking) → Represents s secret client self.old a
            → IfOk result (λ r. r ≡ request_of secret client (a.number + 1) op.now) }
        ensures fits { IfOk result (FitsRequest self.old.shape) }
        ensures stands { (s : Shape) (secret : Bytes) (client : ℕ) (a : Asking) → Represents s secret client self.old a
            → OnOk result (Represents s secret client self.new (asks a)) }
        ensures unchanged { OnErr result (self.new ≡ self.old) }
        ensures number { OnOk result (self.new.number ≡ self.old.number + 1) }
        ensures shape { self.new.shape ≡ self.old.shape }
    {
        let request = self.request(alloc, self.number + 1, op)?;
        self.number = request.seq;
        self.waits = true;
        self.replies.clear();
        Ok(request)
    }

    /// The request of a number, with its tag.
    fn request(&self, alloc: Global, seq: Seq, op: &[u8]) -> Result<Request, NoMemory>
        requires { FitsText op.now }
        ensures { IfOk result (λ r. r ≡ request_of self.now.pen.secret self.now.client seq op.now) }
    {
        let signed = signed_request(alloc, self.client, seq, op)?;
        Ok(Request {
            client: self.client,
            seq,
            op: Items::from_vec(Vec::from_slice(alloc, op)?),
            tag: self.pen.tag_request(signed.as_slice()),
        })
    }

    /// Takes a reply of a host of the system. Its result has at most 1,024 bytes. It takes no memory.
    #[tactic(auto, unfolding(mb_model::specs::Clients::taken, mb_model::specs::Clients::takes))]
    pub fn take(&mut self, reply: &Reply) -> Taken
        requires host { reply.now.host < host_count self.old.shape }
        requires text { FitsText reply.now.result }
        ensures answer { (s : Shape) (secret : Bytes) (client : ℕ) (a : Asking) → Represents s secret client self.old a → as_taken result ≡ taken s secret client a reply.now }
        ensures stands { (s : Shape) (secret : Bytes) (client : ℕ) (a : Asking) → Represents s secret client self.old a → Represents s secret client self.new (takes s secret client a reply.now) }
        ensures number { self.new.number ≡ self.old.number }
        ensures shape { self.new.shape ≡ self.old.shape }
    {
        if !self.is_right(reply) {
            return Taken::BadTag;
        }
        if !self.is_awaited(reply) {
            return Taken::OtherSeq { seq: reply.seq };
        }
        let kept = KeptReply::of(reply);
        if self.completes(&kept) {
            return self.accept(kept);
        }
        self.replies.count(kept);
        Taken::Waiting {
            matching: self.replies.most_agreeing(),
        }
    }

    /// Whether a reply is to this client, with the tag of its host.
    fn is_right(&self, reply: &Reply) -> bool
        requires { FitsText reply.now.result }
        ensures { (s : Shape) (secret : Bytes) (client : ℕ) (a : Asking) → Represents s secret client self.now a → result ≡ is_right s secret client reply.now }
    {
        reply.client == self.client && has_host_tag(&self.pen, reply)
    }

    /// Whether a reply is to the request whose result is waited for.
    fn is_awaited(&self, reply: &Reply) -> bool
        ensures waits { result ≡ true → self.now.waits ≡ true }
        ensures awaited { (s : Shape) (secret : Bytes) (client : ℕ) (a : Asking) → Represents s secret client self.now a → result ≡ is_awaited s secret client a reply.now }
    {
        self.waits && reply.seq == self.number
    }

    /// Whether f+1 hosts agree once this reply is counted, this one among them.
    fn completes(&self, reply: &KeptReply) -> bool
        requires { reply.now.host < host_count self.now.shape }
        ensures { (s : Shape) (secret : Bytes) (client : ℕ) (a : Asking) → Represents s secret client self.now a → result ≡ completes s secret client a reply.now }
    {
        let counted = self.replies.agreeing(reply);
        let matching = if self.replies.has(reply.host()) {
            counted
        } else {
            counted + 1
        };
        matching >= self.shape.quorum()
    }

    /// Accepts the result of the reply that completes f+1, and waits no longer.
    fn accept(&mut self, reply: KeptReply) -> Taken
        requires { self.old.waits ≡ true }
        ensures answer { as_taken result ≡ Accepted reply.pos }
        ensures stands { (s : Shape) (secret : Bytes) (client : ℕ) (a : Asking) → Represents s secret client self.old a
            → Represents s secret client self.new (left_by s secret client (Accepted reply.pos) a reply) }
        ensures number { self.new.number ≡ self.old.number }
        ensures shape { self.new.shape ≡ self.old.shape }
    {
        let pos = reply.pos();
        self.waits = false;
        self.replies.clear();
        self.accepted += 1;
        self.last = Some(reply);
        Taken::Accepted { pos }
    }
}
