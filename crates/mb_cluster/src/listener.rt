//! The client's side: pieces of messages are put together, and the replies among the messages are counted.

ghost use Rattle.std.specs.Prelude.{◌≡◌, replicate, IfOk, IfSome};
ghost use Rattle.mb_base.specs.Shapes.{Bytes, host_count};
ghost use Rattle.mb_frag.specs.Held.{nothing_held, IsWhole};
ghost use Rattle.mb_msg.specs.Fits.{FitsReply};
ghost use Rattle.mb_msg.specs.Reading.{message_of};
ghost use Rattle.mb_cluster.specs.Hearing.{as_reply, reply_or_none};
ghost use Rattle.mb_cluster.specs.Joins.{Joins};

use crate::posting::encode_own;
use mb_base::{Key, NoMemory, Shape};
use mb_client::{Asker, Taken};
use mb_frag::{Pushed, Reassembler};
use mb_msg::{Message, Reply, Undecoded, decode};
use std::alloc::Global;

/// The client's side of a system.
#[derive(Drop)]
pub(crate) struct Listener {
    shape: Shape,
    pub(crate) asker: Asker,
    /// The pieces of each host.
    joiners: Vec<Reassembler>,
    /// The greatest number of counted replies that agree.
    pub(crate) most: u8,
    ghost one_shape: { asker.shape ≡ shape },
}

impl Listener {
    ghost use Rattle.std.specs.Prelude.{◌≡◌, ◌+◌, ◌-◌, ◌^◌, ◌≤◌, ◌<◌, ℕ, length, Some, IfOk, OnOk};
    ghost use Rattle.mb_base.specs.Shapes.{Bytes};
    ghost use Rattle.mb_base.specs.declared.shape.Shape.{Shape as ShapeRecord};
    ghost use Rattle.mb_base.specs.declared.limits.TheConstants.{MESSAGE_LIMIT};
    ghost use Rattle.mb_parts.specs.Fits.{FitsText};
    ghost use Rattle.mb_msg.specs.Fits.{FitsReply};
    ghost use Rattle.mb_cluster.specs.Hearing.{Hearing, no_hearing, asked, counts, hears, joined};
    ghost use Rattle.mb_cluster.specs.Posts.{request_bytes};
    ghost use Rattle.mb_cluster.specs.Listens.{Listens, HeardAs};

    /// The side of client 0, which asked nothing yet.
    pub(crate) fn make(alloc: Global, shape: Shape, secret: &Key) -> Result<Listener, NoMemory>
        ensures stands { IfOk result (λ l. Listens shape secret.now l (no_hearing shape)) }
        ensures none { IfOk result (λ l. l.asker.number ≡ 0) }
    {
        Ok(Listener {
            shape,
            asker: Asker::make(alloc, shape, secret, 0)?,
            joiners: no_joiners(alloc, shape)?,
            most: 0,
        })
    }

    /// Asks for an operation of at most 1,024 bytes, by the next request, of which these are the bytes. After `NoMemory` it may be waited for.
    pub(crate) fn ask(&mut self, alloc: Global, op: &[u8]) -> Result<Vec<u8>, NoMemory>
        requires op { FitsText op.now }
        requires few { self.old.asker.number < 2 ^ 64 - 1 }
        ensures stands { (s : ShapeRecord) (secret : Bytes) (c : Hearing) → Listens s secret self.old c → OnOk result (Listens s secret self.new (asked c)) }
        ensures request { (s : ShapeRecord) (secret : Bytes) (c : Hearing) → Listens s secret self.old c → IfOk result (λ v. v.items ≡ request_bytes secret (c.asker.number + 1) op.now) }
        ensures some { IfOk result (λ v. 1 ≤ length v.items) }
        ensures short { IfOk result (λ v. length v.items ≤ MESSAGE_LIMIT) }
        ensures number { OnOk result (self.new.asker.number ≡ self.old.asker.number + 1) }
    {
        let request = self.asker.ask(alloc, op)?;
        self.most = 0;
        let bytes = encode_own(alloc, &self.shape, Message::Request(request))?;
        Ok(bytes)
    }

    /// Takes a datagram. The answer is the reply that completes f+1, if one does. After `NoMemory` the datagram may be lost.
    pub(crate) fn hear(&mut self, alloc: Global, datagram: &[u8]) -> Result<Option<Reply>, NoMemory>
        ensures stands { (s : ShapeRecord) (secret : Bytes) (c : Hearing) → Listens s secret self.old c → OnOk result (Listens s secret self.new (hears s secret c (Some datagram.now))) }
        ensures heard { (s : ShapeRecord) (secret : Bytes) (c : Hearing) → Listens s secret self.old c → IfOk result (λ h. HeardAs h c.asker (hears s secret c (Some datagram.now)).asker) }
        ensures number { self.new.asker.number ≡ self.old.asker.number }
    {
        let Some(host) = join(&mut self.joiners, datagram) else {
            return Ok(None);
        };
        match reply_in(alloc, &self.shape, self.joiners[host].message())? {
            Some(reply) => Ok(self.count(reply)),
            None => Ok(None),
        }
    }

    /// Counts a reply of a host of the system, and gives it back where it completes f+1.
    fn count(&mut self, reply: Reply) -> Option<Reply>
        requires { FitsReply self.old.shape reply }
        ensures stands { (s : ShapeRecord) (secret : Bytes) (c : Hearing) → Listens s secret self.old c → Listens s secret self.new (record c { asker = counts s secret c.asker (Some reply) }) }
        ensures heard { (s : ShapeRecord) (secret : Bytes) (c : Hearing) → Listens s secret self.old c → HeardAs result c.asker (counts s secret c.asker (Some reply)) }
        ensures number { self.new.asker.number ≡ self.old.asker.number }
        ensures joiners { self.new.joiners.items ≡ self.old.joiners.items }
    {
        match self.asker.take(&reply) {
            Taken::Accepted { .. } => {
                self.most = 0;
                Some(reply)
            }
            Taken::Waiting { matching } => {
                self.most = matching;
                None
            }
            Taken::BadTag => None,
            Taken::OtherSeq { .. } => None,
        }
    }
}

/// Gives a datagram to the pieces of the host that its first byte names. The answer is that host where its message is whole now.
fn join(joiners: &mut Vec<Reassembler>, datagram: &[u8]) -> Option<usize>
    ensures { Joins datagram.now result joiners.old.items joiners.new.items }
{
    let host = usize::from(*datagram.first()?);
    if host >= joiners.len() {
        return None;
    }
    match joiners[host].push(datagram) {
        Pushed::Whole => Some(host),
        _ => None,
    }
}

/// The reply that these bytes are, if they are one.
fn reply_in(alloc: Global, shape: &Shape, bytes: &[u8]) -> Result<Option<Reply>, NoMemory>
    ensures reply { IfOk result (λ r. r ≡ reply_or_none (message_of shape.now bytes.now)) }
    ensures fits { IfOk result (λ r. IfSome r (FitsReply shape.now)) }
{
    match decode(alloc, shape, bytes) {
        Ok(message) => Ok(as_reply(message)),
        Err(Undecoded::Malformed { .. }) => Ok(None),
        Err(Undecoded::NoMemory) => Err(NoMemory),
    }
}

fn as_reply(message: Message) -> Option<Reply>
    ensures { result ≡ as_reply message }
{
    match message {
        Message::Reply(reply) => Some(reply),
        other => {
            drop(other);
            None
        }
    }
}

fn no_joiners(alloc: Global, shape: Shape) -> Result<Vec<Reassembler>, NoMemory>
    ensures { IfOk result (λ v. v.items ≡ replicate (host_count shape) nothing_held) }
{
    let mut joiners = Vec::with_capacity(alloc, usize::from(shape.n()))?;
    for _ in 0..shape.n() {
        joiners.push(Reassembler::make(alloc)?)?;
    }
    Ok(joiners)
}
