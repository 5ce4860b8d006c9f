//! What clients do: they ask, and take replies.

ghost use Rattle.std.specs.Prelude.{◌≡◌, ◌<◌, ◌+◌, ◌-◌, ◌^◌, ℕ, length, IfOk, OnOk};
ghost use Rattle.mb_base.specs.Shapes.{client_count, host_count};
ghost use Rattle.mb_base.specs.declared.shape.Shape.{Shape as ShapeRecord};
ghost use Rattle.mb_parts.specs.Fits.{FitsText, FitsRequest};
ghost use Rattle.mb_model.specs.Clients.{Asker as Asking, no_asker, asks, taken, takes};
ghost use Rattle.mb_schedule.specs.declared.schedule.Schedule.{Schedule};
ghost use Rattle.mb_client.specs.Represents.{as_taken};
ghost use Rattle.mb_world_model.specs.World.{request_of, update};
ghost use Rattle.mb_forgery.specs.Checks.{ArePens};
ghost use Rattle.mb_msg.specs.Fits.{FitsReply};
ghost use Rattle.mb_msg.specs.Reading.{message_of};
ghost use Rattle.mb_members.specs.Replies.{reply_of, reply_or};
ghost use Rattle.mb_members.specs.Askers.{AskedWithin, AreOfShape, RepresentsAskers};

use mb_base::{Client, Key, NoMemory, Shape};
use mb_client::{Asker, Taken};
use mb_msg::{Message, Outcome, Reply, Request, Undecoded, decode};
use mb_usig::Pen;
use std::alloc::Global;

/// What each client signs with, in the order of their numbers. An error comes where memory runs out, and only there.
pub fn pens(alloc: Global, shape: Shape, secret: &Key) -> Result<Vec<Pen>, NoMemory>
    ensures pens { (s : Schedule) → s.shape ≡ shape → s.secret ≡ secret.now → IfOk result (λ v. ArePens s v.items) }
    ensures len { IfOk result (λ v. length v.items ≡ client_count shape) }
{
    let mut all = Vec::new(alloc);
    for client in 0..shape.clients() {
        all.push(Pen::new(secret, client))?;
    }
    Ok(all)
}

/// All clients, in the order of their numbers, which asked nothing yet. An error comes where memory runs out, and only there.
pub fn askers(alloc: Global, shape: Shape, secret: &Key) -> Result<Vec<Asker>, NoMemory>
    ensures stands { (s : Schedule) → s.shape ≡ shape → s.secret ≡ secret.now → IfOk result (λ v. RepresentsAskers s v.items (λ c. no_asker)) }
    ensures within { IfOk result (λ v. AskedWithin 0 v.items) }
    ensures shapes { IfOk result (λ v. AreOfShape shape v.items) }
    ensures len { IfOk result (λ v. length v.items ≡ client_count shape) }
{
    let mut all = Vec::with_capacity(alloc, usize::from(shape.clients()))?;
    for client in 0..shape.clients() {
        all.push(Asker::make(alloc, shape, secret, client)?)?;
    }
    Ok(all)
}

/// A client's next request: its number is one more than that of its last, from 1, and `op` is an operation of the service, as bytes. An error comes
/// where memory runs out, and only there.
pub fn ask_of(
    alloc: Global,
    askers: &mut Vec<Asker>,
    client: Client,
    op: &[u8],
) -> Result<Request, NoMemory>
    requires client { client < length askers.old.items }
    requires op { FitsText op.now }
    requires few { AskedWithin (2 ^ 64 - 2) askers.old.items }
    ensures request { (s : Schedule) (sides : ℕ → Asking) → RepresentsAskers s askers.old.items sides → IfOk result (λ r. r ≡ request_of s client ((sides client).number + 1) op.now) }
    ensures stands { (s : Schedule) (sides : ℕ → Asking) → RepresentsAskers s askers.old.items sides → OnOk result (RepresentsAskers s askers.new.items (update sides client (asks (sides client)))) }
    ensures fits { (shape : ShapeRecord) → AreOfShape shape askers.old.items → IfOk result (FitsRequest shape) }
    ensures within { (n : ℕ) → AskedWithin n askers.old.items → AskedWithin (n + 1) askers.new.items }
    ensures shapes { (shape : ShapeRecord) → AreOfShape shape askers.old.items → AreOfShape shape askers.new.items }
    ensures len { length askers.new.items ≡ length askers.old.items }
{
    askers[usize::from(client)].ask(alloc, op)
}

/// A client takes a reply, and tells whether it counts, or why not. It takes no memory.
pub fn take_of(askers: &mut Vec<Asker>, client: Client, reply: &Reply) -> Taken
    requires client { client < length askers.old.items }
    requires host { (shape : ShapeRecord) × AreOfShape shape askers.old.items × (reply.now.host < host_count shape) }
    requires text { FitsText reply.now.result }
    ensures answer { (s : Schedule) (sides : ℕ → Asking) → RepresentsAskers s askers.old.items sides → as_taken result ≡ taken s.shape s.secret client (sides client) reply.now }
    ensures stands { (s : Schedule) (sides : ℕ → Asking) → RepresentsAskers s askers.old.items sides
        → RepresentsAskers s askers.new.items (update sides client (takes s.shape s.secret client (sides client) reply.now)) }
    ensures within { (n : ℕ) → AskedWithin n askers.old.items → AskedWithin n askers.new.items }
    ensures shapes { (shape : ShapeRecord) → AreOfShape shape askers.old.items → AreOfShape shape askers.new.items }
    ensures len { length askers.new.items ≡ length askers.old.items }
{
    askers[usize::from(client)].take(reply)
}

/// The REPLY of these bytes, or what is told of bytes that are none: `Malformed` with the offset of the first fault, in bytes, where they are no
/// message, and `Idle` where they are another one. An error around that comes where memory runs out, and only there.
pub fn reply_in(
    alloc: Global,
    shape: &Shape,
    bytes: &[u8],
) -> Result<Result<Reply, Outcome>, NoMemory>
    ensures reply { IfOk result (λ r. r ≡ reply_or (message_of shape.now bytes.now)) }
    ensures fits { IfOk result (λ r. IfOk r (FitsReply shape.now)) }
{
    match decode(alloc, shape, bytes) {
        Ok(message) => Ok(as_reply(message)),
        Err(Undecoded::Malformed { at }) => Ok(Err(Outcome::Malformed { at })),
        Err(Undecoded::NoMemory) => Err(NoMemory),
    }
}

fn as_reply(message: Message) -> Result<Reply, Outcome>
    ensures { result ≡ reply_of message }
{
    match message {
        Message::Reply(reply) => Ok(reply),
        other => {
            drop(other);
            Err(Outcome::Idle)
        }
    }
}
