//! Whole messages: their bytes, reading and writing.

ghost use Rattle.std.specs.Prelude.{◌≡◌, ◌↔◌, ◌++◌, ◌≤◌, length, IfOk, IsTrue, OnOk, Ok};
ghost use Rattle.mb_base.specs.Fields.{place_of};
ghost use Rattle.mb_parts.specs.Decoded.{Decodes, DecodesWhole};
ghost use Rattle.mb_msg.specs.declared.message.Message.{Message};
ghost use Rattle.mb_msg.specs.Fits.{FitsStamped, FitsFields, Fits};
ghost use Rattle.mb_msg.specs.Spelling.{spelling};
ghost use Rattle.mb_msg.specs.AsStamped.{GivesStamped};
ghost use Rattle.mb_msg.specs.Stamps.{as_message};
ghost use Rattle.mb_msg.specs.Reading.{behind_kind_at, message_of};

use crate::change::ReqViewChange;
use crate::kinds::{FETCH, LOG, REPLY, REQ_VIEW_CHANGE, REQUEST, RESEND, STATE, STOP};
use crate::message::Message;
use crate::normal::{Reply, Stop};
use crate::stamped::Stamped;
use crate::stamped_bytes::read_stamped;
use crate::transfer::{Fetch, Log, Resend, StateMsg};
use mb_base::{Fields, MESSAGE_LIMIT, NoMemory, Shape, put_u8};
use mb_parts::{Part, Readable, Request, Undecoded, count_u8, read_digest};
use std::alloc::Global;

impl Part for Message {
    ghost text = { spelling };

    ghost valid = { FitsFields };

    fn fits(&self, shape: &Shape) -> bool {
        match self {
            Message::Request(request) => request.fits(shape),
            Message::Prepare(prepare) => prepare.fits(shape),
            Message::Commit(commit) => commit.fits(shape),
            Message::Reply(reply) => reply.fits(shape),
            Message::Checkpoint(checkpoint) => checkpoint.fits(shape),
            Message::ReqViewChange(wish) => wish.fits(shape),
            Message::ViewChange(change) => change.fits(shape),
            Message::NewView(new_view) => new_view.fits(shape),
            Message::Enter(enter) => enter.fits(shape),
            Message::Open(open) => open.fits(shape),
            Message::Join(join) => join.fits(shape),
            Message::Resend(resend) => resend.fits(shape),
            Message::Log(log) => log.fits(shape),
            Message::Fetch(fetch) => fetch.fits(shape),
            Message::State(state) => state.fits(shape),
            Message::Stop(stop) => stop.tag.fits(shape),
        }
    }

    #[tactic(auto, using(mb_parts::proofs::CountedBytes::counted_behind), unfolding(crate::specs::Spelling::spelling))]
    fn count(&self, shape: &Shape, so_far: usize) -> usize {
        let so_far = count_u8(so_far, self.kind());
        match self {
            Message::Request(request) => request.count(shape, so_far),
            Message::Prepare(prepare) => prepare.count(shape, so_far),
            Message::Commit(commit) => commit.count(shape, so_far),
            Message::Reply(reply) => reply.count(shape, so_far),
            Message::Checkpoint(checkpoint) => checkpoint.count(shape, so_far),
            Message::ReqViewChange(wish) => wish.count(shape, so_far),
            Message::ViewChange(change) => change.count(shape, so_far),
            Message::NewView(new_view) => new_view.count(shape, so_far),
            Message::Enter(enter) => enter.count(shape, so_far),
            Message::Open(open) => open.count(shape, so_far),
            Message::Join(join) => join.count(shape, so_far),
            Message::Resend(resend) => resend.count(shape, so_far),
            Message::Log(log) => log.count(shape, so_far),
            Message::Fetch(fetch) => fetch.count(shape, so_far),
            Message::State(state) => state.count(shape, so_far),
            Message::Stop(stop) => stop.tag.count(shape, so_far),
        }
    }

    #[tactic(auto, unfolding(crate::specs::Spelling::spelling))]
    fn put(&self, shape: &Shape, out: &mut Vec<u8>) -> Result<(), NoMemory> {
        put_u8(out, self.kind())?;
        match self {
            Message::Request(request) => request.put(shape, out),
            Message::Prepare(prepare) => prepare.put(shape, out),
            Message::Commit(commit) => commit.put(shape, out),
            Message::Reply(reply) => reply.put(shape, out),
            Message::Checkpoint(checkpoint) => checkpoint.put(shape, out),
            Message::ReqViewChange(wish) => wish.put(shape, out),
            Message::ViewChange(change) => change.put(shape, out),
            Message::NewView(new_view) => new_view.put(shape, out),
            Message::Enter(enter) => enter.put(shape, out),
            Message::Open(open) => open.put(shape, out),
            Message::Join(join) => join.put(shape, out),
            Message::Resend(resend) => resend.put(shape, out),
            Message::Log(log) => log.put(shape, out),
            Message::Fetch(fetch) => fetch.put(shape, out),
            Message::State(state) => state.put(shape, out),
            Message::Stop(stop) => stop.tag.put(shape, out),
        }
    }
}

impl Stamped {
    /// The same as a message.
    pub fn into_message(self) -> Message
        ensures { result ≡ as_message self }
    {
        match self {
            Stamped::Prepare(prepare) => Message::Prepare(prepare),
            Stamped::Commit(commit) => Message::Commit(commit),
            Stamped::Checkpoint(checkpoint) => Message::Checkpoint(checkpoint),
            Stamped::ViewChange(change) => Message::ViewChange(change),
            Stamped::NewView(new_view) => Message::NewView(new_view),
            Stamped::Enter(enter) => Message::Enter(enter),
            Stamped::Open(open) => Message::Open(open),
            Stamped::Join(join) => Message::Join(join),
        }
    }
}

/// A message behind its kind.
#[tactic(auto, unfolding(crate::specs::Reading::behind_kind_at))]
fn read_kind(
    alloc: Global,
    shape: &Shape,
    kind: u8,
    fields: &mut Fields<'_>,
) -> Result<Message, Undecoded>
    ensures { Decodes result fields.new (behind_kind_at shape.now kind (place_of fields.old)) }
{
    match kind {
        REQUEST => Ok(Message::Request(Request::read(alloc, shape, fields)?)),
        REPLY => Ok(Message::Reply(Reply::read(alloc, shape, fields)?)),
        REQ_VIEW_CHANGE => {
            Ok(Message::ReqViewChange(ReqViewChange::read(alloc, shape, fields)?))
        }
        RESEND => Ok(Message::Resend(Resend::read(alloc, shape, fields)?)),
        LOG => Ok(Message::Log(Log::read(alloc, shape, fields)?)),
        FETCH => Ok(Message::Fetch(Fetch::read(alloc, shape, fields)?)),
        STATE => Ok(Message::State(StateMsg::read(alloc, shape, fields)?)),
        STOP => Ok(Message::Stop(Stop {
            tag: read_digest(fields)?,
        })),
        _ => Ok(read_stamped(alloc, shape, kind, fields)?.into_message()),
    }
}

#[tactic(auto, unfolding(crate::specs::Reading::message_of))]
fn read_whole(alloc: Global, shape: &Shape, bytes: &[u8]) -> Result<Message, Undecoded>
    ensures { DecodesWhole result (message_of shape.now bytes.now) }
{
    if bytes.len() > MESSAGE_LIMIT {
        return Err(Undecoded::Malformed { at: MESSAGE_LIMIT });
    }
    let mut fields = Fields::over(bytes);
    let kind = fields.u8_in(REQUEST, STOP)?;
    let message = read_kind(alloc, shape, kind, &mut fields)?;
    if !fields.is_at_end() {
        drop(message);
        return Err(Undecoded::Malformed { at: fields.place() });
    }
    Ok(message)
}

/// The message that the bytes spell, all of the bytes.
///
/// `Malformed` comes exactly where the bytes are no message, at the first field that is short or has a value that isn't allowed,
/// at the first byte behind the message, or at [`MESSAGE_LIMIT`] where there are more bytes.
pub fn decode(alloc: Global, shape: &Shape, bytes: &[u8]) -> Result<Message, Undecoded>
    // What is read has allowed values and is spelled so.
    ensures found { IfOk result (λ m. Fits shape.now m × (bytes.now ≡ spelling m)) }
    // What has allowed values and is spelled so is read, unless memory runs out.
    ensures only { (m : Message) → Fits shape.now m → bytes.now ≡ spelling m → DecodesWhole result (Ok m) }
    // The offset of the first fault.
    ensures exact { DecodesWhole result (message_of shape.now bytes.now) }
{
    read_whole(alloc, shape, bytes)
}

fn message_bytes(alloc: Global, shape: &Shape, message: &Message) -> Result<Vec<u8>, NoMemory>
    requires { FitsFields shape.now message.now }
    ensures { IfOk result (λ v. v.items ≡ spelling message.now) }
{
    let mut out = Vec::with_capacity(alloc, message.count(shape, 0))?;
    message.put(shape, &mut out)?;
    Ok(out)
}

/// The bytes of a message that [`fits`]: each field has an allowed value, and there are at most [`MESSAGE_LIMIT`] bytes.
pub fn encode(alloc: Global, shape: &Shape, message: &Message) -> Result<Vec<u8>, NoMemory>
    requires { Fits shape.now message.now }
    ensures text { IfOk result (λ v. v.items ≡ spelling message.now) }
    // They are read as that message again.
    ensures back { message_of shape.now (spelling message.now) ≡ Ok message.now }
{
    message_bytes(alloc, shape, message)
}

/// The bytes of a stamped message, which are those of the message that it is. Each field has an allowed value.
#[tactic(auto, using(crate::proofs::AsStamped::spelled_as_stamped))]
pub fn encode_stamped(alloc: Global, shape: &Shape, message: &Stamped) -> Result<Vec<u8>, NoMemory>
    requires { FitsStamped shape.now message.now }
    ensures { IfOk result (λ v. v.items ≡ spelling (as_message message.now)) }
{
    let mut out = Vec::with_capacity(alloc, message.count(shape, 0))?;
    message.put(shape, &mut out)?;
    Ok(out)
}

impl Message {
    /// The same as a stamped message, or the message itself where it is of a kind that is not stamped.
    pub fn into_stamped(self) -> Result<Stamped, Message>
        ensures { GivesStamped self result }
    {
        match self {
            Message::Prepare(m) => Ok(Stamped::Prepare(m)),
            Message::Commit(m) => Ok(Stamped::Commit(m)),
            Message::Checkpoint(m) => Ok(Stamped::Checkpoint(m)),
            Message::ViewChange(m) => Ok(Stamped::ViewChange(m)),
            Message::NewView(m) => Ok(Stamped::NewView(m)),
            Message::Enter(m) => Ok(Stamped::Enter(m)),
            Message::Open(m) => Ok(Stamped::Open(m)),
            Message::Join(m) => Ok(Stamped::Join(m)),
            other => Err(other),
        }
    }
}

/// Whether each field of the message has an allowed value.
pub fn fields_fit(shape: &Shape, message: &Message) -> bool
    ensures { IsTrue result ↔ FitsFields shape.now message.now }
{
    message.fits(shape)
}

/// Whether the message has at most [`MESSAGE_LIMIT`] bytes. Each field has an allowed value.
#[tactic(auto, using(mb_parts::proofs::CountedBytes::counted_within, mb_parts::proofs::CountedBytes::within_counted))]
fn is_short(shape: &Shape, message: &Message) -> bool
    requires { FitsFields shape.now message.now }
    ensures { IsTrue result ↔ (length (spelling message.now) ≤ MESSAGE_LIMIT) }
{
    message.count(shape, 0) <= MESSAGE_LIMIT
}

/// Whether each field of the message has an allowed value, and its bytes are at most [`MESSAGE_LIMIT`].
pub fn fits(shape: &Shape, message: &Message) -> bool
    ensures { IsTrue result ↔ Fits shape.now message.now }
{
    fields_fit(shape, message) && is_short(shape, message)
}
