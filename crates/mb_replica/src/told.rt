//! What a step tells: each message that it sent, and what was stamped in it.

ghost use Rattle.std.specs.Prelude.{◌≡◌, IfOk, map};
ghost use Rattle.mb_msg.specs.Fits.{FitsStamped};
ghost use Rattle.mb_msg.specs.AsStamped.{stamped_digest};
ghost use Rattle.mb_replica.specs.Lengths.{AreMessageLong, AreOutgoingLong};
ghost use Rattle.mb_replica.specs.Told.{plain, said_of};

use mb_base::{Digest, Items, NoMemory, Pos, Shape};
use mb_msg::{Outcome, Sent, Slot, Stamped, Step, To};
use std::alloc::Global;

/// What a host stamped in a message.
#[derive(Drop)]
pub struct Said {
    /// The bytes that the certificate covers.
    pub bare: Items<u8>,
    /// The digest of the message's body.
    pub body: Digest,
}

/// A message that is sent, as its bytes, and what is stamped in it, where it is a stamped message.
#[derive(Drop)]
pub struct Outgoing {
    pub to: To,
    pub bytes: Items<u8>,
    pub said: Option<Said>,
}

/// A step, and what was stamped in it.
#[derive(Drop)]
pub struct StepRecord {
    pub outcome: Outcome,
    pub sent: Items<Outgoing>,
    pub executed: Items<Slot>,
    /// The position of the state that it installed.
    pub adopted: Option<Pos>,
}

impl StepRecord {
    /// The step alone.
    pub fn into_step(self, alloc: Global) -> Result<Step, NoMemory>
        requires { AreOutgoingLong self.sent }
        ensures lengths { IfOk result (λ s. AreMessageLong s.sent) }
        ensures step { IfOk result (λ s. s ≡ record { outcome = self.outcome; sent = map plain self.sent; executed = self.executed; adopted = self.adopted }) }
    {
        let StepRecord {
            outcome,
            sent,
            executed,
            adopted,
        } = self;
        Ok(Step {
            outcome,
            sent: plain_all(alloc, sent)?,
            executed,
            adopted,
        })
    }
}

/// The messages alone.
fn plain_all(alloc: Global, sent: Items<Outgoing>) -> Result<Items<Sent>, NoMemory>
    ensures { IfOk result (λ all. all ≡ map plain sent) }
{
    let mut all = Items::new(alloc);
    for outgoing in sent.into_vec() {
        all.push(Sent {
            to: outgoing.to,
            bytes: outgoing.bytes,
        })?;
    }
    Ok(all)
}

/// What is stamped in a message, of which this is the digest of the body.
pub(crate) fn said_of(
    alloc: Global,
    shape: &Shape,
    message: &Stamped,
    body: Digest,
) -> Result<Said, NoMemory>
    requires fits { FitsStamped shape.now message.now }
    requires body { body ≡ stamped_digest message.now }
    ensures { IfOk result (λ s. s ≡ said_of message.now) }
{
    let bare = message.bare_with(alloc, shape, &body)?;
    Ok(Said {
        bare: Items::from_vec(bare),
        body,
    })
}
