//! What a step has sent, executed and installed so far.

ghost use Rattle.mb_replica.specs.Lengths.{AreOutgoingLong};

use crate::state::ReplicaState;
use crate::told::{Outgoing, Said, StepRecord, said_of};
use mb_base::{Digest, Items, NoMemory, Pos};
use mb_msg::{Message, Outcome, Slot, Stamped, To, encode, encode_stamped};
use mb_service::Service;
use std::alloc::Global;

/// What a step has done so far, oldest first.
#[derive(Drop)]
pub struct StepOutput {
    pub sent: Items<Outgoing>,
    pub executed: Items<Slot>,
    /// The position of the state that it installed.
    pub installed: Option<Pos>,
    ghost lengths: { AreOutgoingLong sent },
}

impl StepOutput {
    ghost use Rattle.std.specs.Prelude.{[], ◌∷◌, ◌++◌, ◌≡◌, ◌≤◌, length, None, OnOk};
    ghost use Rattle.mb_base.specs.declared.limits.TheConstants.{MESSAGE_LIMIT};

    /// Nothing yet.
    pub fn new(alloc: Global) -> StepOutput
        ensures sent { result.sent ≡ [] }
        ensures executed { result.executed ≡ [] }
        ensures installed { result.installed ≡ None }
    {
        StepOutput {
            sent: Items::new(alloc),
            executed: Items::new(alloc),
            installed: None,
        }
    }

    /// The whole step, with its outcome.
    pub fn into_told(self, outcome: Outcome) -> StepRecord
        ensures lengths { AreOutgoingLong result.sent }
        ensures told { result ≡ record { outcome = outcome; sent = self.sent; executed = self.executed; adopted = self.installed } }
    {
        let StepOutput {
            sent,
            executed,
            installed,
        } = self;
        StepRecord {
            outcome,
            sent,
            executed,
            adopted: installed,
        }
    }

    fn push(&mut self, to: To, bytes: Vec<u8>, said: Option<Said>) -> Result<(), NoMemory>
        requires length { (1 ≤ length bytes.items) × (length bytes.items ≤ MESSAGE_LIMIT) }
        ensures kept { (self.new.executed ≡ self.old.executed) × (self.new.installed ≡ self.old.installed) }
        ensures sent { OnOk result (self.new.sent ≡ self.old.sent ++ (record { to = to; bytes = bytes.items; said = said }) ∷ []) }
    {
        self.sent.push(Outgoing {
            to,
            bytes: Items::from_vec(bytes),
            said,
        })?;
        Ok(())
    }
}

impl<V: Service + Drop> ReplicaState<V> {
    ghost use Rattle.std.specs.Prelude.{[], ◌∷◌, ◌++◌, ◌≡◌, OnOk, None};
    ghost use Rattle.mb_replica.specs.Steps.{Sends};
    ghost use Rattle.mb_replica.specs.Told.{as_outgoing};
    ghost use Rattle.mb_msg.specs.AsStamped.{stamped_digest};
    ghost use Rattle.mb_msg.specs.Fits.{Fits};
    ghost use Rattle.mb_msg.specs.Stamps.{as_message, as_stamped};
    ghost use Rattle.mb_model.specs.Histories.{Identity};
    ghost use Rattle.mb_model.specs.Sending.{Progress, send, to_all};

    /// Sends a message that is not stamped.
    pub(crate) fn send(
        &self,
        alloc: Global,
        to: To,
        message: &Message,
        done: &mut StepOutput,
    ) -> Result<(), NoMemory>
        requires fits { Fits self.now.protocol.shape message.now }
        requires plain { as_stamped message.now ≡ None }
        ensures { (me : Identity V) (x : Progress) → Sends me x (send (record { to = to; says = message.now }) x) result self.now done.old done.new }
    {
        done.push(to, encode(alloc, &self.protocol.shape, message)?, None)
    }

    /// Sends a message, and drops it.
    pub(crate) fn send_own(
        &self,
        alloc: Global,
        to: To,
        message: Message,
        done: &mut StepOutput,
    ) -> Result<(), NoMemory>
        requires fits { Fits self.now.protocol.shape message }
        requires plain { as_stamped message ≡ None }
        ensures { (me : Identity V) (x : Progress) → Sends me x (send (record { to = to; says = message }) x) result self.now done.old done.new }
    {
        let sent = self.send(alloc, to, &message, done);
        drop(message);
        sent
    }

    /// Sends a stamped message to all, with the digest of its body.
    pub fn send_stamped(
        &self,
        alloc: Global,
        message: &Stamped,
        body: Digest,
        done: &mut StepOutput,
    ) -> Result<(), NoMemory>
        requires fits { Fits self.now.protocol.shape (as_message message.now) }
        requires body { body ≡ stamped_digest message.now }
        ensures kept { (done.new.executed ≡ done.old.executed) × (done.new.installed ≡ done.old.installed) }
        ensures sent { OnOk result (done.new.sent ≡ done.old.sent ++ as_outgoing (to_all (as_message message.now)) ∷ []) }
    {
        let said = said_of(alloc, &self.protocol.shape, message, body)?;
        done.push(
            To::All,
            encode_stamped(alloc, &self.protocol.shape, message)?,
            Some(said),
        )
    }
}
