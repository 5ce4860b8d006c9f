//! What a given message does: for each kind its outcome, and what follows.

use crate::sending::StepOutput;
use crate::state::ReplicaState;
use mb_base::{Digest, NoMemory};
use mb_msg::{Message, Outcome};
use mb_service::Service;
use std::alloc::Global;

/// What became of an event, and what follows it.
#[derive(Clone, Copy)]
pub struct Reaction {
    pub outcome: Outcome,
    /// The rules follow what was taken; and each LOG that checks before its entries, also where it ended at a refusal.
    pub rules_follow: bool,
    /// A STATE asks for the parts that are missing still.
    pub asks: bool,
}

impl Reaction {
    ghost use Rattle.std.specs.Prelude.{◌≡◌, false};
    ghost use Rattle.mb_replica.specs.Answers.{is_taken};

    /// That of a message other than LOG and STATE, or of lost patience.
    pub fn of(outcome: Outcome) -> Reaction
        ensures { result ≡ record { outcome = outcome; rules_follow = is_taken outcome; asks = false } }
    {
        Reaction {
            outcome,
            rules_follow: outcome == Outcome::Took,
            asks: false,
        }
    }
}

impl<V: Service + Drop> ReplicaState<V> {
    ghost use Rattle.mb_replica.specs.declared.sending.StepOutput.{StepOutput};
    ghost use Rattle.mb_replica.specs.Told.{KnowsMessage};
    ghost use Rattle.mb_replica.specs.Represents.{IsOther, Serves, StandsAt, HasHistory, IsInStep};
    ghost use Rattle.mb_msg.specs.Fits.{FitsFields};
    ghost use Rattle.mb_model.specs.Histories.{Identity};
    ghost use Rattle.mb_model.specs.Sending.{Progress};
    ghost use Rattle.mb_model.specs.Given.{give};
    ghost use Rattle.mb_replica.specs.Steps.{Reacts};

    /// Gives a message to this host, of which the digest of the body may be known. A REPLY is for clients.
    pub fn give(
        &mut self,
        alloc: Global,
        message: Message,
        known: &Option<Digest>,
        done: &mut StepOutput,
    ) -> Result<Reaction, NoMemory>
        requires fits { FitsFields self.old.protocol.shape message }
        requires stepping { IsInStep V.machine self.old done.old }
        requires known { KnowsMessage known.now message }
        ensures { (me : Identity V) (x : Progress) → Serves V.machine me → StandsAt me self.old done.old x → Reacts me message (give me message x) result self.new done.new }
    {
        match message {
            Message::Request(m) => Ok(Reaction::of(self.give_request(alloc, m, done)?)),
            Message::ReqViewChange(m) => Ok(Reaction::of(self.give_wish(&m))),
            Message::Resend(m) => Ok(Reaction::of(self.give_resend(alloc, &m, done)?)),
            Message::Log(m) => self.give_log(alloc, m),
            Message::Fetch(m) => Ok(Reaction::of(self.give_fetch(alloc, &m, done)?)),
            Message::State(m) => self.give_state(alloc, &m, done),
            Message::Stop(m) => Ok(Reaction::of(self.stop_answer(&m))),
            other => self.give_other(alloc, other, known),
        }
    }

    /// Gives a stamped message or a REPLY.
    fn give_other(
        &mut self,
        alloc: Global,
        message: Message,
        known: &Option<Digest>,
    ) -> Result<Reaction, NoMemory>
        requires fits { FitsFields self.old.protocol.shape message }
        requires history { HasHistory self.old }
        requires known { KnowsMessage known.now message }
        ensures { (me : Identity V) (x : Progress) → (done : StepOutput) → Serves V.machine me → IsOther message → StandsAt me self.old done x → Reacts me message (give me message x) result self.new done }
    {
        match message.into_stamped() {
            Ok(stamped) => Ok(Reaction::of(self.give_stamped(alloc, stamped, known)?)),
            Err(reply) => {
                drop(reply);
                Ok(Reaction::of(Outcome::Idle))
            }
        }
    }
}
