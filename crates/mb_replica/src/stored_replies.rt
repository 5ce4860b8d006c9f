//! REPLY: what a client is answered.

use crate::sending::StepOutput;
use crate::state::ReplicaState;
use mb_base::{Client, Items, NoMemory, Pos, Seq};
use mb_msg::{Message, Reply, To, signed_reply};
use mb_service::Service;
use std::alloc::Global;

impl<V: Service + Drop> ReplicaState<V> {
    ghost use Rattle.std.specs.Prelude.{Some, None, ◌≡◌, IfOk, ◌<◌, ◌≤◌, length};
    ghost use Rattle.mb_base.specs.Shapes.{client_count};
    ghost use Rattle.mb_parts.specs.Fits.{FitsText, IsCounter, IsPlace};
    ghost use Rattle.mb_msg.specs.Fits.{Fits};
    ghost use Rattle.mb_msg.specs.Stamps.{as_stamped};
    ghost use Rattle.mb_model.specs.Histories.{Identity, History};
    ghost use Rattle.mb_model.specs.Sending.{Progress, send, to_client};
    ghost use Rattle.mb_model.specs.Making.{reply};
    ghost use Rattle.mb_model.specs.PlainChecks.{last_seq};
    ghost use Rattle.mb_model.specs.Given.{stored_reply};
    ghost use Rattle.mb_replica.specs.Represents.{Represents};
    ghost use Rattle.mb_replica.specs.Steps.{SendsWhere};

    /// Sends a client the reply to its last executed request, where there is one.
    pub fn send_stored_reply(
        &self,
        alloc: Global,
        client: Client,
        done: &mut StepOutput,
    ) -> Result<(), NoMemory>
        requires client { client < client_count self.now.protocol.shape }
        requires clients { length self.now.keeper.served.table ≡ client_count self.now.protocol.shape }
        ensures { (me : Identity V) (x : Progress) → SendsWhere me x (1 ≤ last_seq me x.history client) (send (to_client client (stored_reply me x.history client)) x) result self.now done.old done.new }
    {
        match self.keeper.reply(client) {
            Some((seq, pos, answer)) => {
                let message = self.reply(alloc, client, seq, pos, answer)?;
                self.send_own(alloc, To::Client(client), message, done)
            }
            None => Ok(()),
        }
    }

    /// The reply to a client's request, with its tag.
    fn reply(
        &self,
        alloc: Global,
        client: Client,
        seq: Seq,
        pos: Pos,
        answer: &[u8],
    ) -> Result<Message, NoMemory>
        requires client { client < client_count self.now.protocol.shape }
        requires seq { IsCounter seq }
        requires place { IsPlace pos }
        requires short { FitsText answer.now }
        ensures reply { (me : Identity V) (d : History) → Represents me self.now d → IfOk result (λ m. m ≡ reply me client (record { seq = seq; pos = pos; result = answer.now })) }
        ensures fits { IfOk result (Fits self.now.protocol.shape) }
        ensures plain { IfOk result (λ m. as_stamped m ≡ None) }
    {
        let signed = signed_reply(alloc, client, seq, pos, answer)?;
        Ok(Message::Reply(Reply {
            host: self.protocol.host,
            client,
            seq,
            pos,
            result: Items::from_vec(Vec::from_slice(alloc, answer)?),
            tag: self.protocol.usig.tag_reply(client, signed.as_slice()),
        }))
    }
}
