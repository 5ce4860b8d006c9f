//! What clients do: they ask, and take replies.

ghost use Rattle.std.specs.Prelude.{◌≡◌, ◌+◌, ◌++◌, ◌∷◌, [], length, IfOk, OnOk};
ghost use Rattle.mb_msg.specs.Fits.{Fits};
ghost use Rattle.mb_msg.specs.Spelling.{spelling};
ghost use Rattle.mb_msg.specs.declared.message.Message.TheVariants as message;
ghost use Rattle.mb_world_model.specs.World.{Made};
ghost use Rattle.mb_world.specs.Answers.{as_answer};

use crate::seen::Seen;
use crate::world::World;
use mb_base::{Client, Items, NoMemory, Shape};
use mb_members::{ask_of, reply_in, take_of};
use mb_msg::{Message, encode};
use mb_parts::Request;
use mb_service::Service;
use std::alloc::Global;

/// One more message, at the end.
pub(crate) fn add_message(pool: &mut Vec<Items<u8>>, bytes: Vec<u8>) -> Result<Seen, NoMemory>
    ensures pool { OnOk result (pool.new.items ≡ pool.old.items ++ bytes.items ∷ []) }
    ensures answer { IfOk result (λ a. as_answer a ≡ Made (length pool.old.items + 1) 1) }
{
    pool.push(Items::from_vec(bytes))?;
    Ok(Seen::Made {
        first: pool.len() as u64,
        count: 1,
    })
}

/// The bytes of a REQUEST, which is dropped here by one call: a message that goes out of scope is dropped in place, kind by kind, at each exit.
fn request_bytes(alloc: Global, shape: &Shape, request: Request) -> Result<Vec<u8>, NoMemory>
    requires { Fits shape.now (message.Request request) }
    ensures text { IfOk result (λ v. v.items ≡ spelling (message.Request request)) }
{
    let message = Message::Request(request);
    let bytes = encode(alloc, shape, &message);
    drop(message);
    bytes
}

impl<V: Service + Drop> World<V> {
    ghost use Rattle.std.specs.Prelude.{◌≡◌, ◌<◌, ◌+◌, ◌-◌, ◌^◌, true, IfOk, OnOk};
    ghost use Rattle.mb_base.specs.Shapes.{client_count};
    ghost use Rattle.mb_parts.specs.Fits.{FitsText};
    ghost use Rattle.mb_msg.specs.Reading.{message_of};
    ghost use Rattle.mb_world_model.specs.World.{World as WorldState, System, client_asks, client_reads, heard};
    ghost use Rattle.mb_world.specs.Answers.{as_answer};
    ghost use Rattle.mb_world.specs.Tables.{RepresentsWorld, Leaves};
    ghost use Rattle.mb_world.specs.Happening.{FromEach, Happens};

    /// A client asks. Its REQUEST is a new message.
    pub(crate) fn ask(
        &mut self,
        alloc: Global,
        client: Client,
        op: &Items<u8>,
    ) -> Result<Seen, NoMemory>
        requires client { client < client_count self.old.shape }
        requires op { FitsText op.now }
        requires few { self.old.events < 2 ^ 64 - 1 }
        requires halted { self.old.halted ≡ true }
        ensures stands { (y : System V) (x : WorldState) → RepresentsWorld y self.old x → IfOk result (λ a. Leaves y self.new (as_answer a) x (client_asks y.schedule client op.now x)) }
        ensures members { self.new.members ≡ self.old.members }
        ensures halted { self.new.halted ≡ self.old.halted }
        ensures shape { self.new.shape ≡ self.old.shape }
        ensures counts { OnOk result (self.new.events ≡ self.old.events + 1) }
    {
        self.events += 1;
        let request = ask_of(alloc, &mut self.askers, client, op.as_slice())?;
        self.ledger.note_asked(alloc, &request)?;
        let bytes = request_bytes(alloc, &self.shape, request)?;
        add_message(&mut self.pool, bytes)
    }

    /// A correct client is given bytes. It reads REPLYs alone.
    pub(crate) fn client_reads(
        &mut self,
        alloc: Global,
        client: Client,
        bytes: &[u8],
    ) -> Result<Seen, NoMemory>
        requires client { client < client_count self.old.shape }
        requires few { self.old.events < 2 ^ 64 - 1 }
        requires halted { self.old.halted ≡ true }
        ensures stands { FromEach self.old (λ y x. Happens y x (client_reads y.schedule client (message_of y.schedule.shape bytes.now) (heard y.schedule bytes.now x)) result self.new) }
        ensures members { self.new.members ≡ self.old.members }
        ensures halted { self.new.halted ≡ self.old.halted }
        ensures shape { self.new.shape ≡ self.old.shape }
        ensures counts { OnOk result (self.new.events ≡ self.old.events + 1) }
    {
        match reply_in(alloc, &self.shape, bytes)? {
            Ok(reply) => {
                let taken = take_of(&mut self.askers, client, &reply);
                self.note(alloc, Seen::Client(taken))
            }
            Err(outcome) => self.note(alloc, Seen::Unread(outcome)),
        }
    }
}
