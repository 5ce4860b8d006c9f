//! The client table.

ghost use Rattle.std.specs.Prelude.{◌≡◌, replicate, IfOk};
ghost use Rattle.mb_base.specs.Shapes.{client_count};
ghost use Rattle.mb_model.specs.Service.{no_reply};
ghost use Rattle.mb_cache.specs.Tables.{IsTable};

use crate::accept::Accept;
use crate::table_bytes::{read_table, write_table};
use mb_base::{Client, Duplicate, Items, NoMemory, Pos, Seq, Shape};
use mb_model::LastReply;
use mb_parts::{Request, Undecoded};
use mb_service::{PARTS, Restore, Service};
use std::alloc::Global;
use std::marker::Model;

/// For each client its last executed request: beside the service's state, what `state_of` finds in a host's history.
///
/// Contracts see the list of these requests, by client.
#[derive(Drop)]
pub struct Table {
    replies: Vec<LastReply>,
}

impl Model for Table {
    ghost use Rattle.std.specs.Prelude.{List};
    ghost use Rattle.mb_model.specs.declared.known.LastReply.{LastReply};
    ghost use Rattle.mb_cache.specs.Tables.{IsTable};

    ghost Value = { List LastReply };

    ghost view = { λ t. t.replies.items };

    ghost invariant = { λ t. IsTable t.replies.items };
}

impl Table {
    ghost use Rattle.std.specs.Prelude.{◌≡◌, ◌<◌, ◌≤◌, true, length, slice_set, option_map, IfOk, IfSome, OnOk, OnErr};
    ghost use Rattle.mb_base.specs.Shapes.{client_count};
    ghost use Rattle.mb_parts.specs.Fits.{IsCounter, IsPosition, FitsText};
    ghost use Rattle.mb_msg.specs.declared.event.Placed.{Placed};
    ghost use Rattle.mb_model.specs.Service.{is_fresh, no_reply, served};
    ghost use Rattle.mb_model.specs.States.{table_bytes, table_of};
    ghost use Rattle.mb_model.specs.Histories.{Identity, History, Served};
    ghost use Rattle.mb_service.specs.declared.service.TheConstants.{MAX_PART};
    ghost use Rattle.mb_cache.specs.Tables.{IsLast, last_of};
    ghost use Rattle.mb_cache.specs.Answers.{Accepts, told, result_of, Restores};
    ghost use Rattle.mb_cache.specs.Represents.{machine_of, joined, ServedOrNot, StandsServed};

    /// No request of any client was executed yet.
    pub fn make(alloc: Global, shape: Shape) -> Result<Table, NoMemory>
        ensures { IfOk result (λ t. t ≡ replicate (client_count shape) no_reply) }
    {
        Ok(Table {
            replies: no_replies(alloc, shape)?,
        })
    }

    /// The number of clients.
    pub fn clients(&self) -> Client
        ensures { result ≡ length self.now }
    {
        self.replies.len() as u8
    }

    /// What a request's number says.
    pub fn accept(&self, client: Client, seq: Seq) -> Accept
        requires { client < length self.now }
        ensures { Accepts (last_of self.now client) seq result }
    {
        let last = self.last(client);
        if seq > last.seq {
            return Accept::Fresh;
        }
        if seq < last.seq {
            return Accept::Old { last: last.seq };
        }
        Accept::Again { pos: last.pos }
    }

    /// Executes a request at a position: one that is numbered above its client's last one is applied, its reply is stored, and a copy of its
    /// result is the answer. Any other changes nothing, and the answer is None.
    ///
    /// After `NoMemory` the service and the table are as they were, or the request is executed.
    pub fn execute<V: Service>(
        &mut self,
        alloc: Global,
        service: &mut V,
        pos: Pos,
        request: &Request,
    ) -> Result<Option<Items<u8>>, NoMemory>
        requires client { request.now.client < length self.old }
        requires position { IsPosition pos }
        ensures served { OnOk result (joined service.new self.new ≡ served (machine_of V.machine) (joined service.old self.old) pos request.now) }
        ensures answer { IfOk result (λ r. r ≡ result_of V.machine.answer (joined service.old self.old) request.now) }
        ensures stops { OnErr result (ServedOrNot (machine_of V.machine) (joined service.old self.old) pos request.now (joined service.new self.new)) }
        ensures len { length self.new ≡ length self.old }
        ensures stands { OnOk result (StandsServed (machine_of V.machine) (joined service.old self.old) pos request.now (joined service.new self.new)) }
    {
        if !self.execute_quietly(alloc, service, pos, request)? {
            return Ok(None);
        }
        Ok(Some(self.last(request.client).result.duplicate(alloc)?))
    }

    /// Executes a request at a position, and tells whether it is fresh: numbered above its client's last one. Then it is applied, and its reply
    /// is stored. Any other changes nothing.
    ///
    /// After `NoMemory` the service and the table are as they were.
    pub fn execute_quietly<V: Service>(
        &mut self,
        alloc: Global,
        service: &mut V,
        pos: Pos,
        request: &Request,
    ) -> Result<bool, NoMemory>
        requires client { request.now.client < length self.old }
        requires position { IsPosition pos }
        ensures served { OnOk result (joined service.new self.new ≡ served (machine_of V.machine) (joined service.old self.old) pos request.now) }
        ensures fresh { IfOk result (λ is. is ≡ is_fresh (joined service.old self.old) request.now) }
        ensures answer { IfOk result (λ is. is ≡ true → (last_of self.new request.now.client).result ≡ V.machine.answer service.old request.now.op) }
        ensures kept { OnErr result (joined service.new self.new ≡ joined service.old self.old) }
        ensures len { length self.new ≡ length self.old }
        ensures stands { OnOk result (StandsServed (machine_of V.machine) (joined service.old self.old) pos request.now (joined service.new self.new)) }
    {
        if request.seq <= self.last_seq(request.client) {
            return Ok(false);
        }
        self.serve(alloc, service, pos, request)?;
        Ok(true)
    }

    /// Applies a fresh request and stores its reply. After `NoMemory` the service and the table are as they were.
    fn serve<V: Service>(
        &mut self,
        alloc: Global,
        service: &mut V,
        pos: Pos,
        request: &Request,
    ) -> Result<(), NoMemory>
        requires client { request.now.client < length self.old }
        requires position { IsPosition pos }
        requires fresh { (last_of self.old request.now.client).seq < request.now.seq }
        ensures served { OnOk result (joined service.new self.new ≡ served (machine_of V.machine) (joined service.old self.old) pos request.now) }
        ensures answer { OnOk result ((last_of self.new request.now.client).result ≡ V.machine.answer service.old request.now.op) }
        ensures len { length self.new ≡ length self.old }
        ensures unserved { OnErr result (joined service.new self.new ≡ joined service.old self.old) }
    {
        let result = service.apply(alloc, request.op.as_slice())?;
        self.store(request.client, request.seq, pos, result);
        Ok(())
    }

    /// Stores the reply to a client's request.
    fn store(&mut self, client: Client, seq: Seq, pos: Pos, bytes: Items<u8>)
        requires client { client < length self.old }
        requires seq { 1 ≤ seq }
        requires position { IsPosition pos }
        requires short { FitsText bytes }
        ensures { self.new ≡ slice_set self.old client (record { seq = seq; pos = pos; result = bytes }) }
    {
        self.replies[usize::from(client)] = LastReply {
            seq,
            pos,
            result: bytes,
        };
    }

    /// A client's last executed request.
    fn last(&self, client: Client) -> &LastReply
        requires { client < length self.now }
        ensures last { result.now ≡ last_of self.now client }
        ensures fits { IsLast result.now }
    {
        &self.replies[usize::from(client)]
    }

    /// Number, position and result of a client's last executed request. None exactly before its first.
    pub fn reply(&self, client: Client) -> Option<(Seq, Pos, &[u8])>
        requires { client < length self.now }
        ensures reply { option_map (λ r. (r.0, (r.1, r.2.now))) result ≡ told (last_of self.now client) }
        ensures fits { IfSome result (λ r. IsCounter r.0 × IsPosition r.1 × FitsText r.2.now) }
    {
        let last = self.last(client);
        if last.seq == 0 {
            return None;
        }
        Some((last.seq, last.pos, last.result.as_slice()))
    }

    /// The number of a client's last executed request, 0 before its first.
    pub fn last_seq(&self, client: Client) -> Seq
        requires { client < length self.now }
        ensures { result ≡ (last_of self.now client).seq }
    {
        self.last(client).seq
    }

    /// The table's bytes, which are the part of a state behind those of the service. They give the table back.
    pub fn part(&self, alloc: Global) -> Result<Items<u8>, NoMemory>
        ensures part { IfOk result (λ p. p ≡ table_bytes self.now) }
        ensures back { IfOk result (λ p. table_of (length self.now) p ≡ Ok self.now) }
        ensures short { IfOk result (λ p. length p ≤ MAX_PART) }
    {
        write_table(alloc, self.replies.as_slice())
    }

    /// Takes the table of these bytes, with as many clients, in the place of its own.
    pub fn restore(&mut self, alloc: Global, part: &[u8]) -> Result<(), Restore>
        ensures restored { Restores part.now result self.old self.new }
        ensures len { length self.new ≡ length self.old }
    {
        match read_table(alloc, self.replies.len() as u64, part) {
            Ok(replies) => {
                self.replies = replies;
                Ok(())
            }
            Err(Undecoded::Malformed { at }) => Err(Restore::BadSnapshot {
                part: PARTS,
                at: at as u32,
            }),
            Err(Undecoded::NoMemory) => Err(Restore::NoMemory),
        }
    }
}

fn no_replies(alloc: Global, shape: Shape) -> Result<Vec<LastReply>, NoMemory>
    ensures replies { IfOk result (λ v. v.items ≡ replicate (client_count shape) no_reply) }
    ensures fit { IfOk result (λ v. IsTable v.items) }
{
    let clients = shape.clients();
    let mut all = Vec::with_capacity(alloc, usize::from(clients))?;
    for _ in 0..clients {
        all.push(LastReply {
            seq: 0,
            pos: 0,
            result: Items::new(alloc),
        })?;
    }
    Ok(all)
}
