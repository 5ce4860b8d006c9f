//! A service with its client table, its snapshots and a fetched state.

use crate::snapshots::present_parts;
use mb_base::{Client, Digest, NoMemory, Pos, Seq, Shape};
use mb_cache::{Accept, Table, digest};
use mb_fetch::{Parts, Shelf};
use mb_msg::Request;
use mb_service::Service;
use std::alloc::Global;
use std::marker::Model;

/// What a host executes with.
///
/// Contracts see the state with the client table, the snapshots and the fetched parts.
#[derive(Drop)]
pub struct Keeper<V> {
    pub(crate) shape: Shape,
    pub(crate) service: V,
    /// For each client its last executed request. With the service it is the state: `state_of`.
    pub(crate) table: Table,
    /// For each multiple of the interval from the stable position on, the parts of the state behind it: `snapshot_of`.
    pub(crate) shelf: Shelf,
    /// The fetched parts of the state at the stable position: `part_held`. None where no part is held.
    pub(crate) parts: Option<Parts>,
}

impl<V> Model for Keeper<V> {
    ghost use Rattle.mb_base.specs.Shapes.{client_count};
    ghost use Rattle.mb_cache.specs.Represents.{joined};
    ghost use Rattle.mb_executor.specs.Keeping.{Keeping, IsKept};

    ghost Value = { Keeping V };

    ghost view = { λ k. record { served = joined k.service k.table; snapshots = k.shelf; fetched = k.parts } };

    ghost invariant = { λ k. IsKept (client_count k.shape) k.table k.shelf };
}

impl<V: Service + Drop> Keeper<V> {
    ghost use Rattle.std.specs.Prelude.{◌≡◌, ◌<◌, ◌≤◌, ℕ, [], length, Some, None, option_map, is_some, IfOk, IfSome, OnOk, OnErr};
    ghost use Rattle.mb_base.specs.Limits.{snapshot_limit};
    ghost use Rattle.mb_base.specs.Shapes.{client_count};
    ghost use Rattle.mb_parts.specs.Fits.{IsCounter, IsPosition, FitsText};
    ghost use Rattle.mb_model.specs.Histories.{Identity, History};
    ghost use Rattle.mb_model.specs.Service.{start, is_fresh};
    ghost use Rattle.mb_model.specs.States.{parts_of, state_digest};
    ghost use Rattle.mb_model.specs.Execution.{state_of};
    ghost use Rattle.mb_model.specs.Making.{present_parts as parts_of_state};
    ghost use Rattle.mb_fetch.specs.Snapshots.{parts_at, StandsWith, StandsFrom};
    ghost use Rattle.mb_cache.specs.Tables.{last_of};
    ghost use Rattle.mb_cache.specs.Answers.{Accepts, told};
    ghost use Rattle.mb_cache.specs.Represents.{machine_of, snapshots_of, StandsServed};
    ghost use Rattle.mb_executor.specs.Keeping.{Keeping, executed, with_snapshot, raised};

    /// Nothing was executed yet, and nothing fetched.
    pub fn make(alloc: Global, shape: Shape, service: V) -> Result<Keeper<V>, NoMemory>
        ensures { IfOk result (λ k. k ≡ record { served = start (machine_of V.machine) service (client_count shape); snapshots = []; fetched = None }) }
    {
        Ok(Keeper {
            shape,
            service,
            table: Table::make(alloc, shape)?,
            shelf: Shelf::make(alloc)?,
            parts: None,
        })
    }

    /// What a request's number says, against its client's last executed one.
    pub fn accept(&self, client: Client, seq: Seq) -> Accept
        requires { client < length self.now.served.table }
        ensures { Accepts (last_of self.now.served.table client) seq result }
    {
        self.table.accept(client, seq)
    }

    /// The number of a client's last executed request, 0 before its first.
    pub fn last_seq(&self, client: Client) -> Seq
        requires { client < length self.now.served.table }
        ensures { result ≡ (last_of self.now.served.table client).seq }
    {
        self.table.last_seq(client)
    }

    /// Number, position and result of a client's last executed request. None exactly before its first.
    pub fn reply(&self, client: Client) -> Option<(Seq, Pos, &[u8])>
        requires { client < length self.now.served.table }
        ensures reply { option_map (λ r. (r.0, (r.1, r.2.now))) result ≡ told (last_of self.now.served.table client) }
        ensures fits { IfSome result (λ r. IsCounter r.0 × IsPosition r.1 × FitsText r.2.now) }
    {
        self.table.reply(client)
    }

    /// Executes a request at a position, and tells whether it is fresh: numbered above its client's last executed one. Any other changes
    /// nothing. After `NoMemory` all is as it was.
    pub fn execute(&mut self, alloc: Global, pos: Pos, request: &Request) -> Result<bool, NoMemory>
        requires client { request.now.client < length self.old.served.table }
        requires position { IsPosition pos }
        ensures served { OnOk result (self.new ≡ executed (machine_of V.machine) self.old pos request.now) }
        ensures fresh { IfOk result (λ is. is ≡ is_fresh self.old.served request.now) }
        ensures kept { OnErr result (self.new ≡ self.old) }
        ensures clients { length self.new.served.table ≡ length self.old.served.table }
        ensures stands { OnOk result (StandsServed (machine_of V.machine) self.old.served pos request.now self.new.served) }
    {
        self.table
            .execute_quietly(alloc, &mut self.service, pos, request)
    }

    /// The digest of the present state at a position. The state stays as it is, also after `NoMemory`.
    pub fn digest(&mut self, alloc: Global, pos: Pos) -> Result<Digest, NoMemory>
        ensures digest { IfOk result (λ d. d ≡ state_digest (parts_of (snapshots_of V.machine) self.old.served) pos) }
        ensures kept { self.new ≡ self.old }
        ensures stands { (id : Identity V) (d : History) → id.snapshots ≡ snapshots_of V.machine → self.old.served ≡ state_of id d → IfOk result (λ r. r ≡ state_digest (parts_of_state id d) pos) }
    {
        digest(alloc, &mut self.service, &self.table, pos)
    }

    /// Keeps a snapshot of the present state, at a position above those of the kept ones, of which there are fewer than three. After `NoMemory`
    /// all is as it was.
    pub fn keep_snapshot(&mut self, alloc: Global, pos: Pos) -> Result<(), NoMemory>
        requires above { (other : ℕ) → pos ≤ other → parts_at self.old.snapshots other ≡ None }
        requires room { length self.old.snapshots < snapshot_limit }
        ensures ok { OnOk result (self.new ≡ with_snapshot self.old pos (parts_of (snapshots_of V.machine) self.old.served)) }
        ensures stands { OnOk result (StandsWith self.old.snapshots pos (parts_of (snapshots_of V.machine) self.old.served) self.new.snapshots) }
        ensures err { OnErr result (self.new ≡ self.old) }
    {
        let parts = present_parts(alloc, &mut self.service, &self.table)?;
        self.shelf.keep_hashed(alloc, pos, parts)?;
        Ok(())
    }

    /// Whether a snapshot is kept of a position.
    pub fn has_snapshot(&self, pos: Pos) -> bool
        ensures { result ≡ is_some (parts_at self.now.snapshots pos) }
    {
        self.shelf.has(pos)
    }

    /// The stable position is this one: snapshots below it go, and parts that were fetched for a lower one. It takes no memory.
    pub fn raise(&mut self, low: Pos)
        ensures raised { self.new ≡ raised low self.old }
        ensures stands { StandsFrom self.old.snapshots low self.new.snapshots }
    {
        self.shelf.drop_below(low);
        self.drop_parts_below(low);
    }
}
