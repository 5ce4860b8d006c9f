//! The executed positions, and the state behind them.

use mb_base::{Digest, Duplicate, Items, NoMemory, Pos, Shape};
use mb_cache::{Table, digest};
use mb_msg::{Batch, Placed, Request, Slot};
use mb_service::Service;
use std::alloc::Global;

/// The batches that were executed, from position 1 on, with the service and the client table behind them.
#[derive(Drop)]
pub(crate) struct Line<V> {
    pub(crate) shape: Shape,
    service: V,
    table: Table,
    slots: Vec<Slot>,
    /// The state digests at the multiples of the interval.
    states: Vec<Digest>,
}

impl<V: Service + Drop> Line<V> {
    ghost use Rattle.std.specs.Prelude.{◌≡◌, ◌+◌, ◌<◌, ◌^◌, ◌∷◌, ◌++◌, [], ℕ, length, IfOk, OnOk};
    ghost use Rattle.std.specs.List.{AllByRecursion};
    ghost use Rattle.std.specs.Option.{option_copied};
    ghost use Rattle.mb_base.specs.Shapes.{client_count};
    ghost use Rattle.mb_parts.specs.Fits.{IsPosition, FitsBatch, FitsRequest};
    ghost use Rattle.mb_model.specs.Service.{served, served_each};
    ghost use Rattle.mb_cache.specs.Represents.{machine_of, snapshots_of, joined};
    ghost use Rattle.mb_learn.specs.Executed.{Executes, WhereExecutes, ExecutesToo, KeepsSlots, NotesState, state_in, state_now, with_mark, placed_all};
    ghost use Rattle.mb_learn.specs.Proved.{digest_behind};

    /// Nothing is executed.
    pub(crate) fn make(alloc: Global, shape: Shape, service: V) -> Result<Line<V>, NoMemory>
        ensures executes { IfOk result (Executes shape (machine_of V.machine) service (snapshots_of V.machine) []) }
        ensures shape { IfOk result (λ line. (line.shape ≡ shape) × (length line.table ≡ client_count shape) × (line.slots.items ≡ [])) }
    {
        Ok(Line {
            shape,
            service,
            table: Table::make(alloc, shape)?,
            slots: Vec::new(alloc),
            states: Vec::new(alloc),
        })
    }

    /// The executed positions.
    pub(crate) fn slots(&self) -> &[Slot]
        ensures { result.now ≡ self.now.slots.items }
    {
        self.slots.as_slice()
    }

    /// The last executed position.
    pub(crate) fn executed(&self) -> Pos
        ensures { result ≡ length self.now.slots.items }
    {
        self.slots.len() as u64
    }

    /// The state digest at the last executed position. The state stays as it is.
    pub(crate) fn state(&mut self, alloc: Global) -> Result<Digest, NoMemory>
        ensures digest { IfOk result (λ d. d ≡ state_now (snapshots_of V.machine) self.old) }
        ensures kept { self.new ≡ self.old }
    {
        let pos = self.executed();
        digest(alloc, &mut self.service, &self.table, pos)
    }

    /// Executes the batch of the next position.
    pub(crate) fn execute(&mut self, alloc: Global, batch: &Batch) -> Result<(), NoMemory>
        requires fits { FitsBatch self.old.shape batch.now }
        requires clients { length self.old.table ≡ client_count self.old.shape }
        requires place { length self.old.slots.items + 1 < 2 ^ 63 }
        ensures executes { WhereExecutes V.machine self.old (λ s initial slots. OnOk result (ExecutesToo s (machine_of V.machine) initial (snapshots_of V.machine) slots batch.now self.new)) }
        ensures rest { OnOk result ((self.new.shape ≡ self.old.shape) × (length self.new.table ≡ length self.old.table) × (length self.new.slots.items ≡ length self.old.slots.items + 1)) }
    {
        let pos = self.executed() + 1;
        let requests = self.place_all(alloc, pos, batch.requests.as_slice())?;
        self.slots.push(Slot { pos, requests })?;
        self.note_state(alloc, pos)
    }

    /// Notes the state digest at the last executed position, where it is a multiple of the interval.
    fn note_state(&mut self, alloc: Global, pos: Pos) -> Result<(), NoMemory>
        ensures { OnOk result (NotesState (snapshots_of V.machine) pos self.old self.new) }
    {
        if pos % u64::from(self.shape.k()) != 0 {
            return Ok(());
        }
        let state = self.state(alloc)?;
        self.states.push(state)?;
        Ok(())
    }

    /// Executes requests at a position, one after the other.
    fn place_all(
        &mut self,
        alloc: Global,
        pos: Pos,
        requests: &[Request],
    ) -> Result<Items<Placed>, NoMemory>
        requires fit { AllByRecursion (FitsRequest self.old.shape) requests.now }
        requires clients { length self.old.table ≡ client_count self.old.shape }
        requires position { IsPosition pos }
        ensures placed { IfOk result (λ l. l ≡ placed_all (machine_of V.machine) (joined self.old.service self.old.table) pos requests.now) }
        ensures served { IfOk result (λ l. joined self.new.service self.new.table ≡ served_each (machine_of V.machine) (joined self.old.service self.old.table) pos l) }
        ensures rest { OnOk result (KeepsSlots self.old self.new) }
    {
        let mut placed = Items::new(alloc);
        for request in requests {
            placed.push(self.place(alloc, pos, request)?)?;
        }
        Ok(placed)
    }

    /// Executes a request, and tells whether it was fresh.
    fn place(&mut self, alloc: Global, pos: Pos, request: &Request) -> Result<Placed, NoMemory>
        requires client { request.now.client < length self.old.table }
        requires position { IsPosition pos }
        ensures placed { IfOk result (λ p. p ≡ with_mark (joined self.old.service self.old.table) request.now) }
        ensures served { OnOk result (joined self.new.service self.new.table ≡ served (machine_of V.machine) (joined self.old.service self.old.table) pos request.now) }
        ensures rest { OnOk result (KeepsSlots self.old self.new) }
    {
        let fresh = self
            .table
            .execute_quietly(alloc, &mut self.service, pos, request)?;
        Ok(Placed {
            request: request.duplicate(alloc)?,
            fresh,
        })
    }

    /// The state digest at a position, where it is an executed multiple of the interval.
    pub(crate) fn state_at(&self, pos: Pos) -> Option<&Digest>
        ensures { option_copied result ≡ state_in self.now pos }
    {
        let interval = u64::from(self.shape.k());
        if pos == 0 || pos % interval != 0 {
            return None;
        }
        self.states.get((pos / interval - 1) as usize)
    }
}
