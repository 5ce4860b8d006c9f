//! The keys and their values as a service.

use crate::kv::Kv;
use crate::operation::{Operation, read_operation};
use crate::results::{BAD, plain};
use crate::snapshot::{read_parts, restored_of};
use mb_base::{Digest, Items, NoMemory};
use mb_service::{Restore, Service};
use std::alloc::Global;

impl Service for Kv {
    ghost use Rattle.mb_kv.specs.Machine.{kv_machine};
    ghost use Rattle.mb_kv.specs.Laws.StateLaws.{states_stay, answers_are_short};
    ghost use Rattle.mb_kv.specs.Laws.SnapshotLaws.{parts_give_the_state, one_list_of_parts};

    ghost machine = { kv_machine };

    ghost states_stay = { states_stay };

    ghost answers_are_short = { answers_are_short };

    ghost parts_give_the_state = { parts_give_the_state };

    ghost one_list_of_parts = { one_list_of_parts };

    fn known(&self) {
        // A state has what is kept.
        let _count = self.count;
    }

    fn apply(&mut self, alloc: Global, op: &[u8]) -> Result<Items<u8>, NoMemory> {
        match read_operation(op) {
            Operation::Put { key, value } => self.put(alloc, key, value),
            Operation::Get { key } => self.get(alloc, key),
            Operation::Delete { key } => self.delete(alloc, key),
            Operation::Swap { key, old, new } => self.swap(alloc, key, old, new),
            Operation::Bad => plain(alloc, BAD),
        }
    }

    fn snapshot(&self, alloc: Global, part: u8) -> Result<Items<u8>, NoMemory> {
        self.parts[usize::from(part)].text(alloc)
    }

    fn part_digest(&mut self, alloc: Global, part: u8) -> Result<Digest, NoMemory> {
        self.parts[usize::from(part)].digest(alloc)
    }

    fn restore(&mut self, alloc: Global, parts: &[Items<u8>]) -> Result<(), Restore> {
        let entries = read_parts(alloc, parts)?;
        *self = restored_of(alloc, entries)?;
        Ok(())
    }
}
