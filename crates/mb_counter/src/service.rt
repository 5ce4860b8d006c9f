//! The count as a service.

use crate::counter::Counter;
use crate::operation::{Operation, read_operation};
use crate::results::{BAD, plain, with_count};
use crate::snapshot::{part_text, read_parts};
use mb_base::{Digest, Items, NoMemory};
use mb_service::{Restore, Service};
use sha2::{Digest as _, Sha256};
use std::alloc::Global;

impl Service for Counter {
    ghost use Rattle.mb_counter.specs.Machine.{count_machine};
    ghost use Rattle.mb_counter.specs.Laws.{states_stay, answers_are_short, parts_give_the_state, one_list_of_parts};

    ghost machine = { count_machine };

    ghost states_stay = { states_stay };

    ghost answers_are_short = { answers_are_short };

    ghost parts_give_the_state = { parts_give_the_state };

    ghost one_list_of_parts = { one_list_of_parts };

    fn known(&self) {
        // A count has the range of its field.
        let _total = self.total;
    }

    fn apply(&mut self, alloc: Global, op: &[u8]) -> Result<Items<u8>, NoMemory> {
        match read_operation(op) {
            Operation::Add { amount } => self.add(alloc, amount),
            Operation::Tell => with_count(alloc, self.total),
            Operation::Bad => plain(alloc, BAD),
        }
    }

    fn snapshot(&self, alloc: Global, part: u8) -> Result<Items<u8>, NoMemory> {
        part_text(alloc, self.total, part)
    }

    fn part_digest(&mut self, alloc: Global, part: u8) -> Result<Digest, NoMemory> {
        let text = part_text(alloc, self.total, part)?;
        Ok(Sha256::digest(text.as_slice()))
    }

    fn restore(&mut self, _alloc: Global, parts: &[Items<u8>]) -> Result<(), Restore> {
        self.total = read_parts(parts)?;
        Ok(())
    }
}
