//! The count, and what an addition does.

use crate::results::{FULL, plain, with_count};
use mb_base::{Items, NoMemory};
use std::alloc::Global;
use std::marker::Model;

/// A count. Contracts see the number.
#[derive(Drop)]
pub struct Counter {
    pub(crate) total: u64,
}

impl Model for Counter {
    ghost use Rattle.std.specs.Prelude.{ℕ};

    ghost Value = { ℕ };

    ghost view = { λ counter. counter.total };
}

impl Counter {
    ghost use Rattle.std.specs.Prelude.{◌≡◌, IfOk, OnOk, OnErr};
    ghost use Rattle.mb_service.specs.Parts.{IsShort};
    ghost use Rattle.mb_counter.specs.declared.operation.Operation.TheVariants.{Add};
    ghost use Rattle.mb_counter.specs.Operations.{after_operation, result_of};

    /// Nothing is counted yet.
    pub fn new() -> Counter
        ensures { result ≡ 0 }
    {
        Counter { total: 0 }
    }

    /// Counts so many more, where there is room for them.
    pub(crate) fn add(&mut self, alloc: Global, amount: u64) -> Result<Items<u8>, NoMemory>
        ensures answer { IfOk result (λ r. r ≡ result_of (Add amount) self.old) }
        ensures short { IfOk result IsShort }
        ensures state { OnOk result (self.new ≡ after_operation (Add amount) self.old) }
        ensures kept { OnErr result (self.new ≡ self.old) }
    {
        let Some(total) = self.total.checked_add(amount) else {
            return plain(alloc, FULL);
        };
        let result = with_count(alloc, total)?;
        self.total = total;
        Ok(result)
    }
}
