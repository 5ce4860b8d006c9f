//! The batch that the primary orders next.

use crate::filling::Filling;
use crate::normal::Normal;
use mb_base::NoMemory;
use mb_msg::{Batch, Requests};
use std::alloc::Global;

impl Normal {
    ghost use Rattle.std.specs.Prelude.{◌≡◌, ◌≢◌, ℕ, [], Some, IfOk};
    ghost use Rattle.mb_base.specs.declared.shape.Shape.{Shape as ShapeValue};
    ghost use Rattle.mb_model.specs.Batches.{first_batch};
    ghost use Rattle.mb_normal.specs.Searches.{Searches, unordered};
    ghost use Rattle.mb_normal.specs.Tables.{Represents};

    /// The pending requests of the clients that have one above their greatest number in the slots, from the lowest client on, up to 16
    /// requests, or before the first with which they would pass 2,048 bytes. There is such a client.
    pub fn batch(&self, alloc: Global) -> Result<Batch, NoMemory>
        ensures { (s : ShapeValue) (h : ℕ) (x : Searches) → Represents s h self.now x → unordered s x ≢ [] → IfOk result (λ b. Some b ≡ first_batch (unordered s x)) }
    {
        let mut filling = Filling::new(alloc);
        for client in 0..self.shape.clients() {
            if !filling.add(alloc, self.unordered_of(client))? {
                return Ok(Batch {
                    requests: Requests::from_items(filling.requests),
                });
            }
        }
        Ok(Batch {
            requests: Requests::from_items(filling.requests),
        })
    }
}
