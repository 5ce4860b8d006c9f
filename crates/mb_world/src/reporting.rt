//! The report of a world.

use crate::world::World;
use mb_base::{Items, NoMemory, duplicate_all};
use mb_members::{client_lines, host_lines, refused_lines};
use mb_schedule::Report;
use mb_service::Service;
use std::alloc::Global;

impl<V: Service + Drop> World<V> {
    ghost use Rattle.std.specs.Prelude.{◌≡◌, IfOk};
    ghost use Rattle.mb_world_model.specs.World.{World as WorldState, System};
    ghost use Rattle.mb_world.specs.Reports.{report_of};
    ghost use Rattle.mb_world.specs.Tables.{RepresentsWorld};

    /// The report of this world.
    pub fn report(&self, alloc: Global) -> Result<Report, NoMemory>
        ensures { (y : System V) (x : WorldState) → RepresentsWorld y self.now x → IfOk result (λ r. r ≡ report_of y x) }
    {
        Ok(Report {
            events: self.events,
            messages: self.pool.len() as u64,
            line: Items::from_vec(duplicate_all(alloc, self.line.as_slice())?),
            refused: refused_lines(alloc, self.refused.as_slice())?,
            hosts: host_lines(alloc, self.members.as_slice())?,
            clients: client_lines(alloc, self.askers.as_slice())?,
        })
    }
}
