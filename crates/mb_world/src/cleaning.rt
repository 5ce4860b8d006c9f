//! The messages in which nothing is forged: what correct hosts sent, and what was looked through and found so.

use crate::world::World;
use mb_base::NoMemory;
use mb_members::note_clean;
use mb_schedule::Name;
use mb_service::Service;

impl<V: Service + Drop> World<V> {
    ghost use Rattle.std.specs.Prelude.{◌≡◌, false, OnOk};
    ghost use Rattle.mb_schedule.specs.Limits.{NameFits};
    ghost use Rattle.mb_world_model.specs.World.{World as WorldState, System};
    ghost use Rattle.mb_world_model.specs.WorldEvents.{is_faulty_name};
    ghost use Rattle.mb_members.specs.Marks.{IsCleanAt};
    ghost use Rattle.mb_world.specs.Tables.{RepresentsWorld};

    /// A message that is delivered needs no looking through again. To someone faulty it was delivered unseen.
    pub(crate) fn mark_clean(&mut self, name: Name, number: u64) -> Result<(), NoMemory>
        requires name { NameFits self.old.shape name }
        requires clean { (y : System V) (x : WorldState) → RepresentsWorld y self.old x → is_faulty_name y.schedule name ≡ false → IsCleanAt y.schedule x number }
        ensures stands { (y : System V) (x : WorldState) → RepresentsWorld y self.old x → OnOk result (RepresentsWorld y self.new x) }
        ensures members { self.new.members ≡ self.old.members }
        ensures halted { self.new.halted ≡ self.old.halted }
        ensures shape { self.new.shape ≡ self.old.shape }
        ensures events { self.new.events ≡ self.old.events }
    {
        if self.is_faulty(name) {
            return Ok(());
        }
        let count = self.pool.len() + 1;
        note_clean(&mut self.marks, count, number)
    }
}
