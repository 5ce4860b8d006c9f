//! The certificates of floors. CHECKPOINTs count whole alone.

ghost use Rattle.std.specs.Prelude.{◌≡◌, Some, option_map, IfOk};
ghost use Rattle.mb_base.specs.declared.shape.Shape.{Shape as ShapeValue};
ghost use Rattle.mb_model.specs.Stable.{kept_floor, floor_member};
ghost use Rattle.mb_checkpoints.specs.Agreement.{says};
ghost use Rattle.mb_checkpoints.specs.Certificates.{if_so};

use crate::agreement::{Said, push_some, says, whole_floors};
use crate::checkpoints::Checkpoints;
use mb_base::{Duplicate, Host, Items, NoMemory};
use mb_msg::{Checkpoint, FloorCert, FloorMember};
use std::alloc::Global;

/// The CHECKPOINT as a member of a certificate, where it says this of the state and of the floor of a host.
fn member_saying(
    alloc: Global,
    owner: Host,
    said: &Said,
    message: &Checkpoint,
) -> Result<Option<FloorMember>, NoMemory>
    ensures { (s : ShapeValue) → IfOk result (λ m. m ≡ if_so (says (Some owner) said.now message.now) (option_map (floor_member s) (kept_floor owner message.now))) }
{
    if !says(Some(owner), message, said) {
        return Ok(None);
    }
    let Some(floors) = whole_floors(message) else {
        return Ok(None);
    };
    Ok(Some(FloorMember {
        host: message.ui.host,
        counter: message.ui.counter,
        floors: floors.floors.duplicate(alloc)?,
        cert: message.ui.cert,
    }))
}

impl Checkpoints {
    ghost use Rattle.std.specs.Prelude.{◌≡◌, ◌≤◌, ◌<◌, ◌+◌, ◌*◌, ℕ, Option, Some, filter_map, option_map, option_and_then, IfOk};
    ghost use Rattle.mb_base.specs.Shapes.{interval, host_count};
    ghost use Rattle.mb_base.specs.declared.shape.Shape.{Shape as ShapeValue};
    ghost use Rattle.mb_msg.specs.declared.normal.Checkpoint.{Checkpoint};
    ghost use Rattle.mb_model.specs.Stable.{kept_floor, floor_member};
    ghost use Rattle.mb_checkpoints.specs.Kept.{Represents};
    ghost use Rattle.mb_checkpoints.specs.Agreement.{says};
    ghost use Rattle.mb_checkpoints.specs.Certificates.{floor_of_these, floor_from, lower_floor, message_at, whole_row, first_quorum, if_so};

    /// The certificate of the greatest position at which f+1 whole CHECKPOINTs agree in the state and in a floor for this host. None exactly
    /// where there is none.
    pub fn floor_of(&self, alloc: Global, owner: Host) -> Result<Option<FloorCert>, NoMemory>
        ensures { (s : ShapeValue) (low : ℕ) (search : ℕ → ℕ → Option Checkpoint) → Represents s self.now low search → IfOk result (λ c. c ≡ floor_from s search owner low) }
    {
        if let Some(cert) = self.floor_at(alloc, owner, self.first + 2)? {
            return Ok(Some(cert));
        }
        self.lower_floor_of(alloc, owner)
    }

    /// The certificate of the greater of the two lower positions.
    fn lower_floor_of(&self, alloc: Global, owner: Host) -> Result<Option<FloorCert>, NoMemory>
        ensures { (s : ShapeValue) (low : ℕ) (search : ℕ → ℕ → Option Checkpoint) → Represents s self.now low search → IfOk result (λ c. c ≡ lower_floor s search owner low) }
    {
        if let Some(cert) = self.floor_at(alloc, owner, self.first + 1)? {
            return Ok(Some(cert));
        }
        self.floor_at(alloc, owner, self.first)
    }

    /// The certificate of a multiple of the interval, of the f+1 lowest hosts that agree.
    fn floor_at(
        &self,
        alloc: Global,
        owner: Host,
        number: u64,
    ) -> Result<Option<FloorCert>, NoMemory>
        requires { number ≤ self.now.first + 2 }
        ensures { IfOk result (λ c. c ≡ floor_of_these self.now.shape (number * interval self.now.shape) (filter_map (kept_floor owner) (whole_row self.now number))) }
    {
        let Some(said) = self.agreed(alloc, Some(owner), number)? else {
            return Ok(None);
        };
        Ok(Some(FloorCert {
            pos: number * u64::from(self.shape.k()),
            state: said.state,
            members: self.floor_members(alloc, owner, number, &said)?,
        }))
    }

    /// The f+1 lowest hosts that say this.
    fn floor_members(
        &self,
        alloc: Global,
        owner: Host,
        number: u64,
        said: &Said,
    ) -> Result<Items<FloorMember>, NoMemory>
        requires { number ≤ self.now.first + 2 }
        ensures { IfOk result (λ ms. ms ≡ filter_map (λ m. option_map (floor_member self.now.shape) (kept_floor owner m)) ((first_quorum (Some owner) said.now self.now number))) }
    {
        let mut members = Items::new(alloc);
        for host in 0..self.shape.n() {
            if members.len() >= usize::from(self.shape.quorum()) {
                return Ok(members);
            }
            let member = self.floor_member(alloc, owner, number, host, said)?;
            push_some(&mut members, member)?;
        }
        Ok(members)
    }

    /// The CHECKPOINT of a host as a member, where it says this.
    fn floor_member(
        &self,
        alloc: Global,
        owner: Host,
        number: u64,
        host: Host,
        said: &Said,
    ) -> Result<Option<FloorMember>, NoMemory>
        requires host { host < host_count self.now.shape }
        requires number { number ≤ self.now.first + 2 }
        ensures { IfOk result (λ m. m ≡ option_and_then (λ c. if_so (says (Some owner) said.now c) (option_map (floor_member self.now.shape) (kept_floor owner c))) (message_at self.now number host)) }
    {
        match self.get(number, host) {
            Some(kept) => member_saying(alloc, owner, said, &kept.message),
            None => Ok(None),
        }
    }
}
