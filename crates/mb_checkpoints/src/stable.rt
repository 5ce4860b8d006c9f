//! Stable certificates. CHECKPOINTs count in either form.

ghost use Rattle.std.specs.Prelude.{◌≡◌};
ghost use Rattle.mb_base.specs.declared.shape.Shape.{Shape as ShapeValue};
ghost use Rattle.mb_model.specs.Stable.{stable_member};

use crate::agreement::{Said, push_some, says};
use crate::checkpoints::{Checkpoints, KeptCheckpoint};
use mb_base::{Host, Items, NoMemory};
use mb_msg::{StableCert, StableMember};
use std::alloc::Global;

/// The CHECKPOINT as a member of a certificate.
fn member(kept: &KeptCheckpoint) -> StableMember
    ensures { (s : ShapeValue) → result ≡ stable_member s kept.now.message }
{
    StableMember {
        host: kept.message.ui.host,
        counter: kept.message.ui.counter,
        floors: kept.floors,
        cert: kept.message.ui.cert,
    }
}

impl Checkpoints {
    ghost use Rattle.std.specs.Prelude.{◌≡◌, ◌≤◌, ◌+◌, ◌*◌, ◌<◌, ℕ, Option, Some, None, filter_map, option_and_then, IfOk};
    ghost use Rattle.mb_base.specs.Shapes.{interval, host_count};
    ghost use Rattle.mb_base.specs.declared.shape.Shape.{Shape as ShapeValue};
    ghost use Rattle.mb_msg.specs.declared.normal.Checkpoint.{Checkpoint};
    ghost use Rattle.mb_model.specs.Stable.{stable_member};
    ghost use Rattle.mb_checkpoints.specs.Kept.{Represents};
    ghost use Rattle.mb_checkpoints.specs.Agreement.{says};
    ghost use Rattle.mb_checkpoints.specs.Certificates.{stable_of_these, agreed_above, message_at, whole_row, first_quorum, if_so};

    /// The certificate of the greatest position above the stable one on which f+1 hosts agree. None exactly where there is none.
    pub fn stable(&self, alloc: Global) -> Result<Option<StableCert>, NoMemory>
        ensures { (s : ShapeValue) (low : ℕ) (search : ℕ → ℕ → Option Checkpoint) → Represents s self.now low search → IfOk result (λ c. c ≡ agreed_above s search low) }
    {
        if let Some(cert) = self.stable_at(alloc, self.first + 2)? {
            return Ok(Some(cert));
        }
        self.stable_at(alloc, self.first + 1)
    }

    /// The certificate of a multiple of the interval, of the f+1 lowest hosts that agree.
    fn stable_at(&self, alloc: Global, number: u64) -> Result<Option<StableCert>, NoMemory>
        requires { number ≤ self.now.first + 2 }
        ensures { IfOk result (λ c. c ≡ stable_of_these self.now.shape (number * interval self.now.shape) (whole_row self.now number)) }
    {
        let Some(said) = self.agreed(alloc, None, number)? else {
            return Ok(None);
        };
        Ok(Some(StableCert {
            pos: number * u64::from(self.shape.k()),
            state: said.state,
            members: self.stable_members(alloc, number, &said)?,
        }))
    }

    /// The f+1 lowest hosts that say this.
    fn stable_members(
        &self,
        alloc: Global,
        number: u64,
        said: &Said,
    ) -> Result<Items<StableMember>, NoMemory>
        requires { number ≤ self.now.first + 2 }
        ensures { IfOk result (λ ms. ms ≡ filter_map (λ m. Some (stable_member self.now.shape m)) (first_quorum None said.now self.now number)) }
    {
        let mut members = Items::new(alloc);
        for host in 0..self.shape.n() {
            if members.len() >= usize::from(self.shape.quorum()) {
                return Ok(members);
            }
            push_some(&mut members, self.stable_member(number, host, said))?;
        }
        Ok(members)
    }

    /// The CHECKPOINT of a host as a member, where it says this.
    fn stable_member(&self, number: u64, host: Host, said: &Said) -> Option<StableMember>
        requires host { host < host_count self.now.shape }
        requires number { number ≤ self.now.first + 2 }
        ensures { result ≡ option_and_then (λ m. if_so (says None said.now m) (Some (stable_member self.now.shape m))) (message_at self.now number host) }
    {
        match self.get(number, host) {
            Some(kept) if says(None, &kept.message, said) => Some(member(kept)),
            _ => None,
        }
    }
}
