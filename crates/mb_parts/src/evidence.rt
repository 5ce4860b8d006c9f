//! The bytes of the evidence of a view.

ghost use Rattle.std.specs.Prelude.{◌≡◌, ◌↔◌, ◌++◌, ◌^◌, ◌<◌, ◌≤◌, true, Some, IfOk, IsTrue, OnOk};
ghost use Rattle.std.specs.List.{AllByRecursion};
ghost use Rattle.mb_base.specs.Shapes.{primary};
ghost use Rattle.mb_base.specs.Reading.{is_other};
ghost use Rattle.mb_base.specs.Fields.{place_of};
ghost use Rattle.mb_parts.specs.Counted.{counted};
ghost use Rattle.mb_parts.specs.Decoded.{Decodes};
ghost use Rattle.mb_parts.specs.Fits.{FitsBackup, FitsEvidenceMember, FitsEvidence};
ghost use Rattle.mb_parts.specs.Spelling.{evidence_member_bytes, carried_bytes, evidence_bytes};
ghost use Rattle.mb_parts.specs.Reading.{evidence_member_at, evidence_in, evidence_at};

use crate::certificates::{Evidence, EvidenceMember};
use crate::counting::{count_bytes, count_u8, count_u64};
use crate::fault::Undecoded;
use crate::limits::MAX_VIEW;
use crate::numbers::{
    is_base, is_counter, is_end, is_position, read_base, read_counter, read_digest, read_end,
    read_member_host,
};
use crate::part::{Member, Part, Readable, count_all, put_all, read_members, rise};
use mb_base::{Fields, Host, NoMemory, Shape, View, put_bytes, put_u8, put_u64};
use std::alloc::Global;

impl Part for EvidenceMember {
    ghost text = { evidence_member_bytes };

    ghost valid = { FitsEvidenceMember };

    fn fits(&self, shape: &Shape) -> bool {
        self.host < shape.n() && is_counter(self.counter)
    }

    #[tactic(auto, using(crate::proofs::CountedBytes::counted_behind), unfolding(crate::specs::Spelling::evidence_member_bytes))]
    fn count(&self, shape: &Shape, so_far: usize) -> usize {
        let behind_counter = count_u64(count_u8(so_far, self.host), self.counter);
        count_bytes(behind_counter, &self.cert)
    }

    #[tactic(auto, unfolding(crate::specs::Spelling::evidence_member_bytes))]
    fn put(&self, shape: &Shape, out: &mut Vec<u8>) -> Result<(), NoMemory> {
        put_u8(out, self.host)?;
        put_u64(out, self.counter)?;
        put_bytes(out, &self.cert)
    }
}

impl Member for EvidenceMember {
    ghost member_reads = { evidence_member_at };

    ghost host_of = { λ m. m.host };

    #[tactic(auto, unfolding(crate::specs::Reading::evidence_member_at))]
    fn read_member(
        alloc: Global,
        shape: &Shape,
        left_out: Option<Host>,
        least: Host,
        fields: &mut Fields<'_>,
    ) -> Result<EvidenceMember, Undecoded> {
        let host = read_member_host(shape, left_out, least, fields)?;
        let counter = read_counter(fields)?;
        let cert = read_digest(fields)?;
        Ok(EvidenceMember {
            host,
            counter,
            cert,
        })
    }

    fn host(&self) -> Host {
        self.host
    }
}

/// Whether each member is of a backup of the view, and each field of it has an allowed value.
fn are_backups(shape: &Shape, view: View, members: &[EvidenceMember]) -> bool
    ensures { IsTrue result ↔ AllByRecursion (FitsBackup shape.now view) members.now }
{
    for member in members {
        if !member.fits(shape) || member.host == shape.primary(view) {
            return false;
        }
    }
    true
}

/// Appends where the view begins and ends, and the digests of its plan and of its NEW_VIEW's body.
fn put_carried(out: &mut Vec<u8>, evidence: &Evidence) -> Result<(), NoMemory>
    ensures { OnOk result (out.new.items ≡ out.old.items ++ carried_bytes evidence.now) }
{
    put_u64(out, evidence.base)?;
    put_u64(out, evidence.end)?;
    put_bytes(out, &evidence.plan)?;
    put_bytes(out, &evidence.body)
}

/// Counts where the view begins and ends, and the digests of its plan and of its NEW_VIEW's body.
#[tactic(auto, using(crate::proofs::CountedBytes::counted_behind))]
fn count_carried(so_far: usize, evidence: &Evidence) -> usize
    ensures { result ≡ counted so_far (carried_bytes evidence.now) }
{
    let behind_end = count_u64(count_u64(so_far, evidence.base), evidence.end);
    count_bytes(count_bytes(behind_end, &evidence.plan), &evidence.body)
}

impl Part for Evidence {
    ghost text = { evidence_bytes };

    ghost valid = { FitsEvidence };

    fn fits(&self, shape: &Shape) -> bool {
        is_position(self.view)
            && is_base(shape, self.base)
            && is_end(shape, self.base, self.end)
            && is_counter(self.counter)
            && self.members.len() == shape.f() as usize
            && rise(self.members.as_slice())
            && are_backups(shape, self.view, self.members.as_slice())
    }

    #[tactic(auto, using(crate::proofs::Held::backups_fit, crate::proofs::CountedBytes::counted_behind), unfolding(crate::specs::Spelling::evidence_bytes))]
    fn count(&self, shape: &Shape, so_far: usize) -> usize {
        let behind_carried = count_carried(count_u64(so_far, self.view), self);
        let behind_counter = count_u64(behind_carried, self.counter);
        let behind_cert = count_bytes(behind_counter, &self.cert);
        count_all(shape, behind_cert, self.members.as_slice())
    }

    #[tactic(auto, using(crate::proofs::Held::backups_fit), unfolding(crate::specs::Spelling::evidence_bytes))]
    fn put(&self, shape: &Shape, out: &mut Vec<u8>) -> Result<(), NoMemory> {
        put_u64(out, self.view)?;
        put_carried(out, self)?;
        put_u64(out, self.counter)?;
        put_bytes(out, &self.cert)?;
        put_all(shape, self.members.as_slice(), out)
    }
}

/// Evidence of a view from `low` up to `high`.
#[tactic(auto, unfolding(crate::specs::Reading::evidence_in))]
pub fn read_evidence_in(
    alloc: Global,
    shape: &Shape,
    low: View,
    high: View,
    fields: &mut Fields<'_>,
) -> Result<Evidence, Undecoded>
    ensures ordered { IfOk result (λ e. e.base ≤ e.end) }
    ensures read { Decodes result fields.new (evidence_in shape.now low high (place_of fields.old)) }
{
    let view = fields.u64_in(low, high)?;
    let base = read_base(shape, fields)?;
    let end = read_end(shape, base, fields)?;
    let plan = read_digest(fields)?;
    let body = read_digest(fields)?;
    let counter = read_counter(fields)?;
    let cert = read_digest(fields)?;
    let members = read_members(alloc, shape, Some(shape.primary(view)), shape.f(), fields)?;
    Ok(Evidence {
        view,
        base,
        end,
        plan,
        body,
        counter,
        cert,
        members,
    })
}

impl Readable for Evidence {
    ghost reads = { evidence_at };

    fn read(alloc: Global, shape: &Shape, fields: &mut Fields<'_>) -> Result<Evidence, Undecoded> {
        read_evidence_in(alloc, shape, 1, MAX_VIEW, fields)
    }
}
