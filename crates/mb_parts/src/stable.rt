//! The bytes of stable certificates and of floor certificates.

ghost use Rattle.std.specs.Prelude.{◌≡◌, ◌↔◌, ◌++◌, ◌<◌, replicate, [], IfOk, IsTrue, OnOk};
ghost use Rattle.mb_base.specs.Shapes.{host_count, quorum};
ghost use Rattle.mb_base.specs.Fields.{place_of};
ghost use Rattle.mb_parts.specs.Decoded.{Decodes};
ghost use Rattle.mb_parts.specs.Counted.{counted};
ghost use Rattle.mb_parts.specs.Fits.{AreMembers, FitsFloors, FitsStableMember, FitsHeld, FitsStable, FitsFloorMember, FitsFloorCert};
ghost use Rattle.mb_parts.specs.Spelling.{floors_bytes, stable_member_bytes, held_bytes, stable_bytes, floor_member_bytes, floor_cert_bytes};
ghost use Rattle.mb_parts.specs.Reading.{floors_at, stable_member_at, held_at, stable_in, stable_at, floor_member_at, floor_cert_at};

use crate::certificates::{FloorCert, FloorMember, StableCert, StableMember};
use crate::counting::{count_bytes, count_u8, count_u64};
use crate::fault::Undecoded;
use crate::floor::Floor;
use crate::limits::MAX_POS;
use crate::numbers::{
    is_base, is_counter, read_counter, read_digest, read_member_host, read_point,
};
use crate::part::{
    Member, Part, Readable, all_fit, are_members, count_all, put_all, read_members, read_parts,
};
use mb_base::{Digest, Fields, Host, Items, NoMemory, Pos, Shape, put_bytes, put_u8, put_u64};
use std::alloc::Global;

impl Part for StableMember {
    ghost text = { stable_member_bytes };

    ghost valid = { FitsStableMember };

    fn fits(&self, shape: &Shape) -> bool {
        self.host < shape.n() && is_counter(self.counter)
    }

    #[tactic(auto, using(crate::proofs::CountedBytes::counted_behind), unfolding(crate::specs::Spelling::stable_member_bytes))]
    fn count(&self, shape: &Shape, so_far: usize) -> usize {
        let behind_counter = count_u64(count_u8(so_far, self.host), self.counter);
        count_bytes(count_bytes(behind_counter, &self.floors), &self.cert)
    }

    #[tactic(auto, unfolding(crate::specs::Spelling::stable_member_bytes))]
    fn put(&self, shape: &Shape, out: &mut Vec<u8>) -> Result<(), NoMemory> {
        put_u8(out, self.host)?;
        put_u64(out, self.counter)?;
        put_bytes(out, &self.floors)?;
        put_bytes(out, &self.cert)
    }
}

impl Member for StableMember {
    ghost member_reads = { stable_member_at };

    ghost host_of = { λ m. m.host };

    #[tactic(auto, unfolding(crate::specs::Reading::stable_member_at))]
    fn read_member(
        alloc: Global,
        shape: &Shape,
        left_out: Option<Host>,
        least: Host,
        fields: &mut Fields<'_>,
    ) -> Result<StableMember, Undecoded> {
        let host = read_member_host(shape, left_out, least, fields)?;
        let counter = read_counter(fields)?;
        let floors = read_digest(fields)?;
        let cert = read_digest(fields)?;
        Ok(StableMember {
            host,
            counter,
            floors,
            cert,
        })
    }

    fn host(&self) -> Host {
        self.host
    }
}

fn is_zero(state: &Digest) -> bool
    ensures { IsTrue result ↔ (state.now ≡ replicate 32 0) }
{
    *state == [0; 32]
}

/// Whether nothing is held, as at position 0.
fn is_nothing(state: &Digest, members: &Items<StableMember>) -> bool
    ensures { IsTrue result ↔ ((state.now ≡ replicate 32 0) × (members.now ≡ [])) }
{
    members.len() == 0 && is_zero(state)
}

#[tactic(auto, using(crate::proofs::Held::held_at_zero, crate::proofs::Held::held_above))]
fn held_fits(shape: &Shape, pos: Pos, state: &Digest, members: &Items<StableMember>) -> bool
    ensures { IsTrue result ↔ FitsHeld shape.now pos state.now members.now }
{
    if pos == 0 {
        return is_nothing(state, members);
    }
    are_members(shape, shape.quorum(), members)
}

#[tactic(auto, using(crate::proofs::Held::held_above))]
fn put_held(
    shape: &Shape,
    pos: Pos,
    state: &Digest,
    members: &Items<StableMember>,
    out: &mut Vec<u8>,
) -> Result<(), NoMemory>
    requires { FitsHeld shape.now pos state.now members.now }
    ensures { OnOk result (out.new.items ≡ out.old.items ++ held_bytes pos state.now members.now) }
{
    if pos == 0 {
        return Ok(());
    }
    put_bytes(out, state)?;
    put_all(shape, members.as_slice(), out)
}

#[tactic(auto, unfolding(crate::specs::Reading::held_at))]
fn read_held(
    alloc: Global,
    shape: &Shape,
    pos: Pos,
    fields: &mut Fields<'_>,
) -> Result<(Digest, Items<StableMember>), Undecoded>
    ensures { Decodes result fields.new (held_at shape.now pos (place_of fields.old)) }
{
    if pos == 0 {
        return Ok(([0; 32], Items::new(alloc)));
    }
    let state = read_digest(fields)?;
    let members = read_members(alloc, shape, None, shape.quorum(), fields)?;
    Ok((state, members))
}

#[tactic(auto, using(crate::proofs::CountedBytes::counted_behind, crate::proofs::CountedBytes::counted_nothing, crate::proofs::Held::held_above))]
fn count_held(
    shape: &Shape,
    so_far: usize,
    pos: Pos,
    state: &Digest,
    members: &Items<StableMember>,
) -> usize
    requires { FitsHeld shape.now pos state.now members.now }
    ensures { result ≡ counted so_far (held_bytes pos state.now members.now) }
{
    if pos == 0 {
        return so_far;
    }
    count_all(shape, count_bytes(so_far, state), members.as_slice())
}

impl Part for StableCert {
    ghost text = { stable_bytes };

    ghost valid = { FitsStable };

    fn fits(&self, shape: &Shape) -> bool {
        is_base(shape, self.pos) && held_fits(shape, self.pos, &self.state, &self.members)
    }

    #[tactic(auto, using(crate::proofs::CountedBytes::counted_behind), unfolding(crate::specs::Spelling::stable_bytes))]
    fn count(&self, shape: &Shape, so_far: usize) -> usize {
        let behind_pos = count_u64(so_far, self.pos);
        count_held(shape, behind_pos, self.pos, &self.state, &self.members)
    }

    #[tactic(auto, unfolding(crate::specs::Spelling::stable_bytes))]
    fn put(&self, shape: &Shape, out: &mut Vec<u8>) -> Result<(), NoMemory> {
        put_u64(out, self.pos)?;
        put_held(shape, self.pos, &self.state, &self.members, out)
    }
}

/// A stable certificate of a position from `low` up to `high`.
#[tactic(auto, unfolding(crate::specs::Reading::stable_in))]
pub fn read_stable_in(
    alloc: Global,
    shape: &Shape,
    low: Pos,
    high: Pos,
    fields: &mut Fields<'_>,
) -> Result<StableCert, Undecoded>
    ensures { Decodes result fields.new (stable_in shape.now low high (place_of fields.old)) }
{
    let pos = fields.multiple_in(u64::from(shape.k()), low, high)?;
    let (state, members) = read_held(alloc, shape, pos, fields)?;
    Ok(StableCert {
        pos,
        state,
        members,
    })
}

impl Readable for StableCert {
    ghost reads = { stable_at };

    fn read(
        alloc: Global,
        shape: &Shape,
        fields: &mut Fields<'_>,
    ) -> Result<StableCert, Undecoded> {
        read_stable_in(alloc, shape, 0, MAX_POS, fields)
    }
}

/// Whether there is a floor, or none, of each host, with allowed values.
pub fn floors_fit(shape: &Shape, floors: &Items<Option<Floor>>) -> bool
    ensures { IsTrue result ↔ FitsFloors shape.now floors.now }
{
    floors.len() == shape.n() as usize && all_fit(shape, floors.as_slice())
}

/// A floor, or none, of each host.
pub fn read_floors(
    alloc: Global,
    shape: &Shape,
    fields: &mut Fields<'_>,
) -> Result<Items<Option<Floor>>, Undecoded>
    ensures { Decodes result fields.new (floors_at shape.now (place_of fields.old)) }
{
    read_parts(alloc, shape, u64::from(shape.n()), fields)
}

impl Part for FloorMember {
    ghost text = { floor_member_bytes };

    ghost valid = { FitsFloorMember };

    fn fits(&self, shape: &Shape) -> bool {
        self.host < shape.n() && is_counter(self.counter) && floors_fit(shape, &self.floors)
    }

    #[tactic(auto, using(crate::proofs::CountedBytes::counted_behind), unfolding(crate::specs::Spelling::floor_member_bytes))]
    fn count(&self, shape: &Shape, so_far: usize) -> usize {
        let behind_counter = count_u64(count_u8(so_far, self.host), self.counter);
        let behind_floors = count_all(shape, behind_counter, self.floors.as_slice());
        count_bytes(behind_floors, &self.cert)
    }

    #[tactic(auto, unfolding(crate::specs::Spelling::floor_member_bytes))]
    fn put(&self, shape: &Shape, out: &mut Vec<u8>) -> Result<(), NoMemory> {
        put_u8(out, self.host)?;
        put_u64(out, self.counter)?;
        put_all(shape, self.floors.as_slice(), out)?;
        put_bytes(out, &self.cert)
    }
}

impl Member for FloorMember {
    ghost member_reads = { floor_member_at };

    ghost host_of = { λ m. m.host };

    #[tactic(auto, unfolding(crate::specs::Reading::floor_member_at))]
    fn read_member(
        alloc: Global,
        shape: &Shape,
        left_out: Option<Host>,
        least: Host,
        fields: &mut Fields<'_>,
    ) -> Result<FloorMember, Undecoded> {
        let host = read_member_host(shape, left_out, least, fields)?;
        let counter = read_counter(fields)?;
        let floors = read_floors(alloc, shape, fields)?;
        let cert = read_digest(fields)?;
        Ok(FloorMember {
            host,
            counter,
            floors,
            cert,
        })
    }

    fn host(&self) -> Host {
        self.host
    }
}

impl Part for FloorCert {
    ghost text = { floor_cert_bytes };

    ghost valid = { FitsFloorCert };

    fn fits(&self, shape: &Shape) -> bool {
        self.pos >= 1
            && is_base(shape, self.pos)
            && are_members(shape, shape.quorum(), &self.members)
    }

    #[tactic(auto, using(crate::proofs::CountedBytes::counted_behind), unfolding(crate::specs::Spelling::floor_cert_bytes))]
    fn count(&self, shape: &Shape, so_far: usize) -> usize {
        let behind_state = count_bytes(count_u64(so_far, self.pos), &self.state);
        count_all(shape, behind_state, self.members.as_slice())
    }

    #[tactic(auto, unfolding(crate::specs::Spelling::floor_cert_bytes))]
    fn put(&self, shape: &Shape, out: &mut Vec<u8>) -> Result<(), NoMemory> {
        put_u64(out, self.pos)?;
        put_bytes(out, &self.state)?;
        put_all(shape, self.members.as_slice(), out)
    }
}

impl Readable for FloorCert {
    ghost reads = { floor_cert_at };

    #[tactic(auto, unfolding(crate::specs::Reading::floor_cert_at))]
    fn read(alloc: Global, shape: &Shape, fields: &mut Fields<'_>) -> Result<FloorCert, Undecoded> {
        let pos = read_point(shape, fields)?;
        let state = read_digest(fields)?;
        let members = read_members(alloc, shape, None, shape.quorum(), fields)?;
        Ok(FloorCert {
            pos,
            state,
            members,
        })
    }
}
