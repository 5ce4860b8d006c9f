//! The bytes of the messages by which a host that was away comes back.

ghost use Rattle.std.specs.Prelude.{◌-◌, ◌≤◌, IfOk};
ghost use Rattle.std.specs.Int.{w8};
ghost use Rattle.mb_base.specs.Limits.{part_count, table_part};
ghost use Rattle.mb_base.specs.Fields.{place_of};
ghost use Rattle.mb_base.specs.Spelling.{number};
ghost use Rattle.mb_base.specs.Reading.{number_in, list_in};
ghost use Rattle.mb_parts.specs.Decoded.{Decodes};
ghost use Rattle.mb_parts.specs.Reading.{state_part_at};
ghost use Rattle.mb_msg.specs.Fits.{FitsResend, FitsLog, FitsFetch, FitsState};
ghost use Rattle.mb_msg.specs.Spelling.{resend_bytes, log_bytes, fetch_bytes, state_bytes};
ghost use Rattle.mb_msg.specs.Reading.{resend_at, log_at, fetch_at, state_parts_at, state_at};

use crate::stamped::Stamped;
use crate::transfer::{Fetch, Log, Resend, StateMsg};
use mb_base::{Fields, Items, NoMemory, Shape, put_u8, put_u64};
use mb_parts::{
    MAX_ENTRIES, PART_COUNT, Part, Readable, StableCert, Undecoded, all_fit, count_all,
    count_listed, count_u8, count_u64, is_base, is_place, put_all, put_listed, read_host,
    read_listed, read_parts, read_place, read_point,
};
use std::alloc::Global;

impl Part for Resend {
    ghost text = { resend_bytes };

    ghost valid = { FitsResend };

    fn fits(&self, shape: &Shape) -> bool {
        self.host < shape.n()
            && is_place(self.low)
            && self.nexts.len() == shape.n() as usize
            && all_fit(shape, self.nexts.as_slice())
    }

    #[tactic(auto, using(mb_parts::proofs::CountedBytes::counted_behind), unfolding(crate::specs::Spelling::resend_bytes))]
    fn count(&self, shape: &Shape, so_far: usize) -> usize {
        let so_far = count_u8(so_far, self.host);
        let so_far = count_u64(so_far, self.low);
        count_all(shape, so_far, self.nexts.as_slice())
    }

    #[tactic(auto, unfolding(crate::specs::Spelling::resend_bytes))]
    fn put(&self, shape: &Shape, out: &mut Vec<u8>) -> Result<(), NoMemory> {
        put_u8(out, self.host)?;
        put_u64(out, self.low)?;
        put_all(shape, self.nexts.as_slice(), out)
    }
}

impl Readable for Resend {
    ghost reads = { resend_at };

    #[tactic(auto, unfolding(crate::specs::Reading::resend_at))]
    fn read(alloc: Global, shape: &Shape, fields: &mut Fields<'_>) -> Result<Resend, Undecoded> {
        let host = read_host(shape, fields)?;
        let low = read_place(fields)?;
        let nexts = read_parts(alloc, shape, u64::from(shape.n()), fields)?;
        Ok(Resend { host, low, nexts })
    }
}

impl Part for Log {
    ghost text = { log_bytes };

    ghost valid = { FitsLog };

    fn fits(&self, shape: &Shape) -> bool {
        self.host < shape.n()
            && self.floor.fits(shape)
            && self.stable.fits(shape)
            && self.evidence.fits(shape)
            && self.entries.len() <= MAX_ENTRIES as usize
            && all_fit(shape, self.entries.as_slice())
    }

    #[tactic(auto, using(mb_parts::proofs::CountedBytes::counted_behind), unfolding(crate::specs::Spelling::log_bytes))]
    fn count(&self, shape: &Shape, so_far: usize) -> usize {
        let so_far = count_u8(so_far, self.host);
        let so_far = self.floor.count(shape, so_far);
        let so_far = self.stable.count(shape, so_far);
        let so_far = self.evidence.count(shape, so_far);
        count_listed(shape, so_far, &self.entries)
    }

    #[tactic(auto, unfolding(crate::specs::Spelling::log_bytes))]
    fn put(&self, shape: &Shape, out: &mut Vec<u8>) -> Result<(), NoMemory> {
        put_u8(out, self.host)?;
        self.floor.put(shape, out)?;
        self.stable.put(shape, out)?;
        self.evidence.put(shape, out)?;
        put_listed(shape, &self.entries, out)
    }
}

impl Readable for Log {
    ghost reads = { log_at };

    #[tactic(auto, unfolding(crate::specs::Reading::log_at))]
    fn read(alloc: Global, shape: &Shape, fields: &mut Fields<'_>) -> Result<Log, Undecoded> {
        let host = read_host(shape, fields)?;
        let floor = Readable::read(alloc, shape, fields)?;
        let stable = StableCert::read(alloc, shape, fields)?;
        let evidence = Readable::read(alloc, shape, fields)?;
        let entries = read_listed(alloc, shape, MAX_ENTRIES, fields)?;
        Ok(Log {
            host,
            floor,
            stable,
            evidence,
            entries,
        })
    }
}

impl Part for Fetch {
    ghost text = { fetch_bytes };

    ghost valid = { FitsFetch };

    fn fits(&self, shape: &Shape) -> bool {
        self.host < shape.n()
            && self.of < shape.n()
            && self.pos >= 1
            && is_base(shape, self.pos)
            && self.first < PART_COUNT
    }

    #[tactic(auto, using(mb_parts::proofs::CountedBytes::counted_behind), unfolding(crate::specs::Spelling::fetch_bytes))]
    fn count(&self, shape: &Shape, so_far: usize) -> usize {
        let so_far = count_u8(so_far, self.host);
        let so_far = count_u8(so_far, self.of);
        let so_far = count_u64(so_far, self.pos);
        count_u8(so_far, self.first)
    }

    #[tactic(auto, unfolding(crate::specs::Spelling::fetch_bytes))]
    fn put(&self, shape: &Shape, out: &mut Vec<u8>) -> Result<(), NoMemory> {
        put_u8(out, self.host)?;
        put_u8(out, self.of)?;
        put_u64(out, self.pos)?;
        put_u8(out, self.first)
    }
}

impl Readable for Fetch {
    ghost reads = { fetch_at };

    #[tactic(auto, unfolding(crate::specs::Reading::fetch_at))]
    fn read(alloc: Global, shape: &Shape, fields: &mut Fields<'_>) -> Result<Fetch, Undecoded> {
        let host = read_host(shape, fields)?;
        let of = read_host(shape, fields)?;
        let pos = read_point(shape, fields)?;
        let first = read_first(fields)?;
        Ok(Fetch {
            host,
            of,
            pos,
            first,
        })
    }
}

/// The parts behind the first one's number: at least one.
#[tactic(auto, unfolding(mb_base::specs::Reading::list_in))]
fn read_parts_behind(
    alloc: Global,
    shape: &Shape,
    first: u8,
    fields: &mut Fields<'_>,
) -> Result<Items<Items<u8>>, Undecoded>
    requires { first ≤ table_part }
    ensures { Decodes result fields.new (list_in w8 1 (part_count - first) state_part_at (place_of fields.old)) }
{
    let count = fields.u8_in(1, PART_COUNT - first)?;
    read_parts(alloc, shape, u64::from(count), fields)
}

/// The number of the first part that is there.
#[tactic(auto, unfolding(mb_base::specs::Reading::number_in))]
fn read_first(fields: &mut Fields<'_>) -> Result<u8, Undecoded>
    ensures below { IfOk result (λ n. n ≤ table_part) }
    ensures read { Decodes result fields.new (number_in w8 0 table_part (place_of fields.old)) }
{
    Ok(fields.u8_in(0, PART_COUNT - 1)?)
}

/// The number of the first part that is there, and at least one part.
fn read_some_parts(
    alloc: Global,
    shape: &Shape,
    fields: &mut Fields<'_>,
) -> Result<(u8, Items<Items<u8>>), Undecoded>
    ensures { Decodes result fields.new (state_parts_at (place_of fields.old)) }
{
    let first = read_first(fields)?;
    let parts = read_parts_behind(alloc, shape, first, fields)?;
    Ok((first, parts))
}

impl Part for StateMsg {
    ghost text = { state_bytes };

    ghost valid = { FitsState };

    fn fits(&self, shape: &Shape) -> bool {
        self.host < shape.n()
            && self.pos >= 1
            && is_base(shape, self.pos)
            && self.digests.len() == PART_COUNT as usize
            && all_fit(shape, self.digests.as_slice())
            && self.first < PART_COUNT
            && self.parts.len() >= 1
            && self.parts.len() <= (PART_COUNT - self.first) as usize
            && all_fit(shape, self.parts.as_slice())
    }

    #[tactic(auto, using(mb_parts::proofs::CountedBytes::counted_behind), unfolding(crate::specs::Spelling::state_bytes))]
    fn count(&self, shape: &Shape, so_far: usize) -> usize {
        let so_far = count_u8(so_far, self.host);
        let so_far = count_u64(so_far, self.pos);
        let so_far = count_all(shape, so_far, self.digests.as_slice());
        let so_far = count_u8(so_far, self.first);
        let so_far = count_u8(so_far, self.parts.len() as u8);
        count_all(shape, so_far, self.parts.as_slice())
    }

    #[tactic(auto, unfolding(crate::specs::Spelling::state_bytes))]
    fn put(&self, shape: &Shape, out: &mut Vec<u8>) -> Result<(), NoMemory> {
        put_u8(out, self.host)?;
        put_u64(out, self.pos)?;
        put_all(shape, self.digests.as_slice(), out)?;
        put_u8(out, self.first)?;
        put_u8(out, self.parts.len() as u8)?;
        put_all(shape, self.parts.as_slice(), out)
    }
}

impl Readable for StateMsg {
    ghost reads = { state_at };

    #[tactic(auto, unfolding(crate::specs::Reading::state_at))]
    fn read(alloc: Global, shape: &Shape, fields: &mut Fields<'_>) -> Result<StateMsg, Undecoded> {
        let host = read_host(shape, fields)?;
        let pos = read_point(shape, fields)?;
        let digests = read_parts(alloc, shape, u64::from(PART_COUNT), fields)?;
        let (first, parts) = read_some_parts(alloc, shape, fields)?;
        Ok(StateMsg {
            host,
            pos,
            digests,
            first,
            parts,
        })
    }
}
