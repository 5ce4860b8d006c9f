//! Parts that are plain values: counters, digests, and the parts of a state.

ghost use Rattle.std.specs.Int.{w32, w64};
ghost use Rattle.mb_base.specs.Spelling.{number, text as length_and_text};
ghost use Rattle.mb_parts.specs.Fits.{IsCounter, IsDigest, FitsStatePart};
ghost use Rattle.mb_parts.specs.Reading.{counter_at, digest_at, state_part_at};

use crate::counting::{count_bytes, count_u32, count_u64};
use crate::fault::Undecoded;
use crate::numbers::{is_counter, read_counter, read_digest};
use crate::part::{Part, Readable};
use mb_base::{Counter, Digest, Fields, Items, NoMemory, Shape, put_bytes, put_u32, put_u64};
use std::alloc::Global;

impl Part for Counter {
    ghost text = { number w64 };

    ghost valid = { λ s. IsCounter };

    fn fits(&self, shape: &Shape) -> bool {
        is_counter(*self)
    }

    fn count(&self, shape: &Shape, so_far: usize) -> usize {
        count_u64(so_far, *self)
    }

    fn put(&self, shape: &Shape, out: &mut Vec<u8>) -> Result<(), NoMemory> {
        put_u64(out, *self)
    }
}

impl Readable for Counter {
    ghost reads = { λ s. counter_at };

    fn read(alloc: Global, shape: &Shape, fields: &mut Fields<'_>) -> Result<Counter, Undecoded> {
        read_counter(fields)
    }
}

impl Part for Digest {
    ghost text = { λ d. d };

    ghost valid = { λ s. IsDigest };

    /// A digest has its length by its type.
    fn fits(&self, shape: &Shape) -> bool {
        true
    }

    fn count(&self, shape: &Shape, so_far: usize) -> usize {
        count_bytes(so_far, self)
    }

    fn put(&self, shape: &Shape, out: &mut Vec<u8>) -> Result<(), NoMemory> {
        put_bytes(out, self)
    }
}

impl Readable for Digest {
    ghost reads = { λ s. digest_at };

    fn read(alloc: Global, shape: &Shape, fields: &mut Fields<'_>) -> Result<Digest, Undecoded> {
        read_digest(fields)
    }
}

/// A part of a state, behind its length in four bytes.
impl Part for Items<u8> {
    ghost text = { length_and_text w32 };

    ghost valid = { λ s. FitsStatePart };

    fn fits(&self, shape: &Shape) -> bool {
        self.len() <= u32::MAX as usize
    }

    #[tactic(auto, using(crate::proofs::CountedBytes::counted_behind))]
    fn count(&self, shape: &Shape, so_far: usize) -> usize {
        count_bytes(count_u32(so_far, self.len() as u32), self.as_slice())
    }

    fn put(&self, shape: &Shape, out: &mut Vec<u8>) -> Result<(), NoMemory> {
        put_u32(out, self.len() as u32)?;
        put_bytes(out, self.as_slice())
    }
}

impl Readable for Items<u8> {
    ghost reads = { λ s. state_part_at };

    fn read(alloc: Global, shape: &Shape, fields: &mut Fields<'_>) -> Result<Items<u8>, Undecoded> {
        let bytes = fields.text32()?;
        Ok(Items::from_vec(Vec::from_slice(alloc, bytes)?))
    }
}
