//! The parts of the state that is fetched.

ghost use Rattle.std.specs.Prelude.{◌≡◌, ◌+◌, ◌<◌, ◌≤◌, ℕ, [], length, replicate, IfOk};
ghost use Rattle.mb_base.specs.Limits.{part_count};
ghost use Rattle.mb_base.specs.Shapes.{Bytes};

use crate::checking::check;
use mb_base::{Digest, Duplicate, Items, NoMemory, Pos};
use mb_msg::StateMsg;
use mb_parts::PART_COUNT;
use std::alloc::Global;
use std::marker::Model;

/// How many parts a state has.
const COUNT: u8 = PART_COUNT;

/// Why the parts of a STATE were not kept.
#[derive(Clone, Copy, Debug, PartialEq, Eq)]
pub enum Kept {
    /// The first part whose digest is another than the certified one, and its digest. 65 is the list of digests.
    WrongDigest { part: u8, found: Digest },
    NoMemory,
}

impl From<NoMemory> for Kept {
    ghost use Rattle.mb_fetch.specs.declared.parts.Kept.TheVariants as kept;

    ghost from_gives = { λ _ e. e ≡ kept.NoMemory };

    fn from(_e: NoMemory) -> Kept {
        Kept::NoMemory
    }
}

/// The first part that is missing, and the parts.
#[derive(Drop)]
pub struct Missing {
    pub part: u8,
    pub parts: Parts,
}

/// The fetched parts of the state at a position, whose state digest is certified: by number, what `part_of` finds in a host's history.
///
/// Each part that is held has the SHA-256 that a list of digests has at its place, which gives the certified state digest. A part that is not
/// held is empty.
#[derive(Drop)]
pub struct Parts {
    pos: Pos,
    digest: Digest,
    parts: Vec<Items<u8>>,
    is_held: [bool; COUNT as usize],
}

impl Model for Parts {
    ghost use Rattle.mb_fetch.specs.Fetched.{Fetched};

    ghost Value = { Fetched };

    ghost use Rattle.mb_fetch.specs.Inside.{seen};
    ghost use Rattle.mb_fetch.specs.Fetched.{IsFetched};

    ghost view = { seen };

    ghost invariant = { λ p. IsFetched (seen p) };
}

impl Parts {
    ghost use Rattle.std.specs.Prelude.{◌≡◌, ◌+◌, ◌<◌, ◌≤◌, ◌∷◌, [], ℕ, Option, Some, None, is_some, length, slice_get, IfOk, OnOk, OnErr};
    ghost use Rattle.std.specs.Option.{option_or};
    ghost use Rattle.mb_base.specs.Limits.{part_count};
    ghost use Rattle.mb_base.specs.Shapes.{Bytes};
    ghost use Rattle.mb_fetch.specs.Fetched.{part_at, IsCertified};
    ghost use Rattle.mb_fetch.specs.Checks.{HasParts, Keeps, first_wrong};
    ghost use Rattle.mb_fetch.specs.Parts.{Represents, StandsWith, part_from, first_missing, in_places};
    ghost use Rattle.mb_fetch.specs.Assembled.{Assembles};

    /// No part is held.
    pub fn make(alloc: Global, pos: Pos, digest: Digest) -> Result<Parts, NoMemory>
        ensures { IfOk result (λ t. Represents t pos digest (λ i. None)) }
    {
        Ok(Parts {
            pos,
            digest,
            parts: empty_parts(alloc)?,
            is_held: [false; COUNT as usize],
        })
    }

    /// The position of the state.
    pub fn pos(&self) -> Pos
        ensures { result ≡ self.now.pos }
    {
        self.pos
    }

    /// Keeps the parts of a STATE that are not held yet, where the list of digests and each of its parts are those that are certified. An error
    /// changes nothing.
    pub fn keep(&mut self, alloc: Global, state: &StateMsg) -> Result<(), Kept>
        requires position { state.now.pos ≡ self.old.pos }
        requires parts { HasParts state.now }
        ensures answer { Keeps (first_wrong self.old.digest state.now) state.now result }
        ensures stands { OnOk result (StandsWith self.old state.now self.new) }
        ensures err { OnErr result (self.new ≡ self.old) }
    {
        check(&self.digest, state)?;
        let parts = copies_of(alloc, &state.parts)?;
        self.take_all(state.first, parts);
        Ok(())
    }

    /// Takes parts from a number on, of which each is certified, where they are not held.
    fn take_all(&mut self, first: u8, parts: Vec<Items<u8>>)
        requires within { first + length parts.items ≤ part_count }
        requires certified { (i : ℕ) (part : Bytes) → part_from first parts.items i ≡ Some part → IsCertified self.old.pos self.old.digest i part }
        ensures pos { self.new.pos ≡ self.old.pos }
        ensures digest { self.new.digest ≡ self.old.digest }
        ensures taken { (i : ℕ) → part_at self.new i ≡ option_or (part_at self.old i) (part_from first parts.items i) }
    {
        let mut place = usize::from(first);
        for part in parts {
            self.take(place, part);
            place += 1;
        }
    }

    /// Takes a part that is certified, where it is not held.
    fn take(&mut self, place: usize, part: Items<u8>)
        requires within { place < part_count }
        requires certified { IsCertified self.old.pos self.old.digest place part }
        ensures pos { self.new.pos ≡ self.old.pos }
        ensures digest { self.new.digest ≡ self.old.digest }
        ensures taken { (i : ℕ) → part_at self.new i ≡ option_or (part_at self.old i) (part_from place (part ∷ []) i) }
    {
        if !self.is_held[place] {
            self.parts[place] = part;
            self.is_held[place] = true;
        }
    }

    /// The first part that is not held.
    pub fn missing(&self) -> Option<u8>
        ensures part { result ≡ first_missing (part_at self.now) }
        ensures stands { (pos : ℕ) (digest : Bytes) (search : ℕ → Option Bytes) → Represents self.now pos digest search → result ≡ first_missing search }
    {
        for part in 0..COUNT {
            if !self.is_held[usize::from(part)] {
                return Some(part);
            }
        }
        None
    }

    /// Whether a part is held. There is none above 64.
    pub fn held(&self, part: u8) -> bool
        ensures part { result ≡ is_some (part_at self.now part) }
        ensures stands { (pos : ℕ) (digest : Bytes) (search : ℕ → Option Bytes) → Represents self.now pos digest search → result ≡ is_some (search part) }
    {
        part < COUNT && self.is_held[usize::from(part)]
    }

    /// All 65 parts, each of them certified. Where one is not held, the first of these and the parts as they were.
    pub fn assemble(self) -> Result<Vec<Items<u8>>, Missing>
        ensures { Assembles self result }
    {
        if let Some(part) = self.missing() {
            return Err(Missing { part, parts: self });
        }
        let Parts { parts, .. } = self;
        Ok(parts)
    }

    /// All 65 parts, of which those that are not held are empty.
    pub fn all(&self) -> &[Items<u8>]
        ensures parts { result.now ≡ self.now.parts }
        ensures stands { (pos : ℕ) (digest : Bytes) (search : ℕ → Option Bytes) → Represents self.now pos digest search → result.now ≡ in_places search }
    {
        self.parts.as_slice()
    }
}

fn empty_parts(alloc: Global) -> Result<Vec<Items<u8>>, NoMemory>
    ensures { IfOk result (λ v. v.items ≡ replicate part_count []) }
{
    let mut parts = Vec::with_capacity(alloc, usize::from(COUNT))?;
    for _ in 0..COUNT {
        parts.push(Items::new(alloc))?;
    }
    Ok(parts)
}

fn copies_of(alloc: Global, parts: &Items<Items<u8>>) -> Result<Vec<Items<u8>>, NoMemory>
    ensures { IfOk result (λ v. v.items ≡ parts.now) }
{
    Ok(parts.duplicate(alloc)?.into_vec())
}
