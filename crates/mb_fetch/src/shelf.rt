//! The snapshots that a host keeps for others.

ghost use Rattle.std.specs.Prelude.{◌≡◌, ◌==◌, find, option_map, IfOk};
ghost use Rattle.mb_fetch.specs.Shelves.{bytes_of};

use crate::keys::{drop_unused, shelve};
use crate::shelved::{HashedPart, Keyed};
use mb_base::{Digest, Items, NoMemory, Pos};
use mb_parts::PART_COUNT;
use slab::Slab;
use std::alloc::Global;
use std::marker::Model;

/// The most snapshots that are kept at a time.
const MAX_SNAPSHOTS: usize = 3;

/// The most parts that these have, 65 each.
const MAX_PARTS: usize = PART_COUNT as usize * MAX_SNAPSHOTS;

/// For each executed position that is a multiple of the interval, from the stable position on, the parts of the state behind it: what
/// `snapshot_of` finds in a host's history.
///
/// The lowest position comes first. Equal parts are held once: the snapshots have keys, and no two keys have equal parts. No part is held that
/// is in no snapshot.
#[derive(Drop)]
pub struct Shelf {
    snapshots: Vec<Keyed>,
    held: Slab<HashedPart>,
}

impl Model for Shelf {
    ghost use Rattle.std.specs.Prelude.{List};
    ghost use Rattle.mb_fetch.specs.Snapshots.{Snapshot};
    ghost use Rattle.mb_fetch.specs.Shelves.{IsShelf, part_under, seen};

    ghost Value = { List Snapshot };

    ghost view = { λ s. seen (part_under s.held) s.snapshots.items };

    ghost invariant = { λ s. IsShelf s.snapshots.items (part_under s.held) };
}

impl Shelf {
    ghost use Rattle.std.specs.Prelude.{◌≡◌, ◌<◌, ◌≤◌, ◌++◌, ◌∷◌, [], List, ℕ, Option, None, nat_le, is_some, length, option_map, IfOk, OnOk, OnErr};
    ghost use Rattle.std.specs.List.{filter};
    ghost use Rattle.sha2.specs.Sha256.{sha256};
    ghost use Rattle.mb_base.specs.Limits.{part_count, snapshot_limit};
    ghost use Rattle.mb_base.specs.Shapes.{Bytes};
    ghost use Rattle.mb_fetch.specs.Shelves.{bytes_of};
    ghost use Rattle.mb_fetch.specs.Snapshots.{snapshot, parts_at, part_in, all_parts, different, Represents, StandsWith, StandsFrom};

    /// No snapshot is kept.
    pub fn make(alloc: Global) -> Result<Shelf, NoMemory>
        ensures none { IfOk result (λ s. s ≡ []) }
        ensures stands { IfOk result (λ s. Represents s (λ pos. None)) }
    {
        Ok(Shelf {
            snapshots: Vec::with_capacity(alloc, MAX_SNAPSHOTS)?,
            held: Slab::with_capacity(alloc, MAX_PARTS)?,
        })
    }

    /// Keeps a snapshot of 65 parts, at a position above the kept ones, of which there are fewer than three. A part whose bytes are held
    /// already is not held again. After `NoMemory` all is as it was.
    pub fn keep(&mut self, alloc: Global, pos: Pos, parts: Vec<Items<u8>>) -> Result<(), NoMemory>
        requires above { (other : ℕ) → pos ≤ other → parts_at self.old other ≡ None }
        requires room { length self.old < snapshot_limit }
        requires whole { length parts.items ≡ part_count }
        ensures ok { OnOk result (self.new ≡ self.old ++ snapshot pos parts.items ∷ []) }
        ensures stands { OnOk result (StandsWith self.old pos parts.items self.new) }
        ensures err { OnErr result (self.new ≡ self.old) }
    {
        let hashed = hash_each(alloc, parts)?;
        self.keep_hashed(alloc, pos, hashed)
    }

    /// Keeps such a snapshot of parts whose digests were taken before.
    pub fn keep_hashed(
        &mut self,
        alloc: Global,
        pos: Pos,
        parts: Vec<HashedPart>,
    ) -> Result<(), NoMemory>
        requires above { (other : ℕ) → pos ≤ other → parts_at self.old other ≡ None }
        requires room { length self.old < snapshot_limit }
        requires whole { length (bytes_of parts.items) ≡ part_count }
        ensures ok { OnOk result (self.new ≡ self.old ++ snapshot pos (bytes_of parts.items) ∷ []) }
        ensures stands { OnOk result (StandsWith self.old pos (bytes_of parts.items) self.new) }
        ensures err { OnErr result (self.new ≡ self.old) }
    {
        self.snapshots.reserve(1)?;
        let earlier = last_keys(self.snapshots.as_slice());
        let Ok(keys) = shelve(alloc, &mut self.held, earlier, parts) else {
            drop_unused(&mut self.held, self.snapshots.as_slice());
            return Err(NoMemory);
        };
        self.snapshots.push_reserved(Keyed { pos, keys });
        Ok(())
    }

    /// What is held of a part of the snapshot of a position.
    fn shelved(&self, pos: Pos, number: u8) -> Option<&HashedPart>
        ensures { option_map (λ s. s.now.bytes) result ≡ part_in (parts_at self.now pos) number }
    {
        let snapshot = snapshot_at(self.snapshots.as_slice(), pos)?;
        let key = snapshot.keys.as_slice().get(usize::from(number))?;
        self.held.get(*key)
    }

    /// A part of the snapshot of a position. None exactly where none is kept of it, or the number is above 64.
    pub fn part(&self, pos: Pos, number: u8) -> Option<&[u8]>
        ensures part { option_map (λ p. p.now) result ≡ part_in (parts_at self.now pos) number }
        ensures stands { (search : ℕ → Option (List Bytes)) → Represents self.now search → option_map (λ p. p.now) result ≡ part_in (search pos) number }
    {
        let part = self.shelved(pos, number)?;
        Some(part.bytes.as_slice())
    }

    /// The SHA-256 of that part, which is not taken again.
    pub fn digest(&self, pos: Pos, number: u8) -> Option<Digest>
        ensures digest { result ≡ option_map sha256 (part_in (parts_at self.now pos) number) }
        ensures stands { (search : ℕ → Option (List Bytes)) → Represents self.now search → result ≡ option_map sha256 (part_in (search pos) number) }
    {
        let part = self.shelved(pos, number)?;
        Some(part.digest)
    }

    /// Whether a snapshot of a position is kept.
    pub fn has(&self, pos: Pos) -> bool
        ensures kept { result ≡ is_some (parts_at self.now pos) }
        ensures stands { (search : ℕ → Option (List Bytes)) → Represents self.now search → result ≡ is_some (search pos) }
    {
        snapshot_at(self.snapshots.as_slice(), pos).is_some()
    }

    /// Drops the snapshots below a position, and the parts that are in no other. It takes no memory.
    pub fn drop_below(&mut self, pos: Pos)
        ensures kept { self.new ≡ filter (λ s. nat_le pos s.pos) self.old }
        ensures stands { StandsFrom self.old pos self.new }
    {
        self.snapshots.retain(
            |snapshot|
                ensures { result ≡ nat_le pos snapshot.now.pos }
            { snapshot.pos >= pos },
        );
        drop_unused(&mut self.held, self.snapshots.as_slice());
    }

    /// The number of different parts among the kept snapshots.
    ///
    /// It is the number of parts that are held, as the slab counts them, and no count of the snapshots: a shelf that held a part twice could not
    /// keep this contract. Only by construction is it that a snapshot has no bytes beside the slab: it has keys alone.
    pub fn parts_held(&self) -> u32
        ensures { result ≡ different (all_parts self.now) }
    {
        self.held.len() as u32
    }
}

/// The snapshot of a position.
fn snapshot_at(snapshots: &[Keyed], pos: Pos) -> Option<&Keyed>
    ensures { option_map (λ s. s.now) result ≡ find (λ s. s.pos == pos) snapshots.now }
{
    for snapshot in snapshots {
        if snapshot.pos == pos {
            return Some(snapshot);
        }
    }
    None
}

/// The keys of the last snapshot. There are none before the first.
fn last_keys(snapshots: &[Keyed]) -> &[usize] {
    match snapshots.last() {
        Some(snapshot) => snapshot.keys.as_slice(),
        None => &[],
    }
}

/// These parts with their digests.
fn hash_each(alloc: Global, parts: Vec<Items<u8>>) -> Result<Vec<HashedPart>, NoMemory>
    ensures { IfOk result (λ v. bytes_of v.items ≡ parts.items) }
{
    let mut hashed = Vec::with_capacity(alloc, parts.len())?;
    for part in parts {
        hashed.push(HashedPart::of(part))?;
    }
    Ok(hashed)
}
