//! Parts, each held under one key.

ghost use Rattle.std.specs.Prelude.{◌≡◌, ◌≢◌, ◌∷◌, [], ℕ, true, false, Some, None, map, if◌then◌else◌, IfOk, IfSome, IfNone};
ghost use Rattle.mb_fetch.specs.Shelves.{part_under, bytes_of, has_key, all_keys, HoldsOnce, Extends, AddsOnly};

use crate::shelved::{HashedPart, Keyed};
use mb_base::{Items, NoMemory};
use slab::Slab;
use std::alloc::Global;

/// The keys of these parts, in order. A part whose bytes are held already keeps its key, and each other is held from now on. After `NoMemory`
/// what was held is held, and maybe more.
///
/// The key of each part is looked for first at its place among the keys of an earlier snapshot, since most parts stay as they were.
pub(crate) fn shelve(
    alloc: Global,
    held: &mut Slab<HashedPart>,
    earlier: &[usize],
    parts: Vec<HashedPart>,
) -> Result<Vec<usize>, NoMemory>
    requires { HoldsOnce (part_under held.old) }
    ensures once { HoldsOnce (part_under held.new) }
    ensures kept { Extends (part_under held.old) (part_under held.new) }
    ensures keys { IfOk result (λ v. map (part_under held.new) v.items ≡ map (λ p. Some p) (bytes_of parts.items)) }
    ensures added { IfOk result (λ v. AddsOnly (part_under held.old) (part_under held.new) v.items) }
{
    let mut keys = Vec::with_capacity(alloc, parts.len())?;
    for part in parts {
        let near = earlier.get(keys.len()).copied();
        let key = key_for(held, near, part)?;
        keys.push(key)?;
    }
    Ok(keys)
}

/// The key of a part, which is held already or from now on. It is looked for first under a key that is near.
fn key_for(
    held: &mut Slab<HashedPart>,
    near: Option<usize>,
    part: HashedPart,
) -> Result<usize, NoMemory>
    requires { HoldsOnce (part_under held.old) }
    ensures once { HoldsOnce (part_under held.new) }
    ensures kept { Extends (part_under held.old) (part_under held.new) }
    ensures key { IfOk result (λ key. part_under held.new key ≡ Some part.bytes) }
    ensures added { IfOk result (λ key. AddsOnly (part_under held.old) (part_under held.new) (key ∷ [])) }
{
    if let Some(key) = find_near(held, near, part.bytes.as_slice()) {
        return Ok(key);
    }
    let key = held.insert(part)?;
    Ok(key)
}

/// The key of the part with these bytes, which is looked for first under a key that is near.
fn find_near(held: &Slab<HashedPart>, near: Option<usize>, bytes: &[u8]) -> Option<usize>
    ensures found { IfSome result (λ key. part_under held.now key ≡ Some bytes.now) }
    ensures absent { IfNone result ((key : ℕ) → part_under held.now key ≢ Some bytes.now) }
{
    match near {
        Some(key) if has_bytes(held, key, bytes) => Some(key),
        _ => find_key(held, bytes),
    }
}

/// Whether the part under a key has these bytes.
fn has_bytes(held: &Slab<HashedPart>, key: usize, bytes: &[u8]) -> bool
    ensures so { result ≡ true → part_under held.now key ≡ Some bytes.now }
    ensures not_so { result ≡ false → part_under held.now key ≢ Some bytes.now }
{
    match held.get(key) {
        Some(part) => part.bytes.as_slice() == bytes,
        None => false,
    }
}

/// The key of the part with these bytes.
fn find_key(held: &Slab<HashedPart>, bytes: &[u8]) -> Option<usize>
    ensures found { IfSome result (λ key. part_under held.now key ≡ Some bytes.now) }
    ensures absent { IfNone result ((key : ℕ) → part_under held.now key ≢ Some bytes.now) }
{
    for (key, _) in held.iter() {
        if has_bytes(held, key, bytes) {
            return Some(key);
        }
    }
    None
}

/// Drops the parts that are in none of these snapshots.
pub(crate) fn drop_unused(held: &mut Slab<HashedPart>, snapshots: &[Keyed])
    ensures { (key : ℕ) → part_under held.new key ≡ (if has_key key (all_keys snapshots.now) then part_under held.old key else None) }
{
    for key in 0..held.capacity() {
        drop_if_unused(held, snapshots, key);
    }
}

/// Drops the part under a key, where it is in none of these snapshots.
fn drop_if_unused(held: &mut Slab<HashedPart>, snapshots: &[Keyed], key: usize)
    ensures here { part_under held.new key ≡ (if has_key key (all_keys snapshots.now) then part_under held.old key else None) }
    ensures others { (other : ℕ) → other ≢ key → part_under held.new other ≡ part_under held.old other }
{
    if held.get(key).is_some() && !is_used(snapshots, key) {
        let _unused = held.try_remove(key);
    }
}

/// Whether some of these snapshots has a key.
fn is_used(snapshots: &[Keyed], key: usize) -> bool
    ensures { result ≡ has_key key (all_keys snapshots.now) }
{
    for snapshot in snapshots {
        if has_key(snapshot.keys.as_slice(), key) {
            return true;
        }
    }
    false
}

/// Whether a key is among these.
fn has_key(keys: &[usize], key: usize) -> bool
    ensures { result ≡ has_key key keys.now }
{
    for other in keys {
        if *other == key {
            return true;
        }
    }
    false
}
