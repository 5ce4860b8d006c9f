//! The state as 64 parts, and back.

ghost use Rattle.std.specs.Prelude.{◌≡◌, ◌≤◌, ◌<◌, ◌++◌, [], length, IfOk, OnOk};
ghost use Rattle.std.specs.List.{AllByRecursion, flat_map};
ghost use Rattle.mb_base.specs.Fields.{place_of};
ghost use Rattle.mb_kv.specs.Snapshots.{bucket_of, part_of, pair_text, in_bucket, last, is_above, may_follow, tested_key_at, pairs_at, pairs_of, all_pairs, collected};
ghost use Rattle.mb_kv.specs.Operations.{value_at};
ghost use Rattle.mb_kv.specs.Seen.{pair_seen, pairs_seen, EntryFits, Yields, YieldsWhole, YieldsAll};
ghost use Rattle.mb_base.specs.Reading.{pair_at};

use crate::bucket::bucket_of;
use crate::kept::Entry;
use crate::kv::{Kv, entry_of};
use crate::limits::{MAX_KEY, MAX_KEYS, MAX_VALUE};
use crate::operation::{read_key, read_value};
use crate::unread::Unread;
use mb_base::{Fields, Items, NoMemory, put_bytes, put_u8, put_u16};
use mb_service::{PARTS, Restore};
use std::alloc::Global;

/// Whether a key may stand behind these pairs of its part, which is to have at most so many.
fn may_follow(bucket: u8, room: usize, before: &[Entry], key: &[u8]) -> bool
    ensures { result ≡ may_follow bucket room (pairs_seen before.now) key.now }
{
    bucket_of(key) == bucket && is_above(before, key) && before.len() < room
}

/// Whether a key is above the last of these.
fn is_above(before: &[Entry], key: &[u8]) -> bool
    ensures { result ≡ is_above (last (pairs_seen before.now)) key.now }
{
    match before.last() {
        Some((last, _)) => last.as_slice() < key,
        None => true,
    }
}

/// The next key of a part.
#[tactic(auto, unfolding(crate::specs::Snapshots::tested_key_at))]
fn read_next_key<'a>(
    bucket: u8,
    room: usize,
    before: &[Entry],
    fields: &mut Fields<'a>,
) -> Result<&'a [u8], Unread>
    ensures read { Yields (λ key. key.now) result fields.new (tested_key_at (may_follow bucket room (pairs_seen before.now)) (place_of fields.old)) }
    ensures fits { IfOk result (λ key. (1 ≤ length key.now) × (length key.now ≤ MAX_KEY)) }
    ensures own { IfOk result (λ key. bucket_of key.now ≡ bucket) }
{
    let start = fields.place();
    let key = read_key(fields)?;
    if may_follow(bucket, room, before, key) {
        return Ok(key);
    }
    Err(Unread::Fault { at: start + 1 })
}

/// The next pair of a part.
fn read_pair(
    alloc: Global,
    bucket: u8,
    room: usize,
    before: &[Entry],
    fields: &mut Fields<'_>,
) -> Result<Entry, Unread>
    ensures read { Yields pair_seen result fields.new (pair_at (tested_key_at (may_follow bucket room (pairs_seen before.now))) value_at (place_of fields.old)) }
    ensures fits { IfOk result EntryFits }
{
    let key = read_next_key(bucket, room, before, fields)?;
    let value = read_value(fields)?;
    Ok(entry_of(alloc, bucket, key, value)?)
}

/// So many pairs.
fn read_pairs(
    alloc: Global,
    bucket: u8,
    room: usize,
    count: u16,
    fields: &mut Fields<'_>,
) -> Result<Vec<Entry>, Unread>
    ensures read { Yields (λ v. pairs_seen v.items) result fields.new (pairs_at bucket room [] count (place_of fields.old)) }
    ensures fit { IfOk result (λ v. AllByRecursion EntryFits v.items) }
{
    let mut entries: Vec<Entry> = Vec::new(alloc);
    for _ in 0..count {
        entries.push(read_pair(alloc, bucket, room, entries.as_slice(), fields)?)?;
    }
    Ok(entries)
}

/// The pairs of a part, at most so many.
fn read_part(alloc: Global, bucket: u8, room: usize, part: &[u8]) -> Result<Vec<Entry>, Unread>
    requires { room ≤ MAX_KEYS }
    ensures read { YieldsWhole (λ v. pairs_seen v.items) result (pairs_of bucket room part.now) }
    ensures fit { IfOk result (λ v. AllByRecursion EntryFits v.items) }
    ensures few { IfOk result (λ v. length v.items ≤ room) }
{
    let mut fields = Fields::over(part);
    let count = fields.get_u16()?;
    let entries = read_pairs(alloc, bucket, room, count, &mut fields)?;
    if fields.is_at_end() {
        return Ok(entries);
    }
    Err(Unread::Fault { at: fields.place() })
}

/// The pairs of all parts.
pub(crate) fn read_parts(alloc: Global, parts: &[Items<u8>]) -> Result<Vec<Entry>, Restore>
    requires { length parts.now ≡ PARTS }
    ensures read { YieldsAll (λ v. pairs_seen v.items) result (all_pairs [] 0 parts.now) }
    ensures fit { IfOk result (λ v. AllByRecursion EntryFits v.items) }
    ensures few { IfOk result (λ v. length v.items ≤ MAX_KEYS) }
{
    let mut entries: Vec<Entry> = Vec::new(alloc);
    for part in 0..PARTS {
        let room = MAX_KEYS - entries.len();
        match read_part(alloc, part, room, parts[usize::from(part)].as_slice()) {
            Ok(mut more) => entries.append(&mut more)?,
            Err(Unread::Fault { at }) => return Err(Restore::BadSnapshot {
                part,
                at: at as u32,
            }),
            Err(Unread::NoMemory) => return Err(Restore::NoMemory),
        }
    }
    Ok(entries)
}

/// The state with these entries.
pub(crate) fn restored_of(alloc: Global, entries: Vec<Entry>) -> Result<Kv, NoMemory>
    requires fit { AllByRecursion EntryFits entries.items }
    requires few { length entries.items ≤ MAX_KEYS }
    ensures { IfOk result (λ kv. kv ≡ collected (pairs_seen entries.items)) }
{
    let mut kv = Kv::new(alloc);
    for entry in entries {
        kv.keep(entry)?;
    }
    Ok(kv)
}
