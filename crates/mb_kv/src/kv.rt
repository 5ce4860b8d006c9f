//! The keys and their values, and what each operation does.

ghost use Rattle.std.specs.Prelude.{◌≡◌, IfOk};
ghost use Rattle.mb_kv.specs.Snapshots.{bucket_of};
ghost use Rattle.mb_kv.specs.Seen.{pair_seen, EntryFits};
ghost use Rattle.mb_kv.specs.States.{PairFits};

use crate::bucket::bucket_of;
use crate::kept::{Entry, Kept};
use crate::limits::MAX_KEYS;
use crate::part::Part;
use crate::results::{ABSENT, DONE, FOUND, FULL, OTHER, plain, with_value};
use mb_base::{Items, NoMemory};
use mb_service::PARTS;
use std::alloc::Global;
use std::array;
use std::marker::Model;

/// Keys with their values. Contracts see the pairs, in rising order of their keys.
#[derive(Drop)]
pub struct Kv {
    /// The pairs, each in the part of its key's bucket.
    pub(crate) parts: [Part; PARTS as usize],
    /// How many pairs there are.
    pub(crate) count: usize,
}

impl Model for Kv {
    ghost use Rattle.mb_kv.specs.Pairs.{Pairs};
    ghost use Rattle.mb_kv.specs.InParts.{state_of, AreKept};

    ghost Value = { Pairs };

    ghost view = { λ kv. state_of kv.parts };

    ghost invariant = { λ kv. AreKept kv.parts kv.count };
}

/// A key of a bucket with its value, as they are kept.
pub(crate) fn entry_of(
    alloc: Global,
    bucket: u8,
    key: &[u8],
    value: &[u8],
) -> Result<Entry, NoMemory>
    requires fits { PairFits (key.now, value.now) }
    requires own { bucket ≡ bucket_of key.now }
    ensures pair { IfOk result (λ e. pair_seen e ≡ (key.now, value.now)) }
    ensures fits { IfOk result EntryFits }
{
    let value = Items::from_vec(Vec::from_slice(alloc, value)?);
    Ok((Vec::from_slice(alloc, key)?, Kept { bucket, value }))
}

impl Kv {
    ghost use Rattle.std.specs.Prelude.{◌≡◌, ◌≤◌, false, [], length, IfOk, IfSome, OnOk, OnErr, is_some, option_copied};
    ghost use Rattle.mb_service.specs.Parts.{IsShort};
    ghost use Rattle.mb_kv.specs.declared.limits.TheConstants.{MAX_VALUE};
    ghost use Rattle.mb_kv.specs.Pairs.{value_of, with_value, without};
    ghost use Rattle.mb_kv.specs.Operations.{Put, Get, Delete, Swap, after_operation, result_of, is_full_for};
    ghost use Rattle.mb_kv.specs.Seen.{pair_seen, EntryFits};
    ghost use Rattle.mb_kv.specs.Snapshots.{bucket_of};
    ghost use Rattle.mb_kv.specs.States.{PairFits};

    /// No keys.
    pub fn new(alloc: Global) -> Kv
        ensures { result ≡ [] }
    {
        Kv {
            parts: array::from_fn(|_| Part::new(alloc)),
            count: 0,
        }
    }

    /// The value under a key of a bucket.
    fn value_of(&self, bucket: u8, key: &[u8]) -> Option<&[u8]>
        requires { bucket ≡ bucket_of key.now }
        ensures value { option_copied result ≡ value_of self.now key.now }
        ensures short { IfSome result (λ value. length value.now ≤ MAX_VALUE) }
    {
        self.parts[usize::from(bucket)].value_of(key)
    }

    fn has(&self, bucket: u8, key: &[u8]) -> bool
        requires { bucket ≡ bucket_of key.now }
        ensures { result ≡ is_some (value_of self.now key.now) }
    {
        self.value_of(bucket, key).is_some()
    }

    /// Whether the key is new and there is no room for one more.
    fn is_full_for(&self, bucket: u8, key: &[u8]) -> bool
        requires { bucket ≡ bucket_of key.now }
        ensures { result ≡ is_full_for self.now key.now }
    {
        self.count >= MAX_KEYS && !self.has(bucket, key)
    }

    /// Keeps a value under its key, in the place of the old one if there is one.
    pub(crate) fn keep(&mut self, entry: Entry) -> Result<(), NoMemory>
        requires fits { EntryFits entry }
        requires room { is_full_for self.old (pair_seen entry).0 ≡ false }
        ensures state { OnOk result (self.new ≡ with_value self.old (pair_seen entry).0 (pair_seen entry).1) }
        ensures kept { OnErr result (self.new ≡ self.old) }
    {
        let place = usize::from(entry.1.bucket);
        if self.parts[place].keep(entry)? {
            self.count += 1;
        }
        Ok(())
    }

    /// Takes a key of a bucket out.
    fn remove(&mut self, bucket: u8, key: &[u8])
        requires { bucket ≡ bucket_of key.now }
        ensures { self.new ≡ without self.old key.now }
    {
        if self.parts[usize::from(bucket)].remove(key) {
            self.count -= 1;
        }
    }

    pub(crate) fn put(
        &mut self,
        alloc: Global,
        key: &[u8],
        value: &[u8],
    ) -> Result<Items<u8>, NoMemory>
        requires { PairFits (key.now, value.now) }
        ensures answer { IfOk result (λ r. r ≡ result_of (Put key.now value.now) self.old) }
        ensures state { OnOk result (self.new ≡ after_operation (Put key.now value.now) self.old) }
        ensures short { IfOk result IsShort }
        ensures kept { OnErr result (self.new ≡ self.old) }
    {
        let bucket = bucket_of(key);
        if self.is_full_for(bucket, key) {
            return plain(alloc, FULL);
        }
        let done = plain(alloc, DONE)?;
        self.keep(entry_of(alloc, bucket, key, value)?)?;
        Ok(done)
    }

    pub(crate) fn get(&self, alloc: Global, key: &[u8]) -> Result<Items<u8>, NoMemory>
        ensures answer { IfOk result (λ r. r ≡ result_of (Get key.now) self.now) }
        ensures short { IfOk result IsShort }
    {
        match self.value_of(bucket_of(key), key) {
            Some(value) => with_value(alloc, FOUND, value),
            None => plain(alloc, ABSENT),
        }
    }

    pub(crate) fn delete(&mut self, alloc: Global, key: &[u8]) -> Result<Items<u8>, NoMemory>
        ensures answer { IfOk result (λ r. r ≡ result_of (Delete key.now) self.old) }
        ensures state { OnOk result (self.new ≡ after_operation (Delete key.now) self.old) }
        ensures short { IfOk result IsShort }
        ensures kept { OnErr result (self.new ≡ self.old) }
    {
        let bucket = bucket_of(key);
        if !self.has(bucket, key) {
            return plain(alloc, ABSENT);
        }
        let done = plain(alloc, DONE)?;
        self.remove(bucket, key);
        Ok(done)
    }

    /// Puts the new value in the place of the old one.
    pub(crate) fn swap(
        &mut self,
        alloc: Global,
        key: &[u8],
        old: &[u8],
        new: &[u8],
    ) -> Result<Items<u8>, NoMemory>
        requires { PairFits (key.now, new.now) }
        ensures answer { IfOk result (λ r. r ≡ result_of (Swap key.now old.now new.now) self.old) }
        ensures state { OnOk result (self.new ≡ after_operation (Swap key.now old.now new.now) self.old) }
        ensures short { IfOk result IsShort }
        ensures kept { OnErr result (self.new ≡ self.old) }
    {
        let bucket = bucket_of(key);
        match self.value_of(bucket, key) {
            None => plain(alloc, ABSENT),
            Some(value) if value != old => with_value(alloc, OTHER, value),
            Some(_) => {
                let done = plain(alloc, DONE)?;
                self.keep(entry_of(alloc, bucket, key, new)?)?;
                Ok(done)
            }
        }
    }
}
