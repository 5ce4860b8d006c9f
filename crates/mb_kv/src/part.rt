//! The pairs of one part.

ghost use Rattle.std.specs.Prelude.{◌≡◌, ◌≤◌, ◌++◌, length, OnOk};
ghost use Rattle.mb_kv.specs.Snapshots.{pair_text};

use crate::kept::{Entry, Kept};
use crate::limits::{MAX_KEY, MAX_KEYS, MAX_VALUE};
use mb_base::{Digest, Items, NoMemory, put_bytes, put_u8, put_u16};
use sha2::{Digest as _, Sha256};
use std::alloc::Global;
use std::collections::BTreeMap;
use std::marker::Model;

/// The pairs of one part. Contracts see them in rising order of their keys.
#[derive(Drop)]
pub(crate) struct Part {
    pairs: BTreeMap<Vec<u8>, Kept>,
    /// The digest of its text, where it was hashed and no pair changed since.
    digest: Option<Digest>,
}

impl Model for Part {
    ghost use Rattle.mb_kv.specs.Pairs.{Pairs};
    ghost use Rattle.mb_kv.specs.Seen.{pairs_seen, IsHashed};

    ghost Value = { Pairs };

    ghost view = { λ part. pairs_seen part.pairs.entries };

    ghost invariant = { λ part. IsHashed (pairs_seen part.pairs.entries) part.digest };
}

/// Appends a key and its value.
fn put_pair(text: &mut Vec<u8>, key: &[u8], value: &[u8]) -> Result<(), NoMemory>
    requires { (length key.now ≤ MAX_KEY) × (length value.now ≤ MAX_VALUE) }
    ensures { OnOk result (text.new.items ≡ text.old.items ++ pair_text (key.now, value.now)) }
{
    put_u8(text, key.len() as u8)?;
    put_bytes(text, key)?;
    put_u16(text, value.len() as u16)?;
    put_bytes(text, value)
}

impl Part {
    ghost use Rattle.std.specs.Prelude.{◌≡◌, ◌≤◌, [], length, IfOk, OnOk, OnErr, is_some, is_none, option_copied};
    ghost use Rattle.std.specs.List.{AllByRecursion};
    ghost use Rattle.sha2.specs.Sha256.{sha256};
    ghost use Rattle.mb_kv.specs.declared.limits.TheConstants.{MAX_KEYS};
    ghost use Rattle.mb_kv.specs.Pairs.{value_of, with_value, without};
    ghost use Rattle.mb_kv.specs.Snapshots.{part_text};
    ghost use Rattle.mb_kv.specs.Seen.{pair_seen};
    ghost use Rattle.mb_kv.specs.States.{PairFits};

    /// No pairs.
    pub(crate) fn new(alloc: Global) -> Part
        ensures { result ≡ [] }
    {
        Part {
            pairs: BTreeMap::new(alloc),
            digest: None,
        }
    }

    pub(crate) fn value_of(&self, key: &[u8]) -> Option<&[u8]>
        ensures { option_copied result ≡ value_of self.now key.now }
    {
        match self.pairs.get(key) {
            Some(kept) => Some(kept.value.as_slice()),
            None => None,
        }
    }

    /// Keeps a value under its key, in the place of the old one if there is one; and whether the key is new.
    pub(crate) fn keep(&mut self, entry: Entry) -> Result<bool, NoMemory>
        ensures state { OnOk result (self.new ≡ with_value self.old (pair_seen entry).0 (pair_seen entry).1) }
        ensures is_new { IfOk result (λ is_new. is_new ≡ is_none (value_of self.old (pair_seen entry).0)) }
        ensures kept { OnErr result (self.new ≡ self.old) }
    {
        self.digest = None;
        let (key, kept) = entry;
        let old = self.pairs.insert(key, kept)?;
        Ok(old.is_none())
    }

    /// Takes a key out; and whether it was there.
    pub(crate) fn remove(&mut self, key: &[u8]) -> bool
        ensures state { self.new ≡ without self.old key.now }
        ensures was { result ≡ is_some (value_of self.old key.now) }
    {
        let _forgotten = self.digest.take();
        self.pairs.remove(key).is_some()
    }

    /// How many pairs there are, and the pairs.
    pub(crate) fn text(&self, alloc: Global) -> Result<Items<u8>, NoMemory>
        requires { (length self.now ≤ MAX_KEYS) × AllByRecursion PairFits self.now }
        ensures { IfOk result (λ text. text ≡ part_text self.now) }
    {
        let mut text = Vec::new(alloc);
        put_u16(&mut text, self.pairs.len() as u16)?;
        for (key, kept) in &self.pairs {
            put_pair(&mut text, key.as_slice(), kept.value.as_slice())?;
        }
        Ok(Items::from_vec(text))
    }

    /// The digest of this text, which is kept.
    pub(crate) fn digest(&mut self, alloc: Global) -> Result<Digest, NoMemory>
        requires { (length self.old ≤ MAX_KEYS) × AllByRecursion PairFits self.old }
        ensures digest { IfOk result (λ d. d ≡ sha256 (part_text self.old)) }
        ensures kept { self.new ≡ self.old }
    {
        if let Some(digest) = self.digest {
            return Ok(digest);
        }
        let digest = Sha256::digest(self.text(alloc)?.as_slice());
        self.digest = Some(digest);
        Ok(digest)
    }
}
