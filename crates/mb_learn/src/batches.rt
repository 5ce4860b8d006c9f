//! The batches that were shown, by their digests.

ghost use Rattle.std.specs.Prelude.{◌≡◌};
ghost use Rattle.std.specs.Option.{option_copied};
ghost use Rattle.mb_learn.specs.Tables.{batch_among};

use crate::plans::first_number;
use mb_base::{Digest, Duplicate, Items, NoMemory};
use mb_msg::Batch;
use std::alloc::Global;
use std::collections::BTreeMap;

/// A batch with its digest.
#[derive(Drop)]
struct HeldBatch {
    digest: Digest,
    batch: Batch,
}

/// The batches that are held, each the first of its digest. All their tags verify.
#[derive(Drop)]
pub(crate) struct Batches {
    by_digest: BTreeMap<u64, Items<HeldBatch>>,
}

impl Batches {
    ghost use Rattle.std.specs.Prelude.{◌≡◌, None, find, OnOk, IsSome, IsTrue};
    ghost use Rattle.std.specs.List.{AllByRecursion};
    ghost use Rattle.mb_usig.specs.Tags.{same_bytes};
    ghost use Rattle.mb_parts.specs.Bares.{batch_digest};
    ghost use Rattle.mb_parts.specs.Fits.{CanDigest};
    ghost use Rattle.std.specs.Option.{option_copied, option_or};
    ghost use Rattle.mb_base.specs.Shapes.{Bytes};
    ghost use Rattle.mb_learn.specs.Tables.{batch_at, HoldsBatch};

    /// No batch is held.
    pub(crate) fn make(alloc: Global) -> Batches
        ensures { (d : Bytes) → batch_at result d ≡ None }
    {
        Batches {
            by_digest: BTreeMap::new(alloc),
        }
    }

    /// The batch of a digest.
    pub(crate) fn get(&self, digest: &Digest) -> Option<&Batch>
        ensures { option_copied result ≡ batch_at self.now digest.now }
    {
        match self.by_digest.get(&first_number(digest)) {
            Some(alike) => batch_among(alike.as_slice(), digest),
            None => None,
        }
    }

    /// Whether a batch is held of the digest of each of these.
    pub(crate) fn has_all(&self, batches: &[Batch]) -> bool
        requires { AllByRecursion CanDigest batches.now }
        ensures { IsTrue result → AllByRecursion (λ b. IsSome (batch_at self.now (batch_digest b))) batches.now }
    {
        for batch in batches {
            if self.get(&batch.digest()).is_none() {
                return false;
            }
        }
        true
    }

    /// Holds each of these.
    pub(crate) fn hold_all(&mut self, alloc: Global, batches: &[Batch]) -> Result<(), NoMemory>
        requires { AllByRecursion CanDigest batches.now }
        ensures { OnOk result ((d : Bytes) → batch_at self.new d ≡ option_or (batch_at self.old d) (find (λ b. same_bytes (batch_digest b) d) batches.now)) }
    {
        for batch in batches {
            self.hold(alloc, batch.digest(), batch)?;
        }
        Ok(())
    }

    /// Holds one more batch, of this digest. The first of a digest stays.
    pub(crate) fn hold(
        &mut self,
        alloc: Global,
        digest: Digest,
        batch: &Batch,
    ) -> Result<(), NoMemory>
        ensures { OnOk result (HoldsBatch self.old digest batch.now self.new) }
    {
        let held = HeldBatch {
            digest,
            batch: batch.duplicate(alloc)?,
        };
        let alike = self
            .by_digest
            .entry(first_number(&digest))?
            .or_insert(Items::new(alloc));
        alike.push(held)?;
        Ok(())
    }
}

/// The first batch of a digest among these.
fn batch_among<'a>(held: &'a [HeldBatch], digest: &Digest) -> Option<&'a Batch>
    ensures { option_copied result ≡ batch_among held.now digest.now }
{
    for one in held {
        if one.digest == *digest {
            return Some(&one.batch);
        }
    }
    None
}
