//! The plans of whole OPENs, by their digests.

ghost use Rattle.std.specs.Prelude.{◌≡◌, map, IfOk};
ghost use Rattle.std.specs.List.{AllByRecursion};
ghost use Rattle.std.specs.Option.{option_copied};
ghost use Rattle.mb_parts.specs.Bares.{batch_digest};
ghost use Rattle.mb_parts.specs.Fits.{CanDigest};
ghost use Rattle.mb_learn.specs.Tables.{first_number, plan_among};

use mb_base::{Digest, Items, NoMemory, Pos};
use mb_msg::Batch;
use std::alloc::Global;
use std::collections::BTreeMap;

/// A plan by its digest: the base, and the digests of the batches behind it.
#[derive(Drop)]
pub(crate) struct KnownPlan {
    pub(crate) digest: Digest,
    pub(crate) base: Pos,
    pub(crate) batches: Items<Digest>,
}

/// The plans that are known, each the first of its digest.
#[derive(Drop)]
pub(crate) struct Plans {
    by_digest: BTreeMap<u64, Items<KnownPlan>>,
}

impl Plans {
    ghost use Rattle.std.specs.Prelude.{◌≡◌, None, OnOk};
    ghost use Rattle.std.specs.Option.{option_copied};
    ghost use Rattle.mb_base.specs.Shapes.{Bytes};
    ghost use Rattle.mb_learn.specs.Tables.{plan_at, AddsPlan};

    /// No plan is known.
    pub(crate) fn make(alloc: Global) -> Plans
        ensures { (d : Bytes) → plan_at result d ≡ None }
    {
        Plans {
            by_digest: BTreeMap::new(alloc),
        }
    }

    /// The plan of a digest.
    pub(crate) fn get(&self, digest: &Digest) -> Option<&KnownPlan>
        ensures { option_copied result ≡ plan_at self.now digest.now }
    {
        match self.by_digest.get(&first_number(digest)) {
            Some(alike) => plan_among(alike.as_slice(), digest),
            None => None,
        }
    }

    /// One more plan.
    pub(crate) fn add(&mut self, alloc: Global, plan: KnownPlan) -> Result<(), NoMemory>
        ensures { OnOk result (AddsPlan self.old plan self.new) }
    {
        let alike = self
            .by_digest
            .entry(first_number(&plan.digest))?
            .or_insert(Items::new(alloc));
        alike.push(plan)?;
        Ok(())
    }
}

/// The first plan of a digest among these.
fn plan_among<'a>(plans: &'a [KnownPlan], digest: &Digest) -> Option<&'a KnownPlan>
    ensures { option_copied result ≡ plan_among plans.now digest.now }
{
    for plan in plans {
        if plan.digest == *digest {
            return Some(plan);
        }
    }
    None
}

/// The digests of batches.
pub(crate) fn digests_of(alloc: Global, batches: &[Batch]) -> Result<Items<Digest>, NoMemory>
    requires { AllByRecursion CanDigest batches.now }
    ensures { IfOk result (λ l. l ≡ map batch_digest batches.now) }
{
    let mut digests = Items::new(alloc);
    for batch in batches {
        digests.push(batch.digest())?;
    }
    Ok(digests)
}

/// The first eight bytes of a digest, as a number. Different digests hardly share it.
pub(crate) fn first_number(digest: &Digest) -> u64
    ensures { result ≡ first_number digest.now }
{
    u64::from_be_bytes([
        digest[0], digest[1], digest[2], digest[3], digest[4], digest[5], digest[6], digest[7],
    ])
}
