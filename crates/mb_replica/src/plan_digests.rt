//! The batches of a given OPEN keep their digests, so that they are not hashed again where its plan is checked, held and shown again.

ghost use Rattle.std.specs.Prelude.{◌≡◌, IfOk, IfSome};
ghost use Rattle.std.specs.List.{AllByRecursion};
ghost use Rattle.mb_parts.specs.Bares.{batch_digest};
ghost use Rattle.mb_parts.specs.Fits.{CanDigest};

use mb_base::{Digest, Items, NoMemory};
use mb_msg::Batch;
use mb_plan::kept_by;
use std::alloc::Global;

/// This batch, which keeps its digest. It is hashed where it is not known.
fn keeping(batch: Batch, known: Option<Digest>) -> Batch
    requires hashed { CanDigest batch }
    requires known { IfSome known (λ digest. digest ≡ batch_digest batch) }
    ensures { result ≡ batch }
{
    match known {
        Some(digest) => batch.with_digest(digest),
        None => {
            let mut kept = batch;
            kept.keep_digest();
            kept
        }
    }
}

/// These batches, each of which keeps its digest. It is hashed where it is not that of the same batch with the same index among others.
pub(crate) fn digested_beside(
    alloc: Global,
    batches: Items<Batch>,
    others: &[Batch],
) -> Result<Items<Batch>, NoMemory>
    requires { AllByRecursion CanDigest batches }
    ensures { IfOk result (λ kept. kept ≡ batches) }
{
    let mut kept = Items::new(alloc);
    for batch in batches.into_vec() {
        let known = kept_by(others.get(kept.len()), &batch);
        kept.push(keeping(batch, known))?;
    }
    Ok(kept)
}
