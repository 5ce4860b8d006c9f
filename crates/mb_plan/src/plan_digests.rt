//! The digest of a plan that is shown, of which batches are known that keep their digests.

ghost use Rattle.std.specs.Prelude.{◌≡◌, ◌++◌, ℕ, List, map, IfSome};
ghost use Rattle.std.specs.List.{flat_map, AllByRecursion};
ghost use Rattle.sha2.specs.Sha256.{sha256};
ghost use Rattle.mb_parts.specs.Bares.{batch_digest};
ghost use Rattle.mb_parts.specs.Fits.{CanDigest};
ghost use Rattle.mb_msg.specs.Plans.{plan_string};

use mb_base::{Digest, Pos};
use mb_msg::Batch;
use sha2::{Digest as Hasher, Sha256};

/// The digest of a batch, where another one is the same and keeps it.
fn kept_by_same(other: &Batch, batch: &Batch) -> Option<Digest>
    ensures { IfSome result (λ digest. digest ≡ batch_digest batch.now) }
{
    if other == batch {
        other.kept_digest()
    } else {
        None
    }
}

/// The same of one that may be there.
pub fn kept_by(other: Option<&Batch>, batch: &Batch) -> Option<Digest>
    ensures { IfSome result (λ digest. digest ≡ batch_digest batch.now) }
{
    kept_by_same(other?, batch)
}

/// The digest of a batch, which is not hashed where it keeps it, or another one does that is the same.
fn digest_of(other: Option<&Batch>, batch: &Batch) -> Digest
    requires { CanDigest batch.now }
    ensures { result ≡ batch_digest batch.now }
{
    match kept_by(other, batch) {
        Some(digest) => digest,
        None => batch.digest(),
    }
}

/// Feeds a hasher with the digest of each batch. `known` are others, index by index.
fn feed<H: Hasher>(hasher: &mut H, known: &[Batch], batches: &[Batch])
    requires { AllByRecursion CanDigest batches.now }
    ensures { (m : List ℕ) → H.holds hasher.old m → H.holds hasher.new (m ++ flat_map batch_digest batches.now) }
{
    for index in 0..batches.len() {
        hasher.update(digest_of(known.get(index), &batches[index]));
    }
}

/// The digest of a plan. `known` are batches that may keep their digests: where one with the same index is the same, it is not hashed again.
pub(crate) fn digest_beside(known: &[Batch], base: Pos, state: &Digest, batches: &[Batch]) -> Digest
    requires { AllByRecursion CanDigest batches.now }
    ensures { result ≡ sha256 (plan_string base state.now (map batch_digest batches.now)) }
{
    let mut hasher = Sha256::new();
    hasher.update(b"P");
    hasher.update(base.to_be_bytes());
    hasher.update(*state);
    feed(&mut hasher, known, batches);
    hasher.finalize()
}
