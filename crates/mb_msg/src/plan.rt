//! The digest of what a view carries on.

ghost use Rattle.std.specs.Prelude.{◌≡◌, ◌≤◌, ◌<◌, ◌^◌, ◌++◌, ℕ, List, length, map};
ghost use Rattle.std.specs.List.{flat_map, AllByRecursion};
ghost use Rattle.sha2.specs.Sha256.{sha256};
ghost use Rattle.mb_parts.specs.Bares.{batch_digest};
ghost use Rattle.mb_parts.specs.Fits.{CanDigest};
ghost use Rattle.mb_msg.specs.Plans.{CanHash, plan_string, plan_digest, plan_end};

use crate::change::Plan;
use mb_base::{Digest, Pos};
use mb_parts::Batch;
use sha2::{Digest as Hasher, Sha256};

/// Feeds a hasher with the digest of each batch.
fn feed<H: Hasher>(hasher: &mut H, batches: &[Batch])
    requires { AllByRecursion CanDigest batches.now }
    ensures { (m : List ℕ) → H.holds hasher.old m → H.holds hasher.new (m ++ flat_map batch_digest batches.now) }
{
    for batch in batches {
        hasher.update(batch.digest());
    }
}

/// The SHA-256 digest (FIPS 180-4) of the letter P, the base's position, the state digest there, and the digests of the batches.
/// Each batch has 1 to 16 requests, each with an operation of at most 1,024 bytes.
pub fn digest_of_plan(base: Pos, state: &Digest, batches: &[Batch]) -> Digest
    requires { AllByRecursion CanDigest batches.now }
    ensures { result ≡ sha256 (plan_string base state.now (map batch_digest batches.now)) }
{
    let mut hasher = Sha256::new();
    hasher.update(b"P");
    hasher.update(base.to_be_bytes());
    hasher.update(*state);
    feed(&mut hasher, batches);
    hasher.finalize()
}

impl Plan {
    /// The SHA-256 digest (FIPS 180-4) of the letter P, the base's position, the state digest there, and the digests of the batches.
    /// The base's position is at most 2^63 - 1, and there are at most 64 batches, each of 1 to 16 requests with an operation of at most
    /// 1,024 bytes.
    pub fn digest(&self) -> Digest
        requires { CanHash self.now }
        ensures { result ≡ plan_digest self.now }
    {
        digest_of_plan(self.base.pos, &self.base.state, self.batches.as_slice())
    }

    /// The last position that the view carries on. The same is asked as of [`digest`](Plan::digest).
    pub fn end(&self) -> Pos
        requires { CanHash self.now }
        ensures { result ≡ plan_end self.now }
    {
        self.base.pos + self.batches.len() as u64
    }
}
