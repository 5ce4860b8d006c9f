//! Which part of a snapshot a key stands in.

ghost use Rattle.std.specs.Prelude.{◌≡◌};
ghost use Rattle.mb_kv.specs.Snapshots.{bucket_of};

use mb_service::PARTS;
use sha2::{Digest, Sha256};

/// The number of a key's part.
#[tactic(auto, unfolding(crate::specs::Snapshots::bucket_of))]
pub(crate) fn bucket_of(key: &[u8]) -> u8
    ensures { result ≡ bucket_of key.now }
{
    Sha256::digest(key)[0] % PARTS
}
