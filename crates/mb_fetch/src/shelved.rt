//! What a shelf is made of.

ghost use Rattle.std.specs.Prelude.{◌≡◌};
ghost use Rattle.sha2.specs.Sha256.{sha256};

use mb_base::{Digest, Items, Pos};
use sha2::{Digest as _, Sha256};

/// A part of a state, and its SHA-256 (FIPS 180-4), which is taken once.
#[derive(Drop)]
pub struct HashedPart {
    pub bytes: Items<u8>,
    pub digest: Digest,
    ghost hashed: { digest ≡ sha256 bytes },
}

impl HashedPart {
    ghost use Rattle.std.specs.Prelude.{◌≡◌};

    /// A part whose digest is taken here.
    pub fn of(bytes: Items<u8>) -> HashedPart
        ensures { result.bytes ≡ bytes }
    {
        let digest = Sha256::digest(bytes.as_slice());
        HashedPart { bytes, digest }
    }
}

/// A snapshot, by the keys of its parts.
#[derive(Drop)]
pub(crate) struct Keyed {
    pub(crate) pos: Pos,
    pub(crate) keys: Vec<usize>,
}
