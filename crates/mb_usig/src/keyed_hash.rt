//! HMAC (RFC 2104) over SHA-256 (FIPS 180-4).

ghost use Rattle.std.specs.Prelude.{◌≡◌, ◌≤◌, ◌++◌, length};
ghost use Rattle.sha2.specs.Hashers.{Holds256};
ghost use Rattle.mb_base.specs.Shapes.{Bytes};
ghost use Rattle.mb_usig.specs.Hmac.{hmac_of, key_block, padded};

use mb_base::Digest;
use sha2::{Digest as _, Sha256};

/// What SHA-256 takes at once, in bytes. A key has at most so many.
const BLOCK_LEN: usize = 64;

/// Each byte of the key's block is combined with this one before it is hashed with the message.
const INNER_PAD: u8 = 0x36;

/// Each byte of the key's block is combined with this one before it is hashed with the inner digest.
const OUTER_PAD: u8 = 0x5c;

// The key, filled with zero bytes.
fn key_block_of(key: &[u8]) -> [u8; BLOCK_LEN]
    requires { length key.now ≤ 64 }
    ensures { result ≡ key_block key.now }
{
    let mut block = [0u8; BLOCK_LEN];
    block[..key.len()].copy_from_slice(key);
    block
}

// The key's block, combined with a pad.
fn pad_of(key: &[u8], pad: u8) -> [u8; BLOCK_LEN]
    requires { length key.now ≤ 64 }
    ensures { result ≡ padded pad key.now }
{
    let mut block = key_block_of(key);
    for byte in block.iter_mut() {
        *byte ^= pad;
    }
    block
}

// A hasher that has taken in the key's block, combined with a pad.
fn hasher_of(key: &[u8], pad: u8) -> Sha256
    requires { length key.now ≤ 64 }
    ensures { Holds256 result (padded pad key.now) }
{
    let block = pad_of(key, pad);
    Sha256::new_with_prefix(block.as_slice())
}

// A hasher that goes on from where this one is.
fn copy_of(hasher: &Sha256) -> Sha256
    ensures { result ≡ hasher.now }
{
    match hasher.clone() {
        Ok(copy) => copy,
        Err(_) => unreachable!(),
    }
}

/// A key, ready for use: both hashers have taken in its block, so that it is hashed once and not again at each tag.
#[derive(Drop)]
pub(crate) struct HmacKey {
    inner: Sha256,
    outer: Sha256,
}

impl HmacKey {
    ghost use Rattle.mb_usig.specs.KeyedHash.{IsReady};

    /// Takes in a key of at most 64 bytes.
    pub(crate) fn new(key: &[u8]) -> HmacKey
        requires { length key.now ≤ 64 }
        ensures { IsReady result key.now }
    {
        HmacKey {
            inner: hasher_of(key, INNER_PAD),
            outer: hasher_of(key, OUTER_PAD),
        }
    }

    /// The tag of a message that comes in two pieces.
    #[tactic(auto, unfolding(crate::specs::Hmac::hmac_of))]
    pub(crate) fn tag(&self, front: &[u8], rest: &[u8]) -> Digest
        ensures { (key : Bytes) → IsReady self.now key → result ≡ hmac_of key (front.now ++ rest.now) }
    {
        let mut inner = copy_of(&self.inner);
        inner.update(front);
        inner.update(rest);
        let digest = inner.finalize();
        let mut outer = copy_of(&self.outer);
        outer.update(digest.as_slice());
        outer.finalize()
    }
}

/// The tag of a message under a key of at most 64 bytes.
pub fn hmac(key: &[u8], message: &[u8]) -> Digest
    requires { length key.now ≤ 64 }
    ensures { result ≡ hmac_of key.now message.now }
{
    HmacKey::new(key).tag(&[], message)
}
