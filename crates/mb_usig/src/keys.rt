//! The keys that are made of the system's secret.

ghost use Rattle.std.specs.Prelude.{◌≡◌, ◌<◌, ℕ};
ghost use Rattle.mb_usig.specs.KeyedHash.{IsReady, AreReady};
ghost use Rattle.mb_usig.specs.Tags.{usig_key, client_key};

use crate::keyed_hash::{HmacKey, hmac};
use mb_base::{Client, Digest, Key, Shape};
use std::array;

const MAX_CLIENTS: usize = Shape::MAX_CLIENTS as usize;

/// A key for each client that a system may have.
pub(crate) type ClientKeys = [HmacKey; MAX_CLIENTS];

/// The key that a client shares with the trusted parts.
#[tactic(auto, unfolding(crate::specs::Tags::client_key, mb_base::specs::Spelling::number))]
pub(crate) fn client_key_of(secret: &Key, client: Client) -> Digest
    ensures { result ≡ client_key secret.now client }
{
    hmac(secret.as_slice(), &[b'C', client])
}

/// The key that the trusted parts share.
#[tactic(auto, unfolding(crate::specs::Tags::usig_key))]
pub(crate) fn usig_key_of(secret: &Key) -> Digest
    ensures { result ≡ usig_key secret.now }
{
    hmac(secret.as_slice(), b"U")
}

/// The key that a client shares with the trusted parts, ready for use.
pub(crate) fn ready_key_of(secret: &Key, client: Client) -> HmacKey
    ensures { IsReady result (client_key secret.now client) }
{
    HmacKey::new(client_key_of(secret, client).as_slice())
}

/// The keys of all clients that a system may have.
pub(crate) fn client_keys_of(secret: &Key) -> ClientKeys
    ensures { AreReady result secret.now }
{
    array::from_fn(|client| ready_key_of(secret, client as u8))
}
