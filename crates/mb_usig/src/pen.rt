//! A client's side of the tags.

ghost use Rattle.std.specs.Prelude.{◌≡◌, ℕ, ◌∷◌, ◌++◌};
ghost use Rattle.std.specs.Int.{w8};
ghost use Rattle.mb_base.specs.Shapes.{Bytes};
ghost use Rattle.mb_base.specs.Spelling.{number};
ghost use Rattle.mb_usig.specs.Hmac.{hmac_of};
ghost use Rattle.mb_usig.specs.Tags.{client_key, same_bytes, signed_request, signed_reply, stop_tag};

use crate::keyed_hash::HmacKey;
use crate::keys::ready_key_of;
use mb_base::{Client, Digest, Key};
use std::marker::Model;

/// What a client signs its requests with, and checks the replies of the hosts with.
#[derive(Drop)]
pub struct Pen {
    client: Client,
    // Contracts speak of it. What is hashed is the key that is made of it.
    secret: Key,
    key: HmacKey,
}

impl Model for Pen {
    ghost use Rattle.mb_usig.specs.Trusted.{Signer};

    ghost Value = { Signer };

    ghost use Rattle.mb_usig.specs.Keeping.{signer_of, KeepsKey};

    ghost view = { signer_of };

    ghost invariant = { KeepsKey };
}

impl Pen {
    /// The pen of a client.
    pub fn new(secret: &Key, client: Client) -> Pen
        ensures { result ≡ record { client = client; secret = secret.now } }
    {
        Pen {
            client,
            secret: *secret,
            key: ready_key_of(secret, client),
        }
    }

    /// The tag of a request, of which the text behind the letter is given.
    #[tactic(auto, unfolding(crate::specs::Tags::signed_request))]
    pub fn tag_request(&self, signed: &[u8]) -> Digest
        ensures { result ≡ signed_request self.now.secret self.now.client signed.now }
    {
        self.key.tag(b"Q", signed)
    }

    /// Whether a tag is the one of this client's request, of which the text behind the letter is given.
    pub fn verify_request(&self, signed: &[u8], tag: &Digest) -> bool
        ensures { result ≡ same_bytes tag.now (signed_request self.now.secret self.now.client signed.now) }
    {
        *tag == self.tag_request(signed)
    }

    /// Whether a tag is the one of a reply for this client, of which the text behind the letter is given. Its first byte names the host whose
    /// tag it is.
    #[tactic(auto, unfolding(crate::specs::Tags::signed_reply))]
    pub fn verify_reply(&self, signed: &[u8], tag: &Digest) -> bool
        ensures value { result ≡ same_bytes tag.now (hmac_of (client_key self.now.secret self.now.client) (82 ∷ signed.now)) }
        ensures reply { (host : ℕ) (text : Bytes) → signed.now ≡ number w8 host ++ text
            → result ≡ same_bytes tag.now (signed_reply self.now.secret host self.now.client text) }
    {
        *tag == self.key.tag(b"R", signed)
    }

    /// The tag of a STOP. The client is 0, who alone sends it.
    #[tactic(auto, unfolding(crate::specs::Tags::stop_tag))]
    pub fn tag_stop(&self) -> Digest
        requires { self.now.client ≡ 0 }
        ensures { result ≡ stop_tag self.now.secret }
    {
        self.key.tag(b"S", &[])
    }
}
