//! The trusted part of a host: its counter, and the keys that it shares with the other hosts' parts and with the clients.

ghost use Rattle.std.specs.Prelude.{◌≡◌, ◌<◌, ◌++◌, ◌∷◌, IsTrue};
ghost use Rattle.std.specs.Int.{w8, w64};
ghost use Rattle.mb_base.specs.Shapes.{host_count, client_count};
ghost use Rattle.mb_base.specs.Spelling.{number};
ghost use Rattle.mb_usig.specs.Hmac.{hmac_of};
ghost use Rattle.mb_usig.specs.Remembered.{tag_by};
ghost use Rattle.mb_usig.specs.Tags.{client_key, certificate, is_certified, same_bytes, signed_request, signed_reply, wish_tag, stop_tag};

use crate::keyed_hash::HmacKey;
use crate::keys::{ClientKeys, client_keys_of, usig_key_of};
use crate::origin::Origin;
use crate::remembered::Remembered;
use mb_base::{Client, Counter, Digest, Host, Key, Shape, Ui, View};
use sha2::{Digest as _, Sha256};
use std::alloc::Global;
use std::marker::Model;

/// The counter stands at 2^64 - 1, so there is no identifier for a further message.
#[derive(Clone, Copy, Debug, PartialEq, Eq)]
pub struct Spent;

/// The trusted part of a host. It binds each message to a counter of its own, and checks and makes tags.
#[derive(Drop)]
pub struct Usig {
    shape: Shape,
    host: Host,
    // Contracts speak of it. What is hashed are the keys that are made of it.
    secret: Key,
    counter: Counter,
    key: HmacKey,
    client_keys: ClientKeys,
    // What was made or found right before, where there is memory for it. It is no part of the value, since it changes no answer.
    remembered: Option<Remembered>,
}

impl Model for Usig {
    ghost use Rattle.mb_usig.specs.Trusted.{Trusted};

    ghost Value = { Trusted };

    ghost use Rattle.mb_usig.specs.Keeping.{trusted_of, KeepsKeys};

    ghost view = { trusted_of };

    ghost invariant = { KeepsKeys };
}

// The front of what a certificate is a tag of.
fn certified_front(host: Host, counter: Counter) -> [u8; 10]
    ensures { result ≡ 85 ∷ number w8 host ++ number w64 counter }
{
    let mut front = [0u8; 10];
    front[0] = b'U';
    front[1] = host;
    front[2..].copy_from_slice(&counter.to_be_bytes());
    front
}

impl Usig {
    ghost use Rattle.mb_usig.specs.Trusted.{CreatesUi};

    /// The part of a host, with no message bound yet.
    pub fn new(shape: Shape, host: Host, secret: &Key) -> Usig
        requires { host < host_count shape }
        ensures { result ≡ record { shape = shape; host = host; secret = secret.now; counter = 0 } }
    {
        let usig_key = usig_key_of(secret);
        Usig {
            shape,
            host,
            secret: *secret,
            counter: 0,
            key: HmacKey::new(usig_key.as_slice()),
            client_keys: client_keys_of(secret),
            remembered: None,
        }
    }

    /// This part, which remembers tags that it makes or finds right from here on, so that equal ones are compared and not hashed. All memory for it
    /// is taken here; where there is too little, it remembers nothing.
    pub fn remembering(mut self, alloc: Global) -> Usig
        ensures { result ≡ self }
    {
        self.remembered = Remembered::make(alloc, &self.shape, &self.secret).ok();
        self
    }

    /// The part of a host that bound its last message to this counter.
    pub fn resumed(shape: Shape, host: Host, secret: &Key, last: Counter) -> Usig
        requires { host < host_count shape }
        ensures { result ≡ record { shape = shape; host = host; secret = secret.now; counter = last } }
    {
        Usig {
            counter: last,
            ..Usig::new(shape, host, secret)
        }
    }

    /// The host whose part this is.
    pub fn host(&self) -> Host
        ensures value { result ≡ self.now.host }
        ensures within { result < host_count self.now.shape }
    {
        self.host
    }

    /// The last counter that was bound to a message, or 0.
    pub fn counter(&self) -> Counter
        ensures { result ≡ self.now.counter }
    {
        self.counter
    }

    // The certificate of these bytes at a counter of a host.
    #[tactic(auto, unfolding(crate::specs::Tags::certificate))]
    fn certificate(&self, host: Host, counter: Counter, bare: &[u8]) -> Digest
        ensures { result ≡ certificate self.now.secret host counter bare.now }
    {
        let digest = Sha256::digest(bare);
        self.key.tag(certified_front(host, counter).as_slice(), digest.as_slice())
    }

    /// Binds the next counter to a message's bytes. `Spent` comes exactly where the counter stands at 2^64 - 1, and then nothing changes.
    pub fn create_ui(&mut self, bare: &[u8]) -> Result<Ui, Spent>
        ensures { CreatesUi self.old bare.now result self.new }
    {
        let Some(counter) = self.counter.checked_add(1) else {
            return Err(Spent);
        };
        let host = self.host;
        let cert = self.certificate(host, counter, bare);
        self.remember(Origin::Host { host, counter }, bare, &cert);
        self.counter = counter;
        Ok(Ui {
            host,
            counter,
            cert,
        })
    }

    /// Whether a UI's certificate is the one of these bytes at its host and counter.
    pub fn verify_ui(&self, bare: &[u8], ui: &Ui) -> bool
        ensures { result ≡ is_certified self.now.secret ui.now.host ui.now.counter bare.now ui.now.cert }
    {
        let origin = Origin::Host {
            host: ui.host,
            counter: ui.counter,
        };
        if self.remembers(origin, bare, &ui.cert) {
            return true;
        }
        let right = ui.cert == self.certificate(ui.host, ui.counter, bare);
        if right {
            self.remember(origin, bare, &ui.cert);
        }
        right
    }

    // Whether this tag of a text was made or found right before.
    fn remembers(&self, origin: Origin, text: &[u8], tag: &Digest) -> bool
        ensures { IsTrue result → tag.now ≡ tag_by self.now.secret origin text.now }
    {
        match &self.remembered {
            Some(remembered) => remembered.has(&self.secret, origin, text, tag),
            None => false,
        }
    }

    // Remembers a right tag, where there is memory for it.
    fn remember(&self, origin: Origin, text: &[u8], tag: &Digest)
        requires { tag.now ≡ tag_by self.now.secret origin text.now }
    {
        if let Some(remembered) = &self.remembered {
            remembered.keep(&self.secret, origin, text, tag);
        }
    }

    // The tag, under a client's key, of a text that comes in two pieces.
    fn client_tag(&self, client: Client, front: &[u8], rest: &[u8]) -> Digest
        requires { client < client_count self.now.shape }
        ensures { result ≡ hmac_of (client_key self.now.secret client) (front.now ++ rest.now) }
    {
        self.client_keys[usize::from(client)].tag(front, rest)
    }

    /// Whether a client's tag is the one of its request, of which the text behind the letter is given.
    #[tactic(auto, unfolding(crate::specs::Tags::signed_request))]
    pub fn verify_request(&self, client: Client, signed: &[u8], tag: &Digest) -> bool
        requires { client < client_count self.now.shape }
        ensures { result ≡ same_bytes tag.now (signed_request self.now.secret client signed.now) }
    {
        let origin = Origin::Client { client };
        if self.remembers(origin, signed, tag) {
            return true;
        }
        let right = *tag == self.client_tag(client, b"Q", signed);
        if right {
            self.remember(origin, signed, tag);
        }
        right
    }

    /// This host's tag of a reply for a client, of which the text behind the letter and the host is given.
    #[tactic(auto, unfolding(crate::specs::Tags::signed_reply, mb_base::specs::Spelling::number))]
    pub fn tag_reply(&self, client: Client, signed: &[u8]) -> Digest
        requires { client < client_count self.now.shape }
        ensures { result ≡ signed_reply self.now.secret self.now.host client signed.now }
    {
        self.client_tag(client, &[b'R', self.host], signed)
    }

    // The tag of a host's wish for a view.
    #[tactic(auto, unfolding(crate::specs::Tags::wish_tag, mb_base::specs::Spelling::number))]
    fn wish_tag(&self, host: Host, view: View) -> Digest
        ensures { result ≡ wish_tag self.now.secret host view }
    {
        self.key.tag(&[b'W', host], &view.to_be_bytes())
    }

    /// This host's tag of its wish for a view.
    pub fn tag_wish(&self, view: View) -> Digest
        ensures { result ≡ wish_tag self.now.secret self.now.host view }
    {
        self.wish_tag(self.host, view)
    }

    /// Whether a tag is the one of a host's wish for a view.
    pub fn verify_wish(&self, host: Host, view: View, tag: &Digest) -> bool
        ensures { result ≡ same_bytes tag.now (wish_tag self.now.secret host view) }
    {
        *tag == self.wish_tag(host, view)
    }

    /// Whether a tag is the one of a STOP, which is client 0's.
    #[tactic(auto, unfolding(crate::specs::Tags::stop_tag))]
    pub fn verify_stop(&self, tag: &Digest) -> bool
        ensures { result ≡ same_bytes tag.now (stop_tag self.now.secret) }
    {
        *tag == self.client_tag(0, b"S", &[])
    }
}
