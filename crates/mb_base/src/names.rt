//! Names of numbers, and the identifier that a trusted counter gives to a message.

/// A host, from 0 to n - 1.
pub type Host = u8;
/// A client, from 0.
pub type Client = u8;
/// A view. Its primary is host `view % n`.
pub type View = u64;
/// A position in the one list of requests. The first request stands at 1.
pub type Pos = u64;
/// A value of a host's trusted counter. The first message has 1.
pub type Counter = u64;
/// The number that a client gives to its request, from 1.
pub type Seq = u64;
/// A SHA-256 digest (FIPS 180-4), or an HMAC made with it (RFC 2104).
pub type Digest = [u8; 32];
/// A secret key.
pub type Key = [u8; 32];

/// The unique identifier of a message: the counter that the sender's USIG bound to it, and the certificate of that.
#[derive(Clone, Copy, PartialEq, Eq)]
pub struct Ui {
    pub host: Host,
    pub counter: Counter,
    pub cert: Digest,
}
