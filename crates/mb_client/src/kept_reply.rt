//! A reply that a client keeps.

use mb_base::{Client, Digest, Host, Pos, Seq};
use mb_msg::{Reply, TEXT_LIMIT};
use std::marker::Model;

/// The most bytes of a result.
const LONGEST_RESULT: usize = TEXT_LIMIT as usize;

/// A reply with room for the longest result, so that keeping one takes no memory.
#[derive(Drop)]
pub(crate) struct KeptReply {
    host: Host,
    client: Client,
    seq: Seq,
    pos: Pos,
    bytes: [u8; LONGEST_RESULT],
    len: usize,
    tag: Digest,
}

impl Model for KeptReply {
    ghost use Rattle.std.specs.Prelude.{◌≤◌, take};
    ghost use Rattle.mb_msg.specs.declared.normal.Reply.{Reply};
    ghost use Rattle.mb_client.specs.declared.kept_reply.TheConstants.{LONGEST_RESULT};

    ghost Value = { Reply };

    ghost view = { λ k. record { host = k.host; client = k.client; seq = k.seq; pos = k.pos; result = take k.len k.bytes; tag = k.tag } };

    ghost invariant = { λ k. k.len ≤ LONGEST_RESULT };
}

impl KeptReply {
    ghost use Rattle.std.specs.Prelude.{◌≡◌};
    ghost use Rattle.mb_parts.specs.Fits.{FitsText};
    ghost use Rattle.mb_model.specs.Clients.{agrees};

    /// Keeps a reply, whose result has at most 1,024 bytes.
    pub(crate) fn of(reply: &Reply) -> KeptReply
        requires { FitsText reply.now.result }
        ensures { result ≡ reply.now }
    {
        let len = reply.result.len();
        let mut bytes = [0; LONGEST_RESULT];
        bytes[..len].copy_from_slice(reply.result.as_slice());
        KeptReply {
            host: reply.host,
            client: reply.client,
            seq: reply.seq,
            pos: reply.pos,
            bytes,
            len,
            tag: reply.tag,
        }
    }

    /// The host that told it.
    pub(crate) fn host(&self) -> Host
        ensures { result ≡ self.now.host }
    {
        self.host
    }

    /// The number of the request.
    pub(crate) fn seq(&self) -> Seq
        ensures { result ≡ self.now.seq }
    {
        self.seq
    }

    /// The position of the request.
    pub(crate) fn pos(&self) -> Pos
        ensures { result ≡ self.now.pos }
    {
        self.pos
    }

    /// What the request brought about.
    pub(crate) fn result(&self) -> &[u8]
        ensures { result.now ≡ self.now.result }
    {
        &self.bytes[..self.len]
    }

    /// Whether another one has the same position and result.
    pub(crate) fn agrees(&self, other: &KeptReply) -> bool
        ensures { result ≡ agrees self.now other.now }
    {
        self.pos == other.pos && self.result() == other.result()
    }
}
