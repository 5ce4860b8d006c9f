//! What several tests begin with.

ghost use Rattle.std.specs.Prelude.{◌≡◌};

use mb_base::{Client, Items, Seq};
use mb_parts::Request;
use std::alloc::Global;
use std::process::Abort;

/// These bytes in a list of their own.
pub fn bytes(rt: &impl Abort, alloc: Global, all: &[u8]) -> Items<u8> {
    Items::from_vec(Vec::from_slice(alloc, all).expect(rt, "memory"))
}

/// A request whose tag nobody looks at.
pub fn request(rt: &impl Abort, alloc: Global, client: Client, seq: Seq, op: &[u8]) -> Request
    ensures { result.client ≡ client }
{
    Request {
        client,
        seq,
        op: bytes(rt, alloc, op),
        tag: [0; 32],
    }
}
