//! Messages to every host.

ghost use Rattle.std.specs.Prelude.{◌≡◌, ◌≤◌, ◌%◌, ◌+◌, ◌^◌, ℕ, List, length, map, Ok, Err, IfOk, OnOk, IsErrOf};
ghost use Rattle.mb_base.specs.Shapes.{Bytes};
ghost use Rattle.mb_msg.specs.Fits.{Fits};
ghost use Rattle.mb_msg.specs.Spelling.{spelling};
ghost use Rattle.mb_edge.specs.Told.{with_more};
ghost use Rattle.mb_edge.specs.Faults.{TellsFaults};
ghost use Rattle.mb_cluster.specs.Posts.{next_number, to_host, to_all};
ghost use Rattle.mb_cluster.specs.Sends.{SendsFront, first_failure};

use mb_base::{Host, Items, NoMemory, Shape};
use mb_edge::{Failed, Link};
use mb_frag::{MESSAGE_LIMIT, cut};
use mb_msg::{Message, encode};
use std::alloc::Global;

/// The client program as a peer.
pub(crate) const PROGRAM: u8 = 255;

/// What messages are sent with: how many hosts there are, and the number of the next message.
#[derive(Clone, Copy)]
pub(crate) struct Post {
    pub(crate) hosts: u8,
    pub(crate) number: u32,
}

impl Post {
    /// Sends a message to every host, each of its pieces, under the next number, up to the first send that fails.
    pub(crate) fn send<L: Link>(
        &mut self,
        alloc: Global,
        message: &[u8],
        link: &mut L,
    ) -> Result<(), Failed>
        requires some { 1 ≤ length message.now }
        requires fits { length message.now ≤ MESSAGE_LIMIT }
        ensures sent { SendsFront (to_all self.old.hosts self.old.number message.now) result (L.seen link.old).sent (L.seen link.new).sent }
        ensures number { self.new.number ≡ next_number self.old.number }
        ensures hosts { self.new.hosts ≡ self.old.hosts }
        ensures received { (L.seen link.new).received ≡ (L.seen link.old).received }
        ensures opens { (L.seen link.new).opens ≡ (L.seen link.old).opens }
        ensures faults { TellsFaults (L.never_fails link.old) (L.never_fails link.new) (L.seen link.old).faults (L.seen link.new).faults (IsErrOf result Failed.Device) }
    {
        let number = self.take_number();
        let pieces = cut(alloc, PROGRAM, number, message)?;
        for host in 0..self.hosts {
            send_to(host, &pieces, link)?;
        }
        Ok(())
    }

    /// Takes the number of the next message.
    pub(crate) fn take_number(&mut self) -> u32
        ensures number { result ≡ self.old.number }
        ensures next { self.new.number ≡ next_number self.old.number }
        ensures hosts { self.new.hosts ≡ self.old.hosts }
    {
        let number = self.number;
        self.number = number.wrapping_add(1);
        number
    }
}

/// The bytes of a message that nobody needs behind that. It is dropped here, by one call: one that goes out of scope is dropped in place, kind by
/// kind, at each exit.
pub(crate) fn encode_own(
    alloc: Global,
    shape: &Shape,
    message: Message,
) -> Result<Vec<u8>, NoMemory>
    requires { Fits shape.now message }
    ensures { IfOk result (λ v. v.items ≡ spelling message) }
{
    let bytes = encode(alloc, shape, &message);
    drop(message);
    bytes
}

/// The first of two failures.
pub(crate) fn first_failure(
    first: Result<(), Failed>,
    second: Result<(), Failed>,
) -> Result<(), Failed>
    ensures { result ≡ first_failure first second }
{
    match first {
        Ok(()) => second,
        Err(cause) => Err(cause),
    }
}

/// Sends datagrams to a host, up to the first that fails.
fn send_to<L: Link>(host: Host, pieces: &[Items<u8>], link: &mut L) -> Result<(), Failed>
    ensures sent { SendsFront (to_host pieces.now host) result (L.seen link.old).sent (L.seen link.new).sent }
    ensures received { (L.seen link.new).received ≡ (L.seen link.old).received }
    ensures opens { (L.seen link.new).opens ≡ (L.seen link.old).opens }
    ensures faults { TellsFaults (L.never_fails link.old) (L.never_fails link.new) (L.seen link.old).faults (L.seen link.new).faults (IsErrOf result Failed.Device) }
{
    for piece in pieces {
        link.send(host, piece.as_slice())?;
    }
    Ok(())
}
