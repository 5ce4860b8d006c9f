//! Receiving: what a link gives, as messages and quiets.

use crate::inbox::Inbox;
use mb_base::{Items, NoMemory, Shape};
use mb_edge::{Failed, Got, Link};
use mb_frag::{HEADER_LEN, PIECE};
use std::alloc::Global;

/// One byte more than the longest piece, so that a longer datagram is no piece.
const DATAGRAM_LIMIT: usize = HEADER_LEN + PIECE + 1;

/// What a receive gave.
#[derive(Drop)]
pub(crate) enum Arrival {
    /// A message is whole.
    Message(Items<u8>),
    /// A datagram came, and no message is whole.
    Nothing,
    /// A while has passed since the last quiet.
    Quiet,
}

/// Receives datagrams, and puts messages together.
#[derive(Drop)]
pub(crate) struct Receiver {
    inbox: Inbox,
    buffer: Vec<u8>,
}

impl Receiver {
    ghost use Rattle.std.specs.Prelude.{◌≡◌, [], IfOk, IsErrOf};
    ghost use Rattle.mb_node.specs.Inboxes.{HasReceived};
    ghost use Rattle.mb_edge.specs.Faults.{TellsFaults};
    ghost use Rattle.mb_node.specs.Receiving.{Gives, ArrivalFits};

    /// Nothing was received yet.
    pub(crate) fn make(alloc: Global, shape: Shape) -> Result<Receiver, NoMemory>
        ensures { IfOk result (λ r. HasReceived shape [] r.inbox) }
    {
        Ok(Receiver {
            inbox: Inbox::make(alloc, shape)?,
            buffer: vec![in alloc; 0; DATAGRAM_LIMIT]?,
        })
    }

    /// One receive.
    pub(crate) fn receive<L: Link>(
        &mut self,
        alloc: Global,
        link: &mut L,
    ) -> Result<Arrival, Failed>
        ensures gives { Gives self.old self.new result (L.seen link.old).received (L.seen link.new).received }
        ensures fits { IfOk result ArrivalFits }
        ensures sent { (L.seen link.new).sent ≡ (L.seen link.old).sent }
        ensures opens { (L.seen link.new).opens ≡ (L.seen link.old).opens }
        ensures link { TellsFaults (L.never_fails link.old) (L.never_fails link.new) (L.seen link.old).faults (L.seen link.new).faults (IsErrOf result Failed.Device) }
    {
        match link.recv(self.buffer.as_mut_slice()) {
            Got::Failed(cause) => Err(cause),
            Got::Quiet => Ok(Arrival::Quiet),
            Got::Datagram(count) => match self.inbox.take(alloc, &self.buffer[..count])? {
                Some(message) => Ok(Arrival::Message(message)),
                None => Ok(Arrival::Nothing),
            },
        }
    }
}
