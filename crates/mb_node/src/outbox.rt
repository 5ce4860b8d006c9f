//! Sending: messages as datagrams to their peers.

ghost use Rattle.std.specs.Prelude.{◌≡◌, ◌+◌, ◌%◌, ◌^◌, ◌≤◌, length, ℕ, List, OnOk, IsErrOf};
ghost use Rattle.mb_node.specs.Sends.{to_peer, to_others, datagrams_of, numbered};
ghost use Rattle.mb_node.specs.Messages.{IsMessage, AreMessages};
ghost use Rattle.mb_edge.specs.Faults.{TellsFaults};
ghost use Rattle.mb_node.specs.Outside.{Delivers};

use crate::inbox::CLIENT_PEER;
use mb_base::{Host, Items};
use mb_edge::{Failed, Link};
use mb_frag::cut;
use mb_msg::{Sent, To};
use std::alloc::Global;

/// Sends as a host, and numbers the messages.
#[derive(Clone, Copy, Drop)]
pub(crate) struct Outbox {
    pub(crate) host: Host,
    /// How many hosts there are.
    pub(crate) hosts: u8,
    /// The next message's number, modulo 2^32.
    pub(crate) number: u32,
}

impl Outbox {
    /// Sends messages in order. Each takes one number, also where it goes to several peers.
    pub(crate) fn send_all<L: Link>(
        &mut self,
        alloc: Global,
        link: &mut L,
        sent: &[Sent],
    ) -> Result<(), Failed>
        requires messages { AreMessages sent.now }
        ensures sends { (n : ℕ) → self.old.number ≡ n % 2 ^ 32 → Delivers (numbered self.old.hosts self.old.host n sent.now) (L.seen link.old).sent (L.seen link.new).sent result }
        ensures number { (n : ℕ) → self.old.number ≡ n % 2 ^ 32 → OnOk result (self.new.number ≡ (n + length sent.now) % 2 ^ 32) }
        ensures who { (self.new.host ≡ self.old.host) × (self.new.hosts ≡ self.old.hosts) }
        ensures received { (L.seen link.new).received ≡ (L.seen link.old).received }
        ensures opens { (L.seen link.new).opens ≡ (L.seen link.old).opens }
        ensures link { TellsFaults (L.never_fails link.old) (L.never_fails link.new) (L.seen link.old).faults (L.seen link.new).faults (IsErrOf result Failed.Device) }
    {
        for message in sent {
            self.send(alloc, link, message)?;
            self.number = self.number.wrapping_add(1);
        }
        Ok(())
    }

    /// Sends the pieces of a message, to each other host by its number, to a host, or to the client program.
    fn send<L: Link>(&self, alloc: Global, link: &mut L, message: &Sent) -> Result<(), Failed>
        requires message { IsMessage message.now }
        ensures sends { (n : ℕ) → self.now.number ≡ n % 2 ^ 32 → Delivers (datagrams_of self.now.hosts self.now.host n message.now) (L.seen link.old).sent (L.seen link.new).sent result }
        ensures received { (L.seen link.new).received ≡ (L.seen link.old).received }
        ensures opens { (L.seen link.new).opens ≡ (L.seen link.old).opens }
        ensures link { TellsFaults (L.never_fails link.old) (L.never_fails link.new) (L.seen link.old).faults (L.seen link.new).faults (IsErrOf result Failed.Device) }
    {
        let pieces = cut(alloc, self.host, self.number, message.bytes.as_slice())?;
        match message.to {
            To::All => self.send_others(link, pieces.as_slice()),
            To::Host(host) => send_pieces(link, host, pieces.as_slice()),
            To::Client(_) => send_pieces(link, CLIENT_PEER, pieces.as_slice()),
        }
    }

    /// Sends pieces to each other host.
    fn send_others<L: Link>(&self, link: &mut L, pieces: &[Items<u8>]) -> Result<(), Failed>
        ensures sends { Delivers (to_others self.now.hosts self.now.host pieces.now) (L.seen link.old).sent (L.seen link.new).sent result }
        ensures received { (L.seen link.new).received ≡ (L.seen link.old).received }
        ensures opens { (L.seen link.new).opens ≡ (L.seen link.old).opens }
        ensures link { TellsFaults (L.never_fails link.old) (L.never_fails link.new) (L.seen link.old).faults (L.seen link.new).faults (IsErrOf result Failed.Device) }
    {
        for peer in 0..self.hosts {
            if peer != self.host {
                send_pieces(link, peer, pieces)?;
            }
        }
        Ok(())
    }
}

/// Sends pieces to a peer, in order.
fn send_pieces<L: Link>(link: &mut L, peer: u8, pieces: &[Items<u8>]) -> Result<(), Failed>
    ensures sends { Delivers (to_peer pieces.now peer) (L.seen link.old).sent (L.seen link.new).sent result }
    ensures received { (L.seen link.new).received ≡ (L.seen link.old).received }
    ensures opens { (L.seen link.new).opens ≡ (L.seen link.old).opens }
    ensures link { TellsFaults (L.never_fails link.old) (L.never_fails link.new) (L.seen link.old).faults (L.seen link.new).faults (IsErrOf result Failed.Device) }
{
    for piece in pieces {
        link.send(peer, piece.as_slice())?;
    }
    Ok(())
}
