//! The messages that datagrams bring: one reassembler for each sender.

use mb_base::{Items, NoMemory, Shape};
use mb_frag::{Pushed, Reassembler};
use std::alloc::Global;

/// The number of the client program, as a sender and as a peer.
pub(crate) const CLIENT_PEER: u8 = 255;

/// One reassembler for each host by its number, and one for the client program. Datagrams of others are dropped.
#[derive(Drop)]
pub(crate) struct Inbox {
    hosts: Vec<Reassembler>,
    client: Reassembler,
}

impl Inbox {
    ghost use Rattle.std.specs.Prelude.{◌∷◌, ◌≡◌, [], Some, IfOk, IfSome};
    ghost use Rattle.mb_base.specs.declared.shape.Shape.{Shape as ShapeRecord};
    ghost use Rattle.mb_base.specs.Spelling.{IsBytes};
    ghost use Rattle.mb_frag.specs.Stages.{IsSized};
    ghost use Rattle.mb_node.specs.Receives.{Receives, made_whole};
    ghost use Rattle.mb_node.specs.Inboxes.{HasReceived};

    /// Nothing was received yet.
    pub(crate) fn make(alloc: Global, shape: Shape) -> Result<Inbox, NoMemory>
        ensures { IfOk result (HasReceived shape []) }
    {
        let mut hosts = Vec::with_capacity(alloc, usize::from(shape.n()))?;
        for _ in 0..shape.n() {
            hosts.push(Reassembler::make(alloc)?)?;
        }
        Ok(Inbox {
            hosts,
            client: Reassembler::make(alloc)?,
        })
    }

    /// Takes a datagram, and gives the message that it makes whole.
    pub(crate) fn take(
        &mut self,
        alloc: Global,
        datagram: &[u8],
    ) -> Result<Option<Items<u8>>, NoMemory>
        ensures message { (s : ShapeRecord) (before : Receives) → HasReceived s before self.old
            → IfOk result (λ message. (message ≡ made_whole s before datagram.now) × HasReceived s (Some datagram.now ∷ before) self.new) }
        ensures fits { IfOk result (λ message. IfSome message IsSized) }
        ensures of_bytes { IsBytes datagram.now }
    {
        match datagram.first() {
            None => Ok(None),
            Some(&CLIENT_PEER) => push(alloc, &mut self.client, datagram),
            Some(&host) => match self.hosts.get_mut(usize::from(host)) {
                None => Ok(None),
                Some(joiner) => push(alloc, joiner, datagram),
            },
        }
    }
}

ghost use Rattle.std.specs.Prelude.{◌≡◌, IfOk, IfSome};
ghost use Rattle.mb_frag.specs.Held.{push_of};
ghost use Rattle.mb_frag.specs.Stages.{IsSized};
ghost use Rattle.mb_node.specs.Receives.{whole_message};

/// Pushes a datagram, and gives the message that it makes whole.
fn push(
    alloc: Global,
    joiner: &mut Reassembler,
    datagram: &[u8],
) -> Result<Option<Items<u8>>, NoMemory>
    ensures message { IfOk result (λ message. message ≡ whole_message (push_of joiner.old datagram.now)) }
    ensures held { joiner.new ≡ (push_of joiner.old datagram.now).1 }
    ensures fits { IfOk result (λ message. IfSome message IsSized) }
{
    match joiner.push(datagram) {
        Pushed::Whole => {
            let message = Vec::from_slice(alloc, joiner.message())?;
            Ok(Some(Items::from_vec(message)))
        }
        _ => Ok(None),
    }
}
