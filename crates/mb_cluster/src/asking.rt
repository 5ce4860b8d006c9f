//! Asking for operations, one after the other.

ghost use Rattle.std.specs.Prelude.{IsErrOf};
ghost use Rattle.mb_cluster.specs.Exchanges.{result_line};
ghost use Rattle.mb_edge.specs.Faults.{TellsFaults};
ghost use Rattle.mb_cluster.specs.Writes.{WritesLine};

use crate::lines::result_line;
use crate::listener::Listener;
use crate::posting::Post;
use crate::stop::{ClusterStop, link_stop};
use mb_base::{Items, Key, NoMemory, Shape};
use mb_edge::{Failed, Got, Link, Sink, write_all};
use mb_msg::Reply;
use std::alloc::Global;

/// The most bytes of a datagram that are looked at: one more than the longest piece has, so that a longer datagram is none.
pub(crate) const RECEIVE_LEN: usize = mb_frag::HEADER_LEN + mb_frag::PIECE + 1;

/// The client program as it asks.
#[derive(Drop)]
pub(crate) struct Program {
    alloc: Global,
    /// The most receives for an operation.
    turns: u64,
    listener: Listener,
    pub(crate) post: Post,
    /// What datagrams are received into.
    buffer: Vec<u8>,
}

impl Program {
    ghost use Rattle.std.specs.Prelude.{◌≡◌, ◌+◌, ◌-◌, ◌^◌, ◌≤◌, ◌<◌, ℕ, [], ◌∷◌, length, true, Option, IfOk, OnOk, IsErrOf};
    ghost use Rattle.mb_base.specs.Shapes.{host_count};
    ghost use Rattle.mb_base.specs.declared.limits.TheConstants.{MESSAGE_LIMIT};
    ghost use Rattle.mb_parts.specs.Fits.{FitsText};
    ghost use Rattle.mb_edge.specs.Faults.{TellsFaults};
    ghost use Rattle.mb_cluster.specs.Hearing.{no_hearing};
    ghost use Rattle.mb_cluster.specs.Runs.{OpsFit, wire_of};
    ghost use Rattle.mb_cluster.specs.Listens.{Listens, WhereListens};
    ghost use Rattle.mb_cluster.specs.Steps.{ReceivesOne, Awaits, Exchanges};
    ghost use Rattle.mb_cluster.specs.Asking.{AsksAll};

    /// The program before it asks.
    pub(crate) fn make(
        alloc: Global,
        shape: Shape,
        secret: &Key,
        turns: u64,
    ) -> Result<Program, NoMemory>
        ensures listens { IfOk result (λ p. Listens shape secret.now p.listener (no_hearing shape)) }
        ensures none { IfOk result (λ p. p.listener.asker.number ≡ 0) }
        ensures turns { IfOk result (λ p. p.turns ≡ turns) }
        ensures hosts { IfOk result (λ p. p.post.hosts ≡ host_count shape) }
        ensures first { IfOk result (λ p. p.post.number ≡ 0) }
    {
        Ok(Program {
            alloc,
            turns,
            listener: Listener::make(alloc, shape, secret)?,
            post: Post {
                hosts: shape.n(),
                number: 0,
            },
            buffer: vec![in alloc; 0; RECEIVE_LEN]?,
        })
    }

    /// Asks for operations, one after the other, and writes the result of each.
    pub(crate) fn ask_all<L: Link, K: Sink>(
        &mut self,
        ops: &[Items<u8>],
        link: &mut L,
        sink: &mut K,
    ) -> Result<(), ClusterStop>
        requires ops { OpsFit ops.now }
        requires none { self.old.listener.asker.number ≡ 0 }
        ensures asks { AsksAll ops.now result self.old self.new (L.seen link.old) (L.seen link.new) (K.seen sink.old) (K.seen sink.new) }
        ensures hosts { self.new.post.hosts ≡ self.old.post.hosts }
        ensures opens { (L.seen link.new).opens ≡ (L.seen link.old).opens }
        ensures link_faults { TellsFaults (L.never_fails link.old) (L.never_fails link.new) (L.seen link.old).faults (L.seen link.new).faults (IsErrOf result ClusterStop.LinkFault) }
        ensures sink_faults { TellsFaults (K.never_fails sink.old) (K.never_fails sink.new) (K.seen sink.old).faults (K.seen sink.new).faults (IsErrOf result ClusterStop.SinkFault) }
    {
        for op in ops {
            self.ask_one(op.as_slice(), link, sink)?;
        }
        Ok(())
    }

    /// Asks for an operation, and writes its result.
    fn ask_one<L: Link, K: Sink>(
        &mut self,
        op: &[u8],
        link: &mut L,
        sink: &mut K,
    ) -> Result<(), ClusterStop>
        requires op { FitsText op.now }
        requires few { self.old.listener.asker.number < 2 ^ 64 - 1 }
        ensures asks { AsksAll (op.now ∷ []) result self.old self.new (L.seen link.old) (L.seen link.new) (K.seen sink.old) (K.seen sink.new) }
        ensures number { OnOk result (self.new.listener.asker.number ≡ self.old.listener.asker.number + 1) }
        ensures turns { self.new.turns ≡ self.old.turns }
        ensures hosts { self.new.post.hosts ≡ self.old.post.hosts }
        ensures opens { (L.seen link.new).opens ≡ (L.seen link.old).opens }
        ensures link_faults { TellsFaults (L.never_fails link.old) (L.never_fails link.new) (L.seen link.old).faults (L.seen link.new).faults (IsErrOf result ClusterStop.LinkFault) }
        ensures sink_faults { TellsFaults (K.never_fails sink.old) (K.never_fails sink.new) (K.seen sink.old).faults (K.seen sink.new).faults (IsErrOf result ClusterStop.SinkFault) }
    {
        match self.exchange(op, link) {
            Ok(Some(reply)) => write_result(self.alloc, &reply, sink),
            Ok(None) => Err(ClusterStop::Budget {
                seq: self.listener.asker.asked(),
                matching: self.listener.most,
            }),
            Err(cause) => Err(link_stop(cause)),
        }
    }

    /// Sends the request for an operation, and receives until its result is known. None where all receives for it are made before that.
    fn exchange<L: Link>(&mut self, op: &[u8], link: &mut L) -> Result<Option<Reply>, Failed>
        requires op { FitsText op.now }
        requires few { self.old.listener.asker.number < 2 ^ 64 - 1 }
        ensures exchanges { WhereListens self.old.listener (λ s secret c. Exchanges s secret op.now result c self.old self.new (wire_of (L.seen link.old)) (wire_of (L.seen link.new))) }
        ensures number { OnOk result (self.new.listener.asker.number ≡ self.old.listener.asker.number + 1) }
        ensures turns { self.new.turns ≡ self.old.turns }
        ensures hosts { self.new.post.hosts ≡ self.old.post.hosts }
        ensures opens { (L.seen link.new).opens ≡ (L.seen link.old).opens }
        ensures faults { TellsFaults (L.never_fails link.old) (L.never_fails link.new) (L.seen link.old).faults (L.seen link.new).faults (IsErrOf result Failed.Device) }
    {
        let request = self.listener.ask(self.alloc, op)?;
        self.post.send(self.alloc, &request, link)?;
        self.await_answer(&request, link)
    }

    /// Receives until the result of a request is known, or all receives for it are made.
    fn await_answer<L: Link>(
        &mut self,
        request: &[u8],
        link: &mut L,
    ) -> Result<Option<Reply>, Failed>
        requires some { 1 ≤ length request.now }
        requires short { length request.now ≤ MESSAGE_LIMIT }
        ensures awaits { WhereListens self.old.listener (λ s secret c. c.asker.waits ≡ true → Awaits s secret request.now result c self.old self.new (wire_of (L.seen link.old)) (wire_of (L.seen link.new))) }
        ensures number { self.new.listener.asker.number ≡ self.old.listener.asker.number }
        ensures turns { self.new.turns ≡ self.old.turns }
        ensures hosts { self.new.post.hosts ≡ self.old.post.hosts }
        ensures opens { (L.seen link.new).opens ≡ (L.seen link.old).opens }
        ensures faults { TellsFaults (L.never_fails link.old) (L.never_fails link.new) (L.seen link.old).faults (L.seen link.new).faults (IsErrOf result Failed.Device) }
    {
        for _ in 0..self.turns {
            match self.receive(request, link) {
                Ok(None) => {}
                Ok(Some(reply)) => return Ok(Some(reply)),
                Err(cause) => return Err(cause),
            }
        }
        Ok(None)
    }

    /// One receive. Where it is quiet, the request is sent again. The answer is the reply that completes f+1, if one does.
    fn receive<L: Link>(&mut self, request: &[u8], link: &mut L) -> Result<Option<Reply>, Failed>
        requires some { 1 ≤ length request.now }
        requires short { length request.now ≤ MESSAGE_LIMIT }
        ensures receives { WhereListens self.old.listener (λ s secret c. ReceivesOne s secret request.now result c self.old self.new (wire_of (L.seen link.old)) (wire_of (L.seen link.new))) }
        ensures number { self.new.listener.asker.number ≡ self.old.listener.asker.number }
        ensures turns { self.new.turns ≡ self.old.turns }
        ensures hosts { self.new.post.hosts ≡ self.old.post.hosts }
        ensures opens { (L.seen link.new).opens ≡ (L.seen link.old).opens }
        ensures faults { TellsFaults (L.never_fails link.old) (L.never_fails link.new) (L.seen link.old).faults (L.seen link.new).faults (IsErrOf result Failed.Device) }
    {
        match link.recv(&mut self.buffer) {
            Got::Datagram(count) => match self.listener.hear(self.alloc, &self.buffer[..count]) {
                Ok(heard) => Ok(heard),
                Err(NoMemory) => Err(Failed::NoMemory),
            },
            Got::Quiet => match self.post.send(self.alloc, request, link) {
                Ok(()) => Ok(None),
                Err(cause) => Err(cause),
            },
            Got::Failed(cause) => Err(cause),
        }
    }
}

/// Writes the line of a result.
fn write_result<K: Sink>(alloc: Global, reply: &Reply, sink: &mut K) -> Result<(), ClusterStop>
    ensures written { WritesLine result (result_line reply.now) (K.seen sink.old).bytes (K.seen sink.new).bytes }
    ensures faults { TellsFaults (K.never_fails sink.old) (K.never_fails sink.new) (K.seen sink.old).faults (K.seen sink.new).faults (IsErrOf result ClusterStop.SinkFault) }
{
    let line = result_line(alloc, reply)?;
    write_all(sink, line.as_bytes())?;
    Ok(())
}
