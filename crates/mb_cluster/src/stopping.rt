//! The STOPs. Their one datagram is made before the first node is started, so that want of memory can't keep a cluster from ending its nodes: only its number
//! is written anew.

ghost use Rattle.std.specs.Prelude.{◌≡◌, ◌≤◌, length, IfOk};
ghost use Rattle.mb_base.specs.declared.limits.TheConstants.{MESSAGE_LIMIT};
ghost use Rattle.mb_cluster.specs.Posts.{stop_bytes};

use crate::posting::{PROGRAM, Post, encode_own, first_failure};
use mb_base::{Key, NoMemory, Shape};
use mb_edge::{Failed, Link};
use mb_frag::cut;
use mb_msg::{Message, Stop};
use mb_usig::Pen;
use std::alloc::Global;

/// How often STOP is sent to every host.
const ROUNDS: u8 = 3;

/// The datagram of a STOP.
#[derive(Drop)]
pub(crate) struct StopDatagram {
    pub(crate) bytes: Vec<u8>,
}

impl StopDatagram {
    ghost use Rattle.std.specs.Prelude.{◌≡◌, ◌≤◌, ◌++◌, length, take, drop, IfOk, IsErrOf};
    ghost use Rattle.std.specs.Int.{w32};
    ghost use Rattle.mb_base.specs.Spelling.{number as spelled};
    ghost use Rattle.mb_base.specs.Shapes.{Bytes};
    ghost use Rattle.mb_edge.specs.Faults.{TellsFaults};
    ghost use Rattle.mb_cluster.specs.Posts.{posts, stops};
    ghost use Rattle.mb_cluster.specs.Sends.{SendsSome};
    ghost use Rattle.mb_cluster.specs.Missing.{SendsBut, SendsMost};
    ghost use Rattle.mb_cluster.specs.Stopping.{IsStop, round};

    /// The datagram under the number 0.
    pub(crate) fn make(alloc: Global, shape: &Shape, secret: &Key) -> Result<StopDatagram, NoMemory>
        ensures stop { IfOk result (λ d. IsStop secret.now d.bytes.items) }
        ensures long { IfOk result (λ d. 5 ≤ length d.bytes.items) }
    {
        let message = stop_message(alloc, shape, secret)?;
        let pieces = cut(alloc, PROGRAM, 0, &message)?;
        Ok(StopDatagram {
            bytes: Vec::from_slice(alloc, pieces[0].as_slice())?,
        })
    }

    /// Writes a number into the datagram.
    #[tactic(auto, unfolding(mb_base::specs::Spelling::number))]
    fn renumber(&mut self, number: u32)
        requires { 5 ≤ length self.old.bytes.items }
        ensures { self.new.bytes.items ≡ take 1 self.old.bytes.items ++ (spelled w32 number ++ drop 5 self.old.bytes.items) }
    {
        self.bytes[1..5].copy_from_slice(&number.to_be_bytes());
    }

    /// Sends STOP to every host, three times, each time under the next number. Where a send fails, the others are made all the same. The answer is that of the
    /// first that failed.
    pub(crate) fn send<L: Link>(&mut self, post: &mut Post, link: &mut L) -> Result<(), Failed>
        requires { 5 ≤ length self.old.bytes.items }
        ensures sent { (secret : Bytes) → IsStop secret self.old.bytes.items → SendsSome (posts post.old.hosts post.old.number (stops secret)) result (L.seen link.old).sent (L.seen link.new).sent }
        ensures few { L.sends_without_memory → (secret : Bytes) → IsStop secret self.old.bytes.items → SendsMost (posts post.old.hosts post.old.number (stops secret)) (L.seen link.old) (L.seen link.new) }
        ensures received { (L.seen link.new).received ≡ (L.seen link.old).received }
        ensures opens { (L.seen link.new).opens ≡ (L.seen link.old).opens }
        ensures faults { TellsFaults (L.never_fails link.old) (L.never_fails link.new) (L.seen link.old).faults (L.seen link.new).faults (IsErrOf result Failed.Device) }
    {
        let mut sent = Ok(());
        for _ in 0..ROUNDS {
            self.renumber(post.take_number());
            sent = first_failure(sent, self.send_round(post.hosts, link));
        }
        sent
    }

    /// Sends the datagram to every host.
    fn send_round<L: Link>(&self, hosts: u8, link: &mut L) -> Result<(), Failed>
        ensures sent { SendsSome (round hosts self.now.bytes.items) result (L.seen link.old).sent (L.seen link.new).sent }
        ensures few { L.sends_without_memory → SendsBut (round hosts self.now.bytes.items) (L.seen link.old).faults (L.seen link.new).faults (L.seen link.old).sent (L.seen link.new).sent }
        ensures received { (L.seen link.new).received ≡ (L.seen link.old).received }
        ensures opens { (L.seen link.new).opens ≡ (L.seen link.old).opens }
        ensures faults { TellsFaults (L.never_fails link.old) (L.never_fails link.new) (L.seen link.old).faults (L.seen link.new).faults (IsErrOf result Failed.Device) }
    {
        let mut sent = Ok(());
        for host in 0..hosts {
            sent = first_failure(sent, link.send(host, &self.bytes));
        }
        sent
    }
}

/// The bytes of a STOP.
fn stop_message(alloc: Global, shape: &Shape, secret: &Key) -> Result<Vec<u8>, NoMemory>
    ensures bytes { IfOk result (λ v. v.items ≡ stop_bytes secret.now) }
    ensures some { IfOk result (λ v. 1 ≤ length v.items) }
    ensures short { IfOk result (λ v. length v.items ≤ MESSAGE_LIMIT) }
{
    let tag = Pen::new(secret, 0).tag_stop();
    let bytes = encode_own(alloc, shape, Message::Stop(Stop { tag }))?;
    Ok(bytes)
}
