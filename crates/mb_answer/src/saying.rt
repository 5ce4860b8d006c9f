//! Writing an answer.

ghost use Rattle.std.specs.Prelude.{◌≡◌, IfOk, IfErr};
ghost use Rattle.mb_edge.specs.Faults.{TellsFaults};
ghost use Rattle.mb_answer.specs.Devices.{Says, SaysOrStarves, IsUnread, IsToldBy, IsLow};

use crate::answer::{NO_MEMORY, Output, SINK_FAULT, SOURCE_FAULT, too_long};
use mb_base::NoMemory;
use mb_edge::{ReadStop, Sink, WriteStop, write_all};
use std::alloc::Global;

/// Writes a text, and answers a status: the one that goes with the text, or that of a failed write.
pub fn say<K: Sink>(sink: &mut K, text: &[u8], status: u8) -> u8
    requires { IsToldBy status }
    ensures says { Says status text.now result (K.seen sink.old) (K.seen sink.new) }
    ensures low { IsLow result }
    ensures unread { ¬ (result ≡ 5) }
    ensures sink { TellsFaults (K.never_fails sink.old) (K.never_fails sink.new) (K.seen sink.old).faults (K.seen sink.new).faults (result ≡ 6) }
{
    match write_all(sink, text) {
        Ok(()) => status,
        Err(WriteStop::Fault) => SINK_FAULT,
        Err(WriteStop::NoMemory) => NO_MEMORY,
    }
}

/// Writes an answer, if there is memory for one.
pub fn respond<K: Sink>(sink: &mut K, answer: Result<Output, NoMemory>) -> u8
    requires { IfOk answer (λ a. IsToldBy a.status) }
    ensures says { IfOk answer (λ a. Says a.status a.text.items result (K.seen sink.old) (K.seen sink.new)) }
    ensures lacks { IfErr answer (λ _. (result ≡ 4) × (K.seen sink.old ≡ K.seen sink.new)) }
    ensures low { IsLow result }
    ensures unread { ¬ (result ≡ 5) }
    ensures sink { TellsFaults (K.never_fails sink.old) (K.never_fails sink.new) (K.seen sink.old).faults (K.seen sink.new).faults (result ≡ 6) }
{
    match answer {
        Ok(answer) => say(sink, &answer.text, answer.status),
        Err(NoMemory) => NO_MEMORY,
    }
}

/// What is answered where a text could not be read.
pub fn tell_unread<K: Sink>(alloc: Global, sink: &mut K, stop: ReadStop) -> u8
    ensures told { IsUnread stop result (K.seen sink.old) (K.seen sink.new) }
    ensures low { IsLow result }
    ensures source { result ≡ 5 → stop ≡ ReadStop.Fault }
    ensures sink { TellsFaults (K.never_fails sink.old) (K.never_fails sink.new) (K.seen sink.old).faults (K.seen sink.new).faults (result ≡ 6) }
{
    match stop {
        ReadStop::TooLong => respond(sink, too_long(alloc)),
        ReadStop::Fault => SOURCE_FAULT,
        ReadStop::NoMemory => NO_MEMORY,
    }
}
