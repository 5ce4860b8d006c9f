//! The word `retrace`: whether each entry of a record is that of its host's own step.

ghost use Rattle.std.specs.Prelude.{◌≡◌, ◌+◌, ◌<◌, Contains, IfOk, IfSome};
ghost use Rattle.std.specs.Io.KnownBytes.{IsAtEnd};
ghost use Rattle.mb_base.specs.Shapes.{host_count};
ghost use Rattle.mb_edge.specs.Faults.{TellsFaults};
ghost use Rattle.mb_edge.specs.Pieces.{ConsumesBetween};
ghost use Rattle.mb_sched.specs.Records.{max_record};
ghost use Rattle.mb_answer.specs.Devices.{IsLow};
ghost use Rattle.mb_serving.specs.Records.{AnswersRecord, AnswersRecordText, Retraces, same_text, differs_text, retrace_statuses};

use mb_answer::{DIFFERS, DONE, Output, refusal, respond, tell_unread};
use mb_base::{Digest, NoMemory};
use mb_edge::{Sink, Source, read_all};
use mb_kv::Kv;
use mb_node::RetraceStop;
use mb_sched::{MAX_RECORD, Record, parse_record};
use std::alloc::Global;

/// Each of so many entries is that of the host's own step.
fn same(alloc: Global, events: u64) -> Result<Output, NoMemory>
    ensures { IfOk result (λ a. (a.status ≡ 0) × (a.text.items ≡ same_text events)) }
{
    let text = format!(in alloc; "same {events}\n")?;
    Ok(Output {
        status: DONE,
        text: text.into_bytes(),
    })
}

/// The entry of this number is the first that isn't, by its digest and that of the host's own step.
fn differs(alloc: Global, event: u64, recorded: &Digest, found: &Digest) -> Result<Output, NoMemory>
    ensures { IfOk result (λ a. (a.status ≡ 10) × (a.text.items ≡ differs_text event recorded.now found.now)) }
{
    let recorded = hex::encode(alloc, recorded.as_slice())?;
    let found = hex::encode(alloc, found.as_slice())?;
    let text = format!(in alloc; "differs event {event} {recorded} {found}\n")?;
    Ok(Output {
        status: DIFFERS,
        text: text.into_bytes(),
    })
}

/// The answer to a record.
fn answer_record(alloc: Global, written: &Record) -> Result<Output, NoMemory>
    requires { written.now.id < host_count written.now.config.shape }
    ensures { IfOk result (λ a. AnswersRecord written.now a.status a.text.items) }
{
    match mb_node::retrace(alloc, written, Kv::new(alloc)) {
        Ok(events) => same(alloc, events),
        Err(
            RetraceStop::Differs {
                event,
                recorded,
                found,
            },
        ) => differs(alloc, event, &recorded, &found),
        Err(RetraceStop::NoMemory) => Err(NoMemory),
    }
}

/// The answer to the text of a record.
fn answer_to_record(alloc: Global, text: &[u8]) -> Result<Output, NoMemory>
    ensures { IfOk result (λ a. AnswersRecordText text.now a.status a.text.items) }
{
    match parse_record(alloc, text) {
        Ok(record) => answer_record(alloc, &record),
        Err(fault) => refusal(alloc, fault),
    }
}

/// Reads a record, and writes whether its host's own steps are what it says.
pub fn retrace<S: Source, K: Sink>(alloc: Global, source: &mut S, sink: &mut K) -> u8
    ensures told { IfSome (S.seen source.old).bytes (λ text. Retraces text result (S.seen source.old) (S.seen source.new)
        (K.seen sink.old) (K.seen sink.new)) }
    ensures ended { result ≡ 0 → IsAtEnd (S.seen source.new).bytes }
    ensures limit { ConsumesBetween 0 (max_record + 1) (S.seen source.old).bytes (S.seen source.new).bytes }
    ensures low { IsLow result }
    ensures statuses { Contains retrace_statuses result }
    ensures source { TellsFaults (S.never_fails source.old) (S.never_fails source.new) (S.seen source.old).faults (S.seen source.new).faults (result ≡ 5) }
    ensures sink { TellsFaults (K.never_fails sink.old) (K.never_fails sink.new) (K.seen sink.old).faults (K.seen sink.new).faults (result ≡ 6) }
{
    match read_all(alloc, MAX_RECORD, source) {
        Ok(text) => respond(sink, answer_to_record(alloc, &text)),
        Err(stop) => tell_unread(alloc, sink, stop),
    }
}
