//! The word `audit`: whether what the host of a record was given convicts a host.

ghost use Rattle.std.specs.Prelude.{◌≡◌, ◌+◌, ◌<◌, Contains, IfOk, IfSome, string_bytes};
ghost use Rattle.std.specs.Io.KnownBytes.{IsAtEnd};
ghost use Rattle.mb_base.specs.Shapes.{host_count};
ghost use Rattle.mb_edge.specs.Faults.{TellsFaults};
ghost use Rattle.mb_edge.specs.Pieces.{ConsumesBetween};
ghost use Rattle.mb_sched.specs.Records.{max_record};
ghost use Rattle.mb_answer.specs.Devices.{IsLow};
ghost use Rattle.mb_answer.specs.Records.{AnswersText};
ghost use Rattle.mb_reviewing.specs.Audits.{verdict_status, verdict_text, AnswersAudit, Audits, audit_statuses, audit_findings};

use crate::given::given_in;
use mb_answer::{DONE, DOUBLE, GAP, ILLEGAL, Output, refusal, respond, tell_unread, usage};
use mb_audit::Verdict;
use mb_base::{Host, NoMemory};
use mb_edge::{Sink, Source, read_all};
use mb_sched::{MAX_RECORD, Record, parse_record};
use mb_usig::Usig;
use std::alloc::Global;

/// The status of a verdict.
fn status_of(verdict: &Verdict) -> u8
    ensures { result ≡ verdict_status verdict.now }
{
    match verdict {
        Verdict::Double { .. } => DOUBLE,
        Verdict::Gap { .. } => GAP,
        Verdict::Illegal { .. } => ILLEGAL,
        Verdict::Ordered { .. } => DONE,
    }
}

/// What is written of a verdict on a host.
fn text_of(alloc: Global, host: Host, verdict: &Verdict) -> Result<String, NoMemory>
    ensures { IfOk result (λ text. string_bytes text ≡ verdict_text host verdict.now) }
{
    Ok(match verdict {
        Verdict::Double { counter } => format!(in alloc; "double h{host} {counter}\n")?,
        Verdict::Gap { missing, seen } => format!(in alloc; "gap h{host} {missing} {seen}\n")?,
        Verdict::Illegal { counter, rule } => {
            format!(in alloc; "illegal h{host} {counter} {rule}\n")?
        }
        Verdict::Ordered { last } => format!(in alloc; "ordered h{host} {last}\n")?,
    })
}

/// The verdict on a host of this number, or how the program is used where there is none.
fn answer_record(alloc: Global, host: u64, written: Record) -> Result<Output, NoMemory>
    ensures { IfOk result (λ a. AnswersAudit host written a.status a.text.items) }
{
    let shape = written.config.shape;
    if host >= u64::from(shape.n()) {
        return usage(alloc);
    }
    let host = host as u8;
    let usig = Usig::new(shape, host, &written.config.secret);
    let given = given_in(alloc, written.entries)?;
    let verdict = mb_audit::audit(alloc, &shape, &usig, given.as_slice(), host)?;
    let text = text_of(alloc, host, &verdict)?;
    Ok(Output {
        status: status_of(&verdict),
        text: text.into_bytes(),
    })
}

/// The answer to the text of a record.
fn answer_to_record(alloc: Global, host: u64, text: &[u8]) -> Result<Output, NoMemory>
    ensures { IfOk result (λ a. AnswersText (AnswersAudit host) text.now a.status a.text.items) }
{
    match parse_record(alloc, text) {
        Ok(record) => answer_record(alloc, host, record),
        Err(fault) => refusal(alloc, fault),
    }
}

/// Reads a record, and writes what its host was given says of a host.
pub fn audit<S: Source, K: Sink>(alloc: Global, host: u64, source: &mut S, sink: &mut K) -> u8
    ensures told { IfSome (S.seen source.old).bytes (λ text. Audits text host result (S.seen source.old) (S.seen source.new)
        (K.seen sink.old) (K.seen sink.new)) }
    ensures ended { Contains audit_findings result → IsAtEnd (S.seen source.new).bytes }
    ensures limit { ConsumesBetween 0 (max_record + 1) (S.seen source.old).bytes (S.seen source.new).bytes }
    ensures low { IsLow result }
    ensures statuses { Contains audit_statuses result }
    ensures source { TellsFaults (S.never_fails source.old) (S.never_fails source.new) (S.seen source.old).faults (S.seen source.new).faults (result ≡ 5) }
    ensures sink { TellsFaults (K.never_fails sink.old) (K.never_fails sink.new) (K.seen sink.old).faults (K.seen sink.new).faults (result ≡ 6) }
{
    match read_all(alloc, MAX_RECORD, source) {
        Ok(text) => respond(sink, answer_to_record(alloc, host, &text)),
        Err(stop) => tell_unread(alloc, sink, stop),
    }
}
