//! The word `learn`: the history that a record proves.

ghost use Rattle.std.specs.Prelude.{◌≡◌, ◌+◌, Contains, [], IfOk, IfSome, OnOk};
ghost use Rattle.std.specs.Io.KnownBytes.{IsAtEnd};
ghost use Rattle.mb_edge.specs.Faults.{TellsFaults};
ghost use Rattle.mb_edge.specs.Pieces.{ConsumesBetween};
ghost use Rattle.mb_sched.specs.Records.{max_record};
ghost use Rattle.mb_answer.specs.Devices.{IsLow};
ghost use Rattle.mb_answer.specs.Records.{AnswersText};
ghost use Rattle.mb_sched.specs.declared.records.Record.{Record as TheRecord};
ghost use Rattle.mb_audit.specs.Stamps.{texts};
ghost use Rattle.mb_learn.specs.Learners.{Represents};
ghost use Rattle.mb_reviewing.specs.Learning.{machine, snapshots, differs_text, LearnsAll, AnswersLearn, LearnsFrom, learn_statuses, learn_findings, TellsLearnt};

use crate::given::given_in;
use mb_answer::{DIFFERS, DONE, Output, refusal, respond, tell_unread};
use mb_base::{Digest, NoMemory, Pos};
use mb_edge::{Sink, Source, read_all};
use mb_kv::Kv;
use mb_learn::{LearnStop, Learner};
use mb_msg::Slot;
use mb_sched::{MAX_RECORD, Record, parse_record, print_slots};
use std::alloc::Global;

/// The history that was learnt: a line for each request, and the state behind them.
fn learnt(alloc: Global, learner: &mut Learner<Kv>) -> Result<Output, NoMemory>
    ensures { (r : TheRecord) → TellsLearnt r learner.old result }
{
    let state = learner.state(alloc)?;
    let state = hex::encode(alloc, state.as_slice())?;
    let slots = learner.line();
    let mut text = format!(in alloc; "minbft learnt 1\nline {}\n", slots.len())?;
    print_slots(alloc, &mut text, slots)?;
    text.push_str("state ")?;
    text.push_str(state.as_str())?;
    text.push_str("\nend\n")?;
    Ok(Output {
        status: DONE,
        text: text.into_bytes(),
    })
}

/// The first position at which f+1 hosts say another digest of their states than was found.
fn differs(alloc: Global, pos: Pos, found: &Digest, certified: &Digest) -> Result<Output, NoMemory>
    ensures { IfOk result (λ a. (a.status ≡ 10) × (a.text.items ≡ differs_text pos found.now certified.now)) }
{
    let found = hex::encode(alloc, found.as_slice())?;
    let certified = hex::encode(alloc, certified.as_slice())?;
    let text = format!(in alloc; "differs pos {pos} {found} {certified}\n")?;
    Ok(Output {
        status: DIFFERS,
        text: text.into_bytes(),
    })
}

/// Learns from byte strings, one after the other.
fn learn_all(alloc: Global, learner: &mut Learner<Kv>, given: &[Vec<u8>]) -> Result<(), LearnStop>
    ensures { (r : TheRecord) → Represents r.config.shape r.config.secret machine snapshots [] [] [] learner.old → LearnsAll r (texts given.now) result learner.new }
{
    for bytes in given {
        let _executed = learner.learn(alloc, bytes.as_slice())?;
    }
    Ok(())
}

/// What a record proves.
fn answer_record(alloc: Global, written: Record) -> Result<Output, NoMemory>
    ensures { IfOk result (λ a. AnswersLearn written a.status a.text.items) }
{
    let config = &written.config;
    let mut learner = Learner::make(alloc, config.shape, &config.secret, Kv::new(alloc))?;
    let given = given_in(alloc, written.entries)?;
    match learn_all(alloc, &mut learner, given.as_slice()) {
        Ok(()) => learnt(alloc, &mut learner),
        Err(
            LearnStop::Differs {
                pos,
                found,
                certified,
            },
        ) => differs(alloc, pos, &found, &certified),
        Err(LearnStop::NoMemory) => Err(NoMemory),
        Err(LearnStop::Halted) => unreachable!(),
    }
}

/// The answer to the text of a record.
fn answer_to_record(alloc: Global, text: &[u8]) -> Result<Output, NoMemory>
    ensures { IfOk result (λ a. AnswersText AnswersLearn text.now a.status a.text.items) }
{
    match parse_record(alloc, text) {
        Ok(record) => answer_record(alloc, record),
        Err(fault) => refusal(alloc, fault),
    }
}

/// Reads a record, and writes the history that it proves.
pub fn learn<S: Source, K: Sink>(alloc: Global, source: &mut S, sink: &mut K) -> u8
    ensures told { IfSome (S.seen source.old).bytes (λ text. LearnsFrom text result (S.seen source.old) (S.seen source.new)
        (K.seen sink.old) (K.seen sink.new)) }
    ensures ended { Contains learn_findings result → IsAtEnd (S.seen source.new).bytes }
    ensures limit { ConsumesBetween 0 (max_record + 1) (S.seen source.old).bytes (S.seen source.new).bytes }
    ensures low { IsLow result }
    ensures statuses { Contains learn_statuses result }
    ensures source { TellsFaults (S.never_fails source.old) (S.never_fails source.new) (S.seen source.old).faults (S.seen source.new).faults (result ≡ 5) }
    ensures sink { TellsFaults (K.never_fails sink.old) (K.never_fails sink.new) (K.seen sink.old).faults (K.seen sink.new).faults (result ≡ 6) }
{
    match read_all(alloc, MAX_RECORD, source) {
        Ok(text) => respond(sink, answer_to_record(alloc, &text)),
        Err(stop) => tell_unread(alloc, sink, stop),
    }
}
