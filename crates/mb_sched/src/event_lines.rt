//! What an event line says.

ghost use Rattle.std.specs.Prelude.{◌≡◌, IfOk};
ghost use Rattle.mb_base.specs.Shapes.{host_count, client_count};
ghost use Rattle.mb_sched.specs.Words.{words, texts, after};
ghost use Rattle.mb_sched.specs.EventLines.{message_in, seq_in, place_in, place_from_1, ask_of, give_of, take_of, raw_of, patience_of, nudge_of, sign_of, answer_of, reply_of, wish_of, tag_of, numbers_of, messages_of, prepare_of, commit_of, checkpoint_of, change_of, as_of, stamp_raw_of, stamped_of, stamp_of, event_by, event_line};

use crate::words::{
    bytes_of, client_in, digest_of, host_in, is_word, name_in, number_in, operation_of, words_of,
};
use mb_base::{Client, Host, Items, NoMemory, Seq, Shape};
use mb_parts::MAX_BATCH_REQUESTS;
use mb_schedule::WorldEvent;
use std::alloc::Global;

/// The greatest view and the greatest position, 2^63 - 1.
const MAX_PLACE: u64 = u64::MAX / 2;

/// The number of a message, or a counter that may be 0.
fn message_in(word: &[u8]) -> Option<u64>
    ensures { result ≡ message_in word.now }
{
    number_in(0, u64::MAX, word)
}

/// The number of a request.
fn seq_in(word: &[u8]) -> Option<u64>
    ensures { result ≡ seq_in word.now }
{
    number_in(1, u64::MAX, word)
}

/// A view or a position, which may be 0.
fn place_in(word: &[u8]) -> Option<u64>
    ensures { result ≡ place_in word.now }
{
    number_in(0, MAX_PLACE, word)
}

/// A view or a position from 1 on.
fn place_from_1(word: &[u8]) -> Option<u64>
    ensures { result ≡ place_from_1 word.now }
{
    number_in(1, MAX_PLACE, word)
}

/// `ask C HEX`
fn ask_of(alloc: Global, shape: Shape, words: &[&[u8]]) -> Result<Option<WorldEvent>, NoMemory>
    ensures { IfOk result (λ event. event ≡ ask_of (client_count shape) (texts words.now)) }
{
    let [client, operation] = words else {
        return Ok(None);
    };
    let Some(client) = client_in(shape, client) else {
        return Ok(None);
    };
    let Some(op) = operation_of(alloc, operation)? else {
        return Ok(None);
    };
    Ok(Some(WorldEvent::Ask { client, op }))
}

/// `give M H`
fn give_of(shape: Shape, words: &[&[u8]]) -> Option<WorldEvent>
    ensures { result ≡ give_of (host_count shape) (texts words.now) }
{
    let [message, host] = words else {
        return None;
    };
    let message = message_in(message)?;
    let host = host_in(shape, host)?;
    Some(WorldEvent::Give { message, host })
}

/// `take M C`
fn take_of(shape: Shape, words: &[&[u8]]) -> Option<WorldEvent>
    ensures { result ≡ take_of (client_count shape) (texts words.now) }
{
    let [message, client] = words else {
        return None;
    };
    let message = message_in(message)?;
    let client = client_in(shape, client)?;
    Some(WorldEvent::Take { message, client })
}

/// `raw NAME HEX`
fn raw_of(alloc: Global, shape: Shape, words: &[&[u8]]) -> Result<Option<WorldEvent>, NoMemory>
    ensures { IfOk result (λ event. event
        ≡ raw_of (host_count shape) (client_count shape) (texts words.now)) }
{
    let [name, bytes] = words else {
        return Ok(None);
    };
    let Some(name) = name_in(shape, name) else {
        return Ok(None);
    };
    let Some(bytes) = bytes_of(alloc, bytes)? else {
        return Ok(None);
    };
    Ok(Some(WorldEvent::Raw { name, bytes }))
}

/// `patience H`
fn patience_of(shape: Shape, words: &[&[u8]]) -> Option<WorldEvent>
    ensures { result ≡ patience_of (host_count shape) (texts words.now) }
{
    let [host] = words else {
        return None;
    };
    let host = host_in(shape, host)?;
    Some(WorldEvent::Patience { host })
}

/// `nudge H`
fn nudge_of(shape: Shape, words: &[&[u8]]) -> Option<WorldEvent>
    ensures { result ≡ nudge_of (host_count shape) (texts words.now) }
{
    let [host] = words else {
        return None;
    };
    let host = host_in(shape, host)?;
    Some(WorldEvent::Nudge { host })
}

/// `sign C SEQ HEX`
fn sign_of(alloc: Global, shape: Shape, words: &[&[u8]]) -> Result<Option<WorldEvent>, NoMemory>
    ensures { IfOk result (λ event. event ≡ sign_of (client_count shape) (texts words.now)) }
{
    let [client, seq, operation] = words else {
        return Ok(None);
    };
    let Some(client) = client_in(shape, client) else {
        return Ok(None);
    };
    let Some(seq) = seq_in(seq) else {
        return Ok(None);
    };
    let Some(op) = operation_of(alloc, operation)? else {
        return Ok(None);
    };
    Ok(Some(WorldEvent::Sign { client, seq, op }))
}

/// `tag H reply C SEQ POS HEX`, behind `reply`
fn reply_of(
    alloc: Global,
    shape: Shape,
    host: Host,
    words: &[&[u8]],
) -> Result<Option<WorldEvent>, NoMemory>
    ensures { IfOk result (λ event. event ≡ reply_of (client_count shape) host (texts words.now)) }
{
    let [client, seq, rest @ ..] = words else {
        return Ok(None);
    };
    let Some(client) = client_in(shape, client) else {
        return Ok(None);
    };
    let Some(seq) = seq_in(seq) else {
        return Ok(None);
    };
    answer_of(alloc, host, client, seq, rest)
}

/// The position and the result of a reply.
fn answer_of(
    alloc: Global,
    host: Host,
    client: Client,
    seq: Seq,
    words: &[&[u8]],
) -> Result<Option<WorldEvent>, NoMemory>
    ensures { IfOk result (λ event. event ≡ answer_of host client seq (texts words.now)) }
{
    let [pos, text] = words else {
        return Ok(None);
    };
    let Some(pos) = place_in(pos) else {
        return Ok(None);
    };
    let Some(answer) = operation_of(alloc, text)? else {
        return Ok(None);
    };
    Ok(Some(WorldEvent::TagReply {
        host,
        client,
        seq,
        pos,
        result: answer,
    }))
}

/// `tag H wish V`, behind `wish`
fn wish_of(host: Host, words: &[&[u8]]) -> Option<WorldEvent>
    ensures { result ≡ wish_of host (texts words.now) }
{
    let [view] = words else {
        return None;
    };
    let view = place_from_1(view)?;
    Some(WorldEvent::TagWish { host, view })
}

/// `tag H` and what is tagged
fn tag_of(alloc: Global, shape: Shape, words: &[&[u8]]) -> Result<Option<WorldEvent>, NoMemory>
    ensures { IfOk result (λ event. event
        ≡ tag_of (host_count shape) (client_count shape) (texts words.now)) }
{
    let [host, what, rest @ ..] = words else {
        return Ok(None);
    };
    let Some(host) = host_in(shape, host) else {
        return Ok(None);
    };
    if is_word(what, b"reply") {
        return reply_of(alloc, shape, host, rest);
    }
    if is_word(what, b"wish") {
        return Ok(wish_of(host, rest));
    }
    Ok(None)
}

/// The numbers of messages, behind those that were read before. The words are few, and each is a call.
#[tactic(auto, using(crate::proofs::ReadWords::regroup))]
fn numbers_behind(mut before: Items<u64>, words: &[&[u8]]) -> Result<Option<Items<u64>>, NoMemory>
    ensures { IfOk result (λ numbers. numbers ≡ after before (numbers_of (texts words.now))) }
{
    let [word, more @ ..] = words else {
        return Ok(Some(before));
    };
    let Some(message) = message_in(word) else {
        return Ok(None);
    };
    before.push(message)?;
    numbers_behind(before, more)
}

/// The numbers of as many messages as a batch may have requests.
#[tactic(auto, using(crate::proofs::ReadWords::no_front))]
fn messages_of(alloc: Global, words: &[&[u8]]) -> Result<Option<Items<u64>>, NoMemory>
    ensures { IfOk result (λ numbers. numbers ≡ messages_of (texts words.now)) }
{
    if words.is_empty() || words.len() > usize::from(MAX_BATCH_REQUESTS) {
        return Ok(None);
    }
    numbers_behind(Items::new(alloc), words)
}

/// `stamp H prepare V P M..`, behind `prepare`: the requests of these messages are the batch
fn prepare_of(alloc: Global, host: Host, words: &[&[u8]]) -> Result<Option<WorldEvent>, NoMemory>
    ensures { IfOk result (λ event. event ≡ prepare_of host (texts words.now)) }
{
    let [view, pos, rest @ ..] = words else {
        return Ok(None);
    };
    let Some(view) = place_in(view) else {
        return Ok(None);
    };
    let Some(pos) = place_from_1(pos) else {
        return Ok(None);
    };
    let Some(messages) = messages_of(alloc, rest)? else {
        return Ok(None);
    };
    Ok(Some(WorldEvent::StampPrepare {
        host,
        view,
        pos,
        messages,
    }))
}

/// `stamp H commit M`, behind `commit`
fn commit_of(host: Host, words: &[&[u8]]) -> Option<WorldEvent>
    ensures { result ≡ commit_of host (texts words.now) }
{
    let [message] = words else {
        return None;
    };
    let message = message_in(message)?;
    Some(WorldEvent::StampCommit { host, message })
}

/// `stamp H checkpoint P DIGEST`, behind `checkpoint`
fn checkpoint_of(host: Host, words: &[&[u8]]) -> Option<WorldEvent>
    ensures { result ≡ checkpoint_of host (texts words.now) }
{
    let [pos, digest] = words else {
        return None;
    };
    let pos = place_from_1(pos)?;
    let digest = digest_of(digest)?;
    Some(WorldEvent::StampCheckpoint { host, pos, digest })
}

/// `stamp H change V C`, behind `change`
fn change_of(host: Host, words: &[&[u8]]) -> Option<WorldEvent>
    ensures { result ≡ change_of host (texts words.now) }
{
    let [view, after] = words else {
        return None;
    };
    let view = place_from_1(view)?;
    let after = message_in(after)?;
    Some(WorldEvent::StampChange { host, view, after })
}

/// `stamp H as M`, behind `as`
fn as_of(host: Host, words: &[&[u8]]) -> Option<WorldEvent>
    ensures { result ≡ as_of host (texts words.now) }
{
    let [message] = words else {
        return None;
    };
    let message = message_in(message)?;
    Some(WorldEvent::StampAs { host, message })
}

/// `stamp H raw HEX`, behind `raw`
fn stamp_raw_of(alloc: Global, host: Host, words: &[&[u8]]) -> Result<Option<WorldEvent>, NoMemory>
    ensures { IfOk result (λ event. event ≡ stamp_raw_of host (texts words.now)) }
{
    let [bytes] = words else {
        return Ok(None);
    };
    let Some(bytes) = bytes_of(alloc, bytes)? else {
        return Ok(None);
    };
    Ok(Some(WorldEvent::StampRaw { host, bytes }))
}

/// What a faulty host stamps, behind the host.
fn stamped_of(
    alloc: Global,
    host: Host,
    what: &[u8],
    words: &[&[u8]],
) -> Result<Option<WorldEvent>, NoMemory>
    ensures { IfOk result (λ event. event ≡ stamped_of host what.now (texts words.now)) }
{
    if is_word(what, b"prepare") {
        return prepare_of(alloc, host, words);
    }
    if is_word(what, b"commit") {
        return Ok(commit_of(host, words));
    }
    if is_word(what, b"checkpoint") {
        return Ok(checkpoint_of(host, words));
    }
    if is_word(what, b"change") {
        return Ok(change_of(host, words));
    }
    if is_word(what, b"as") {
        return Ok(as_of(host, words));
    }
    if is_word(what, b"raw") {
        return stamp_raw_of(alloc, host, words);
    }
    Ok(None)
}

/// `stamp H` and what is stamped
fn stamp_of(alloc: Global, shape: Shape, words: &[&[u8]]) -> Result<Option<WorldEvent>, NoMemory>
    ensures { IfOk result (λ event. event ≡ stamp_of (host_count shape) (texts words.now)) }
{
    let [host, what, rest @ ..] = words else {
        return Ok(None);
    };
    let Some(host) = host_in(shape, host) else {
        return Ok(None);
    };
    stamped_of(alloc, host, what, rest)
}

/// What an event line says by its first word and those behind it.
fn event_by(
    alloc: Global,
    shape: Shape,
    verb: &[u8],
    words: &[&[u8]],
) -> Result<Option<WorldEvent>, NoMemory>
    ensures { IfOk result (λ event. event
        ≡ event_by (host_count shape) (client_count shape) verb.now (texts words.now)) }
{
    if is_word(verb, b"ask") {
        return ask_of(alloc, shape, words);
    }
    if is_word(verb, b"give") {
        return Ok(give_of(shape, words));
    }
    if is_word(verb, b"take") {
        return Ok(take_of(shape, words));
    }
    if is_word(verb, b"raw") {
        return raw_of(alloc, shape, words);
    }
    if is_word(verb, b"patience") {
        return Ok(patience_of(shape, words));
    }
    if is_word(verb, b"nudge") {
        return Ok(nudge_of(shape, words));
    }
    if is_word(verb, b"sign") {
        return sign_of(alloc, shape, words);
    }
    if is_word(verb, b"tag") {
        return tag_of(alloc, shape, words);
    }
    if is_word(verb, b"stamp") {
        return stamp_of(alloc, shape, words);
    }
    Ok(None)
}

/// What an event line says. None exactly where it breaks the grammar.
#[tactic(auto, unfolding(crate::specs::EventLines::event_line))]
pub(crate) fn event_line(
    alloc: Global,
    shape: Shape,
    line: &[u8],
) -> Result<Option<WorldEvent>, NoMemory>
    ensures { IfOk result (λ event. event
        ≡ event_line (host_count shape) (client_count shape) (words line.now)) }
{
    let Some(words) = words_of(line) else {
        return Ok(None);
    };
    match words.as_slice() {
        [verb, words @ ..] => event_by(alloc, shape, verb, words),
        [] => Ok(None),
    }
}
