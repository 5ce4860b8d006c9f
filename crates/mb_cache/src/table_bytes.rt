//! The bytes of the client table: for each client in order number, position and result, all zero before its first request.

ghost use Rattle.std.specs.Prelude.{◌≡◌, ◌≤◌, ◌<◌, ◌^◌, ◌++◌, true, length, IfOk, OnOk};
ghost use Rattle.std.specs.Int.{w16, w64};
ghost use Rattle.std.specs.List.{AllByRecursion};
ghost use Rattle.mb_base.specs.Limits.{most_clients};
ghost use Rattle.mb_base.specs.Fields.{GivesIn, place_of};
ghost use Rattle.mb_base.specs.Reading.{checked_at, number_at, repeat_at};
ghost use Rattle.mb_parts.specs.Decoded.{Decodes, DecodesWhole};
ghost use Rattle.mb_model.specs.States.{is_place_of, is_size_of, last_reply_at, table_bytes, table_of};
ghost use Rattle.mb_cache.specs.Tables.{IsLast, last_text, IsTable};
ghost use Rattle.mb_cache.specs.Reading.{DecodesEach, DecodesTable};

use mb_base::{BadField, Fields, Items, NoMemory, Pos, Seq, put_bytes, put_u16, put_u64};
use mb_model::LastReply;
use mb_parts::{MAX_PLACE, TEXT_LIMIT, Undecoded};
use std::alloc::Global;

/// The bytes of a table.
#[tactic(auto, unfolding(mb_model::specs::States::table_bytes))]
pub(crate) fn write_table(alloc: Global, replies: &[LastReply]) -> Result<Items<u8>, NoMemory>
    requires { AllByRecursion IsLast replies.now }
    ensures { IfOk result (λ text. text ≡ table_bytes replies.now) }
{
    let mut text = Vec::new(alloc);
    for last in replies {
        put_last(&mut text, last)?;
    }
    Ok(Items::from_vec(text))
}

/// Appends the bytes of one client.
fn put_last(text: &mut Vec<u8>, last: &LastReply) -> Result<(), NoMemory>
    requires { IsLast last.now }
    ensures { OnOk result (text.new.items ≡ text.old.items ++ last_text last.now) }
{
    put_u64(text, last.seq)?;
    put_u64(text, last.pos)?;
    put_u16(text, last.result.len() as u16)?;
    put_bytes(text, last.result.as_slice())
}

/// Whether this position may stand behind a number.
fn is_place_of(seq: Seq, pos: Pos) -> bool
    ensures { result ≡ is_place_of seq pos }
{
    if seq == 0 {
        return pos == 0;
    }
    0 < pos && pos <= MAX_PLACE
}

/// Whether a result of this length may stand behind a number.
fn is_size_of(seq: Seq, size: u16) -> bool
    ensures { result ≡ is_size_of seq size }
{
    if seq == 0 {
        return size == 0;
    }
    size <= TEXT_LIMIT
}

/// The position behind a number.
#[tactic(auto, unfolding(mb_base::specs::Reading::checked_at))]
fn read_pos(seq: Seq, fields: &mut Fields<'_>) -> Result<Pos, BadField>
    ensures read { GivesIn (λ x. x) result fields.new (checked_at (is_place_of seq) (number_at w64) (place_of fields.old)) }
    ensures fits { IfOk result (λ pos. is_place_of seq pos ≡ true) }
{
    let start = *fields;
    let pos = fields.get_u64()?;
    if is_place_of(seq, pos) {
        return Ok(pos);
    }
    *fields = start;
    Err(BadField { at: start.place() })
}

/// The length of the result behind a number.
#[tactic(auto, unfolding(mb_base::specs::Reading::checked_at))]
fn read_size(seq: Seq, fields: &mut Fields<'_>) -> Result<u16, BadField>
    ensures read { GivesIn (λ x. x) result fields.new (checked_at (is_size_of seq) (number_at w16) (place_of fields.old)) }
    ensures fits { IfOk result (λ size. is_size_of seq size ≡ true) }
{
    let start = *fields;
    let size = fields.get_u16()?;
    if is_size_of(seq, size) {
        return Ok(size);
    }
    *fields = start;
    Err(BadField { at: start.place() })
}

/// What is stored of one client.
#[tactic(auto, unfolding(mb_model::specs::States::last_reply_at))]
fn read_last(alloc: Global, fields: &mut Fields<'_>) -> Result<LastReply, Undecoded>
    ensures read { Decodes result fields.new (last_reply_at (place_of fields.old)) }
    ensures fits { IfOk result IsLast }
{
    let seq = fields.get_u64()?;
    let pos = read_pos(seq, fields)?;
    let size = read_size(seq, fields)?;
    let result = fields.take(usize::from(size))?;
    Ok(LastReply {
        seq,
        pos,
        result: Items::from_vec(Vec::from_slice(alloc, result)?),
    })
}

/// What is stored of so many clients.
fn read_each(
    alloc: Global,
    clients: u64,
    fields: &mut Fields<'_>,
) -> Result<Vec<LastReply>, Undecoded>
    ensures read { DecodesEach result fields.new (repeat_at last_reply_at clients (place_of fields.old)) }
    ensures fit { IfOk result (λ v. AllByRecursion IsLast v.items) }
    ensures len { IfOk result (λ v. length v.items ≡ clients) }
{
    let mut all = Vec::new(alloc);
    for _ in 0..clients {
        all.push(read_last(alloc, fields)?)?;
    }
    Ok(all)
}

/// The table of so many clients.
#[tactic(auto, unfolding(mb_model::specs::States::table_of))]
pub(crate) fn read_table(
    alloc: Global,
    clients: u64,
    part: &[u8],
) -> Result<Vec<LastReply>, Undecoded>
    requires { clients ≤ most_clients }
    ensures read { DecodesTable result (table_of clients part.now) }
    ensures fits { IfOk result (λ v. IsTable v.items) }
    ensures len { IfOk result (λ v. length v.items ≡ clients) }
{
    let mut fields = Fields::over(part);
    let replies = read_each(alloc, clients, &mut fields)?;
    if fields.is_at_end() {
        return Ok(replies);
    }
    Err(Undecoded::Malformed { at: fields.place() })
}
