//! Records: what one host was given, and what it sent.

ghost use Rattle.std.specs.Prelude.{ℕ, Bool, List, ◌≡◌, ◌≤◌, ◌<◌, ◌+◌, ◌^◌, ◌==◌, ◌∷◌, [], codes, ◌++◌, drop, length, slice_get, IfOk, OnOk, IfSome};
ghost use Rattle.std.specs.Fmt.{decimal};
ghost use Rattle.std.specs.Option.{option_copied};
ghost use Rattle.hex.specs.Hex.{encode_lower};
ghost use Rattle.mb_base.specs.Shapes.{Bytes, max_faults};
ghost use Rattle.mb_sched.specs.Spellings.{SpellsRecord};
ghost use Rattle.mb_sched.specs.Words.{words};
ghost use Rattle.mb_sched.specs.Lines.{lines, is_ended, read_line, Answers};
ghost use Rattle.mb_sched.specs.Printing.{hex_word};
ghost use Rattle.mb_sched.specs.ScheduleText.{line_text};
ghost use Rattle.mb_sched.specs.TextLines.{ReadsText};
ghost use Rattle.mb_sched.specs.declared.configs.Config.{Config};
ghost use Rattle.mb_sched.specs.declared.records.Entry.{Entry};
ghost use Rattle.mb_sched.specs.Configs.{config_settings};
ghost use Rattle.mb_sched.specs.Records.{RecordContents, max_record, id_line, event_said, entry_of, end_by, entries_from, next_entry, record_of, record_contents, event_words, entry_text, record_head, with_entries, entries_text, record_text, RecordFits, ReadsWholePairs};

use crate::bad_text::BadText;
use crate::configs::Config;
use crate::lines::Lines;
use crate::printing::hex_word;
use crate::settings::{print_settings, read_settings};
use crate::text_lines::{read_number, word_behind};
use crate::words::{bytes_of, digest_of, is_word, number_in, words_of};
use itoa::Buffer;
use mb_base::{Digest, Host, Items, NoMemory, Shape};
use mb_msg::Event;
use std::alloc::Global;
use std::fmt::Write;

/// The most bytes that the text of a record may have.
pub const MAX_RECORD: usize = 67_108_864;

/// The number of the first entry's first line. Lines count from 1.
const FIRST_ENTRY_LINE: u32 = 8;

/// What one host was given, in order, and what it sent each time.
#[derive(PartialEq, Drop)]
pub struct Record {
    /// The settings of the system, without operations.
    pub config: Config,
    /// The host.
    pub id: Host,
    pub entries: Items<Entry>,
}

/// An event of a host, and the messages that it sent then.
#[derive(PartialEq, Drop)]
pub struct Entry {
    pub event: Event,
    /// How many messages it sent.
    pub count: u32,
    /// SHA-256 over three fields for each message: to whom (u8: the host, 254 for all, 255 for a
    /// client), the length (u32), and the bytes.
    pub digest: Digest,
}

/// Reads the record of a text. Each line ends with LF:
///
/// ```text
/// minbft record 2
/// f F                   these five lines are those of a config
/// k K
/// clients C
/// secret DIGITS
/// port P
/// id H                  the host's number
/// given HEX             for each event one of these three: bytes in lower-case hexadecimal, or `-` for none
/// patience
/// nudge
/// sent COUNT DIGEST     behind each event: below 2^32, and 64 hexadecimal digits of either case
/// end                   once the host was stopped
/// ```
///
/// Nothing may stand behind `end`. A record without it was cut off, and is taken as far as it has
/// whole pairs of lines: behind them one event's line may stand, and then bytes without LF.
///
/// `TooLong` comes exactly where the text has more than `MAX_RECORD` bytes, before any other answer.
/// Else `BadLine` comes exactly where some line is bad, with the number of the first, unless memory runs out before. One of the first
/// seven lines that is missing is bad. `NoMemory` comes where memory runs out, and nowhere else.
pub fn parse_record(alloc: Global, text: &[u8]) -> Result<Record, BadText>
    ensures { ReadsText max_record record_contents record_of result text.now }
{
    if text.len() > MAX_RECORD {
        return Err(BadText::TooLong);
    }
    read_record(alloc, text)
}

#[tactic(auto, unfolding(crate::specs::Records::record_of))]
fn read_record(alloc: Global, text: &[u8]) -> Result<Record, BadText>
    requires { length text.now ≤ max_record }
    ensures { Answers record_contents result (record_of text.now) }
{
    let mut lines = Lines::over(text);
    let settings = read_settings(b"minbft record 2", &mut lines)?;
    let line = lines.next_line();
    let id = read_id(settings.shape, line)?;
    let entries = read_entries(alloc, lines)?;
    let secret = settings.secret;
    let config = Config {
        shape: settings.shape,
        secret,
        port: settings.port,
        ops: Items::new(alloc),
    };
    Ok(Record {
        config,
        id,
        entries,
    })
}

/// Line 7: `id` and the number of a host, 0 to 2f.
fn read_id(shape: Shape, line: Option<&[u8]>) -> Result<Host, BadText>
    ensures { Answers (λ id. id) result
        (read_line 7 (id_line (max_faults shape)) (option_copied line.entry)) }
{
    let last = 2 * u16::from(shape.f());
    let id = read_number(7, b"id", 0, last, line)?;
    Ok(id as u8)
}

/// Reads the entries, whose lines come behind that of the host.
fn read_entries(alloc: Global, mut unread: Lines<'_>) -> Result<Items<Entry>, BadText>
    requires { length unread.rest.now ≤ max_record }
    ensures { Answers (λ entries. entries) result
        (entries_from (is_ended unread.entry.rest.now) 8 (lines unread.entry.rest.now)) }
{
    let mut entries = Items::new(alloc);
    let mut number = FIRST_ENTRY_LINE;
    while let Some(entry) = next_entry(alloc, number, &mut unread)? {
        entries.push(entry)?;
        number += 2;
    }
    Ok(entries)
}

/// The next entry, of which the first line has this number. None where the record is over.
fn next_entry(alloc: Global, number: u32, unread: &mut Lines<'_>) -> Result<Option<Entry>, BadText>
    requires { number + length unread.old.rest.now < 2 ^ 32 }
    ensures read { Answers (λ entry. entry) result
        (next_entry (is_ended unread.old.rest.now) number (lines unread.old.rest.now)) }
    ensures left { IfOk result (λ entry. IfSome entry (λ _.
        lines unread.new.rest.now ≡ drop 2 (lines unread.old.rest.now))) }
    ensures ended { is_ended unread.new.rest.now ≡ is_ended unread.old.rest.now }
    ensures shorter { IfOk result (λ entry. IfSome entry (λ _.
        2 + length unread.new.rest.now ≤ length unread.old.rest.now)) }
{
    let Some(line) = unread.next_line() else {
        return Ok(None);
    };
    if is_word(line, b"end") {
        return read_end(number, *unread);
    }
    let Some(event) = event_said(alloc, line)? else {
        return Err(BadText::BadLine { number });
    };
    let Some(line) = unread.next_line() else {
        return Ok(None);
    };
    let Some(entry) = entry_of(event, line) else {
        return Err(BadText::BadLine { number: number + 1 });
    };
    Ok(Some(entry))
}

/// Behind the line `end`, whose number this is, nothing is left.
fn read_end(number: u32, unread: Lines<'_>) -> Result<Option<Entry>, BadText>
    requires { number + 1 < 2 ^ 32 }
    ensures { Answers (λ entry. entry) result (end_by None (length unread.entry.rest.now == 0) number) }
{
    if unread.is_empty() {
        Ok(None)
    } else {
        Err(BadText::BadLine { number: number + 1 })
    }
}

/// `given HEX`, `patience` or `nudge`
fn event_said(alloc: Global, line: &[u8]) -> Result<Option<Event>, NoMemory>
    ensures { IfOk result (λ event. event ≡ event_said line.now) }
{
    if is_word(line, b"patience") {
        return Ok(Some(Event::Patience));
    }
    if is_word(line, b"nudge") {
        return Ok(Some(Event::Nudge));
    }
    let Some(word) = word_behind(b"given", line) else {
        return Ok(None);
    };
    let Some(bytes) = bytes_of(alloc, word)? else {
        return Ok(None);
    };
    Ok(Some(Event::Given(bytes)))
}

/// `sent COUNT DIGEST` behind an event
fn entry_of(event: Event, line: &[u8]) -> Option<Entry>
    ensures { result ≡ entry_of event (words line.now) }
{
    let Some(words) = words_of(line) else {
        return None;
    };
    let [verb, count, digest] = words.as_slice() else {
        return None;
    };
    if !is_word(verb, b"sent") {
        return None;
    }
    let count = number_in(0, u64::from(u32::MAX), count)?;
    let digest = digest_of(digest)?;
    Some(Entry {
        event,
        count: count as u32,
        digest,
    })
}

/// What a record begins with: its first line, the settings of a config, and the line `id`.
#[tactic(auto, unfolding(crate::specs::Records::record_head))]
pub fn print_record_head(alloc: Global, config: &Config, id: Host) -> Result<Vec<u8>, NoMemory>
    ensures { IfOk result (λ text. text.items ≡ record_head config.now id) }
{
    let mut out = String::new(alloc);
    writeln!(out, "minbft record 2")?;
    print_settings(alloc, &mut out, config.shape, &config.secret, config.port)?;
    writeln!(out, "id {id}")?;
    Ok(out.into_bytes())
}

/// Room for all of an entry's lines and the line `end`, but for what was given.
const LINES_ROOM: usize = 128;

/// The two lines of an entry, with the digest in lower case. `NoMemory` comes where memory runs out,
/// and nowhere else.
#[tactic(auto, unfolding(crate::specs::Records::entry_text))]
pub fn print_entry(alloc: Global, entry: &Entry) -> Result<Vec<u8>, NoMemory>
    ensures { IfOk result (λ text. text.items ≡ entry_text entry.now) }
{
    let mut text = Vec::with_capacity(alloc, room_of(&entry.event))?;
    put_event(alloc, &mut text, &entry.event)?;
    put_sent(alloc, &mut text, entry.count, &entry.digest)?;
    Ok(text)
}

/// Room for the lines of an entry with this event, so that they take memory once.
fn room_of(event: &Event) -> usize {
    match event {
        Event::Given(bytes) => bytes.len().saturating_mul(2).saturating_add(LINES_ROOM),
        Event::Patience | Event::Nudge => LINES_ROOM,
    }
}

/// Appends an event's line.
fn put_event(alloc: Global, text: &mut Vec<u8>, event: &Event) -> Result<(), NoMemory>
    ensures { OnOk result (text.new.items ≡ text.old.items ++ line_text (event_words event.now)) }
{
    match event {
        Event::Given(bytes) => put_given(alloc, text, bytes.as_slice())?,
        Event::Patience => text.extend_from_slice(b"patience\n")?,
        Event::Nudge => text.extend_from_slice(b"nudge\n")?,
    }
    Ok(())
}

fn put_given(alloc: Global, text: &mut Vec<u8>, bytes: &[u8]) -> Result<(), NoMemory>
    ensures { OnOk result (text.new.items
        ≡ text.old.items ++ line_text (codes "given" ∷ hex_word bytes.now ∷ [])) }
{
    let word = hex_word(alloc, bytes)?;
    text.extend_from_slice(b"given ")?;
    text.extend_from_slice(word.as_bytes())?;
    text.extend_from_slice(b"\n")?;
    Ok(())
}

/// Appends the line of what was sent.
fn put_sent(alloc: Global, text: &mut Vec<u8>, count: u32, digest: &Digest) -> Result<(), NoMemory>
    ensures { OnOk result (text.new.items
        ≡ text.old.items ++ line_text (codes "sent" ∷ decimal count ∷ encode_lower digest.now ∷ [])) }
{
    let digest = hex::encode(alloc, digest.as_slice())?;
    let mut number = Buffer::new();
    text.extend_from_slice(b"sent ")?;
    text.extend_from_slice(number.format(count).as_bytes())?;
    text.extend_from_slice(b" ")?;
    text.extend_from_slice(digest.as_bytes())?;
    text.extend_from_slice(b"\n")?;
    Ok(())
}

/// A record whose parts keep the limits is read again from the text that they are printed as, whether
/// or not the host was stopped.
pub fn printed_records_are_read()
    ensures { (stopped : Bool) (c : Config) (id : ℕ) (entries : List Entry) → RecordFits c id entries
        → record_of (record_text stopped c id entries) ≡ Ok (with_entries (config_settings c) id entries) }
{}

/// A record that was cut off anywhere behind its head is read as far as it has whole pairs of lines.
pub fn cut_records_are_read()
    ensures { (stopped : Bool) (c : Config) (id : ℕ) (entries : List Entry) (part rest : Bytes) → RecordFits c id entries
        → part ++ rest ≡ entries_text stopped entries → ReadsWholePairs c id entries part }
{}

/// A text is read as a record exactly where it spells it.
pub fn records_are_their_spellings()
    ensures spelled { (text : Bytes) (r : RecordContents) → record_of text ≡ Ok r → SpellsRecord text r }
    ensures read { (text : Bytes) (r : RecordContents) → SpellsRecord text r → record_of text ≡ Ok r }
{}
