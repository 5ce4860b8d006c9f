//! The text of a schedule.

ghost use Rattle.std.specs.Prelude.{◌≡◌, ◌∷◌, ◌++◌, map, decimal, IfOk, OnOk, string_bytes};
ghost use Rattle.std.specs.List.{flat_map};
ghost use Rattle.mb_schedule.specs.declared.schedule.WorldEvent.TheVariants as variant;
ghost use Rattle.mb_sched.specs.Printing.{host_name, client_name};
ghost use Rattle.mb_sched.specs.ScheduleText.{line_text, spaced, marked, faulty_text, event_text, schedule_text};

use crate::printing::{hex_word, print_numbers};
use mb_base::{Client, Digest, Host, NoMemory, Pos, Seq, View};
use mb_schedule::{Name, Schedule, WorldEvent};
use std::alloc::Global;
use std::fmt::Write;

/// The text of a schedule: six lines of header, and one line for each event.
///
/// ```text
/// minbft schedule 2
/// f F
/// k K
/// clients C
/// secret KEY                           64 hexadecimal digits
/// faulty NAME..                        the faulty hosts, as h2, and the faulty clients, as c0
/// ask c0 OP                            for each event, as `WorldEvent` says it
/// ```
///
/// `NoMemory` comes where memory runs out, and nowhere else.
#[tactic(auto, unfolding(crate::specs::ScheduleText::schedule_text))]
pub fn print_schedule(alloc: Global, schedule: &Schedule) -> Result<Vec<u8>, NoMemory>
    ensures { IfOk result (λ v. v.items ≡ schedule_text schedule.now) }
{
    let mut out = String::new(alloc);
    let shape = schedule.shape;
    let secret = hex::encode(alloc, schedule.secret.as_slice())?;
    writeln!(out, "minbft schedule 2")?;
    writeln!(out, "f {}", shape.f())?;
    writeln!(out, "k {}", shape.k())?;
    writeln!(out, "clients {}", shape.clients())?;
    writeln!(out, "secret {secret}")?;
    print_faulty(&mut out, schedule)?;
    print_events(alloc, &mut out, schedule.events.as_slice())?;
    Ok(out.into_bytes())
}

/// The line of whom is faulty.
#[tactic(auto, using(crate::proofs::LineLemmas::names_behind))]
fn print_faulty(out: &mut String, schedule: &Schedule) -> Result<(), NoMemory>
    ensures { OnOk result (string_bytes out.new ≡ string_bytes out.old ++ faulty_text schedule.now) }
{
    write!(out, "faulty")?;
    print_faulty_hosts(out, schedule.faulty_hosts.as_slice())?;
    print_faulty_clients(out, schedule.faulty_clients.as_slice())?;
    writeln!(out)?;
    Ok(())
}

fn print_faulty_hosts(out: &mut String, marks: &[bool]) -> Result<(), NoMemory>
    ensures { OnOk result (string_bytes out.new
        ≡ string_bytes out.old ++ flat_map spaced (marked host_name 0 marks.now)) }
{
    for (host, is_faulty) in marks.iter().enumerate() {
        if *is_faulty {
            write!(out, " h{host}")?;
        }
    }
    Ok(())
}

fn print_faulty_clients(out: &mut String, marks: &[bool]) -> Result<(), NoMemory>
    ensures { OnOk result (string_bytes out.new
        ≡ string_bytes out.old ++ flat_map spaced (marked client_name 0 marks.now)) }
{
    for (client, is_faulty) in marks.iter().enumerate() {
        if *is_faulty {
            write!(out, " c{client}")?;
        }
    }
    Ok(())
}

fn print_events(alloc: Global, out: &mut String, events: &[WorldEvent]) -> Result<(), NoMemory>
    ensures { OnOk result (string_bytes out.new
        ≡ string_bytes out.old ++ flat_map event_text events.now) }
{
    for event in events {
        print_event(alloc, out, event)?;
    }
    Ok(())
}

fn print_event(alloc: Global, out: &mut String, event: &WorldEvent) -> Result<(), NoMemory>
    ensures { OnOk result (string_bytes out.new ≡ string_bytes out.old ++ event_text event.now) }
{
    match event {
        WorldEvent::Ask { client, op } => print_ask(alloc, out, *client, op.as_slice())?,
        WorldEvent::Give { message, host } => writeln!(out, "give {message} h{host}")?,
        WorldEvent::Take { message, client } => writeln!(out, "take {message} c{client}")?,
        WorldEvent::Raw { name, bytes } => print_raw(alloc, out, *name, bytes.as_slice())?,
        WorldEvent::Patience { host } => writeln!(out, "patience h{host}")?,
        WorldEvent::Nudge { host } => writeln!(out, "nudge h{host}")?,
        WorldEvent::Sign { client, seq, op } => {
            print_sign(alloc, out, *client, *seq, op.as_slice())?;
        }
        WorldEvent::TagReply {
            host,
            client,
            seq,
            pos,
            result: answer,
        } => print_reply(alloc, out, *host, *client, *seq, *pos, answer.as_slice())?,
        WorldEvent::TagWish { host, view } => writeln!(out, "tag h{host} wish {view}")?,
        WorldEvent::StampPrepare {
            host,
            view,
            pos,
            messages,
        } => print_prepare(out, *host, *view, *pos, messages.as_slice())?,
        WorldEvent::StampCommit { host, message } => {
            writeln!(out, "stamp h{host} commit {message}")?;
        }
        WorldEvent::StampCheckpoint { host, pos, digest } => {
            print_checkpoint(alloc, out, *host, *pos, digest)?;
        }
        WorldEvent::StampChange { host, view, after } => {
            writeln!(out, "stamp h{host} change {view} {after}")?;
        }
        WorldEvent::StampAs { host, message } => writeln!(out, "stamp h{host} as {message}")?,
        WorldEvent::StampRaw { host, bytes } => {
            print_stamp_raw(alloc, out, *host, bytes.as_slice())?;
        }
    }
    Ok(())
}

fn print_ask(alloc: Global, out: &mut String, client: Client, op: &[u8]) -> Result<(), NoMemory>
    ensures { OnOk result (string_bytes out.new
        ≡ string_bytes out.old ++ event_text (variant.Ask client op.now)) }
{
    let op = hex_word(alloc, op)?;
    writeln!(out, "ask c{client} {op}")?;
    Ok(())
}

fn print_raw(alloc: Global, out: &mut String, name: Name, bytes: &[u8]) -> Result<(), NoMemory>
    ensures { OnOk result (string_bytes out.new
        ≡ string_bytes out.old ++ event_text (variant.Raw name bytes.now)) }
{
    let bytes = hex_word(alloc, bytes)?;
    match name {
        Name::Host(host) => writeln!(out, "raw h{host} {bytes}")?,
        Name::Client(client) => writeln!(out, "raw c{client} {bytes}")?,
    }
    Ok(())
}

fn print_sign(
    alloc: Global,
    out: &mut String,
    client: Client,
    seq: Seq,
    op: &[u8],
) -> Result<(), NoMemory>
    ensures { OnOk result (string_bytes out.new
        ≡ string_bytes out.old ++ event_text (variant.Sign client seq op.now)) }
{
    let op = hex_word(alloc, op)?;
    writeln!(out, "sign c{client} {seq} {op}")?;
    Ok(())
}

fn print_reply(
    alloc: Global,
    out: &mut String,
    host: Host,
    client: Client,
    seq: Seq,
    pos: Pos,
    answer: &[u8],
) -> Result<(), NoMemory>
    ensures { OnOk result (string_bytes out.new
        ≡ string_bytes out.old ++ event_text (variant.TagReply host client seq pos answer.now)) }
{
    let answer = hex_word(alloc, answer)?;
    writeln!(out, "tag h{host} reply c{client} {seq} {pos} {answer}")?;
    Ok(())
}

fn print_prepare(
    out: &mut String,
    host: Host,
    view: View,
    pos: Pos,
    messages: &[u64],
) -> Result<(), NoMemory>
    ensures { OnOk result (string_bytes out.new
        ≡ string_bytes out.old ++ event_text (variant.StampPrepare host view pos messages.now)) }
{
    write!(out, "stamp h{host} prepare {view} ")?;
    end_numbers(out, pos, messages)
}

/// The last words of a line: a number, and numbers behind it.
#[tactic(auto, using(crate::proofs::LineLemmas::numbers_end))]
fn end_numbers(out: &mut String, first: u64, more: &[u64]) -> Result<(), NoMemory>
    ensures { OnOk result (string_bytes out.new
        ≡ string_bytes out.old ++ line_text (decimal first ∷ map decimal more.now)) }
{
    write!(out, "{first}")?;
    print_numbers(out, more)?;
    writeln!(out)?;
    Ok(())
}

fn print_checkpoint(
    alloc: Global,
    out: &mut String,
    host: Host,
    pos: Pos,
    digest: &Digest,
) -> Result<(), NoMemory>
    ensures { OnOk result (string_bytes out.new
        ≡ string_bytes out.old ++ event_text (variant.StampCheckpoint host pos digest.now)) }
{
    let digest = hex::encode(alloc, digest.as_slice())?;
    writeln!(out, "stamp h{host} checkpoint {pos} {digest}")?;
    Ok(())
}

fn print_stamp_raw(
    alloc: Global,
    out: &mut String,
    host: Host,
    bytes: &[u8],
) -> Result<(), NoMemory>
    ensures { OnOk result (string_bytes out.new
        ≡ string_bytes out.old ++ event_text (variant.StampRaw host bytes.now)) }
{
    let bytes = hex_word(alloc, bytes)?;
    writeln!(out, "stamp h{host} raw {bytes}")?;
    Ok(())
}
