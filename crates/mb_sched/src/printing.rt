//! The text of a report.

ghost use Rattle.std.specs.Prelude.{◌≡◌, ◌∷◌, ◌++◌, map, decimal, IfOk, OnOk, string_bytes};
ghost use Rattle.std.specs.List.{flat_map};
ghost use Rattle.mb_sched.specs.Printing.{line_of, hex_word, spaced_number};
ghost use Rattle.mb_sched.specs.Report.{report_text, placed_line, placed_lines, slot_lines, refused_line, host_line, client_lines, result_line, word_name, phase_name, fresh_name};

use mb_base::{Client, Host, NoMemory, Pos};
use mb_msg::{Phase, Placed, Slot};
use mb_schedule::{ClientLine, HostLine, HostState, LastResult, RefusedLine, Report, Word};
use std::alloc::Global;
use std::fmt::Write;

/// The text of a report. Each line ends with LF, its words are parted by one space, and numbers are decimal:
///
/// ```text
/// minbft report 2
/// events E messages M
/// line L                               the number of slots
/// slot P I cC SEQ fresh OP             for each request of each slot, I counting from 0 in the slot;
///                                      `again` in place of `fresh` where it changed nothing
/// refused E NAME NUMBER..              for each refused event, with the numbers of its outcome
/// host hH view V PHASE exec X low W log N longest G
///                                      for each host; only `host hH faulty` for a faulty one
/// client cC asked A accepted B         for each client
/// result cC SEQ P RESULT               behind its client, if it accepted a result: the last one
/// end
/// ```
///
/// OP and RESULT are in lower-case hexadecimal, or `-` if empty. `NoMemory` comes where memory runs out, and nowhere else.
#[tactic(auto, unfolding(crate::specs::Report::report_text))]
pub fn print_report(alloc: Global, report: &Report) -> Result<Vec<u8>, NoMemory>
    ensures { IfOk result (λ v. v.items ≡ report_text report.now) }
{
    let mut out = String::new(alloc);
    writeln!(out, "minbft report 2")?;
    writeln!(out, "events {} messages {}", report.events, report.messages)?;
    writeln!(out, "line {}", report.line.len())?;
    print_slots(alloc, &mut out, report.line.as_slice())?;
    print_refusals(&mut out, report.refused.as_slice())?;
    print_hosts(&mut out, report.hosts.as_slice())?;
    print_clients(alloc, &mut out, report.clients.as_slice())?;
    writeln!(out, "end")?;
    Ok(out.into_bytes())
}

/// The lines of a history, as they stand in a report: one for each request of each slot. `NoMemory` comes where memory runs out, and nowhere else.
pub fn print_slots(alloc: Global, out: &mut String, slots: &[Slot]) -> Result<(), NoMemory>
    ensures { OnOk result (string_bytes out.new ≡ string_bytes out.old ++ flat_map slot_lines slots.now) }
{
    for slot in slots {
        print_slot(alloc, out, slot)?;
    }
    Ok(())
}

/// A line for each request of a slot.
fn print_slot(alloc: Global, out: &mut String, slot: &Slot) -> Result<(), NoMemory>
    ensures { OnOk result (string_bytes out.new ≡ string_bytes out.old ++ slot_lines slot.now) }
{
    for (i, placed) in slot.requests.as_slice().iter().enumerate() {
        print_placed(alloc, out, slot.pos, i, placed)?;
    }
    Ok(())
}

fn print_placed(
    alloc: Global,
    out: &mut String,
    pos: Pos,
    i: usize,
    placed: &Placed,
) -> Result<(), NoMemory>
    ensures { OnOk result (string_bytes out.new ≡ string_bytes out.old ++ placed_line pos i placed.now) }
{
    let request = &placed.request;
    let fresh = fresh_name(placed.fresh);
    let op = hex_word(alloc, request.op.as_slice())?;
    writeln!(
        out,
        "slot {pos} {i} c{} {} {fresh} {op}",
        request.client, request.seq
    )?;
    Ok(())
}

fn fresh_name(fresh: bool) -> &'static str
    ensures { result.now ≡ fresh_name fresh }
{
    if fresh { "fresh" } else { "again" }
}

/// Bytes in lower-case hexadecimal, and a dash where there are none. `NoMemory` comes where memory runs out, and nowhere else.
pub fn hex_word(alloc: Global, bytes: &[u8]) -> Result<String, NoMemory>
    ensures { IfOk result (λ word. string_bytes word ≡ hex_word bytes.now) }
{
    if bytes.is_empty() {
        return Ok(String::from_str(alloc, "-")?);
    }
    Ok(hex::encode(alloc, bytes)?)
}

fn print_refusals(out: &mut String, refused: &[RefusedLine]) -> Result<(), NoMemory>
    ensures { OnOk result (string_bytes out.new ≡ string_bytes out.old ++ flat_map refused_line refused.now) }
{
    for line in refused {
        print_refusal(out, line)?;
    }
    Ok(())
}

fn print_refusal(out: &mut String, line: &RefusedLine) -> Result<(), NoMemory>
    ensures { OnOk result (string_bytes out.new ≡ string_bytes out.old ++ refused_line line.now) }
{
    write!(out, "refused {} ", line.event)?;
    end_line(out, word_name(line.name), line.numbers.as_slice())
}

/// The last words of a line: a name, and numbers behind it.
#[tactic(auto, using(crate::proofs::LineLemmas::numbers_behind))]
fn end_line(out: &mut String, name: &str, numbers: &[u64]) -> Result<(), NoMemory>
    ensures { OnOk result (string_bytes out.new ≡ string_bytes out.old ++ line_of (name.now ∷ map decimal numbers.now)) }
{
    out.push_str(name)?;
    print_numbers(out, numbers)?;
    writeln!(out)?;
    Ok(())
}

/// Each number behind a space.
pub(crate) fn print_numbers(out: &mut String, numbers: &[u64]) -> Result<(), NoMemory>
    ensures { OnOk result (string_bytes out.new ≡ string_bytes out.old ++ flat_map spaced_number numbers.now) }
{
    for number in numbers {
        write!(out, " {number}")?;
    }
    Ok(())
}

fn word_name(word: Word) -> &'static str
    ensures { result.now ≡ word_name word }
{
    match word {
        Word::Malformed => "malformed",
        Word::BadUi => "badui",
        Word::BadTag => "badtag",
        Word::Stale => "stale",
        Word::Ahead => "ahead",
        Word::Illegal => "illegal",
        Word::Convicted => "convicted",
        Word::NeedBody => "needbody",
        Word::LaterView => "laterview",
        Word::BeyondWindow => "beyondwindow",
        Word::Unusable => "unusable",
        Word::WrongDigest => "wrongdigest",
        Word::BadState => "badstate",
        Word::Old => "old",
        Word::OtherSeq => "otherseq",
    }
}

fn print_hosts(out: &mut String, hosts: &[HostLine]) -> Result<(), NoMemory>
    ensures { OnOk result (string_bytes out.new ≡ string_bytes out.old ++ flat_map host_line hosts.now) }
{
    for host in hosts {
        print_host(out, host)?;
    }
    Ok(())
}

fn print_host(out: &mut String, line: &HostLine) -> Result<(), NoMemory>
    ensures { OnOk result (string_bytes out.new ≡ string_bytes out.old ++ host_line line.now) }
{
    match &line.state {
        Some(state) => print_state(out, line.host, state),
        None => print_faulty(out, line.host),
    }
}

fn print_state(out: &mut String, host: Host, state: &HostState) -> Result<(), NoMemory>
    ensures { OnOk result (string_bytes out.new ≡ string_bytes out.old ++ host_line (record { host = host; state = Some state.now })) }
{
    let phase = phase_name(state.phase);
    write!(out, "host h{host} view {} {phase}", state.view)?;
    write!(out, " exec {} low {}", state.exec, state.low)?;
    writeln!(out, " log {} longest {}", state.log, state.longest)?;
    Ok(())
}

fn print_faulty(out: &mut String, host: Host) -> Result<(), NoMemory>
    ensures { OnOk result (string_bytes out.new ≡ string_bytes out.old ++ host_line (record { host = host; state = None })) }
{
    writeln!(out, "host h{host} faulty")?;
    Ok(())
}

fn phase_name(phase: Phase) -> &'static str
    ensures { result.now ≡ phase_name phase }
{
    match phase {
        Phase::Changing => "changing",
        Phase::Entered => "entered",
        Phase::Open => "open",
    }
}

fn print_clients(alloc: Global, out: &mut String, clients: &[ClientLine]) -> Result<(), NoMemory>
    ensures { OnOk result (string_bytes out.new ≡ string_bytes out.old ++ flat_map client_lines clients.now) }
{
    for client in clients {
        print_client(alloc, out, client)?;
    }
    Ok(())
}

fn print_client(alloc: Global, out: &mut String, line: &ClientLine) -> Result<(), NoMemory>
    ensures { OnOk result (string_bytes out.new ≡ string_bytes out.old ++ client_lines line.now) }
{
    writeln!(
        out,
        "client c{} asked {} accepted {}",
        line.client, line.asked, line.accepted
    )?;
    match &line.last {
        Some(last) => print_result(alloc, out, line.client, last),
        None => Ok(()),
    }
}

fn print_result(
    alloc: Global,
    out: &mut String,
    client: Client,
    last: &LastResult,
) -> Result<(), NoMemory>
    ensures { OnOk result (string_bytes out.new ≡ string_bytes out.old ++ result_line client (Some last.now)) }
{
    let result = hex_word(alloc, last.result.as_slice())?;
    writeln!(out, "result c{client} {} {} {result}", last.seq, last.pos)?;
    Ok(())
}
