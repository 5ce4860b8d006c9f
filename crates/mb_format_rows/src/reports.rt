//! Rows of reports. No text is read as a report, so these are made here. In an answer `\n` stands for the end of a line.

use crate::stop::Stop;
use mb_base::{Client, Host, Items, Seq};
use mb_msg::{Phase, Placed, Request, Slot};
use mb_sched::{
    ClientLine, HostLine, HostState, LastResult, RefusedLine, Report, Word, print_report,
};
use std::alloc::Global;

/// The text of one of the reports.
pub fn report_text(alloc: Global, name: &str) -> Result<String, Stop> {
    let report = match name {
        "one-put" => one_put(alloc)?,
        "with-faults" => with_faults(alloc)?,
        _ => return Err(Stop::NoRow),
    };
    let printed = print_report(alloc, &report)?;
    let text = String::from_utf8_lossy(alloc, &printed)?;
    Ok(text.as_str().replace(alloc, "\n", "\\n")?)
}

fn placed(alloc: Global, client: Client, seq: Seq, fresh: bool, op: &[u8]) -> Result<Placed, Stop> {
    let request = Request {
        client,
        seq,
        op: Items::from_vec(Vec::from_slice(alloc, op)?),
        tag: [0; 32],
    };
    Ok(Placed { request, fresh })
}

fn refused(alloc: Global, event: u64, name: Word, numbers: &[u64]) -> Result<RefusedLine, Stop> {
    Ok(RefusedLine {
        event,
        name,
        numbers: Items::from_vec(Vec::from_slice(alloc, numbers)?),
    })
}

fn open_host(host: Host) -> HostLine {
    let state = HostState {
        view: 0,
        phase: Phase::Open,
        exec: 1,
        low: 0,
        log: 1,
        longest: 1,
    };
    HostLine {
        host,
        state: Some(state),
    }
}

/// The report of one request that three hosts executed.
fn one_put(alloc: Global) -> Result<Report, Stop> {
    let mut requests = Items::new(alloc);
    requests.push(placed(alloc, 0, 1, true, b"\x01\x01a\x00\x011")?)?;
    let mut line = Items::new(alloc);
    line.push(Slot { pos: 1, requests })?;
    let mut clients = Items::new(alloc);
    clients.push(ClientLine {
        client: 0,
        asked: 1,
        accepted: 0,
        last: None,
    })?;
    let hosts = Items::from_vec(vec![in alloc; open_host(0), open_host(1), open_host(2)]?);
    Ok(Report {
        events: 5,
        messages: 7,
        line,
        refused: Items::new(alloc),
        hosts,
        clients,
    })
}

/// Two slots, the second of two requests.
fn two_slots(alloc: Global) -> Result<Items<Slot>, Stop> {
    let mut first = Items::new(alloc);
    first.push(placed(alloc, 0, 1, false, &[])?)?;
    let mut second = Items::new(alloc);
    second.push(placed(alloc, 0, 2, true, &[0])?)?;
    second.push(placed(alloc, 1, 1, false, &[])?)?;
    let mut slots = Items::new(alloc);
    slots.push(Slot {
        pos: 2,
        requests: first,
    })?;
    slots.push(Slot {
        pos: 3,
        requests: second,
    })?;
    Ok(slots)
}

fn refusals(alloc: Global) -> Result<Items<RefusedLine>, Stop> {
    let mut lines = Items::new(alloc);
    lines.push(refused(alloc, 3, Word::Malformed, &[16])?)?;
    lines.push(refused(alloc, 5, Word::Stale, &[2])?)?;
    lines.push(refused(alloc, 7, Word::NeedBody, &[1, 5])?)?;
    Ok(lines)
}

/// A client that accepted a result.
fn accepted(alloc: Global) -> Result<Items<ClientLine>, Stop> {
    let last = LastResult {
        seq: 1,
        pos: 1,
        result: Items::from_vec(Vec::from_slice(alloc, &[0])?),
    };
    let mut clients = Items::new(alloc);
    clients.push(ClientLine {
        client: 0,
        asked: 2,
        accepted: 1,
        last: Some(last),
    })?;
    Ok(clients)
}

/// The report of a system with a faulty host and refused events.
fn with_faults(alloc: Global) -> Result<Report, Stop> {
    let mut hosts = Items::new(alloc);
    hosts.push(HostLine {
        host: 0,
        state: None,
    })?;
    let clients = accepted(alloc)?;
    let refused = refusals(alloc)?;
    Ok(Report {
        events: 9,
        messages: u64::MAX,
        line: two_slots(alloc)?,
        refused,
        hosts,
        clients,
    })
}
