//! Hosts that keep a count: a program over a service that is not the key-value store.
//!
//! It reads a schedule from standard input, plays it among hosts of `mb_core` that each keep a `Counter`, from 0 on, and writes the report to
//! standard output. Where the text is no schedule, an event cannot be or delivers what is forged, or memory or a stream fails, it writes nothing, and
//! its status is 1.
//!
//! What is promised of hosts with the key-value service is promised of these: `report_of` in `text.rt` says it of the bytes. Its proof needs of the
//! service only that it is one.
#![tactic(auto)]

mod hosts;
mod text;

use mb_edge::{read_all, write_all};
use mb_os::{StdSink, StdSource};
use mb_sched::MAX_TEXT;
use std::process::ExitCode;
use text::report_of;

/// The status where there is no report.
const FAILED: u8 = 1;

/// Writes the report of standard input, and answers whether there was one.
fn report(rt: &HostRuntime) -> bool {
    let mut source = StdSource::new(rt, rt.stdin());
    let mut sink = StdSink::new(rt, rt.stdout());
    let Ok(text) = read_all(rt.alloc(), MAX_TEXT, &mut source) else {
        return false;
    };
    match report_of(rt.alloc(), &text) {
        Ok(Some(report)) => write_all(&mut sink, report.as_slice()).is_ok(),
        _ => false,
    }
}

fn main(rt: HostRuntime) -> ExitCode {
    if report(&rt) {
        return ExitCode::SUCCESS;
    }
    ExitCode::from(FAILED)
}
