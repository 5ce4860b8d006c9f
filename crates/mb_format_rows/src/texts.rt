//! Rows of schedules, configs and records. In a row `\n` stands for the end of a line.

use crate::cuts::Judge;
use crate::stop::Stop;
use crate::teller::{Teller, Told};
use mb_sched::{
    BadText, Record, parse_config, parse_record, parse_schedule, print_config, print_entry,
    print_record_head, print_schedule,
};
use std::alloc::Global;

/// The last line of the record of a host that was stopped.
const END: &[u8] = b"end\n";

/// Schedules as texts.
#[derive(Clone, Copy)]
pub struct Schedules;

/// Configs as texts.
#[derive(Clone, Copy)]
pub struct Configs;

/// The text of a row.
pub fn text_of_row(alloc: Global, row: &str) -> Result<String, Stop> {
    Ok(row.replace(alloc, "\\n", "\n")?)
}

/// What is said of a bad text.
fn bad_text(alloc: Global, error: BadText) -> Result<String, Stop> {
    match error {
        BadText::TooLong => Ok(String::from_str(alloc, "too long")?),
        BadText::BadLine { number } => Ok(format!(in alloc; "bad line {number}")?),
        BadText::NoMemory => Err(Stop::NoMemory),
    }
}

/// What is said of a text with this fault, or none.
fn fault_text(alloc: Global, fault: Option<BadText>) -> Result<String, Stop> {
    match fault {
        Some(error) => bad_text(alloc, error),
        None => Ok(String::from_str(alloc, "right")?),
    }
}

impl Judge for Schedules {
    fn judge(&self, alloc: Global, bytes: &[u8]) -> Result<String, Stop> {
        fault_text(alloc, parse_schedule(alloc, bytes).err())
    }
}

impl Judge for Configs {
    fn judge(&self, alloc: Global, bytes: &[u8]) -> Result<String, Stop> {
        fault_text(alloc, parse_config(alloc, bytes).err())
    }
}

/// What a text says, and whether it is printed as it was.
fn told_and_printed<T: Told>(
    alloc: Global,
    value: &T,
    printed: &[u8],
    text: &str,
) -> Result<String, Stop> {
    let mut teller = Teller::new(alloc);
    value.tell(&mut teller);
    let how = if printed == text.as_bytes() {
        "the same"
    } else {
        "otherwise"
    };
    teller.word("printed");
    teller.word(how);
    teller.finish()
}

/// What a schedule says.
pub fn schedule_text(alloc: Global, text: &str) -> Result<String, Stop> {
    match parse_schedule(alloc, text.as_bytes()) {
        Ok(schedule) => {
            let printed = print_schedule(alloc, &schedule)?;
            told_and_printed(alloc, &schedule, &printed, text)
        }
        Err(error) => bad_text(alloc, error),
    }
}

/// What a config says.
pub fn config_text(alloc: Global, text: &str) -> Result<String, Stop> {
    match parse_config(alloc, text.as_bytes()) {
        Ok(config) => {
            let printed = print_config(alloc, &config)?;
            told_and_printed(alloc, &config, &printed, text)
        }
        Err(error) => bad_text(alloc, error),
    }
}

/// The text of a record of a host that was stopped.
fn printed_record(alloc: Global, record: &Record) -> Result<Vec<u8>, Stop> {
    let mut printed = print_record_head(alloc, &record.config, record.id)?;
    for entry in record.entries.as_slice() {
        printed.extend_from_slice(print_entry(alloc, entry)?.as_slice())?;
    }
    printed.extend_from_slice(END)?;
    Ok(printed)
}

/// What a record says.
pub fn record_text(alloc: Global, text: &str) -> Result<String, Stop> {
    match parse_record(alloc, text.as_bytes()) {
        Ok(record) => {
            let printed = printed_record(alloc, &record)?;
            told_and_printed(alloc, &record, &printed, text)
        }
        Err(error) => bad_text(alloc, error),
    }
}
