//! Rows: runs of the whole program with their answers.
//!
//! The file `rows.txt` in the current folder has a row on each line: `STATUS INPUT OUTPUT OUTSIDE WORDS..`. The program is run with these words
//! over the bytes of the file INPUT. It has to end with STATUS and to write the bytes of the file OUTPUT. The file OUTSIDE says what the outside
//! does in the run, and what has to come of it: `outside.rt` lists its lines. A `-` stands for no file. A line `beginnings INPUT` is a row for
//! each beginning of a schedule. Lines that begin with `#` say what the rows below them show.
//!
//! No answer was taken from this program. Reports, and what nodes and clients send, are another program's, which was written from the same rules.
//!
//! A line is printed for each row: that all was as expected, or what was not. Behind the rows come stories, each played again (`stories.rt`), and the runs
//! over what the system has (`processes.rt`).
//!
//! With the word `story` it writes the story of the schedule in standard input, and with the word `leave` it starts a node and ends. With other words it does
//! what they ask for, as the program itself: so its nodes and children are started.
#![tactic(auto)]

mod beginnings;
mod devices;
mod files;
mod hosts;
mod outside;
mod printing;
mod processes;
mod row;
mod stop;
mod stories;
mod text;
mod trial;

use beginnings::wrong_beginning;
use mb_os::words_of;
use mb_program::run;
use processes::LEAVE;
use row::{Line, Row, line_of};
use std::io;
use std::process::ExitCode;
use stop::Stop;
use trial::difference;

/// The file of the rows.
const ROWS: &str = "rows.txt";

/// The word for a story.
const STORY: &str = "story";

/// The status where a row is not as expected, or the rows or what is run over the system cannot be run.
const FAILED: u8 = 1;

/// Prints how a row went.
fn tell_row(rt: &HostRuntime, row: &Row, said: &str) -> Result<(), Stop> {
    let name = row.name(rt.alloc())?;
    println!(rt; "{name}: {said}")?;
    Ok(())
}

/// Runs a row, and prints how it went.
fn run_row(rt: &HostRuntime, row: &Row) -> Result<bool, Stop> {
    match difference(rt, row)? {
        None => {
            tell_row(rt, row, "as expected")?;
            Ok(true)
        }
        Some(differs) => {
            tell_row(rt, row, differs.as_str())?;
            Ok(false)
        }
    }
}

/// Runs the beginnings of a schedule, and prints how it went.
fn run_beginnings(rt: &HostRuntime, input: &str) -> Result<bool, Stop> {
    let wrong = wrong_beginning(rt, input)?;
    match wrong {
        Some(count) => println!(rt; "{input} beginnings: the one of {count} bytes differs")?,
        None => println!(rt; "{input} beginnings: as expected")?,
    }
    Ok(wrong.is_none())
}

/// Runs what a line says. A remark always holds.
fn run_line(rt: &HostRuntime, line: &Line) -> Result<bool, Stop> {
    match line {
        Line::Remark => Ok(true),
        Line::Row(row) => run_row(rt, row),
        Line::Beginnings(input) => run_beginnings(rt, input),
    }
}

/// Runs the rows of the file, and answers whether all were as expected.
fn run_rows(rt: &HostRuntime) -> Result<bool, Stop> {
    let text = files::text_of(rt, ROWS)?;
    run_lines(rt, text.as_str())
}

/// Runs the rows of a text, and answers whether all were as expected.
fn run_lines(rt: &HostRuntime, text: &str) -> Result<bool, Stop> {
    let mut all_hold = true;
    for line in text.lines() {
        let Some(parsed) = line_of(rt.alloc(), line)? else {
            println!(rt; "no row: {line}")?;
            return Ok(false);
        };
        let holds = run_line(rt, &parsed);
        drop(parsed);
        all_hold = holds? && all_hold;
    }
    Ok(all_hold)
}

/// Prints why the rows cannot be run.
fn tell(rt: &HostRuntime, stop: Stop) -> io::Result<()> {
    match stop {
        Stop::NoMemory => println!(rt; "memory ran out"),
        Stop::Unread(name) => println!(rt; "{name} cannot be read"),
        Stop::BadLine(number) => println!(rt; "bad line {number}"),
        Stop::TooLong => println!(rt; "too long"),
        Stop::Unprinted(error) => Err(error),
    }
}

/// Runs the rows, plays the stories, and runs what is run over the system. Answers whether all rows and stories were as expected.
fn run_all(rt: &HostRuntime) -> Result<bool, Stop> {
    let rows_hold = run_rows(rt)?;
    let stories_hold = stories::run_all(rt)?;
    processes::run_all(rt)?;
    Ok(rows_hold && stories_hold)
}

/// The status of what was run.
fn status_of(rt: &HostRuntime, held: Result<bool, Stop>) -> io::Result<ExitCode> {
    match held {
        Ok(true) => Ok(ExitCode::SUCCESS),
        Ok(false) => Ok(ExitCode::from(FAILED)),
        Err(stop) => {
            tell(rt, stop)?;
            Ok(ExitCode::from(FAILED))
        }
    }
}

/// Starts a node, and leaves it.
fn leave(rt: &HostRuntime) -> io::Result<ExitCode> {
    processes::leave_node(rt)?;
    Ok(ExitCode::SUCCESS)
}

/// Whether the words are this one.
fn asks_for(words: &[String], name: &str) -> bool {
    match words {
        [word] => word.as_str() == name,
        _ => false,
    }
}

fn main(rt: HostRuntime) -> io::Result<ExitCode> {
    match words_of(&rt) {
        Ok(words) if words.is_empty() => status_of(&rt, run_all(&rt)),
        Ok(words) if asks_for(&words, STORY) => status_of(&rt, stories::tell(&rt)),
        Ok(words) if asks_for(&words, LEAVE) => leave(&rt),
        _ => Ok(run(&rt)),
    }
}
