//! The lines of the file of rows.

use crate::stop::Stop;
use std::alloc::Global;

/// The first word of a line that stands for each beginning of a schedule.
const BEGINNINGS: &str = "beginnings";

/// A run of the program, and what is expected of it.
#[derive(Drop)]
pub struct Row<'a> {
    /// The status with which the run has to end.
    pub status: u8,
    /// The file of the bytes that are read.
    pub input: &'a str,
    /// The file of the bytes that have to be written.
    pub output: &'a str,
    /// The file of what the outside does.
    pub outside: &'a str,
    /// The words behind the program's own name.
    pub words: Vec<String>,
}

/// A line of the file of rows.
#[derive(Drop)]
pub enum Line<'a> {
    /// A line that says what rows show, or an empty one.
    Remark,
    /// One run.
    Row(Row<'a>),
    /// A run over each beginning of this file.
    Beginnings(&'a str),
}

/// Adds a word behind a space, if there is one before it.
fn add_word(name: &mut String, word: &str) -> Result<(), Stop> {
    if !name.is_empty() {
        name.push_str(" ")?;
    }
    name.push_str(word)?;
    Ok(())
}

impl Row<'_> {
    /// What the row is called: the files that it begins with, and the words.
    pub fn name(&self, alloc: Global) -> Result<String, Stop> {
        let mut name = String::from_str(alloc, self.input)?;
        self.add_rest(&mut name)?;
        Ok(name)
    }

    /// Adds what stands in the name behind the input.
    fn add_rest(&self, name: &mut String) -> Result<(), Stop> {
        if self.outside != "-" {
            add_word(name, self.outside)?;
        }
        for word in &self.words {
            add_word(name, word.as_str())?;
        }
        Ok(())
    }
}

/// The row of a line whose first word is its status. None where a word is missing.
fn row_of<'a>(alloc: Global, status: u8, line: &'a str) -> Result<Option<Row<'a>>, Stop> {
    let mut words = line.split_ascii_whitespace().skip(1);
    let Some(input) = words.next() else {
        return Ok(None);
    };
    let Some(output) = words.next() else {
        return Ok(None);
    };
    let Some(outside) = words.next() else {
        return Ok(None);
    };
    let mut list = Vec::new(alloc);
    for word in words {
        list.push(String::from_str(alloc, word)?)?;
    }
    Ok(Some(Row {
        status,
        input,
        output,
        outside,
        words: list,
    }))
}

/// What a line says. None where it is none of the file.
pub fn line_of<'a>(alloc: Global, line: &'a str) -> Result<Option<Line<'a>>, Stop> {
    let mut words = line.split_ascii_whitespace();
    let Some(first) = words.next() else {
        return Ok(Some(Line::Remark));
    };
    if first.starts_with('#') {
        return Ok(Some(Line::Remark));
    }
    if first == BEGINNINGS {
        let Some(input) = words.next() else {
            return Ok(None);
        };
        return Ok(Some(Line::Beginnings(input)));
    }
    let Ok(status) = first.parse::<u8>() else {
        return Ok(None);
    };
    match row_of(alloc, status, line)? {
        Some(row) => Ok(Some(Line::Row(row))),
        None => Ok(None),
    }
}
