//! The cases of a file, as they are written.
use crate::unread;
use std::alloc::{AllocError, Global};
use std::io;

/// A line that begins with a word of the form.
#[derive(Drop)]
pub struct Line<'a> {
    /// The word that it begins with.
    pub word: &'a str,
    /// What stands behind the word.
    pub rest: &'a str,
    /// The lines below that begin with `|`, without that and the blank behind it, each ended by LF.
    pub text: String,
}

/// A case.
#[derive(Drop)]
pub struct Case<'a> {
    /// The number of its first line, from 1.
    pub number: usize,
    /// Whether the cases below go on from the files that it leaves.
    pub is_step: bool,
    pub name: &'a str,
    pub lines: Vec<Line<'a>>,
}

/// Adds a line to a case.
fn push_line<'a>(
    alloc: Global,
    lines: &mut Vec<Line<'a>>,
    word: &'a str,
    rest: &'a str,
) -> Result<(), AllocError> {
    let text = String::new(alloc);
    lines.push(Line { word, rest, text })?;
    Ok(())
}

/// Begins a case, or adds a line to the last one.
fn add_line<'a>(
    alloc: Global,
    cases: &mut Vec<Case<'a>>,
    number: usize,
    said: &'a str,
) -> io::Result<()> {
    let (word, rest) = said.split_once(' ').unwrap_or((said, ""));
    if word == "case" || word == "step" {
        cases.push(Case {
            number,
            is_step: word == "step",
            name: rest,
            lines: Vec::new(alloc),
        })?;
        return Ok(());
    }
    match cases.last_mut() {
        Some(case) => Ok(push_line(alloc, &mut case.lines, word, rest)?),
        None => Err(unread()),
    }
}

/// Adds a line to a text.
fn push_text(text: &mut String, line: &str) -> Result<(), AllocError> {
    text.push_str(line.strip_prefix(' ').unwrap_or(line))?;
    text.push('\n')
}

/// Adds to the text below the last line.
fn add_text(cases: &mut Vec<Case>, text: &str) -> io::Result<()> {
    match cases.last_mut().and_then(|case| case.lines.last_mut()) {
        Some(line) => Ok(push_text(&mut line.text, text)?),
        None => Err(unread()),
    }
}

/// Takes a line of a file. Empty lines, and those that begin with `#`, say nothing.
fn take_line<'a>(
    alloc: Global,
    cases: &mut Vec<Case<'a>>,
    number: usize,
    line: &'a str,
) -> io::Result<()> {
    if let Some(text) = line.strip_prefix('|') {
        add_text(cases, text)
    } else if line.is_empty() || line.starts_with('#') {
        Ok(())
    } else {
        add_line(alloc, cases, number, line)
    }
}

/// The cases of a file.
pub fn cases_of<'a>(alloc: Global, file: &'a str) -> io::Result<Vec<Case<'a>>> {
    let mut cases = Vec::new(alloc);
    for (place, line) in file.lines().enumerate() {
        take_line(alloc, &mut cases, place.saturating_add(1), line)?;
    }
    Ok(cases)
}
