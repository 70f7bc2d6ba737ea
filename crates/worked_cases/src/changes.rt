//! Reports that are changed in one place, each with what `check` has to say of it.
//!
//! A line of a table is a change and its verdict: `drop 12 6 19 follows` leaves line 12 out, and `check` then ends with status 6 and
//! writes `line 19: follows`. `double` has the line twice, `swap` has it behind the next one, `put` has the text at the end of the
//! table's line in its place, and `add` has that text behind it. Lines are counted from 1. A line that begins with `#` tells what follows.
use crate::call::says;
use co_sbt::{NoMemory, Seq};
use co_text::{is_word, next_line, next_word, number};
use co_top::Status;
use std::alloc::Global;
use std::sync::Wait;
use std::thread::Threads;

/// More lines than a table or a report of the worked scripts has.
const MOST_LINES: u64 = 1000;

/// A line of a table, in words.
#[derive(Drop)]
struct Changed<'a> {
    change: &'a [u8],
    at: &'a [u8],
    status: &'a [u8],
    /// The number of the line that is named.
    line: &'a [u8],
    cause: &'a [u8],
    text: &'a [u8],
}

/// The next word and what stands behind it, both empty where there is none.
fn word(text: &[u8]) -> (&[u8], &[u8]) {
    match next_word(text) {
        Some(found) => found,
        None => (b"".as_slice(), b"".as_slice()),
    }
}

/// A line of a table, read.
fn read_changed(row: &[u8]) -> Changed<'_> {
    let (change, rest) = word(row);
    let (at, rest) = word(rest);
    let (status, rest) = word(rest);
    let (line, rest) = word(rest);
    let (cause, rest) = word(rest);
    Changed {
        change,
        at,
        status,
        line,
        cause,
        text: rest.get(1..).unwrap_or(rest),
    }
}

/// The number of a line, by its word.
fn line_number(word: &[u8]) -> u64 {
    match number(word) {
        Ok(number) => u64::try_from(number).unwrap_or(MOST_LINES),
        Err(_) => MOST_LINES,
    }
}

/// The status of this word, of those with which `check` of a report may end.
fn status_of(word: &[u8]) -> Status {
    match word {
        b"0" => Status::Done,
        b"1" => Status::BadScript,
        b"6" => Status::NotLegal,
        _ => Status::Usage,
    }
}

/// The first line of a text with its line feed, and the lines after it.
fn first_line(text: &[u8]) -> (&[u8], &[u8]) {
    match next_line(text) {
        Some((_, _, after)) => text.split_at(text.len() - after.len()),
        None => (text, text),
    }
}

/// A report up to a line, and from there.
fn cut(report: &[u8], at: u64) -> (&[u8], &[u8]) {
    let mut rest = report;
    for _ in 1..at {
        rest = first_line(rest).1;
    }
    let before = report.len().saturating_sub(rest.len());
    (report.split_at(before).0, rest)
}

/// The report with the change made, in pieces.
fn with_change<'t>(report: &'t [u8], changed: &Changed<'t>) -> [&'t [u8]; 4] {
    let at = line_number(changed.at);
    let (before, rest) = cut(report, at);
    let (through, after) = cut(report, at.saturating_add(1));
    let line = first_line(rest).0;
    let (next, behind) = first_line(after);
    let none = b"".as_slice();
    if is_word(changed.change, b"drop".as_slice()) {
        [before, after, none, none]
    } else if is_word(changed.change, b"double".as_slice()) {
        [through, line, after, none]
    } else if is_word(changed.change, b"swap".as_slice()) {
        [before, next, line, behind]
    } else if is_word(changed.change, b"put".as_slice()) {
        [before, changed.text, b"\n", after]
    } else {
        [through, changed.text, b"\n", after]
    }
}

/// What `check` has to write, in pieces.
fn verdict<'t>(changed: &Changed<'t>) -> [&'t [u8]; 5] {
    match changed.status {
        b"0" => [changed.cause, b"\n", b"", b"", b""],
        _ => [b"line ", changed.line, b": ", changed.cause, b"\n"],
    }
}

/// The bytes of these pieces, one behind the other.
fn joined(alloc: Global, pieces: &[&[u8]]) -> Result<Seq<u8>, NoMemory> {
    let mut text = Seq::new(alloc);
    for piece in pieces {
        text.extend_from_slice(piece)?;
    }
    Ok(text)
}

/// Whether the table's line changes the report, and `check` says of it then what the line says. A line that names no line of the report
/// changes nothing.
fn is_judged<R: AllocGlobal + Threads + Wait + Sync>(rt: &R, report: &[u8], row: &[u8]) -> bool {
    let changed = read_changed(row);
    let Ok(text) = joined(rt.alloc(), &with_change(report, &changed)) else {
        return false;
    };
    match joined(rt.alloc(), &verdict(&changed)) {
        Ok(wanted) => {
            text.as_slice() != report
                && says(
                    rt,
                    "check",
                    text.as_slice(),
                    status_of(changed.status),
                    wanted.as_slice(),
                )
        }
        Err(_) => false,
    }
}

/// How many changes of a table are judged as it says, where all are. Else 0.
pub fn count_judged<R: AllocGlobal + Threads + Wait + Sync>(
    rt: &R,
    report: &[u8],
    table: &[u8],
) -> u64 {
    let mut rest = table;
    let mut judged: u64 = 0;
    for _ in 0..MOST_LINES {
        let Some((row, _, after)) = next_line(rest) else {
            break;
        };
        rest = after;
        if !matches!(row, [b'#', ..]) {
            if !is_judged(rt, report, row) {
                return 0;
            }
            judged = judged.saturating_add(1);
        }
    }
    judged
}
