//! Texts in parts, as pictures and summaries are written.
ghost use Rattle.std.specs.Prelude.{◌≡◌, ◌+◌, ◌*◌, ◌++◌, OnOk, IfOk};
ghost use Rattle.co_view.specs.Parts.{part_text, parts_text};
ghost use Rattle.co_view.specs.Trace.{at_text};

use crate::words::print_note;
use co_object::{AnyEntry, Place};
use co_sbt::NoMemory;
use co_text::Page;

/// A part of a text.
#[derive(Clone, Copy)]
pub(crate) enum Part<'a> {
    /// Bytes as they stand.
    Text(&'a [u8]),
    /// Bytes and a number.
    Tagged(&'a [u8], u64),
    /// Bytes and a place in the row of a step, by its place in the first row.
    Down(&'a [u8], u64, usize),
    /// A lane and a step, as a trace says when.
    At(u64, usize),
    /// What a note of a place says.
    Note(Place, &'a AnyEntry),
}

/// A place in the row of a step. NoMemory for so many steps that no picture holds them.
fn down(from: u64, step: usize) -> Result<u64, NoMemory>
    ensures { IfOk result (λ y. y ≡ from + 18 * step) }
{
    match (step as u64).checked_mul(18) {
        Some(rows) => from.checked_add(rows).ok_or(NoMemory {}),
        None => Err(NoMemory {}),
    }
}

/// A lane, and when.
fn print_at(page: &mut Page, lane: u64, step: usize) -> Result<(), NoMemory>
    ensures { OnOk result (page.new ≡ page.old ++ at_text lane step) }
{
    page.number(lane)?;
    page.tagged(b",\"ts\":", step as u64)
}

fn print_part(page: &mut Page, part: &Part) -> Result<(), NoMemory>
    ensures { OnOk result (page.new ≡ page.old ++ part_text part.now) }
{
    match *part {
        Part::Text(text) => page.text(text),
        Part::Tagged(tag, number) => page.tagged(tag, number),
        Part::Down(tag, from, step) => page.tagged(tag, down(from, step)?),
        Part::At(lane, step) => print_at(page, lane, step),
        Part::Note(place, entry) => print_note(page, place, entry),
    }
}

/// These parts, one behind the other.
pub(crate) fn print_parts(page: &mut Page, parts: &[Part]) -> Result<(), NoMemory>
    ensures { OnOk result (page.new ≡ page.old ++ parts_text parts.now) }
{
    for part in parts {
        print_part(page, part)?;
    }
    Ok(())
}
