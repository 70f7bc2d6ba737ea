//! Where the long sections of a text begin.
ghost use Rattle.std.specs.Prelude.{◌+◌, ◌≤◌, length};

use crate::joining::joined;
use crate::spot::line_at;
use co_grammar::{Kind, kind_of};
use co_sbt::{NoMemory, Seq};
use co_text::next_word;
use std::alloc::Global;
use std::thread::{Threads, map_chunks};

/// How many bytes a section has at least that is read by itself.
const LONG: usize = 65_536;

/// In how many parts a text is looked at, each part in a thread of its own where one can be had.
const PARTS: usize = 8;

/// How many bytes a part has at least, the last one aside.
const LEAST_PART: usize = 131_072;

/// Where the acts of a section begin, as far as a look at the text tells.
#[derive(Clone, Copy)]
pub(crate) struct Start {
    /// The kind of its opening line.
    pub stage: Kind,
    /// The byte behind its opening line.
    pub at: usize,
}

/// A line that begins a section, or ends the last one.
#[derive(Clone, Copy)]
struct Opening {
    /// The byte where it begins.
    from: usize,
    start: Start,
}

/// The kind of a line that begins a section, or ends the last one.
fn opened(line: &[u8]) -> Option<Kind> {
    // Most lines are passed by their first byte.
    match line {
        [b'c' | b'f' | b't' | b' ' | b'\t' | b'\r', ..] => {}
        _ => return None,
    }
    let (word, _) = next_word(line)?;
    match kind_of(word)? {
        Kind::Func => Some(Kind::Func),
        Kind::Client => Some(Kind::Client),
        Kind::Cpu => Some(Kind::Cpu),
        Kind::Turns => Some(Kind::Turns),
        Kind::Callout | Kind::Hz | Kind::Cpus | Kind::Wheel => None,
        Kind::Funcs | Kind::Lock | Kind::Timer => None,
    }
}

/// The byte where the first line begins that does not begin before this byte.
fn line_from(text: &[u8], at: usize) -> usize
    requires { at ≤ length text.now }
    ensures { result ≤ length text.now }
{
    if at == 0 {
        return 0;
    }
    match line_at(text, at - 1) {
        Some((_, _, behind)) => behind,
        None => text.len(),
    }
}

/// The openings that begin in a part of a text, in order.
fn openings_in(alloc: Global, text: &[u8], from: usize, to: usize) -> Result<Seq<Opening>, NoMemory>
    requires { from ≤ length text.now }
{
    let mut openings = Seq::new(alloc);
    let mut at = line_from(text, from);
    while at < to {
        let Some((line, _, behind)) = line_at(text, at) else {
            break;
        };
        if let Some(stage) = opened(line) {
            openings.push(Opening {
                from: at,
                start: Start { stage, at: behind },
            })?;
        }
        at = behind;
    }
    Ok(openings)
}

/// The openings of a text, in order. Threads look at the parts of a long one beside each other.
fn openings_of<R: Threads + Sync>(
    rt: &R,
    alloc: Global,
    text: &[u8],
) -> Result<Seq<Opening>, NoMemory> {
    let look = |from: usize, part: &[u8]| -> Result<Seq<Opening>, NoMemory>
        requires { from + length part.now ≤ length text.now }
    { openings_in(alloc, text, from, from + part.len()) };
    let size = text.len().div_ceil(PARTS).max(LEAST_PART);
    match map_chunks(rt, alloc, text, size, &look) {
        Ok(parts) => joined(alloc, parts),
        Err(_) => Err(NoMemory {}),
    }
}

/// Notes where a section begins that ends before this byte, if it is long.
fn note_long(starts: &mut Seq<Start>, start: Option<Start>, end: usize) -> Result<(), NoMemory> {
    match start {
        Some(start) if start.stage.is_section() && LONG <= end.saturating_sub(start.at) => {
            starts.push(start)
        }
        _ => Ok(()),
    }
}

/// Which of these sections are long, where the last one ends at this byte.
fn long_of(alloc: Global, openings: &[Opening], end: usize) -> Result<Seq<Start>, NoMemory> {
    let mut starts = Seq::new(alloc);
    let mut open = None;
    for opening in openings {
        note_long(&mut starts, open, opening.from)?;
        open = Some(opening.start);
    }
    note_long(&mut starts, open, end)?;
    Ok(starts)
}

/// Where the long sections of a text begin, in order. Threads look at the parts of a long text beside each other. What a look
/// misses is no harm: it is read with the other lines.
pub(crate) fn starts_of<R: Threads + Sync>(
    rt: &R,
    alloc: Global,
    text: &[u8],
) -> Result<Seq<Start>, NoMemory> {
    let openings = openings_of(rt, alloc, text)?;
    long_of(alloc, openings.as_slice(), text.len())
}
