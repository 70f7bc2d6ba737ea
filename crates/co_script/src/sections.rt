//! The long sections of a text, each read by itself.
ghost use Rattle.std.specs.Prelude.{◌≡◌, ◌≤◌, IfOk, MatchOption, length};
ghost use Rattle.co_script.specs.Beside.{IsSection, Begins, GrowsNext, HasTaken};

use crate::draft::Draft;
use crate::spot::content_at;
use crate::starts::Start;
use co_grammar::Kind;
use co_program::Acts;
use co_sbt::{NoMemory, Sbt, Seq};
use std::alloc::Global;

/// A section that was read by itself.
#[derive(Drop)]
pub(crate) struct Section {
    pub stage: Kind,
    /// The byte behind its opening line.
    pub at: usize,
    /// The byte behind its last line that was read.
    pub end: usize,
    /// How many lines were read.
    pub lines: u64,
    pub acts: Acts,
    /// The time of its last `now` or `tick`.
    pub clock: Sbt,
}

/// Takes the line from a byte on into a draft, and gives the byte behind it. None where it is no line of the open section, or
/// is bad: then nothing is taken.
// Apart: few lines come here, and the others' way stays short.
#[inline(never)]
fn grow_by_words(text: &[u8], draft: &mut Draft, at: usize) -> Result<Option<usize>, NoMemory>
    requires { at ≤ length text.now }
    ensures { IfOk result (λ behind. MatchOption behind (draft.new ≡ draft.old) (λ to. GrowsNext text.now draft.old draft.new at to)) }
{
    let Some((part, behind)) = content_at(text, at) else {
        return Ok(None);
    };
    if draft.grow(part)? {
        Ok(Some(behind))
    } else {
        Ok(None)
    }
}

/// The same, by one walk where the line is an act of the plainest form.
#[inline(always)]
fn grow_next(text: &[u8], draft: &mut Draft, at: usize) -> Result<Option<usize>, NoMemory>
    requires { at ≤ length text.now }
    ensures { IfOk result (λ behind. MatchOption behind (draft.new ≡ draft.old) (λ to. GrowsNext text.now draft.old draft.new at to)) }
{
    match draft.take_next(text, at)? {
        Some(behind) => Ok(Some(behind)),
        None => grow_by_words(text, draft, at),
    }
}

/// Takes lines into a draft whose section has just begun, from a place on, up to the first that it does not take. The byte
/// behind the last line that was taken, and how many were.
fn grow_on(text: &[u8], draft: &mut Draft, from: usize) -> Result<(usize, u64), NoMemory>
    requires small { length text.now ≤ 67108864 }
    requires from { from ≤ length text.now }
    requires begins { Begins draft.old.stage draft.old }
    ensures { IfOk result (λ x. HasTaken text.now draft.old draft.new from x.0 x.1) }
{
    let mut end = from;
    let mut lines = 0;
    while let Some(behind) = grow_next(text, draft, end)? {
        end = behind;
        lines += 1;
    }
    Ok((end, lines))
}

/// The section of a draft where it has just begun, with the lines from a place on. That place is the byte behind its
/// opening line.
fn section_of(text: &[u8], mut draft: Draft, stage: Kind, at: usize) -> Result<Section, NoMemory>
    requires small { length text.now ≤ 67108864 }
    requires at { at ≤ length text.now }
    requires begins { Begins stage draft }
    ensures { IfOk result (IsSection text.now draft) }
{
    // Looked at once the draft is gone, which no early return has to let go then.
    let grown = grow_on(text, &mut draft, at);
    let (acts, clock) = draft.into_section();
    let (end, lines) = grown?;
    Ok(Section {
        stage,
        at,
        end,
        lines,
        acts,
        clock,
    })
}

/// A section, read against the frame up to its end, its first bad line or one that finds no room.
pub(crate) fn read_section(
    alloc: Global,
    text: &[u8],
    frame: &Draft,
    start: Start,
) -> Result<Section, NoMemory>
    requires { length text.now ≤ 67108864 }
    ensures { IfOk result (IsSection text.now frame.now) }
{
    let draft = frame.beside(alloc, start.stage)?;
    section_of(text, draft, start.stage, start.at.min(text.len()))
}
