//! The script that a text stands for, of which threads read the long sections beside each other.
ghost use Rattle.std.specs.Prelude.{◌≡◌, ◌≤◌, length, IfOk, OnOk};
ghost use Rattle.std.specs.List.{All};
ghost use Rattle.co_text.specs.Fallible.{GivesOrNoMemory};
ghost use Rattle.co_text.specs.declared.ScriptFault.TheVariants as fault;
ghost use Rattle.co_text.specs.Lines.{lines_of};
ghost use Rattle.co_script.specs.Beside.{IsSection, IsSpot, left_read};
ghost use Rattle.co_script.specs.Reading.{lines_script, script_of};

use crate::draft::Draft;
use crate::joining::joined;
use crate::reader::{finished, read_to};
use crate::sections::{Section, read_section};
use crate::spot::Spot;
use crate::starts::{Start, starts_of};
use co_grammar::Kind;
use co_program::Script;
use co_sbt::{NoMemory, Seq};
use co_text::{Cause, LineFault, ScriptFault};
use std::alloc::Global;
use std::thread::{Threads, map_chunks};

/// In how many parts the sections are read, each part in a thread of its own where one can be had.
const PARTS: usize = 8;

/// Want of memory, as a fault of the text.
fn no_memory(_fault: NoMemory) -> ScriptFault
    ensures { result ≡ fault.NoMemory }
{
    ScriptFault::NoMemory
}

/// Appends the section that begins here. `NoMemory` where there is no room for it.
fn push_section(
    alloc: Global,
    text: &[u8],
    frame: &Draft,
    start: Start,
    sections: &mut Seq<Section>,
) -> Result<(), NoMemory>
    requires small { length text.now ≤ 67108864 }
    requires before { All (IsSection text.now frame.now) sections.old }
    ensures { OnOk result (All (IsSection text.now frame.now) sections.new) }
{
    let section = read_section(alloc, text, frame, start)?;
    sections.push(section)
}

/// Sections that begin here, read one after the other.
fn read_in_turn(
    alloc: Global,
    text: &[u8],
    frame: &Draft,
    starts: &[Start],
) -> Result<Seq<Section>, NoMemory>
    requires { length text.now ≤ 67108864 }
    ensures { IfOk result (All (IsSection text.now frame.now)) }
{
    let mut sections = Seq::new(alloc);
    for start in starts {
        push_section(alloc, text, frame, *start, &mut sections)?;
    }
    Ok(sections)
}

/// The sections that begin here. Threads read some of them each, beside each other.
fn read_parts<R: Threads + Sync>(
    rt: &R,
    alloc: Global,
    text: &[u8],
    frame: &Draft,
    starts: &[Start],
) -> Result<Seq<Section>, NoMemory>
    requires { length text.now ≤ 67108864 }
    ensures { IfOk result (All (IsSection text.now frame.now)) }
{
    let read = |_: usize, part: &[Start]| -> Result<Seq<Section>, NoMemory>
        requires { length text.now ≤ 67108864 }
        ensures { IfOk result (All (IsSection text.entry.now frame.entry.now)) }
    { read_in_turn(alloc, text, frame, part) };
    let size = starts.len().div_ceil(PARTS).max(1);
    match map_chunks(rt, alloc, starts, size, &read) {
        Ok(parts) => joined(alloc, parts),
        Err(_) => Err(NoMemory {}),
    }
}

/// The place behind a section that was read by itself, whose acts go into the draft; this place where they may not.
fn put_section(
    text: &[u8],
    draft: &mut Option<Draft>,
    frame: &Draft,
    from: Spot,
    section: Section,
) -> Spot
    requires from { IsSpot text.now from }
    requires section { IsSection text.now frame.now section }
    ensures spot { IsSpot text.now result }
    ensures same { left_read text.now draft.old from ≡ left_read text.now draft.new result }
{
    let _ = text;
    let number = section.acts.as_slice().len();
    match draft {
        Some(draft) if from.at == section.at && draft.may_take(frame, section.stage, number) => {
            draft.take(section.acts, section.clock);
            Spot {
                number: from.number + section.lines,
                at: section.end,
            }
        }
        _ => from,
    }
}

/// Reads the lines of a text from a place on, all but those of the sections that were read by themselves.
fn read_around(
    alloc: Global,
    text: &[u8],
    draft: &mut Option<Draft>,
    frame: &Draft,
    from: Spot,
    sections: Seq<Section>,
) -> Result<(), ScriptFault>
    requires small { length text.now ≤ 67108864 }
    requires from { IsSpot text.now from }
    requires sections { All (IsSection text.now frame.now) sections }
    ensures { GivesOrNoMemory (λ _. draft.new) result (left_read text.now draft.old from) }
{
    let mut spot = from;
    for section in sections.into_vec() {
        spot = read_to(alloc, text, draft, spot, section.at)?;
        spot = put_section(text, draft, frame, spot, section);
    }
    read_to(alloc, text, draft, spot, text.len())?;
    Ok(())
}

/// What sections are read against: the frame of the lines so far. Before the first line with words there is none, and no
/// section may be put into the draft.
fn frame_of(alloc: Global, draft: &Option<Draft>) -> Result<Draft, NoMemory> {
    match draft {
        Some(draft) => draft.beside(alloc, Kind::Client),
        None => Ok(Draft::opening(alloc, 1)),
    }
}

/// Reads the lines of a text from a place on. Threads read the sections that begin here, against this frame.
fn read_against<R: Threads + Sync>(
    rt: &R,
    alloc: Global,
    text: &[u8],
    draft: &mut Option<Draft>,
    frame: &Draft,
    starts: &[Start],
    from: Spot,
) -> Result<(), ScriptFault>
    requires small { length text.now ≤ 67108864 }
    requires from { IsSpot text.now from }
    ensures { GivesOrNoMemory (λ _. draft.new) result (left_read text.now draft.old from) }
{
    match read_parts(rt, alloc, text, frame, starts) {
        Ok(sections) => read_around(alloc, text, draft, frame, from, sections),
        Err(fault) => Err(no_memory(fault)),
    }
}

/// The same, against the frame of the draft so far.
fn read_on<R: Threads + Sync>(
    rt: &R,
    alloc: Global,
    text: &[u8],
    draft: &mut Option<Draft>,
    starts: &[Start],
    from: Spot,
) -> Result<(), ScriptFault>
    requires small { length text.now ≤ 67108864 }
    requires from { IsSpot text.now from }
    ensures { GivesOrNoMemory (λ _. draft.new) result (left_read text.now draft.old from) }
{
    match frame_of(alloc, draft) {
        Ok(frame) => {
            let read = read_against(rt, alloc, text, draft, &frame, starts, from);
            drop(frame);
            read
        }
        Err(fault) => Err(no_memory(fault)),
    }
}

/// The byte where the first of these sections begins, or the text's end.
fn first_start(text: &[u8], starts: &[Start]) -> usize
    ensures { result ≤ length text.now }
{
    match starts.first() {
        Some(start) => start.at.min(text.len()),
        None => text.len(),
    }
}

/// Reads all lines of a text into a draft. Threads read the sections that begin here, against the frame of the lines before
/// the first of them.
fn read_beside<R: Threads + Sync>(
    rt: &R,
    alloc: Global,
    text: &[u8],
    draft: &mut Option<Draft>,
    starts: &[Start],
) -> Result<(), ScriptFault>
    requires { length text.now ≤ 67108864 }
    ensures { GivesOrNoMemory (λ _. draft.new) result (left_read text.now draft.old (record { number = 0; at = 0 })) }
{
    let spot = read_to(alloc, text, draft, Spot::start(), first_start(text, starts))?;
    read_on(rt, alloc, text, draft, starts, spot)
}

/// The script of all lines of a text, of which threads read the sections that begin here.
fn script_beside<R: Threads + Sync>(
    rt: &R,
    alloc: Global,
    text: &[u8],
    starts: &[Start],
) -> Result<Script, ScriptFault>
    requires { length text.now ≤ 67108864 }
    ensures { GivesOrNoMemory (λ s. s) result (lines_script (lines_of text.now)) }
{
    let mut draft = None;
    match read_beside(rt, alloc, text, &mut draft, starts) {
        Ok(()) => finished(alloc, draft),
        Err(fault) => {
            drop(draft);
            Err(fault)
        }
    }
}

/// The script that a text stands for, or its first bad line and the first cause for which it is bad, as `read_script` gives
/// them. The sections of 64 KiB and more, whose lines are most of a long text, are read beside each other by up to 8
/// threads, once the lines before the first of them are read; the other lines in their order. Where no thread can be had
/// all of this is done one after the other.
#[tactic(auto, unfolding(crate::specs::Reading::script_of))]
pub fn read_script_by_threads<R: Threads + Sync>(
    rt: &R,
    alloc: Global,
    bytes: &[u8],
) -> Result<Script, ScriptFault>
    ensures { GivesOrNoMemory (λ s. s) result (script_of bytes.now) }
{
    if bytes.len() > 67_108_864 {
        return Err(LineFault::Bad(Cause::Size).at(0));
    }
    let starts = starts_of(rt, alloc, bytes).map_err(no_memory)?;
    script_beside(rt, alloc, bytes, starts.as_slice())
}
