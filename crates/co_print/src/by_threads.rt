//! The text of a report, of which threads print parts beside each other.
ghost use Rattle.std.specs.Prelude.{◌≡◌, ◌≤◌, IfOk, IfSome};
ghost use Rattle.std.specs.List.{concat};
ghost use Rattle.co_text.specs.Lines.{text};
ghost use Rattle.co_object.specs.Lists.{IsWellFormed};
ghost use Rattle.co_program.specs.Places.{AllHavePlaces};
ghost use Rattle.co_print.specs.Reports.{lines_between, head_text, report_of};
ghost use Rattle.co_print.specs.Order.{place_count, StandIn};

use crate::counting::count_by_threads;
use crate::frame::{head_piece, in_frame};
use crate::order::Part;
use crate::report::Printing;
use co_packed::PackedNote;
use co_program::Script;
use co_sbt::{NoMemory, Seq};
use co_script::append;
use co_text::Page;
use std::alloc::Global;
use std::thread::{Threads, join};

/// How often the places are halved before their notes are put into order: twice, for 4 parts. Each part makes its own order,
/// so that no thread waits for another's. Each therefore reads the spots of all notes, 8 bytes a note one behind the other,
/// and that 4 times: a fixed factor, by this number alone.
const ORDERED_HALVINGS: u32 = 2;

/// How often a part that is in order is halved again to be printed: twice, for 16 pieces of all places. Where the pieces are
/// small, few processors wait for the last one.
const PRINTED_HALVINGS: u32 = 2;

/// Places with fewer notes than these are not halved: a thread takes longer to be had than they take to be printed.
const FEW_NOTES: usize = 2048;

/// Some places of a part that is in order, those from `first` up to `end`, in one piece.
fn print_piece(
    alloc: Global,
    printing: &Printing<'_>,
    part: &Part,
    first: usize,
    end: usize,
) -> Result<Seq<Seq<u8>>, NoMemory>
    requires order { first ≤ end }
    requires part { StandIn printing.now.script.now printing.now.lists.now first end part.now }
    ensures { IfOk result (λ pieces. concat pieces ≡ text (lines_between printing.now.script.now printing.now.lists.now first end)) }
{
    let mut page = Page::new(alloc);
    printing.print_places(&mut page, part, first, end)?;
    let mut pieces = Seq::new(alloc);
    pieces.push(page.done()?)?;
    Ok(pieces)
}

/// The places from `first` up to `end`, whose notes are put into order first, in pieces.
#[cycle(halves)]
fn print_part<R: Threads + Sync>(
    rt: &R,
    alloc: Global,
    printing: &Printing<'_>,
    first: usize,
    end: usize,
) -> Result<Seq<Seq<u8>>, NoMemory>
    requires order { first ≤ end }
    requires end { end ≤ place_count printing.now.script.now }
    ensures { IfOk result (λ pieces. concat pieces ≡ text (lines_between printing.now.script.now printing.now.lists.now first end)) }
{
    let part = printing.part(alloc, first, end)?;
    print_halves(
        rt,
        alloc,
        printing,
        Some(&part),
        first,
        end,
        PRINTED_HALVINGS,
    )
}

/// The places from `first` up to `end` in pieces, some of this part, which is in order, or without one some of all places.
/// They are halved this often, with about as many notes in each half, and the halves are printed beside each other, the
/// first one in a thread of its own where one can be had. Without a part each piece of this is a part of its own.
#[cycle(halves)]
fn print_halves<R: Threads + Sync>(
    rt: &R,
    alloc: Global,
    printing: &Printing<'_>,
    part: Option<&Part>,
    first: usize,
    end: usize,
    halvings: u32,
) -> Result<Seq<Seq<u8>>, NoMemory>
    requires order { first ≤ end }
    requires end { end ≤ place_count printing.now.script.now }
    requires part { IfSome part (λ part. StandIn printing.now.script.now printing.now.lists.now first end part.now) }
    ensures { IfOk result (λ pieces. concat pieces ≡ text (lines_between printing.now.script.now printing.now.lists.now first end)) }
{
    if halvings == 0 || printing.note_count(first, end) < FEW_NOTES {
        return match part {
            Some(part) => print_piece(alloc, printing, part, first, end),
            None => print_part(rt, alloc, printing, first, end),
        };
    }
    let middle = printing.middle(first, end);
    let left = halvings - 1;
    let front = || -> Result<Seq<Seq<u8>>, NoMemory>
        requires { (first ≤ middle) × (middle ≤ place_count printing.now.script.now) × IfSome part (λ part. StandIn printing.now.script.now printing.now.lists.now first middle part.now) }
        ensures { IfOk result (λ pieces. concat pieces ≡ text (lines_between printing.entry.now.script.now printing.entry.now.lists.now first middle)) }
    { print_halves(rt, alloc, printing, part, first, middle, left) };
    let back = || -> Result<Seq<Seq<u8>>, NoMemory>
        requires { (middle ≤ end) × (end ≤ place_count printing.now.script.now) × IfSome part (λ part. StandIn printing.now.script.now printing.now.lists.now middle end part.now) }
        ensures { IfOk result (λ pieces. concat pieces ≡ text (lines_between printing.entry.now.script.now printing.entry.now.lists.now middle end)) }
    { print_halves(rt, alloc, printing, part, middle, end, left) };
    let (before, behind) = join(rt, front, back);
    let mut pieces = before?;
    append(&mut pieces, behind?)?;
    Ok(pieces)
}

/// All places in pieces, once their notes are counted.
fn print_all_places<R: Threads + Sync>(
    rt: &R,
    alloc: Global,
    script: &Script,
    lists: &Seq<Seq<PackedNote>>,
) -> Result<Seq<Seq<u8>>, NoMemory>
    requires places { AllHavePlaces script.now lists.now }
    requires formed { IsWellFormed lists.now }
    ensures { IfOk result (λ parts. concat parts ≡ text (lines_between script.now lists.now 0 (place_count script.now))) }
{
    let lists = lists.as_slice();
    let counted = count_by_threads(rt, alloc, script, lists)?;
    let printing = Printing::new(alloc, script, lists, counted)?;
    let end = printing.place_count();
    print_halves(rt, alloc, &printing, None, 0, end, ORDERED_HALVINGS)
}

/// The report of a script and the lists of its actors' notes, as `print_report` gives it, in pieces: joined they are the
/// report. A thread of its own prints the lines before the first place; beside it up to 8 threads count the notes of each
/// place and write down where each note belongs, each those of some lists, then up to 4 threads put the notes of some places
/// each into order by what was written down, and up to 16 threads print pieces of these beside each other. Where no thread
/// can be had all of this is done one after the other.
/// NoMemory where a part finds no memory, and where `print_report` gives it.
pub fn print_by_threads<R: Threads + Sync>(
    rt: &R,
    alloc: Global,
    script: &Script,
    lists: &Seq<Seq<PackedNote>>,
) -> Result<Seq<Seq<u8>>, NoMemory>
    requires places { AllHavePlaces script.now lists.now }
    requires formed { IsWellFormed lists.now }
    ensures { IfOk result (λ pieces. concat pieces ≡ report_of script.now lists.now) }
{
    let head = || -> Result<Seq<u8>, NoMemory>
        ensures { IfOk result (λ head. head ≡ head_text script.entry.now) }
    { head_piece(alloc, script) };
    let body = || -> Result<Seq<Seq<u8>>, NoMemory>
        requires { AllHavePlaces script.now lists.now × IsWellFormed lists.now }
        ensures { IfOk result (λ parts. concat parts ≡ text (lines_between script.entry.now lists.entry.now 0 (place_count script.entry.now))) }
    { print_all_places(rt, alloc, script, lists) };
    let (before, places) = join(rt, head, body);
    let head = before?;
    let parts = places?;
    in_frame(alloc, head, parts)
}
