//! The text of a report: the script, then the notes of each place behind its heading.
ghost use Rattle.std.specs.Prelude.{◌≡◌, ◌≤◌, ◌<◌, ◌+◌, ◌++◌, true, length, OnOk, IfOk};
ghost use Rattle.std.proofs.Props.{props};
ghost use Rattle.co_text.specs.Lines.{text};
ghost use Rattle.co_object.specs.Lists.{IsWellFormed};
ghost use Rattle.co_program.specs.Places.{place_exists, AllHavePlaces};
ghost use Rattle.co_print.specs.Histories.{shown_history};
ghost use Rattle.co_print.specs.Reports.{place_lines, lines_between, report_of};
ghost use Rattle.co_print.specs.Once.{IsWellFormed-prop};
ghost use Rattle.co_print.specs.Order.{place_index, place_count, AreCounted, ShowsHistory, IsInOrder};

use crate::frame::{print_head, print_heading, print_word};
use crate::order::{Counted, Part, count_lists, order_from, short, starts_of};
use crate::origin::{Origin, print_from};
use crate::packing::packed_lists;
use co_object::{Lists, Place};
use co_packed::PackedNote;
use co_program::Script;
use co_sbt::{NoMemory, Seq};
use co_text::Page;
use std::alloc::Global;

/// The place of this number among those of a report: the timers come first, then the CPUs, then the actors. `NoMemory`
/// where its number among its kind is 2^32 or more: so many timers or actors find no memory.
pub fn place_of(script: &Script, number: usize) -> Result<Place, NoMemory>
    requires { number < place_count script.now }
    ensures exists { IfOk result (λ place. place_exists script.now place ≡ true) }
    ensures number { IfOk result (λ place. place_index script.now place ≡ number) }
{
    let timers = script.timers.as_slice().len();
    let cpus = script.cpus as usize;
    if number < timers {
        short(number).map(Place::Timer)
    } else if number - timers < cpus {
        short(number - timers).map(Place::Cpu)
    } else {
        short(number - timers - cpus).map(Place::Actor)
    }
}

/// What a report is printed of: the script, the notes of its actors, and what was counted of these. Threads may share it.
#[derive(Drop)]
pub struct Printing<'a> {
    script: &'a Script,
    lists: &'a [Seq<PackedNote>],
    counted: Counted,
    /// Where the notes of each place begin among those of all places, and behind the last place the end.
    starts: Seq<usize>,
    ghost places: { AllHavePlaces script.now lists.now } by { Prim.hlevel props },
    ghost formed: { IsWellFormed lists.now } by { IsWellFormed-prop lists.now },
    ghost are_counted: { AreCounted script.now lists.now counted },
    ghost begin: { length starts ≡ place_count script.now + 1 },
}

impl<'a> Printing<'a> {
    /// What is printed of these notes, of which this was counted. `NoMemory` where there is no room for it.
    pub(crate) fn new(
        alloc: Global,
        script: &'a Script,
        lists: &'a [Seq<PackedNote>],
        counted: Counted,
    ) -> Result<Printing<'a>, NoMemory>
        requires places { AllHavePlaces script.now lists.now }
        requires formed { IsWellFormed lists.now }
        requires counted { AreCounted script.now lists.now counted }
        ensures script { IfOk result (λ printing. printing.script.now ≡ script.now) }
        ensures lists { IfOk result (λ printing. printing.lists.now ≡ lists.now) }
    {
        let starts = starts_of(alloc, counted.counts.as_slice())?;
        Ok(Printing {
            script,
            lists,
            counted,
            starts,
        })
    }

    /// How many places there are.
    pub fn place_count(&self) -> usize
        ensures { result ≡ place_count self.now.script.now }
    {
        self.counted.counts.as_slice().len()
    }

    /// How many notes the places from `first` up to `end` have.
    pub(crate) fn note_count(&self, first: usize, end: usize) -> usize
        requires order { first ≤ end }
        requires end { end ≤ place_count self.now.script.now }
    {
        let starts = self.starts.as_slice();
        starts[end].saturating_sub(starts[first])
    }

    /// Of the places from `first` up to `end` one such that about half of their notes stand before it, or `end`. It looks
    /// at them one by one.
    pub fn middle(&self, first: usize, end: usize) -> usize
        requires order { first ≤ end }
        requires end { end ≤ place_count self.now.script.now }
        ensures first { first ≤ result }
        ensures end { result ≤ end }
    {
        let starts = self.starts.as_slice();
        let half = starts[first] / 2 + starts[end] / 2;
        for place in first..end {
            // More of the place's notes stand behind the half than before it.
            if starts[place] / 2 + starts[place + 1] / 2 >= half {
                return place;
            }
        }
        end
    }

    /// Appends the part of a place: the line that it begins with, and the lines of its notes in order, of which these are the
    /// origins.
    fn print_place(&self, page: &mut Page, place: Place, origins: &[Origin]) -> Result<(), NoMemory>
        requires { ShowsHistory self.now.script.now self.now.lists.now place origins.now }
        ensures { OnOk result (page.new ≡ page.old ++ text (place_lines self.now.script.now (shown_history self.now.lists.now) place)) }
    {
        print_heading(page, self.script, place)?;
        print_from(page, self.script, self.lists, origins)
    }

    /// Puts the notes of the places from `first` up to `end` into order. For this it goes over the spots of all notes.
    /// `NoMemory` where the order finds no memory or has more than 2^32 notes of one actor.
    pub(crate) fn part(&self, alloc: Global, first: usize, end: usize) -> Result<Part, NoMemory>
        requires order { first ≤ end }
        requires end { end ≤ place_count self.now.script.now }
        ensures first { IfOk result (λ part. part.first ≡ first) }
        ensures end { IfOk result (λ part. part.end ≡ end) }
        ensures order { IfOk result (λ part. IsInOrder self.now.script.now self.now.lists.now part) }
    {
        let order = order_from(alloc, self.script, self.lists, &self.counted, first, end)?;
        Ok(Part { first, end, order })
    }

    /// Appends the parts of the places from `first` up to `end`, some of those of a part that is in order. `NoMemory` where
    /// the page finds no room.
    pub(crate) fn print_places(
        &self,
        page: &mut Page,
        part: &Part,
        first: usize,
        end: usize,
    ) -> Result<(), NoMemory>
        requires begin { part.now.first ≤ first }
        requires order { first ≤ end }
        requires end { end ≤ part.now.end }
        requires places { part.now.end ≤ place_count self.now.script.now }
        requires part { IsInOrder self.now.script.now self.now.lists.now part.now }
        ensures { OnOk result (page.new ≡ page.old ++ text (lines_between self.now.script.now self.now.lists.now first end)) }
    {
        for number in first..end {
            let place = place_of(self.script, number)?;
            self.print_place(page, place, part.order.of_place(number - part.first))?;
        }
        Ok(())
    }

    /// The whole report.
    fn print(&self, alloc: Global, page: &mut Page) -> Result<(), NoMemory>
        ensures { OnOk result (page.new ≡ page.old ++ report_of self.now.script.now self.now.lists.now) }
    {
        let count = self.place_count();
        let part = self.part(alloc, 0, count)?;
        print_head(page, self.script)?;
        self.print_places(page, &part, 0, count)?;
        print_word(page, b"end".as_slice())
    }

    /// The text of the whole report.
    fn text(&self, alloc: Global) -> Result<Seq<u8>, NoMemory>
        ensures { IfOk result (λ bytes. bytes ≡ report_of self.now.script.now self.now.lists.now) }
    {
        let mut page = Page::new(alloc);
        self.print(alloc, &mut page)?;
        page.done()
    }
}

/// The report of a script and the packed notes of its actors, as `print_report` gives it.
fn print_packed(
    alloc: Global,
    script: &Script,
    lists: &[Seq<PackedNote>],
) -> Result<Seq<u8>, NoMemory>
    requires places { AllHavePlaces script.now lists.now }
    requires formed { IsWellFormed lists.now }
    ensures { IfOk result (λ bytes. bytes ≡ report_of script.now lists.now) }
{
    let counted = count_lists(alloc, script, lists)?;
    Printing::new(alloc, script, lists, counted)?.text(alloc)
}

/// The report of a script and the lists of its actors' notes: the canonical text of the script, then the notes of each
/// timer, of each CPU's queue and of each actor, in order of their positions, each with its number in its actor's list.
///
/// The condition is that each note's place exists in the script, and that the positions of each place are 0, 1, 2 and so
/// on, each once, and rise in each list. A list of 2^32 notes or more is answered by NoMemory. The layout is our own.
pub fn print_report(alloc: Global, script: &Script, lists: &Lists) -> Result<Seq<u8>, NoMemory>
    requires places { AllHavePlaces script.now lists.now }
    requires formed { IsWellFormed lists.now }
    ensures { IfOk result (λ bytes. bytes ≡ report_of script.now lists.now) }
{
    let packed = packed_lists(alloc, lists.as_slice())?;
    print_packed(alloc, script, packed.as_slice())
}
