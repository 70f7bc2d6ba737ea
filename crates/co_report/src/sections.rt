//! A listener that prints: a report is written section by section, note by note as they are told.
ghost use Rattle.std.specs.Prelude.{◌≡◌, ◌<◌, ◌+◌, ◌^◌, ◌++◌, ◌∷◌, [], true, false, List, map, OnOk, IfOk, MatchOption};
ghost use Rattle.std.specs.List.{concat};
ghost use Rattle.co_text.specs.Lines.{line_text};
ghost use Rattle.co_listener.specs.MadeNotes.{MadeNote, IsInOrder, lists_by};
ghost use Rattle.co_program.specs.Actors.{actor_count};
ghost use Rattle.co_program.specs.Places.{place_exists};
ghost use Rattle.co_program.specs.Scripts.{IsScript};
ghost use Rattle.co_print.specs.Order.{place_index};
ghost use Rattle.co_print.specs.Reports.{places, heading, report_of};
ghost use Rattle.co_report.specs.Sections.{NotesAreTold};

use crate::reading::places::places;
use crate::section::Section;
use crate::typed::note_is_typed;
use co_object::{Note, Place};
use co_print::{head_piece, in_frame, print_heading};
use co_program::{Script, actor_count, place_exists, place_index};
use co_sbt::{NoMemory, Seq};
use co_script::append;
use co_text::Page;
use std::alloc::Global;
use std::marker::Model;

/// The sections of a script's report while its notes are told: each has its heading and the lines of the notes of its place
/// so far. No note is kept, and no memory is taken but the texts'. Our own decision.
///
/// Contracts see the script, the texts of the sections in the report's order, and how many notes each actor has made.
#[derive(Drop)]
pub struct Sections<'a> {
    script: &'a Script,
    pages: Vec<Section>,
    counts: Vec<u64>,
}

impl<'a> Model for Sections<'a> {
    ghost use Rattle.co_report.specs.Sections.{Written, HasRooms};

    ghost Value = { Written };

    ghost view = { λ x. record { script = x.script.now; pages = x.pages.items; counts = x.counts.items } };

    ghost invariant = { λ x. HasRooms (record { script = x.script.now; pages = x.pages.items; counts = x.counts.items }) };
}

/// Appends the section of a place that has no note yet.
fn open_next(
    alloc: Global,
    script: &Script,
    pages: &mut Seq<Section>,
    place: Place,
) -> Result<(), NoMemory>
    ensures { OnOk result (pages.new ≡ pages.old ++ line_text (heading script.now place) ∷ []) }
{
    let mut page = Page::new(alloc);
    print_heading(&mut page, script, place)?;
    pages.push(Section::new(alloc, page))
}

/// The sections before the first note, in the report's order.
fn all_opened(alloc: Global, script: &Script) -> Result<Vec<Section>, NoMemory>
    requires { IsScript script.now }
    ensures { IfOk result (λ pages. pages.items ≡ map (λ place. line_text (heading script.now place)) (places script.now)) }
{
    let places = places(alloc, script)?;
    let mut pages = Seq::new(alloc);
    for place in places.as_slice() {
        open_next(alloc, script, &mut pages, *place)?;
    }
    Ok(pages.into_vec())
}

/// One more than a count.
fn next(count: u64) -> Result<u64, NoMemory>
    ensures next { IfOk result (λ next. next ≡ count + 1) }
    ensures few { IfOk result (λ next. next < 2 ^ 64) }
{
    count.checked_add(1).ok_or(NoMemory {})
}

/// The number of a place among those of the report; None where the script has no such place.
#[tactic(auto, using(co_program::proofs::Places::index_fits))]
fn existing_index(script: &Script, place: Place) -> Option<usize>
    requires { IsScript script.now }
    ensures { MatchOption result (place_exists script.now place ≡ false) (λ index. (place_exists script.now place ≡ true) × (index ≡ place_index script.now place)) }
{
    if place_exists(script, place) {
        Some(place_index(script, place))
    } else {
        None
    }
}

/// Appends the texts of the sections in pieces, none of which is copied.
fn append_all(pieces: &mut Seq<Seq<u8>>, pages: Vec<Section>) -> Result<(), NoMemory>
    ensures { OnOk result (concat pieces.new ≡ concat pieces.old ++ concat pages.items) }
{
    for page in pages {
        append(pieces, page.pieces()?)?;
    }
    Ok(())
}

impl<'a> Sections<'a> {
    /// The sections before the first note. `NoMemory` where there is no room for their headings.
    pub fn new(alloc: Global, script: &'a Script) -> Result<Sections<'a>, NoMemory>
        requires { IsScript script.now }
        ensures script { IfOk result (λ sections. sections.script ≡ script.now) }
        ensures empty { IfOk result (λ sections. NotesAreTold sections []) }
    {
        let pages = all_opened(alloc, script)?;
        let counts = Seq::filled(alloc, actor_count(script) as usize, 0_u64)?.into_vec();
        Ok(Sections {
            script,
            pages,
            counts,
        })
    }

    /// Appends the note's line to the section of its place. A note of a place that the script hasn't is written nowhere.
    pub fn write(&mut self, actor: u32, note: &Note) -> Result<(), NoMemory>
        requires actor { actor < actor_count self.old.script }
        ensures has { OnOk result ((made : List MadeNote) → NotesAreTold self.old made → NotesAreTold self.new (made ++ record { actor = actor; note = note.now } ∷ [])) }
        ensures actors { actor_count self.new.script ≡ actor_count self.old.script }
        ensures script { self.new.script ≡ self.old.script }
    {
        note_is_typed(*note);
        let count = &mut self.counts[actor as usize];
        let number = *count;
        *count = next(number)?;
        match existing_index(self.script, note.place) {
            Some(place) => {
                let page = &mut self.pages[place];
                page.write(self.script, number, &note.entry)
            }
            None => Ok(()),
        }
    }

    /// The whole report in pieces, where the notes of each place were told in the order of their positions: the
    /// canonical text of the script, the sections, and the last line. Joined they are the report. `NoMemory` where
    /// there is no room for the pieces.
    pub fn pieces(self, alloc: Global) -> Result<Seq<Seq<u8>>, NoMemory>
        ensures { IfOk result (λ pieces. (made : List MadeNote) → NotesAreTold self.entry made → IsInOrder made → concat pieces ≡ report_of self.entry.script (lists_by (actor_count self.entry.script) made)) }
    {
        let Sections { script, pages, .. } = self;
        let mut parts = Seq::new(alloc);
        append_all(&mut parts, pages)?;
        let head = head_piece(alloc, script)?;
        in_frame(alloc, head, parts)
    }
}
