//! The places of a report, and the line that each begins with.
ghost use Rattle.std.specs.Prelude.{◌≡◌, ◌≤◌, length, drop, IfOk};
ghost use Rattle.co_program.specs.Scripts.{IsScript};
ghost use Rattle.co_print.specs.Reports.{places, heading};
ghost use Rattle.co_notes.specs.Parts.{joined};
ghost use Rattle.co_report.specs.Reading.{closing_words};

use co_object::Place;
use co_print::{begin_heading, place_count, place_of};
use co_program::Script;
use co_sbt::{NoMemory, Seq};
use co_text::Page;
use std::alloc::Global;

/// The places of a report, in order. `NoMemory` where there is no room for the list.
#[tactic(auto, using(co_print::proofs::PlacesAdded::all_places))]
pub fn places(alloc: Global, script: &Script) -> Result<Seq<Place>, NoMemory>
    requires { IsScript script.now }
    ensures { IfOk result (λ all. all ≡ places script.now) }
{
    let mut all = Seq::new(alloc);
    for number in 0..place_count(script)? {
        all.push(place_of(script, number)?)?;
    }
    Ok(all)
}

/// The line that a place begins with.
fn heading(alloc: Global, script: &Script, place: Place) -> Result<Seq<u8>, NoMemory>
    ensures { IfOk result (λ line. line ≡ joined (heading script.now place)) }
{
    let mut page = Page::new(alloc);
    begin_heading(&mut page, script, place)?;
    page.done()
}

/// The line behind the notes of a place: the first line of the next place, or behind the last `end`. `NoMemory` where
/// there is no room for it.
pub fn closing(
    alloc: Global,
    script: &Script,
    places: &[Place],
    next: usize,
) -> Result<Seq<u8>, NoMemory>
    requires { next ≤ length places.now }
    ensures { IfOk result (λ line. line ≡ joined (closing_words script.now (drop next places.now))) }
{
    match places.split_at(next).1 {
        [] => Seq::copy_of(alloc, b"end".as_slice()),
        [place, ..] => heading(alloc, script, *place),
    }
}
