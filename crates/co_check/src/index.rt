//! The notes of each actor by their numbers.
ghost use Rattle.std.specs.Prelude.{◌≡◌, ◌<◌, ◌≤◌, ◌^◌, ◌++◌, ◌∷◌, [], ℕ, List, length, map, replicate, IfOk};
ghost use Rattle.co_object.specs.declared.note.Note.{Note};
ghost use Rattle.co_packed.specs.Heads.{head_of};
ghost use Rattle.co_program.specs.Actors.{actor_count};
ghost use Rattle.co_program.specs.declared.script.Script.{Script};
ghost use Rattle.co_program.specs.Scripts.{IsScript};
ghost use Rattle.co_print.specs.Order.{place_index, place_count};
ghost use Rattle.co_report.specs.declared.line.Line.{Line};
ghost use Rattle.co_report.specs.PackedLines.{line_of};
ghost use Rattle.co_check.specs.Index.{AreNotesIndexed, AreActorSlots, IsIndexed, IsNumbered, IsLinePut, IsRaised};
ghost use Rattle.co_check.specs.Lines.{AreLinesOf, IsLineOf, lines_max};
ghost use Rattle.co_check.specs.Numbers.{AreActorCounts};
ghost use Rattle.co_check.specs.Shown.{actor_of};

use crate::pass::next_head;
use crate::slot::Slot;
use co_object::AnyEntry;
use co_packed::Head;
use co_program::{Script, actor_count, place_count, place_index};
use co_report::PackedLines;
use co_sbt::{NoMemory, Seq};
use std::alloc::Global;

/// The notes of the lines so far, by actor and number.
#[derive(Drop)]
pub(crate) struct Index {
    /// By actor and number: which line has the note.
    slots: Vec<Vec<Slot>>,
    /// By place and actor: a number above those of the actor's notes there.
    latest: Vec<Vec<u64>>,
}

/// What the numbers of a report's lines come to.
#[derive(Drop)]
pub(crate) enum Indexed {
    /// They are right: where each note is.
    Fits(Index),
    /// The first line of which the number is wrong.
    Bad { line: u64 },
}

/// The notes of all lines, by actor and number. `counts` says how many of them each actor made.
pub(crate) fn index_all(
    alloc: Global,
    script: &Script,
    lines: &PackedLines,
    counts: &[u32],
) -> Result<Indexed, NoMemory>
    requires script { IsScript script.now }
    requires counts { AreActorCounts (actor_count script.now) lines.now counts.now }
    requires lines { AreLinesOf script.now lines.now }
    requires few { length lines.now ≤ lines_max }
    ensures { IfOk result (AreNotesIndexed script.now lines.now) }
{
    let mut index = Index::open(alloc, script, counts)?;
    let mut notes = lines.notes();
    for i in 0..lines.len() {
        let head = next_head(&mut notes);
        if !index.take(script, head, i as u32) {
            return Ok(Indexed::Bad {
                line: lines.number(i),
            });
        }
    }
    Ok(Indexed::Fits(index))
}

impl Index {
    /// Which line has the actor's note of each number.
    pub(crate) fn row(&self, actor: u32) -> &[Slot]
        requires { actor < length self.now.slots.items }
        ensures { (s : Script) (lines : List Line) (above : List Line) → IsIndexed s lines above self.now → AreActorSlots lines above actor result.now }
    {
        let row = &self.slots[actor as usize];
        row.as_slice()
    }

    /// Before the first line, with room for as many notes as these of each actor.
    fn open(alloc: Global, script: &Script, counts: &[u32]) -> Result<Index, NoMemory>
        requires { IsScript script.now }
        ensures { IfOk result (λ index. (lines : List Line) → AreActorCounts (actor_count script.now) lines counts.now → IsIndexed script.now lines [] index) }
    {
        let slots = rows_of(alloc, counts, Slot::free())?;
        let widths = Seq::filled(alloc, place_count(script), actor_count(script))?;
        let latest = rows_of(alloc, widths.as_slice(), 0)?;
        Ok(Index { slots, latest })
    }

    /// Takes the number of the next line, the one at `at` of all, by the head of its note. False where something is wrong with
    /// it; then the index is of no more use.
    #[inline]
    fn take(&mut self, script: &Script, head: Head, at: u32) -> bool
        requires script { IsScript script.now }
        requires line { (note : Note) × (head ≡ head_of note) × IsLineOf script.now (line_of 0 note) }
        requires indexed { (lines : List Line) × (above : List Line) × IsIndexed script.now lines above self.old × (length lines ≤ lines_max) }
        requires at { at < lines_max }
        ensures { (note : Note) (line : ℕ) (lines : List Line) (above : List Line) → head ≡ head_of note → IsLineOf script.now (line_of 0 note) → at ≡ length above → IsIndexed script.now lines above self.old → IsNumbered script.now lines above (line_of line note) result self.new }
    {
        let actor = head.actor as usize;
        let row = &mut self.slots[actor];
        if !put(row, head.pos, at) {
            return false;
        }
        let place = place_index(script, head.place);
        let high = &mut self.latest[place];
        if !raise(high, actor, head.pos) {
            return false;
        }
        true
    }
}

/// Counts a note with this entry, for the actor that made it.
pub(crate) fn count_entry(counts: &mut Vec<u32>, entry: &AnyEntry)
    requires actor { actor_of entry.now < length counts.old.items }
    requires counted { (above : List Line) × AreActorCounts (length counts.old.items) above counts.old.items × (length above < lines_max) }
    ensures { (actors : ℕ) (l : Line) (above : List Line) → l.entry ≡ entry.now → AreActorCounts actors above counts.old.items → AreActorCounts actors (above ++ l ∷ []) counts.new.items }
{
    let actor = entry.actor() as usize;
    counts[actor] += 1;
}

/// Rows of these lengths, of copies of one item.
fn rows_of<T: Copy + Drop>(alloc: Global, lengths: &[u32], item: T) -> Result<Vec<Vec<T>>, NoMemory>
    ensures { IfOk result (λ rows. map (λ row. row.items) rows.items ≡ map (λ n. replicate n item) lengths.now) }
{
    let mut rows = Seq::new(alloc);
    for count in lengths {
        let row = Seq::filled(alloc, *count as usize, item)?;
        rows.push(row.into_vec())?;
    }
    Ok(rows.into_vec())
}

/// Puts a line where its number belongs, if nothing is there yet.
fn put(row: &mut Vec<Slot>, number: u64, line: u32) -> bool
    requires { line < lines_max }
    ensures { IsLinePut row.old.items number line result row.new.items }
{
    let Some(slot) = row.get(number as usize) else {
        return false;
    };
    if slot.line().is_some() {
        return false;
    }
    row[number as usize] = Slot::taken(line);
    true
}

/// Notes the number of an actor's last note, if it is above those before.
fn raise(row: &mut Vec<u64>, actor: usize, number: u64) -> bool
    requires actor { actor < length row.old.items }
    requires number { number < 2 ^ 63 }
    ensures { IsRaised row.old.items actor number result row.new.items }
{
    if number < row[actor] {
        return false;
    }
    row[actor] = number + 1;
    true
}
