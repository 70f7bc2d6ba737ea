//! Where the next note of an actor stands. No contract rests on it: whoever is sent somewhere looks whether the note there may come.
ghost use Rattle.co_program.specs.Scripts.{IsScript};

use co_program::{Script, actor_count};
use co_report::Line;
use co_sbt::{NoMemory, Seq};
use std::alloc::Global;

/// By actor, one behind the other: which line has the note of each number.
#[derive(Drop)]
pub(crate) struct Hints {
    /// Where the notes of each actor begin.
    starts: Seq<u64>,
    /// The number of the lines where no line was found.
    slots: Seq<usize>,
}

/// Counts these lines by their actors.
fn count(counts: &mut Seq<u64>, lines: &[Line]) {
    for line in lines {
        let actor = line.entry.actor() as usize;
        if actor < counts.as_slice().len() {
            let count = counts.as_slice()[actor].saturating_add(1);
            counts.replace(actor, count);
        }
    }
}

/// Where runs of these lengths begin, one behind the other.
fn begin(counts: &mut Seq<u64>) {
    let mut start: u64 = 0;
    for i in 0..counts.as_slice().len() {
        let count = counts.replace(i, start);
        start = start.saturating_add(count);
    }
}

impl Hints {
    /// The hints of these lines.
    pub(crate) fn new(alloc: Global, script: &Script, lines: &[Line]) -> Result<Hints, NoMemory>
        requires { IsScript script.now }
    {
        let mut starts = Seq::filled(alloc, actor_count(script) as usize, 0_u64)?;
        let slots = Seq::filled(alloc, lines.len(), lines.len())?;
        count(&mut starts, lines);
        begin(&mut starts);
        let mut hints = Hints { starts, slots };
        hints.fill(lines);
        Ok(hints)
    }

    fn fill(&mut self, lines: &[Line]) {
        for i in 0..lines.len() {
            let slot = self.slot(lines[i].entry.actor(), lines[i].number);
            if slot < self.slots.as_slice().len() {
                self.slots.replace(slot, i);
            }
        }
    }

    /// Where the slot of an actor's number is; past all slots where the actor is none.
    fn slot(&self, actor: u32, number: u64) -> usize {
        match self.starts.as_slice().get(actor as usize) {
            Some(start) => start.saturating_add(number) as usize,
            None => usize::MAX,
        }
    }

    /// The index of the line that likely has this note of an actor; else the number of the lines.
    fn line_of(&self, actor: u32, number: u64) -> usize {
        match self.slots.as_slice().get(self.slot(actor, number)) {
            Some(line) => *line,
            None => self.slots.as_slice().len(),
        }
    }

    /// The index of the line that likely has the next note of the actor of this one; else the number of the lines.
    pub(crate) fn after(&self, lines: &[Line], index: usize) -> usize {
        match lines.get(index) {
            Some(line) => self.line_of(line.entry.actor(), line.number.saturating_add(1)),
            None => lines.len(),
        }
    }
}
