//! The histories of a report, line by line.
ghost use Rattle.std.specs.Prelude.{◌≡◌, drop, OnOk, IfOk};
ghost use Rattle.co_text.specs.Fallible.{LineGives};
ghost use Rattle.co_report.specs.Reading.{closed_by, note_read, reads_on, line_after, first_progress};
ghost use Rattle.co_report.specs.ReadingViews.{so_far, IsLineSorted, IsReaderReady, IsSetting};

use crate::line::Line;
use crate::reading::places::closing;
use co_notes::{Names, note_of};
use co_object::Place;
use co_program::Script;
use co_sbt::{NoMemory, Seq};
use co_text::{Cause, LineFault};
use std::alloc::Global;

/// How far the histories are read.
#[derive(Drop)]
pub struct Progress {
    /// The place whose notes come.
    pub current: Option<Place>,
    /// How many places have begun.
    pub next: usize,
    /// The line that ends the notes of the open place.
    pub closing: Seq<u8>,
    /// The notes so far.
    pub lines: Seq<Line>,
    /// The number of the line `end`, behind which no line may stand.
    pub end: Option<u64>,
}

/// What the histories are read by: a script, what notes may name in it, and its places.
#[derive(Drop)]
pub struct Setting<'a> {
    /// The script.
    pub script: &'a Script,
    /// What notes may name in it.
    pub names: Names,
    /// Its places, in the order of a report.
    pub places: &'a [Place],
}

/// A line may follow: the line `end` has not come.
fn goes_on(end: Option<u64>) -> bool
    ensures { result ≡ reads_on end }
{
    match end {
        Some(_) => false,
        None => true,
    }
}

impl Progress {
    /// No place has begun.
    pub fn opening(alloc: Global, setting: &Setting) -> Result<Progress, NoMemory>
        requires { IsSetting setting.now }
        ensures value { IfOk result (λ d. so_far setting.now d ≡ first_progress setting.now.script.now) }
        ensures spelled { IfOk result (λ d. IsReaderReady setting.now d) }
    {
        let first = closing(alloc, setting.script, setting.places, 0)?;
        Ok(Progress {
            current: None,
            next: 0,
            closing: first,
            lines: Seq::new(alloc),
            end: None,
        })
    }

    /// The open place has no more notes: the next one begins, or the histories end with line `number`.
    pub fn close(&mut self, alloc: Global, setting: &Setting, number: u64) -> Result<(), NoMemory>
        requires { IsReaderReady setting.now self.old }
        ensures value { OnOk result (so_far setting.now self.new ≡ closed_by number (so_far setting.now self.old) (drop self.old.next setting.now.places.now)) }
        ensures spelled { OnOk result (IsReaderReady setting.now self.new) }
    {
        match setting.places.split_at(self.next).1 {
            [] => {
                self.current = None;
                self.end = Some(number);
            }
            [place, ..] => {
                self.closing = closing(alloc, setting.script, setting.places, self.next + 1)?;
                self.current = Some(*place);
                self.next += 1;
            }
        }
        Ok(())
    }

    /// Line `number` shows a note of the open place.
    fn note(&mut self, setting: &Setting, number: u64, line: &[u8]) -> Result<(), LineFault>
        requires setting { IsSetting setting.now }
        requires spelled { IsReaderReady setting.now self.old }
        ensures value { LineGives (λ _. so_far setting.now self.new) result (note_read setting.now.script.now number (so_far setting.now self.old) line.now) }
        ensures spelled { OnOk result (IsReaderReady setting.now self.new) }
    {
        let shown = note_of(&setting.names, self.current, line)?;
        if let Some(place) = self.current {
            self.lines.push(Line {
                line: number,
                place,
                number: shown.number,
                entry: shown.entry,
            })?;
        }
        Ok(())
    }

    /// Whether the line ends the notes of the open place, as the heading of the next and `end` do; `Note` where it may not
    /// stand.
    pub fn is_closed_by(&self, setting: &Setting, line: &[u8]) -> Result<bool, Cause>
        requires { IsReaderReady setting.now self.now }
        ensures { IsLineSorted setting.now.script.now (so_far setting.now self.now) line.now result }
    {
        if !goes_on(self.end) {
            return Err(Cause::Note);
        }
        Ok(line == self.closing.as_slice())
    }

    /// What line `number` does; `Note` where it may not stand.
    pub fn line(
        &mut self,
        alloc: Global,
        setting: &Setting,
        number: u64,
        line: &[u8],
    ) -> Result<(), LineFault>
        requires setting { IsSetting setting.now }
        requires spelled { IsReaderReady setting.now self.old }
        ensures value { LineGives (λ _. so_far setting.now self.new) result (line_after setting.now.script.now number (so_far setting.now self.old) line.now) }
        ensures spelled { OnOk result (IsReaderReady setting.now self.new) }
    {
        if self.is_closed_by(setting, line)? {
            self.close(alloc, setting, number)?;
            Ok(())
        } else {
            self.note(setting, number, line)
        }
    }
}
