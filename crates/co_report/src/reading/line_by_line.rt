//! A report that is read line by line: first its script, and then each note line when it is asked for.
ghost use Rattle.std.specs.Prelude.{◌≡◌, ◌≤◌, ◌<◌, ◌∷◌, Some, [], List, length, IfOk, OnOk};
ghost use Rattle.co_program.specs.Scripts.{IsScript};
ghost use Rattle.co_text.specs.Fallible.{Gives, LineGives};
ghost use Rattle.co_text.specs.Lines.{lines_of, Line as TextLine};
ghost use Rattle.co_report.specs.declared.line.Line.{Line};
ghost use Rattle.co_report.specs.LineByLine.{before_all, line_at, standing, AreAllTold, IsReportOpened, IsReading, IsLineRead, IsLineTold, IsNextFound, IsNoteTold};
ghost use Rattle.co_notes.specs.NoteForms.{shown_note};
ghost use Rattle.co_notes.specs.NoteValues.{names_of};
ghost use Rattle.co_report.specs.Reading.{halves_read, line_after, lines_report, report_read};
ghost use Rattle.co_report.specs.ReadingViews.{halves_view, so_far, with_line, one_or_none, AreAtMost, IsReaderReady, IsSetting};

use crate::line::Line;
use crate::listening::LineListener;
use crate::reading::places::places;
use crate::reading::progress::{Progress, Setting};
use crate::reading::texts::{Halves, bad, behind_first, no_memory, none_cut, split_at_histories};
use crate::reading::{is_canonical, script_in_report};
use co_notes::{Names, names_of, note_of, read_note, unread};
use co_object::{AnyEntry, Note, Place};
use co_program::Script;
use co_sbt::{NoMemory, Seq};
use co_script::laws::{fitting_scripts_are_accepted, read_scripts_fit};
use co_text::{Cause, LineFault, ScriptFault, next_line};
use std::alloc::Global;
use std::marker::Model;

/// A report whose script is read. Its histories are read by a `Reader`, note by note, and none of them is kept: the text
/// is, and from it a note can be read again. Our own decision.
///
/// Contracts see the script, the number of the first line of the histories, and their text.
#[derive(Drop)]
pub struct OpenReport<'a> {
    script: Script,
    places: Seq<Place>,
    names: Names,
    first: u64,
    text: &'a [u8],
}

impl<'a> Model for OpenReport<'a> {
    ghost use Rattle.co_report.specs.LineByLine.{Opening, IsOpen};

    ghost Value = { Opening };

    ghost view = { λ x. record { script = x.script; first = x.first; text = x.text.now } };

    ghost invariant = { λ x. IsOpen x.script x.places x.names x.first x.text.now };
}

/// The report of a script's text and the text of its notes, where the script is read.
fn open_halves<'a>(alloc: Global, halves: Halves<'a>) -> Result<OpenReport<'a>, ScriptFault>
    requires { AreAtMost 268435456 halves }
    ensures opened { IsReportOpened (halves_read (halves_view halves.entry)) result }
    ensures short { IfOk result (λ o. length o.text ≤ 268435456) }
{
    let script = script_in_report(alloc, halves.script)?;
    is_canonical(alloc, &script, halves.script)?;
    read_scripts_fit();
    fitting_scripts_are_accepted();
    let places = match places(alloc, &script) {
        Ok(places) => places,
        Err(fault) => return Err(no_memory(fault)),
    };
    let names = names_of(&script);
    Ok(OpenReport {
        script,
        places,
        names,
        first: halves.count + 3,
        text: halves.notes,
    })
}

/// The report of all lines, where its script is read.
fn open_lines(alloc: Global, bytes: &[u8]) -> Result<OpenReport<'_>, ScriptFault>
    requires { length bytes.now ≤ 268435456 }
    ensures opened { IsReportOpened (lines_report (lines_of bytes.now)) result }
    ensures short { IfOk result (λ o. length o.text ≤ 268435456) }
{
    none_cut(bytes)?;
    let others = behind_first(bytes)?;
    match split_at_histories(others) {
        Some(halves) => open_halves(alloc, halves),
        None => Err(bad(0, Cause::Note)),
    }
}

/// Reads the script of a report. The report is that of the script and of all that is ahead in its histories then; or it is
/// refused as `read_report` refuses it, for a line before its histories.
#[tactic(auto, unfolding(crate::specs::Reading::report_read))]
pub fn open_report(alloc: Global, bytes: &[u8]) -> Result<OpenReport<'_>, ScriptFault>
    ensures opened { IsReportOpened (report_read bytes.now) result }
    ensures short { IfOk result (λ o. length o.text ≤ 268435456) }
{
    if bytes.len() > 268_435_456 {
        return Err(bad(0, Cause::Size));
    }
    open_lines(alloc, bytes)
}

impl<'a> OpenReport<'a> {
    /// The report's script, which is an accepted one.
    pub fn script(&self) -> &Script
        ensures script { result.now ≡ self.now.script }
        ensures accepted { IsScript result.now }
    {
        &self.script
    }

    /// The report's script alone.
    pub fn into_script(self) -> Script
        ensures { result ≡ self.entry.script }
    {
        self.script
    }

    /// The number and the entry of the note that the line at this byte of the histories' text shows, where it is of this
    /// place; `Note` where it shows none.
    pub fn note_at(&self, at: usize, place: Place) -> Result<(u64, AnyEntry), Cause>
        requires { at ≤ length self.now.text }
        ensures { Gives (λ x. record { number = x.0; entry = x.1 }) result (shown_note (names_of self.now.script) (Some place) (line_at self.now.text at)) }
    {
        let line = first_line(self.text.split_at(at).1);
        let shown = note_of(&self.names, Some(place), line)?;
        Ok((shown.number, shown.entry))
    }

    /// A reader of the histories, before the first line.
    pub fn reader(&self, alloc: Global) -> Result<Reader<'_>, NoMemory>
        ensures reading { IfOk result IsReading }
        ensures before { IfOk result (λ reader. standing reader ≡ before_all self.now) }
    {
        let setting = Setting {
            script: &self.script,
            names: self.names,
            places: self.places.as_slice(),
        };
        let progress = Progress::opening(alloc, &setting)?;
        Ok(Reader {
            setting,
            text: self.text,
            progress,
            rest: self.text,
            number: self.first,
        })
    }
}

/// The first line of a text, or nothing where it has none.
fn first_line(text: &[u8]) -> &[u8]
    ensures { result.now ≡ line_at text.now 0 }
{
    match next_line(text) {
        Some((line, _, _)) => line,
        None => b"".as_slice(),
    }
}

/// A note line, and the byte of the histories' text at which it begins.
#[derive(Clone, Copy)]
pub struct Found {
    /// How many bytes of the text stand before it.
    pub at: u32,
    /// The line.
    pub line: Line,
}

/// What comes next in histories.
#[derive(Clone, Copy)]
pub enum Next {
    /// A note line.
    Note(Found),
    /// No more: the number of the line `end`.
    End(u64),
}

/// Reads histories line by line. Contracts see by `standing` what of them is ahead.
#[derive(Drop)]
pub struct Reader<'a> {
    setting: Setting<'a>,
    text: &'a [u8],
    progress: Progress,
    rest: &'a [u8],
    number: u64,
}

/// The line of a list that has one, or none.
fn only_line(lines: &[Line]) -> Option<Line>
    requires { length lines.now ≤ 1 }
    ensures { one_or_none result ≡ lines.now }
{
    match lines {
        [] => None,
        [line, ..] => Some(*line),
    }
}

/// Reads a line, and takes out the note that it shows, if it shows one.
fn take_note(
    alloc: Global,
    setting: &Setting,
    progress: &mut Progress,
    number: u64,
    line: &[u8],
) -> Result<Option<Line>, LineFault>
    requires setting { IsSetting setting.now }
    requires spelled { IsReaderReady setting.now progress.old }
    requires none { progress.old.lines ≡ [] }
    ensures value { LineGives (with_line (so_far setting.now progress.new)) result (line_after setting.now.script.now number (so_far setting.now progress.old) line.now) }
    ensures spelled { OnOk result (IsReaderReady setting.now progress.new) }
    ensures none { OnOk result (progress.new.lines ≡ []) }
{
    progress.line(alloc, setting, number, line)?;
    let found = only_line(progress.lines.as_slice());
    progress.lines.clear();
    Ok(found)
}

/// Reads a line, and tells the note that it shows, if it shows one. `note` is room for it, which serves all lines.
fn tell_note<L: LineListener>(
    alloc: Global,
    setting: &Setting,
    progress: &mut Progress,
    number: u64,
    line: &[u8],
    note: &mut Note,
    listener: &mut L,
) -> Result<(), LineFault>
    requires setting { IsSetting setting.now }
    requires spelled { IsReaderReady setting.now progress.old }
    requires none { progress.old.lines ≡ [] }
    requires has { (lines : List Line) × L.has listener.old lines }
    ensures value { IsNoteTold L.has listener.old listener.new (so_far setting.now progress.new) result (line_after setting.now.script.now number (so_far setting.now progress.old) line.now) }
    ensures spelled { OnOk result (IsReaderReady setting.now progress.new) }
    ensures none { OnOk result (progress.new.lines ≡ []) }
{
    if progress.is_closed_by(setting, line)? {
        progress.close(alloc, setting, number)?;
        return Ok(());
    }
    let Some(place) = progress.current else {
        return Err(LineFault::Bad(Cause::Note));
    };
    note.place = place;
    read_note(&setting.names, line, note)?;
    listener.take(number, note)?;
    Ok(())
}

impl<'a> Reader<'a> {
    /// Reads the next line, behind which `after` stands, and tells the note that it shows, if it shows one. `note` is room for
    /// it.
    fn tell_line<L: LineListener>(
        &mut self,
        alloc: Global,
        line: &[u8],
        after: &'a [u8],
        note: &mut Note,
        listener: &mut L,
    ) -> Result<(), ScriptFault>
        requires reading { IsReading self.old }
        requires next { (l : TextLine) × (l.bytes ≡ line.now) × (lines_of self.old.rest.now ≡ l ∷ lines_of after.now) }
        requires shorter { length after.now < length self.old.rest.now }
        requires has { (lines : List Line) × L.has listener.old lines }
        ensures { IsLineTold L.has listener.old listener.new self.old result self.new }
    {
        let number = self.number;
        match tell_note(
            alloc,
            &self.setting,
            &mut self.progress,
            number,
            line,
            note,
            listener,
        ) {
            Ok(()) => {
                self.rest = after;
                self.number = number + 1;
                Ok(())
            }
            Err(fault) => Err(fault.at(number)),
        }
    }

    /// Tells all note lines that are ahead, and answers the number of the line `end` behind them; or the first bad line, as
    /// `read_report` refuses it. No line is handed on by value: the listener looks at it where it was read.
    pub fn tell_all<L: LineListener>(
        &mut self,
        alloc: Global,
        listener: &mut L,
    ) -> Result<u64, ScriptFault>
        requires reading { IsReading self.old }
        requires has { (lines : List Line) × L.has listener.old lines }
        ensures { AreAllTold L.has listener.old listener.new self.old result }
    {
        let mut note = unread(Place::Cpu(0));
        while let Some((line, _, after)) = next_line(self.rest) {
            self.tell_line(alloc, line, after, &mut note, listener)?;
        }
        match self.progress.end {
            Some(end) => Ok(end),
            None => Err(bad(self.number, Cause::Note)),
        }
    }

    /// Reads the next line, behind which `after` stands.
    fn read_line(
        &mut self,
        alloc: Global,
        line: &[u8],
        after: &'a [u8],
    ) -> Result<Option<Found>, ScriptFault>
        requires reading { IsReading self.old }
        requires next { (l : TextLine) × (l.bytes ≡ line.now) × (lines_of self.old.rest.now ≡ l ∷ lines_of after.now) }
        requires shorter { length after.now < length self.old.rest.now }
        ensures { IsLineRead self.old result self.new }
    {
        let number = self.number;
        match take_note(alloc, &self.setting, &mut self.progress, number, line) {
            Ok(found) => {
                let at = (self.text.len() - self.rest.len()) as u32;
                self.rest = after;
                self.number = number + 1;
                match found {
                    Some(line) => Ok(Some(Found { at, line })),
                    None => Ok(None),
                }
            }
            Err(fault) => Err(fault.at(number)),
        }
    }

    /// The next note line, or the number of the line `end` behind the last; or the first bad line from there on, as
    /// `read_report` refuses it. After an `Err` the reader is of no more use.
    pub fn next(&mut self, alloc: Global) -> Result<Next, ScriptFault>
        requires { IsReading self.old }
        ensures { IsNextFound self.old result self.new }
    {
        while let Some((line, _, after)) = next_line(self.rest) {
            if let Some(found) = self.read_line(alloc, line, after)? {
                return Ok(Next::Note(found));
            }
        }
        match self.progress.end {
            Some(end) => Ok(Next::End(end)),
            None => Err(bad(self.number, Cause::Note)),
        }
    }
}
