//! The text of `summary`: of each callout, and in all, how often each reply came and what became of the armings.
ghost use Rattle.std.specs.Prelude.{◌≡◌, ◌≤◌, ◌<◌, ◌+◌, ◌*◌, ◌++◌, OnOk, IfOk, codes, flat_map, count_by, length};
ghost use Rattle.std.specs.List.{range_with_len};
ghost use Rattle.co_check.specs.Lines.{IsReport};
ghost use Rattle.co_view.specs.Scenes.{watch_of};
ghost use Rattle.co_view.specs.Summary.{cell_at, cell_text, coded_column, column_name, entry_counted, fate_column, fates_text, is_open, reply_noted, one_if, opened_tally, replaced_column, reply_column, row_text, rows_text, stopped_column, summary_text, tally_entry, tally_of, tallied, timer_row};

use crate::parts::{Part, print_parts};
use crate::scene::{Watch, opened, take, watch_of, watched};
use co_object::{AnyEntry, Entry, Place, Reply};
use co_order::raise;
use co_report::{Line, Report};
use co_sbt::{NoMemory, Seq};
use co_text::Page;
use std::alloc::Global;

/// The counts of all callouts.
#[derive(Drop)]
pub(crate) struct Tally {
    /// A row for each callout and one for all, of 26 columns.
    counts: Seq<u64>,
    scene: Seq<Watch>,
}

/// The number of columns.
const WIDTH: usize = 26;

fn coded_column(none: usize, one: usize, minus: usize, code: i32) -> usize
    ensures { result ≡ coded_column none one minus code }
{
    if code < 0 {
        minus
    } else if code == 0 {
        none
    } else {
        one
    }
}

/// The column of a reply.
fn reply_column(reply: &Reply) -> usize
    ensures { result ≡ reply_column reply.now }
{
    match *reply {
        Reply::Armed { code, .. } => coded_column(0, 1, 1, code),
        Reply::NotArmed { code } => coded_column(2, 3, 3, code),
        Reply::NoHandler => 4,
        Reply::Worn => 5,
        Reply::Stopped { code, .. } => coded_column(6, 7, 8, code),
        Reply::Wait { .. } => 9,
        Reply::Drained { code, .. } => coded_column(10, 10, 11, code),
        Reply::Busy => 12,
        Reply::Yes => 13,
        Reply::No => 14,
        Reply::Done => 15,
        Reply::Live => 16,
        Reply::Retired => 17,
        Reply::InUse { .. } => 18,
        Reply::Go { .. } => 19,
        Reply::Hold => 20,
        Reply::Skip => 21,
        Reply::Ended { .. } => 22,
    }
}

/// The name of a column.
fn column_name(column: usize) -> &'static [u8]
    requires { column < 23 }
    ensures { result.now ≡ column_name column }
{
    match column {
        0 => b" armed(0)=",
        1 => b" armed(1)=",
        2 => b" notarmed(0)=",
        3 => b" notarmed(1)=",
        4 => b" nohandler=",
        5 => b" worn=",
        6 => b" stopped(0)=",
        7 => b" stopped(1)=",
        8 => b" stopped(-1)=",
        9 => b" wait=",
        10 => b" drained(1)=",
        11 => b" drained(-1)=",
        12 => b" busy=",
        13 => b" yes=",
        14 => b" no=",
        15 => b" done=",
        16 => b" live=",
        17 => b" retired=",
        18 => b" inuse=",
        19 => b" go=",
        20 => b" hold=",
        21 => b" skip=",
        _ => b" ended=",
    }
}

fn replaced_column(was_open: bool) -> usize
    ensures { result ≡ replaced_column was_open }
{
    if was_open { 23 } else { 25 }
}

fn stopped_column(was_open: bool, is_open: bool) -> usize
    ensures { result ≡ stopped_column was_open is_open }
{
    if was_open && !is_open { 24 } else { 25 }
}

/// The column of what became of an arming.
fn fate_column(was: bool, is: bool, reply: &Reply) -> usize
    ensures { result ≡ fate_column was is reply.now }
{
    match reply {
        Reply::Armed { .. } => replaced_column(was),
        Reply::NotArmed { .. } => replaced_column(was),
        Reply::Stopped { .. } => stopped_column(was, is),
        Reply::Wait { .. } => stopped_column(was, is),
        Reply::Drained { .. } => stopped_column(was, is),
        _ => 25,
    }
}

/// Whether an arming is to fire yet.
fn is_open(watch: &Watch) -> bool
    ensures { result ≡ is_open watch.now }
{
    watch.armed || watch.waits
}

/// Counts a reply and a fate in a row.
fn note(counts: &mut Seq<u64>, row: usize, reply: usize, fate: usize) -> Result<(), NoMemory>
    requires reply { reply < 26 }
    requires fate { fate < 26 }
    requires small { row ≤ 1024 }
    requires row { (row + 1) * 26 ≤ length counts.old }
    ensures counts { OnOk result (counts.new ≡ reply_noted counts.old row reply fate) }
    ensures long { OnOk result (length counts.new ≡ length counts.old) }
{
    raise(counts, row * WIDTH + reply)?;
    raise(counts, row * WIDTH + fate)
}

impl Tally {
    /// Before the first line.
    fn open(alloc: Global, timers: usize) -> Result<Tally, NoMemory>
        requires { timers ≤ 1024 }
        ensures { IfOk result (λ t. t ≡ opened_tally timers) }
    {
        let counts = Seq::filled(alloc, (timers + 1) * WIDTH, 0_u64)?;
        let scene = opened(alloc, timers)?;
        Ok(Tally { counts, scene })
    }

    /// Counts an entry of a callout, of so many callouts.
    fn count(&mut self, timers: usize, i: u32, entry: &Entry) -> Result<(), NoMemory>
        requires timers { i < timers }
        requires most { timers ≤ 1024 }
        requires long { length self.old.counts ≡ (timers + 1) * 26 }
        ensures counts { OnOk result (self.new.counts ≡ entry_counted timers self.old.counts i (watch_of self.old.scene i) entry.now) }
        ensures scene { OnOk result (self.new.scene ≡ self.old.scene) }
        ensures long { OnOk result (length self.new.counts ≡ (timers + 1) * 26) }
    {
        let watch = watch_of(self.scene.as_slice(), i);
        let reply = reply_column(&entry.reply);
        let fate = fate_column(
            is_open(&watch),
            is_open(&watched(0, watch, entry)),
            &entry.reply,
        );
        note(&mut self.counts, i as usize, reply, fate)?;
        note(&mut self.counts, timers, reply, fate)
    }

    /// Counts the note of a line.
    fn count_line(&mut self, timers: usize, line: &Line) -> Result<(), NoMemory>
        requires most { timers ≤ 1024 }
        requires long { length self.old.counts ≡ (timers + 1) * 26 }
        ensures counts { OnOk result (self.new.counts ≡ tally_entry timers self.old line.now.place line.now.entry) }
        ensures scene { OnOk result (self.new.scene ≡ self.old.scene) }
        ensures long { OnOk result (length self.new.counts ≡ (timers + 1) * 26) }
    {
        match line.place {
            Place::Timer(i) => match &line.entry {
                AnyEntry::Timer(entry) => {
                    if (i as usize) < timers {
                        self.count(timers, i, entry)
                    } else {
                        Ok(())
                    }
                }
                _ => Ok(()),
            },
            _ => Ok(()),
        }
    }

    /// Takes a line.
    fn take(&mut self, timers: usize, line: &Line) -> Result<(), NoMemory>
        requires most { timers ≤ 1024 }
        requires long { length self.old.counts ≡ (timers + 1) * 26 }
        ensures tally { OnOk result (self.new ≡ tallied timers self.old line.now) }
        ensures long { OnOk result (length self.new.counts ≡ (timers + 1) * 26) }
    {
        self.count_line(timers, line)?;
        take(&mut self.scene, 0, line);
        Ok(())
    }

    /// Takes all lines, from the first on.
    fn take_all(&mut self, timers: usize, lines: &[Line]) -> Result<(), NoMemory>
        requires most { timers ≤ 1024 }
        requires opened { self.old ≡ opened_tally timers }
        ensures { OnOk result (self.new ≡ tally_of timers lines.now) }
    {
        for line in lines {
            self.take(timers, line)?;
        }
        Ok(())
    }
}

/// A count of the table; 0 where there is none.
fn cell_at(counts: &[u64], row: usize, column: usize) -> u64
    requires row { row ≤ 1024 }
    requires narrow { column < 26 }
    ensures { result ≡ cell_at counts.now row column }
{
    let at = row * WIDTH + column;
    if at < counts.len() { counts[at] } else { 0 }
}

/// A reply that came, and how often.
fn print_cell(page: &mut Page, count: u64, column: usize) -> Result<(), NoMemory>
    requires { column < 23 }
    ensures { OnOk result (page.new ≡ page.old ++ cell_text count column) }
{
    if count == 0 {
        Ok(())
    } else {
        page.tagged(column_name(column), count)
    }
}

/// The replies of a row.
fn print_cells(page: &mut Page, counts: &[u64], row: usize, columns: usize) -> Result<(), NoMemory>
    requires row { row ≤ 1024 }
    requires columns { columns ≤ 23 }
    ensures { OnOk result (page.new ≡ page.old ++ flat_map (λ c. cell_text (cell_at counts.now row c) c) (range_with_len 0 columns)) }
{
    for column in 0..columns {
        print_cell(page, cell_at(counts, row, column), column)?;
    }
    Ok(())
}

/// How many armings a row has. NoMemory from 2^64 on, for which no memory is large enough.
fn armings_of(counts: &[u64], row: usize) -> Result<u64, NoMemory>
    requires { row ≤ 1024 }
    ensures { IfOk result (λ n. n ≡ cell_at counts.now row 0 + cell_at counts.now row 1) }
{
    cell_at(counts, row, 0)
        .checked_add(cell_at(counts, row, 1))
        .ok_or(NoMemory {})
}

/// The armings of a row, and what became of them.
fn print_fates(page: &mut Page, counts: &[u64], row: usize, pending: u64) -> Result<(), NoMemory>
    requires { row ≤ 1024 }
    ensures { OnOk result (page.new ≡ page.old ++ fates_text counts.now row pending) }
{
    let armings = armings_of(counts, row)?;
    print_parts(
        page,
        &[
            Part::Tagged(b": armings=", armings),
            Part::Tagged(b" fired=", cell_at(counts, row, 19)),
            Part::Tagged(b" superseded=", cell_at(counts, row, 23)),
            Part::Tagged(b" stopped=", cell_at(counts, row, 24)),
            Part::Tagged(b" pending=", pending),
        ],
    )
}

/// A row behind its name.
fn print_row(page: &mut Page, counts: &[u64], row: usize, pending: u64) -> Result<(), NoMemory>
    requires { row ≤ 1024 }
    ensures { OnOk result (page.new ≡ page.old ++ row_text counts.now row pending) }
{
    print_fates(page, counts, row, pending)?;
    page.text(b" |")?;
    print_cells(page, counts, row, 23)?;
    page.end()
}

/// Whether an arming is to fire yet, as a count.
fn pending_of(watch: &Watch) -> u64
    ensures { result ≡ one_if (is_open watch.now) }
{
    if is_open(watch) { 1 } else { 0 }
}

/// The row of a callout.
fn print_timer(page: &mut Page, tally: &Tally, i: u32) -> Result<(), NoMemory>
    requires { i ≤ 1024 }
    ensures { OnOk result (page.new ≡ page.old ++ timer_row tally.now i) }
{
    let watch = watch_of(tally.scene.as_slice(), i);
    page.tagged(b"timer ", u64::from(i))?;
    print_row(
        page,
        tally.counts.as_slice(),
        i as usize,
        pending_of(&watch),
    )
}

/// The rows of the callouts.
fn print_timers(page: &mut Page, tally: &Tally, timers: u32) -> Result<(), NoMemory>
    requires { timers ≤ 1024 }
    ensures { OnOk result (page.new ≡ page.old ++ flat_map (timer_row tally.now) (range_with_len 0 timers)) }
{
    for i in 0..timers {
        print_timer(page, tally, i)?;
    }
    Ok(())
}

/// How many armings are to fire yet.
fn pending_in_all(scene: &[Watch]) -> u64
    ensures { result ≡ count_by is_open scene.now }
{
    let mut pending: u64 = 0;
    for watch in scene {
        if is_open(watch) {
            pending += 1;
        }
    }
    pending
}

/// The row of all.
fn print_total(page: &mut Page, tally: &Tally, timers: usize) -> Result<(), NoMemory>
    requires { timers ≤ 1024 }
    ensures { OnOk result (page.new ≡ page.old ++ (codes "in all" ++ row_text tally.now.counts timers (count_by is_open tally.now.scene))) }
{
    page.text(b"in all")?;
    print_row(
        page,
        tally.counts.as_slice(),
        timers,
        pending_in_all(tally.scene.as_slice()),
    )
}

/// The rows of all callouts, and that of all.
fn print_rows(page: &mut Page, tally: &Tally, timers: usize) -> Result<(), NoMemory>
    requires { timers ≤ 1024 }
    ensures { OnOk result (page.new ≡ page.old ++ rows_text timers tally.now) }
{
    print_timers(page, tally, timers as u32)?;
    print_total(page, tally, timers)
}

/// The text of the counts of all lines.
fn print_lines(
    alloc: Global,
    tally: &mut Tally,
    timers: usize,
    lines: &[Line],
) -> Result<Seq<u8>, NoMemory>
    requires most { timers ≤ 1024 }
    requires opened { tally.old ≡ opened_tally timers }
    ensures { IfOk result (λ text. text ≡ rows_text timers (tally_of timers lines.now)) }
{
    tally.take_all(timers, lines)?;
    let mut page = Page::new(alloc);
    print_rows(&mut page, tally, timers)?;
    page.done()
}

/// The text of `summary`: for each callout a row with its armings and what became of them, and how often each reply
/// came; and a row for all. It takes no order: the notes of each callout stand in theirs. The layout is our own.
/// `NoMemory` where there is no room for it.
pub fn print_summary(alloc: Global, report: &Report) -> Result<Seq<u8>, NoMemory>
    requires { IsReport report.now }
    ensures { IfOk result (λ text. text ≡ summary_text report.now.script report.now.lines) }
{
    let timers = report.script.timers.as_slice().len();
    let mut tally = Tally::open(alloc, timers)?;
    print_lines(alloc, &mut tally, timers, report.lines.as_slice())
}
