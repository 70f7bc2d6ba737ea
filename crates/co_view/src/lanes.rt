//! The text of `lanes`: a column for each actor, a row for each note.
ghost use Rattle.std.specs.Prelude.{◌≡◌, ◌++◌, ◌||◌, OnOk, IfOk, flat_map, ◌∷◌, [], None, Some};
ghost use Rattle.std.specs.List.{concat, range_with_len};
ghost use Rattle.co_check.specs.Lines.{IsReport};
ghost use Rattle.co_program.specs.Scripts.{IsScript};
ghost use Rattle.co_program.specs.Actors.{actor_count};
ghost use Rattle.co_object.specs.History.{cpu_of};
ghost use Rattle.co_grammar.specs.Spelling.{actor_word};
ghost use Rattle.co_view.specs.Rolls.{roll_text};
ghost use Rattle.co_view.specs.Lanes.{asks_of, concerns, header_text, is_of_cpu, is_of_timer, lanes_text, passing, row_at, lane_row, serves_on, tells_of};

use crate::roll::Roll;
use crate::words::print_note;
use co_grammar::actor_name;
use co_object::{AnyEntry, Op, Place, QOp, QReply, RunOp};
use co_program::{Script, actor_count};
use co_report::{Line, Report};
use co_sbt::{NoMemory, Seq};
use co_text::Page;
use std::alloc::Global;

/// Which notes are shown.
#[derive(Clone, Copy)]
pub enum Focus {
    /// All notes of the report.
    All,
    /// Those of a callout, and those of the queues that name it.
    Timer(u32),
    /// Those of a CPU's queue, and the services on it.
    Cpu(u32),
}

/// Whether an operation on a queue names a callout.
fn asks_of(timer: u32, op: &QOp) -> bool
    ensures { result ≡ asks_of timer op.now }
{
    match *op {
        QOp::Insert { i, .. } => i == timer,
        QOp::Remove { i } => i == timer,
        _ => false,
    }
}

/// Whether a queue's answer names a callout.
fn tells_of(timer: u32, reply: &QReply) -> bool
    ensures { result ≡ tells_of timer reply.now }
{
    match *reply {
        QReply::Got { i, .. } => i == timer,
        _ => false,
    }
}

fn is_of_timer(timer: u32, place: Place, entry: &AnyEntry) -> bool
    ensures { result ≡ is_of_timer timer place entry.now }
{
    match place {
        Place::Timer(i) => i == timer,
        _ => match entry {
            AnyEntry::Cpu(e) => asks_of(timer, &e.op) || tells_of(timer, &e.reply),
            _ => false,
        },
    }
}

/// Whether it is a service on a CPU.
fn serves_on(cpu: u32, op: &Op) -> bool
    ensures { result ≡ serves_on cpu op.now }
{
    match op {
        Op::Call(_) => false,
        Op::Run(op) => cpu_of(op) == cpu,
    }
}

/// The CPU of a service.
fn cpu_of(op: &RunOp) -> u32
    ensures { result ≡ cpu_of op.now }
{
    match *op {
        RunOp::Pick { cpu, .. } => cpu,
        RunOp::Begin { cpu, .. } => cpu,
        RunOp::End { cpu, .. } => cpu,
    }
}

fn is_of_cpu(cpu: u32, place: Place, entry: &AnyEntry) -> bool
    ensures { result ≡ is_of_cpu cpu place entry.now }
{
    match place {
        Place::Cpu(c) => c == cpu,
        _ => match entry {
            AnyEntry::Timer(e) => serves_on(cpu, &e.op),
            _ => false,
        },
    }
}

/// Whether a note is shown.
fn concerns(focus: Focus, line: &Line) -> bool
    ensures { result ≡ concerns focus line.now }
{
    match focus {
        Focus::All => true,
        Focus::Timer(timer) => is_of_timer(timer, line.place, &line.entry),
        Focus::Cpu(cpu) => is_of_cpu(cpu, line.place, &line.entry),
    }
}

/// The lanes of the actors before one.
fn print_passing(page: &mut Page, actor: u32) -> Result<(), NoMemory>
    ensures { OnOk result (page.new ≡ page.old ++ passing actor) }
{
    for _ in 0..actor {
        page.text(b"|\t")?;
    }
    Ok(())
}

/// The row of a note.
fn print_row(page: &mut Page, line: &Line) -> Result<(), NoMemory>
    ensures { OnOk result (page.new ≡ page.old ++ lane_row line.now) }
{
    page.number(line.line)?;
    page.text(b"\t")?;
    print_passing(page, line.entry.actor())?;
    print_note(page, line.place, &line.entry)?;
    page.end()
}

/// The row of the note of this index, where it is shown.
fn print_shown(page: &mut Page, focus: Focus, lines: &[Line], index: usize) -> Result<(), NoMemory>
    ensures { OnOk result (page.new ≡ page.old ++ row_at focus lines.now index) }
{
    match lines.get(index) {
        Some(line) => {
            if concerns(focus, line) {
                print_row(page, line)
            } else {
                Ok(())
            }
        }
        None => Ok(()),
    }
}

/// The name of an actor's column.
fn print_column(page: &mut Page, script: &Script, actor: u32) -> Result<(), NoMemory>
    ensures { OnOk result (page.new ≡ page.old ++ 9 ∷ actor_word script.now actor) }
{
    let (letter, number) = actor_name(script, actor);
    page.text(b"\t")?;
    page.tagged(&[letter], number)
}

/// The names of the columns.
fn print_columns(page: &mut Page, script: &Script, actors: u32) -> Result<(), NoMemory>
    ensures { OnOk result (page.new ≡ page.old ++ flat_map (λ a. 9 ∷ actor_word script.now a) (range_with_len 0 actors)) }
{
    for actor in 0..actors {
        print_column(page, script, actor)?;
    }
    Ok(())
}

/// The row above the columns.
fn print_header(page: &mut Page, script: &Script) -> Result<(), NoMemory>
    requires { IsScript script.now }
    ensures { OnOk result (page.new ≡ page.old ++ header_text script.now) }
{
    page.text(b"line")?;
    print_columns(page, script, actor_count(script))?;
    page.end()
}

/// The rows of these notes, behind what is there.
fn print_rows(
    alloc: Global,
    roll: &mut Roll,
    focus: Focus,
    lines: &[Line],
    order: &[usize],
) -> Result<(), NoMemory>
    ensures { OnOk result (roll_text roll.new ≡ roll_text roll.old ++ flat_map (row_at focus lines.now) order.now) }
{
    for index in order {
        roll.row(alloc)?;
        print_shown(&mut roll.page, focus, lines, *index)?;
    }
    Ok(())
}

/// The header and the rows, on a roll that is empty.
fn print_all(
    alloc: Global,
    roll: &mut Roll,
    focus: Focus,
    report: &Report,
    order: &[usize],
) -> Result<Seq<Seq<u8>>, NoMemory>
    requires report { IsReport report.now }
    requires empty { roll_text roll.old ≡ [] }
    ensures { IfOk result (λ pieces. concat pieces ≡ lanes_text focus report.now.script report.now.lines order.now) }
{
    print_header(&mut roll.page, &report.script)?;
    print_rows(alloc, roll, focus, report.lines.as_slice(), order)?;
    roll.done(alloc)
}

/// The text of `lanes`, in pieces: a row with the names of the actors, and a row for each note of this order that is
/// shown, with the number of its line in the report and the note in words, in the column of its actor. The layout is
/// our own. `NoMemory` where there is no room for it.
pub fn print_lanes(
    alloc: Global,
    focus: Focus,
    report: &Report,
    order: &[usize],
) -> Result<Seq<Seq<u8>>, NoMemory>
    requires { IsReport report.now }
    ensures { IfOk result (λ pieces. concat pieces ≡ lanes_text focus report.now.script report.now.lines order.now) }
{
    let mut roll = Roll::new(alloc);
    print_all(alloc, &mut roll, focus, report, order)
}
