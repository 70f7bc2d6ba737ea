//! Pictures: what is told of each note of an order, one by one.
ghost use Rattle.std.specs.Prelude.{◌≡◌, ◌++◌, OnOk, IfOk, [], length, replicate};
ghost use Rattle.std.specs.List.{concat};
ghost use Rattle.co_check.specs.Lines.{IsReport};
ghost use Rattle.co_program.specs.Scripts.{IsScript};
ghost use Rattle.co_view.specs.Rolls.{roll_text};
ghost use Rattle.co_view.specs.Scenes.{quiet, scene_after};
ghost use Rattle.co_view.specs.Pictures.{back_text, front_text, picture_text, story, picture_told, told_of};
ghost use Rattle.std.specs.Prelude.{slice_get};

use crate::roll::Roll;
use crate::scene::{Watch, opened, take};
use crate::svg::{print_figure, print_frame};
use crate::trace::{print_events, print_head};
use co_program::Script;
use co_report::{Line, Report};
use co_sbt::{NoMemory, Seq};
use co_text::Page;
use std::alloc::Global;

/// A picture of a report.
#[derive(Clone, Copy)]
pub enum Picture {
    /// Chrome's trace format, which Perfetto and chrome://tracing open.
    Trace,
    /// SVG, which a browser shows.
    Svg,
}

/// What is told of the note of a line.
fn tell(
    page: &mut Page,
    picture: Picture,
    step: usize,
    scene: &[Watch],
    line: &Line,
) -> Result<(), NoMemory>
    ensures { OnOk result (page.new ≡ page.old ++ picture_told picture step scene.now line.now) }
{
    match picture {
        Picture::Trace => print_events(page, step, scene, line),
        Picture::Svg => print_figure(page, step, scene, line),
    }
}

/// Tells the note of this index.
fn tell_step(
    page: &mut Page,
    picture: Picture,
    scene: &mut Seq<Watch>,
    lines: &[Line],
    step: usize,
    index: usize,
) -> Result<(), NoMemory>
    ensures text { OnOk result (page.new ≡ page.old ++ told_of picture step scene.old (slice_get lines.now index)) }
    ensures scene { OnOk result (scene.new ≡ scene_after step scene.old (slice_get lines.now index)) }
{
    match lines.get(index) {
        Some(line) => {
            tell(page, picture, step, scene.as_slice(), line)?;
            take(scene, step, line);
            Ok(())
        }
        None => Ok(()),
    }
}

/// Tells the notes of these indices one by one, behind what is there.
fn tell_all(
    alloc: Global,
    roll: &mut Roll,
    picture: Picture,
    scene: &mut Seq<Watch>,
    lines: &[Line],
    order: &[usize],
) -> Result<(), NoMemory>
    ensures { OnOk result (roll_text roll.new ≡ roll_text roll.old ++ story picture lines.now 0 scene.old order.now) }
{
    for step in 0..order.len() {
        roll.row(alloc)?;
        tell_step(&mut roll.page, picture, scene, lines, step, order[step])?;
    }
    Ok(())
}

/// What stands before the notes.
fn print_front(
    page: &mut Page,
    picture: Picture,
    script: &Script,
    steps: usize,
) -> Result<(), NoMemory>
    requires { IsScript script.now }
    ensures { OnOk result (page.new ≡ page.old ++ front_text picture script.now steps) }
{
    match picture {
        Picture::Trace => print_head(page, script),
        Picture::Svg => print_frame(page, script, steps),
    }
}

/// What stands behind them.
fn print_back(page: &mut Page, picture: Picture) -> Result<(), NoMemory>
    ensures { OnOk result (page.new ≡ page.old ++ back_text picture) }
{
    match picture {
        Picture::Trace => page.text(b"\n]}\n"),
        Picture::Svg => page.text(b"</svg>\n"),
    }
}

/// Tells the notes of an order from the first on, behind what is there.
fn tell_order(
    alloc: Global,
    roll: &mut Roll,
    picture: Picture,
    report: &Report,
    order: &[usize],
) -> Result<(), NoMemory>
    ensures { OnOk result (roll_text roll.new ≡ roll_text roll.old ++ story picture report.now.lines 0 (replicate (length report.now.script.timers) quiet) order.now) }
{
    let mut scene = opened(alloc, report.script.timers.as_slice().len())?;
    tell_all(
        alloc,
        roll,
        picture,
        &mut scene,
        report.lines.as_slice(),
        order,
    )
}

/// The picture, on a roll that is empty.
fn print_all(
    alloc: Global,
    roll: &mut Roll,
    picture: Picture,
    report: &Report,
    order: &[usize],
) -> Result<Seq<Seq<u8>>, NoMemory>
    requires report { IsReport report.now }
    requires empty { roll_text roll.old ≡ [] }
    ensures { IfOk result (λ pieces. concat pieces ≡ picture_text picture report.now.script report.now.lines order.now) }
{
    print_front(&mut roll.page, picture, &report.script, order.len())?;
    tell_order(alloc, roll, picture, report, order)?;
    print_back(&mut roll.page, picture)?;
    roll.done(alloc)
}

/// The text of a picture, in pieces. In a trace a step of this order is a microsecond: each note is an event in its
/// actor's lane, and each callout has the lanes *armed* and *in service*; an arrow goes from a drain's wait to the end
/// that wakes it. In SVG each actor has a column and each step a row, and a bar is a service. The layout is our own.
/// `NoMemory` where there is no room for it.
pub fn print_picture(
    alloc: Global,
    picture: Picture,
    report: &Report,
    order: &[usize],
) -> Result<Seq<Seq<u8>>, NoMemory>
    requires { IsReport report.now }
    ensures { IfOk result (λ pieces. concat pieces ≡ picture_text picture report.now.script report.now.lines order.now) }
{
    let mut roll = Roll::new(alloc);
    print_all(alloc, &mut roll, picture, report, order)
}
