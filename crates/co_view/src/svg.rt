//! The text of `svg`: one picture, which a browser shows.
ghost use Rattle.std.specs.Prelude.{◌≡◌, ◌++◌, OnOk, flat_map};
ghost use Rattle.std.specs.List.{range_with_len};
ghost use Rattle.co_program.specs.Scripts.{IsScript};
ghost use Rattle.co_program.specs.Actors.{actor_count};
ghost use Rattle.co_view.specs.Svg.{arrow_text, bar_text, callout_marks, column_head, figure, frame_text, is_end, legend_text, marks_of, frame_head, point_text, style_text, x_of};

use crate::parts::{Part, print_parts};
use crate::scene::{Watch, watch_of};
use crate::trace::wakes;
use co_grammar::actor_name;
use co_object::{AnyEntry, Entry, Op, Place, RunOp};
use co_program::{Script, actor_count};
use co_report::Line;
use co_sbt::NoMemory;
use co_text::Page;

/// Where a column stands.
fn x_of(actor: u32) -> u64
    ensures { result ≡ x_of actor }
{
    70 + 400 * u64::from(actor)
}

/// A note: the line of the report, a point in the actor's column, and the words beside it.
fn print_note_point(page: &mut Page, step: usize, line: &Line) -> Result<(), NoMemory>
    ensures { OnOk result (page.new ≡ page.old ++ point_text step line.now) }
{
    let actor = line.entry.actor();
    print_parts(
        page,
        &[
            Part::Down(b"<text class=\"l\" x=\"8\" y=\"", 84, step),
            Part::Tagged(b"\">", line.line),
            Part::Tagged(b"</text><circle cx=\"", x_of(actor)),
            Part::Down(b"\" cy=\"", 80, step),
            Part::Tagged(b"\" r=\"3\"/><text x=\"", 82 + 400 * u64::from(actor)),
            Part::Down(b"\" y=\"", 84, step),
            Part::Text(b"\">"),
            Part::Note(line.place, &line.entry),
            Part::Text(b"</text>\n"),
        ],
    )
}

/// The bar of a service.
fn print_bar(page: &mut Page, i: u32, actor: u32, since: usize, step: usize) -> Result<(), NoMemory>
    ensures { OnOk result (page.new ≡ page.old ++ bar_text i actor since step) }
{
    print_parts(
        page,
        &[
            Part::Tagged(b"<rect class=\"t", u64::from(i % 8)),
            Part::Tagged(b"\" x=\"", 66 + 400 * u64::from(actor)),
            Part::Down(b"\" y=\"", 80, since),
            Part::Down(b"\" width=\"8\" height=\"", 0, step.saturating_sub(since)),
            Part::Text(b"\"/>\n"),
        ],
    )
}

/// The arrow from a drain's wait to the end that wakes it.
fn print_arrow(
    page: &mut Page,
    waiter: u32,
    waited: usize,
    actor: u32,
    step: usize,
) -> Result<(), NoMemory>
    ensures { OnOk result (page.new ≡ page.old ++ arrow_text waiter waited actor step) }
{
    print_parts(
        page,
        &[
            Part::Tagged(b"<path class=\"a\" d=\"M", x_of(waiter)),
            Part::Down(b" ", 80, waited),
            Part::Down(b"V", 89, step),
            Part::Tagged(b"H", x_of(actor)),
            Part::Down(b"V", 80, step),
            Part::Text(b"\"/>\n"),
        ],
    )
}

fn is_end(op: &Op) -> bool
    ensures { result ≡ is_end op.now }
{
    match op {
        Op::Run(RunOp::End { .. }) => true,
        _ => false,
    }
}

/// The bar and the arrow that end with an entry of a callout.
fn print_marks(
    page: &mut Page,
    i: u32,
    step: usize,
    watch: Watch,
    entry: &Entry,
) -> Result<(), NoMemory>
    ensures { OnOk result (page.new ≡ page.old ++ callout_marks i step watch entry.now) }
{
    if watch.serviced && is_end(&entry.op) {
        print_bar(page, i, entry.actor, watch.since, step)?;
    }
    if wakes(&entry.reply) {
        print_arrow(page, watch.waiter, watch.waited, entry.actor, step)?;
    }
    Ok(())
}

fn print_marks_of(
    page: &mut Page,
    step: usize,
    scene: &[Watch],
    place: Place,
    entry: &AnyEntry,
) -> Result<(), NoMemory>
    ensures { OnOk result (page.new ≡ page.old ++ marks_of step scene.now place entry.now) }
{
    match place {
        Place::Timer(i) => match entry {
            AnyEntry::Timer(entry) => print_marks(page, i, step, watch_of(scene, i), entry),
            _ => Ok(()),
        },
        _ => Ok(()),
    }
}

/// The figure of a note.
pub(crate) fn print_figure(
    page: &mut Page,
    step: usize,
    scene: &[Watch],
    line: &Line,
) -> Result<(), NoMemory>
    ensures { OnOk result (page.new ≡ page.old ++ figure step scene.now line.now) }
{
    print_marks_of(page, step, scene, line.place, &line.entry)?;
    print_note_point(page, step, line)
}

/// An actor's column and its name.
fn print_column(page: &mut Page, script: &Script, steps: usize, actor: u32) -> Result<(), NoMemory>
    ensures { OnOk result (page.new ≡ page.old ++ column_head script.now steps actor) }
{
    let (letter, number) = actor_name(script, actor);
    print_parts(
        page,
        &[
            Part::Tagged(b"<path class=\"c\" d=\"M", x_of(actor)),
            Part::Down(b" 66V", 80, steps),
            Part::Tagged(b"\"/><text class=\"h\" x=\"", x_of(actor)),
            Part::Text(b"\" y=\"58\">"),
            Part::Tagged(&[letter], number),
            Part::Text(b"</text>\n"),
        ],
    )
}

fn print_columns(
    page: &mut Page,
    script: &Script,
    steps: usize,
    actors: u32,
) -> Result<(), NoMemory>
    ensures { OnOk result (page.new ≡ page.old ++ flat_map (column_head script.now steps) (range_with_len 0 actors)) }
{
    for actor in 0..actors {
        print_column(page, script, steps, actor)?;
    }
    Ok(())
}

fn style_text() -> &'static [u8]
    ensures { result.now ≡ style_text }
{
    b"<style>text{font:11px monospace}.l{fill:#888}.h{font:bold 14px sans-serif}.n{font:12px sans-serif;fill:#444}.c{stroke:#ccc}.a{stroke:#c00;stroke-width:1.5;fill:none;stroke-dasharray:4 2;marker-end:url(#m)}rect{fill-opacity:.55}.t0{fill:#4e79a7}.t1{fill:#f28e2b}.t2{fill:#59a14f}.t3{fill:#b07aa1}.t4{fill:#edc948}.t5{fill:#76b7b2}.t6{fill:#e15759}.t7{fill:#9c755f}</style>\n<marker id=\"m\" viewBox=\"0 0 8 8\" refX=\"8\" refY=\"4\" markerWidth=\"5\" markerHeight=\"5\" orient=\"auto\"><path d=\"M0 0L8 4L0 8z\" fill=\"#c00\"/></marker>\n"
}

fn legend_text() -> &'static [u8]
    ensures { result.now ≡ legend_text }
{
    b"<text class=\"n\" x=\"8\" y=\"20\">Steps from top to bottom in one order; a column for each actor; at the left the line of the report.</text>\n<text class=\"n\" x=\"8\" y=\"36\">A bar is a service, in the colour of its callout; a dashed arrow goes from a drain that waits to the end that wakes it.</text>\n"
}

/// What stands before the columns: the size, the style and the legend, for so many steps.
fn print_frame_head(page: &mut Page, actors: u32, steps: usize) -> Result<(), NoMemory>
    ensures { OnOk result (page.new ≡ page.old ++ frame_head actors steps) }
{
    print_parts(
        page,
        &[
            Part::Tagged(
                b"<svg xmlns=\"http://www.w3.org/2000/svg\" width=\"",
                x_of(actors),
            ),
            Part::Down(b"\" height=\"", 80, steps),
            Part::Text(
                b"\">\n<rect width=\"100%\" height=\"100%\" style=\"fill:#fff;fill-opacity:1\"/>\n",
            ),
            Part::Text(style_text()),
            Part::Text(legend_text()),
        ],
    )
}

/// What stands before the figures.
pub(crate) fn print_frame(page: &mut Page, script: &Script, steps: usize) -> Result<(), NoMemory>
    requires { IsScript script.now }
    ensures { OnOk result (page.new ≡ page.old ++ frame_text script.now steps) }
{
    let actors = actor_count(script);
    print_frame_head(page, actors, steps)?;
    print_columns(page, script, steps, actors)
}
