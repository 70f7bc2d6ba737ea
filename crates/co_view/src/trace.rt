//! The text of `trace`: Chrome's trace format, which Perfetto and chrome://tracing open.
ghost use Rattle.std.specs.Prelude.{◌≡◌, ◌+◌, ◌*◌, ◌++◌, OnOk, flat_map, codes};
ghost use Rattle.std.specs.List.{range_with_len};
ghost use Rattle.co_program.specs.Scripts.{IsScript};
ghost use Rattle.co_program.specs.Actors.{actor_count};
ghost use Rattle.co_view.specs.Parts.{part_text};
ghost use Rattle.co_view.specs.Trace.{actor_lane, begin_text, arming_text, armed_begin, armed_text, callout_text, doing_word, effect_text, end_text, ends_armed, trace_events, flow_text, head_text, is_armed_reply, is_run, lane_head, note_event, opening_text, service_begin, service_text, text_if, timer_lane, timer_lanes, wait_text, wake_text, wakes};

use crate::parts::{Part, print_parts};
use crate::scene::{Watch, armed_by, watch_of};
use co_grammar::actor_name;
use co_object::{AnyEntry, Entry, Op, Place, Reply, RunOp};
use co_program::{Script, actor_count};
use co_report::Line;
use co_sbt::NoMemory;
use co_text::Page;

/// The beginning of a bar in a callout's lane: an arming's number, and what it is doing.
fn print_begin(
    page: &mut Page,
    lane: u64,
    step: usize,
    n: u64,
    doing: &Part,
) -> Result<(), NoMemory>
    ensures { OnOk result (page.new ≡ page.old ++ begin_text lane step (arming_text n (part_text doing.now))) }
{
    print_parts(
        page,
        &[
            Part::Text(b",\n{\"ph\":\"B\",\"pid\":1,\"tid\":"),
            Part::At(lane, step),
            Part::Tagged(b",\"name\":\"#", n),
            *doing,
            Part::Text(b"\"}"),
        ],
    )
}

fn print_armed_begin(page: &mut Page, i: u32, step: usize, reply: &Reply) -> Result<(), NoMemory>
    ensures { OnOk result (page.new ≡ page.old ++ armed_begin i step reply.now) }
{
    match *reply {
        Reply::Armed { n, cpu, .. } => {
            let doing = Part::Tagged(b" on CPU ", u64::from(cpu));
            print_begin(page, 2 * u64::from(i), step, n, &doing)
        }
        _ => Ok(()),
    }
}

fn is_armed_reply(reply: &Reply) -> bool
    ensures { result ≡ is_armed_reply reply.now }
{
    match reply {
        Reply::Armed { .. } => true,
        _ => false,
    }
}

/// Whether a bar of the lane `armed` ends with an entry: the arming goes, or another takes its place.
fn ends_armed(watch: Watch, entry: &Entry) -> bool
    ensures { result ≡ ends_armed watch entry.now }
{
    let stays = armed_by(watch.armed, &entry.op, &entry.reply);
    watch.armed && (is_armed_reply(&entry.reply) || !stays)
}

/// The end of a bar in a callout's lane, where a test passes.
fn print_end_if(page: &mut Page, ends: bool, lane: u64, step: usize) -> Result<(), NoMemory>
    ensures { OnOk result (page.new ≡ page.old ++ text_if ends (end_text lane step)) }
{
    if ends {
        print_parts(
            page,
            &[
                Part::Text(b",\n{\"ph\":\"E\",\"pid\":1,\"tid\":"),
                Part::At(lane, step),
                Part::Text(b"}"),
            ],
        )
    } else {
        Ok(())
    }
}

/// What happens in the lane `armed`.
fn print_armed(
    page: &mut Page,
    i: u32,
    step: usize,
    watch: Watch,
    entry: &Entry,
) -> Result<(), NoMemory>
    ensures { OnOk result (page.new ≡ page.old ++ armed_text i step watch entry.now) }
{
    print_end_if(page, ends_armed(watch, entry), 2 * u64::from(i), step)?;
    print_armed_begin(page, i, step, &entry.reply)
}

/// What an arming in service is doing.
fn doing_word(reply: &Reply) -> &'static [u8]
    ensures { result.now ≡ doing_word reply.now }
{
    match reply {
        Reply::Hold => b" waits for its lock",
        Reply::Skip => b" skipped",
        _ => b" in service",
    }
}

fn print_service_bar(
    page: &mut Page,
    i: u32,
    step: usize,
    n: u64,
    reply: &Reply,
) -> Result<(), NoMemory>
    ensures { OnOk result (page.new ≡ page.old ++ begin_text (2 * i + 1) step (arming_text n (doing_word reply.now))) }
{
    print_begin(
        page,
        2 * u64::from(i) + 1,
        step,
        n,
        &Part::Text(doing_word(reply)),
    )
}

fn print_service_begin(
    page: &mut Page,
    i: u32,
    step: usize,
    op: &Op,
    reply: &Reply,
) -> Result<(), NoMemory>
    ensures { OnOk result (page.new ≡ page.old ++ service_begin i step op.now reply.now) }
{
    match *op {
        Op::Run(RunOp::Pick { n, .. }) => print_service_bar(page, i, step, n, reply),
        Op::Run(RunOp::Begin { n, .. }) => print_service_bar(page, i, step, n, reply),
        _ => Ok(()),
    }
}

fn is_run(op: &Op) -> bool
    ensures { result ≡ is_run op.now }
{
    match op {
        Op::Run(_) => true,
        Op::Call(_) => false,
    }
}

/// What happens in the lane `in service`.
fn print_service(
    page: &mut Page,
    i: u32,
    step: usize,
    watch: Watch,
    entry: &Entry,
) -> Result<(), NoMemory>
    ensures { OnOk result (page.new ≡ page.old ++ service_text i step watch entry.now) }
{
    let ends = watch.serviced && is_run(&entry.op);
    print_end_if(page, ends, 2 * u64::from(i) + 1, step)?;
    print_service_begin(page, i, step, &entry.op, &entry.reply)
}

/// An end of the arrow from a drain's wait to the end that wakes it.
fn print_flow(
    page: &mut Page,
    head: &[u8],
    i: u32,
    n: u64,
    actor: u32,
    step: usize,
) -> Result<(), NoMemory>
    ensures { OnOk result (page.new ≡ page.old ++ flow_text head.now i n actor step) }
{
    print_parts(
        page,
        &[
            Part::Tagged(head, u64::from(i)),
            Part::Tagged(b".", n),
            Part::Text(b"\",\"pid\":2,\"tid\":"),
            Part::At(u64::from(actor), step),
            Part::Text(b"}"),
        ],
    )
}

fn print_wait(
    page: &mut Page,
    i: u32,
    actor: u32,
    step: usize,
    reply: &Reply,
) -> Result<(), NoMemory>
    ensures { OnOk result (page.new ≡ page.old ++ wait_text i actor step reply.now) }
{
    match *reply {
        Reply::Wait { n, .. } => print_flow(
            page,
            b",\n{\"ph\":\"s\",\"cat\":\"drain\",\"name\":\"drain\",\"id\":\"",
            i,
            n,
            actor,
            step,
        ),
        _ => Ok(()),
    }
}

/// Whether a reply wakes a drain.
pub(crate) fn wakes(reply: &Reply) -> bool
    ensures { result ≡ wakes reply.now }
{
    match reply {
        Reply::Ended { woke, .. } => *woke,
        _ => false,
    }
}

fn print_woken(page: &mut Page, i: u32, n: u64, actor: u32, step: usize) -> Result<(), NoMemory>
    ensures { OnOk result (page.new ≡ page.old ++ flow_text (codes ",\n{\"ph\":\"f\",\"bp\":\"e\",\"cat\":\"drain\",\"name\":\"drain\",\"id\":\"") i n actor step) }
{
    print_flow(
        page,
        b",\n{\"ph\":\"f\",\"bp\":\"e\",\"cat\":\"drain\",\"name\":\"drain\",\"id\":\"",
        i,
        n,
        actor,
        step,
    )
}

fn print_wake(
    page: &mut Page,
    i: u32,
    actor: u32,
    step: usize,
    op: &Op,
    reply: &Reply,
) -> Result<(), NoMemory>
    ensures { OnOk result (page.new ≡ page.old ++ wake_text i actor step op.now reply.now) }
{
    match *op {
        Op::Run(RunOp::End { n, .. }) => {
            if wakes(reply) {
                print_woken(page, i, n, actor, step)
            } else {
                Ok(())
            }
        }
        _ => Ok(()),
    }
}

/// What happens to a callout.
fn print_callout(
    page: &mut Page,
    i: u32,
    step: usize,
    watch: Watch,
    entry: &Entry,
) -> Result<(), NoMemory>
    ensures { OnOk result (page.new ≡ page.old ++ callout_text i step watch entry.now) }
{
    print_armed(page, i, step, watch, entry)?;
    print_service(page, i, step, watch, entry)?;
    print_wait(page, i, entry.actor, step, &entry.reply)?;
    print_wake(page, i, entry.actor, step, &entry.op, &entry.reply)
}

fn print_effect(
    page: &mut Page,
    step: usize,
    scene: &[Watch],
    place: Place,
    entry: &AnyEntry,
) -> Result<(), NoMemory>
    ensures { OnOk result (page.new ≡ page.old ++ effect_text step scene.now place entry.now) }
{
    match place {
        Place::Timer(i) => match entry {
            AnyEntry::Timer(entry) => print_callout(page, i, step, watch_of(scene, i), entry),
            _ => Ok(()),
        },
        _ => Ok(()),
    }
}

/// The event of a note.
fn print_event(page: &mut Page, step: usize, line: &Line) -> Result<(), NoMemory>
    ensures { OnOk result (page.new ≡ page.old ++ note_event step line.now) }
{
    print_parts(
        page,
        &[
            Part::Text(b",\n{\"ph\":\"X\",\"pid\":2,\"tid\":"),
            Part::At(u64::from(line.entry.actor()), step),
            Part::Text(b",\"dur\":1,\"name\":\""),
            Part::Note(line.place, &line.entry),
            Part::Tagged(b"\",\"args\":{\"line\":", line.line),
            Part::Tagged(b",\"act\":", line.entry.act()),
            Part::Text(b"}}"),
        ],
    )
}

/// The events of a note.
pub(crate) fn print_events(
    page: &mut Page,
    step: usize,
    scene: &[Watch],
    line: &Line,
) -> Result<(), NoMemory>
    ensures { OnOk result (page.new ≡ page.old ++ trace_events step scene.now line.now) }
{
    print_event(page, step, line)?;
    print_effect(page, step, scene, line.place, &line.entry)
}

/// The head of a lane's name.
fn begin_lane(page: &mut Page, process: u64, lane: u64) -> Result<(), NoMemory>
    ensures { OnOk result (page.new ≡ page.old ++ lane_head process lane) }
{
    print_parts(
        page,
        &[
            Part::Tagged(
                b",\n{\"ph\":\"M\",\"name\":\"thread_name\",\"pid\":",
                process,
            ),
            Part::Tagged(b",\"tid\":", lane),
            Part::Text(b",\"args\":{\"name\":\""),
        ],
    )
}

/// The name of a lane of a callout.
fn print_timer_lane(page: &mut Page, i: u32, lane: u64, what: &[u8]) -> Result<(), NoMemory>
    ensures { OnOk result (page.new ≡ page.old ++ timer_lane i lane what.now) }
{
    begin_lane(page, 1, lane)?;
    print_parts(
        page,
        &[
            Part::Tagged(b"timer ", u64::from(i)),
            Part::Text(what),
            Part::Text(b"\"}}"),
        ],
    )
}

/// The names of the lanes of a callout.
fn print_timer_lanes(page: &mut Page, i: u32) -> Result<(), NoMemory>
    ensures { OnOk result (page.new ≡ page.old ++ timer_lanes i) }
{
    print_timer_lane(page, i, 2 * u64::from(i), b" armed")?;
    print_timer_lane(page, i, 2 * u64::from(i) + 1, b" in service")
}

/// The name of an actor's lane.
fn print_actor_lane(page: &mut Page, script: &Script, actor: u32) -> Result<(), NoMemory>
    ensures { OnOk result (page.new ≡ page.old ++ actor_lane script.now actor) }
{
    let (letter, number) = actor_name(script, actor);
    begin_lane(page, 2, u64::from(actor))?;
    print_parts(
        page,
        &[Part::Tagged(&[letter], number), Part::Text(b"\"}}")],
    )
}

fn print_opening(page: &mut Page) -> Result<(), NoMemory>
    ensures { OnOk result (page.new ≡ page.old ++ opening_text) }
{
    page.text(
        b"{\"traceEvents\":[\n{\"ph\":\"M\",\"name\":\"process_name\",\"pid\":1,\"args\":{\"name\":\"callouts\"}},\n{\"ph\":\"M\",\"name\":\"process_name\",\"pid\":2,\"args\":{\"name\":\"actors\"}}",
    )
}

fn print_all_timers(page: &mut Page, timers: u32) -> Result<(), NoMemory>
    ensures { OnOk result (page.new ≡ page.old ++ flat_map timer_lanes (range_with_len 0 timers)) }
{
    for i in 0..timers {
        print_timer_lanes(page, i)?;
    }
    Ok(())
}

fn print_all_actors(page: &mut Page, script: &Script, actors: u32) -> Result<(), NoMemory>
    ensures { OnOk result (page.new ≡ page.old ++ flat_map (actor_lane script.now) (range_with_len 0 actors)) }
{
    for actor in 0..actors {
        print_actor_lane(page, script, actor)?;
    }
    Ok(())
}

/// What stands before the events of the notes: the names of the lanes.
pub(crate) fn print_head(page: &mut Page, script: &Script) -> Result<(), NoMemory>
    requires { IsScript script.now }
    ensures { OnOk result (page.new ≡ page.old ++ head_text script.now) }
{
    print_opening(page)?;
    print_all_timers(page, script.timers.as_slice().len() as u32)?;
    print_all_actors(page, script, actor_count(script))
}
