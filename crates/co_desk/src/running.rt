//! What a service writes in the books of a desk.
ghost use Rattle.std.specs.Prelude.{◌≡◌, IfSome, true};
ghost use Rattle.std.specs.Option.{option_map};
ghost use Rattle.std.specs.declared.option.Option.TheVariants.{Some, None};
ghost use Rattle.co_object.specs.declared.op.Op.TheVariants.{Run};
ghost use Rattle.co_desk.specs.Books.{is_kept};
ghost use Rattle.co_desk.specs.Desk.{Owes};
ghost use Rattle.co_desk.specs.May.{MayHappen};
ghost use Rattle.co_desk.specs.Outcomes.{noted_entry};
ghost use Rattle.co_desk.specs.Params.{actors_of};
ghost use Rattle.co_desk.specs.Services.{MayPick, next_due, next_number, run_entry};
ghost use Rattle.co_desk.specs.Serving.{lane_actor};
ghost use Rattle.co_wheel.specs.Cpu.{Cpu};
ghost use Rattle.co_wheel.specs.Callouts.{in_service, is_here};
ghost use Rattle.co_wheel.specs.Next.{next_out, popping};
ghost use Rattle.co_wheel.specs.Turns.{free_of, pop_of};
ghost use Rattle.co_desk.specs.Written.{AreTogether, IsEntryWritten, IsTakingWritten};

use crate::books::Books;
use crate::desk::write_turn;
use crate::places::Places;
use crate::popped::Popped;
use crate::{Name, Passes};
use co_bucket::WheelQueue;
use co_object::{AnyEntry, Entry, Note, Op, Place, QOp, QReply, Reply, RunOp};
use co_sbt::Sbt;
use co_wheel::{Started, Wheel};

/// The entry of a service's operation. It gives its position.
#[inline(always)]
pub(crate) fn enter_run<N: Name>(
    books: &mut Books<N>,
    places: &Places,
    passes: &mut Passes,
    act: u64,
    i: u32,
    op: &RunOp,
    reply: &Reply,
) -> u64
    requires together { AreTogether N.name places.now passes.old books.old }
    requires here { is_kept books.old i ≡ true }
    requires may { MayHappen books.old i (run_entry passes.old act op.now reply.now) }
    ensures { IsEntryWritten passes.old books.old i (run_entry passes.old act op.now reply.now) result passes.new books.new }
{
    let entry = Entry {
        actor: passes.actor(),
        act,
        op: Op::Run(*op),
        reply: *reply,
    };
    books.write_timer(places, passes, i, &entry)
}

/// The note of the entry of a service's operation.
#[inline(always)]
pub(crate) fn run_note(actor: u32, act: u64, i: u32, op: &RunOp, reply: &Reply, pos: u64) -> Note
    ensures { result ≡ noted_entry i (record { actor = actor; act = act; op = Run op.now; reply = reply.now }) pos }
{
    Note {
        place: Place::Timer(i),
        pos,
        entry: AnyEntry::Timer(Entry {
            actor,
            act,
            op: Op::Run(*op),
            reply: *reply,
        }),
    }
}

/// The queue's operation that takes from a lane.
#[inline(always)]
pub(crate) fn pop(direct: bool) -> QOp
    ensures { result ≡ pop_of direct }
{
    if direct { QOp::PopDirect } else { QOp::Pop }
}

/// What a wheel took into service: the Pop, and the Pick of an arming.
#[inline(always)]
pub(crate) fn write_taken<N: Name>(
    books: &mut Books<N>,
    places: &Places,
    passes: &mut Passes,
    act: u64,
    direct: bool,
    out: Option<Started>,
) -> Popped
    requires together { AreTogether N.name places.now passes.old books.old }
    requires actor { passes.old.actor ≡ lane_actor direct (actors_of books.old.params) books.old.cpu }
    requires owes { (w : Cpu) × Owes (popping direct (next_out out)) w books.old }
    requires may { MayPick books.old passes.old act (next_out out) }
    ensures { IsTakingWritten direct passes.old books.old act (next_out out) result passes.new books.new }
{
    let op = pop(direct);
    match out {
        None => {
            let pop = write_turn(books, places, passes, act, op, QReply::Empty);
            Popped::Empty { pop }
        }
        Some(started) => {
            let (i, n, at) = (started.i, started.n, started.at);
            let got = QReply::Got { i, n, at };
            let pop = write_turn(books, places, passes, act, op, got);
            let cpu = books.cpu();
            let picks = RunOp::Pick { n, cpu, at };
            let said = started.reply.reply();
            let pick = enter_run(books, places, passes, act, i, &picks, &said);
            Popped::Took {
                i,
                n,
                at,
                reply: started.reply,
                pop,
                pick,
            }
        }
    }
}

/// The queue's operation that frees a lane.
#[inline(always)]
pub(crate) fn free(direct: bool) -> QOp
    ensures { result ≡ free_of direct }
{
    if direct { QOp::FreeDirect } else { QOp::Free }
}

/// What is in service, of the CPU or of its interrupt where `direct`. Its record is here.
#[inline(always)]
pub(crate) fn serviced(wheel: &Wheel<WheelQueue>, direct: bool) -> Option<(u32, u64)>
    ensures which { option_map (λ d. record { i = d.0; n = d.1 }) result ≡ in_service direct wheel.now.callouts }
    ensures here { IfSome result (λ d. is_here wheel.now.callouts d.0 ≡ true) }
{
    if direct {
        wheel.directing()
    } else {
        wheel.serving()
    }
}

/// The number and the due time of the arming that waited for an end.
#[inline(always)]
pub(crate) fn waited(reply: &Reply) -> (u64, Sbt)
    ensures number { result.0 ≡ next_number reply.now }
    ensures due { result.1 ≡ next_due reply.now }
{
    match *reply {
        Reply::Ended {
            next: Some(next),
            ..
        } => (next.n, next.due),
        _ => (0, Sbt::zero()),
    }
}
