//! Whether a note is what an actor asks for.
ghost use Rattle.std.specs.Prelude.{◌≡◌, Option};
ghost use Rattle.co_program.specs.declared.script.Script.{Script};
ghost use Rattle.co_program.specs.declared.cursor.Cursor.{Cursor};
ghost use Rattle.co_program.specs.Indexed.{action_of};
ghost use Rattle.co_check.specs.Asking.{asks, asks_callout, asks_itself, asks_queue};
ghost use Rattle.co_check.specs.Same.{same_number};

use crate::same::{same_answer, same_kind, same_op, same_queue_op};
use co_object::{AnyEntry, Op, OwnKind, Place, QOp, QReply};
use co_program::{Action, Asked};

/// Whether an entry in this place is what the action asks for. `removed` is the CPU from whose queue the call under way has
/// just removed its callout.
pub(crate) fn asks(
    actor: u32,
    removed: Option<u32>,
    action: &Action,
    place: Place,
    entry: &AnyEntry,
) -> bool
    ensures { (s : Script) (c : Cursor) → result ≡ asks actor removed (action_of s actor c action.now) place entry.now }
{
    match action {
        Action::Asks { act, asked } => match asked {
            Asked::Callout { i, op } => asks_callout(actor, *act, *i, op, removed, place, entry),
            Asked::Queue { cpu, op } => asks_queue(actor, *act, *cpu, op, place, entry),
            Asked::Itself(kind) => asks_itself(actor, *act, *kind, place, entry),
        },
        Action::Nothing => false,
        Action::Silent(_) => false,
        Action::Take { .. } => false,
    }
}

/// An entry of a callout, or before that of a call its removal from a queue.
fn asks_callout(
    actor: u32,
    act: u64,
    i: u32,
    op: &Op,
    removed: Option<u32>,
    place: Place,
    entry: &AnyEntry,
) -> bool
    ensures { result ≡ asks_callout actor act i op.now removed place entry.now }
{
    match (op, place, entry) {
        (Op::Call(_), Place::Timer(j), AnyEntry::Timer(e)) => {
            j == i
                && e.actor == actor
                && e.act == act
                && same_op(&e.op, op)
                && same_number(e.reply.off(), removed)
        }
        (Op::Call(_), Place::Cpu(_), AnyEntry::Cpu(e)) => {
            same_number(removed, None)
                && e.actor == actor
                && e.act == act
                && same_queue_op(&e.op, &QOp::Remove { i })
                && same_answer(&e.reply, &QReply::Off)
        }
        (Op::Run(_), Place::Timer(j), AnyEntry::Timer(e)) => {
            j == i && e.actor == actor && e.act == act && same_op(&e.op, op)
        }
        _ => false,
    }
}

/// An entry of a CPU's journal.
fn asks_queue(actor: u32, act: u64, cpu: u32, op: &QOp, place: Place, entry: &AnyEntry) -> bool
    ensures { result ≡ asks_queue actor act cpu op.now place entry.now }
{
    match (place, entry) {
        (Place::Cpu(x), AnyEntry::Cpu(e)) => {
            x == cpu && e.actor == actor && e.act == act && same_queue_op(&e.op, op)
        }
        _ => false,
    }
}

/// A note of the actor's own.
fn asks_itself(actor: u32, act: u64, kind: OwnKind, place: Place, entry: &AnyEntry) -> bool
    ensures { result ≡ asks_itself actor act kind place entry.now }
{
    match (place, entry) {
        (Place::Actor(b), AnyEntry::Own(e)) => {
            b == actor && e.actor == actor && e.act == act && same_kind(e.kind, kind)
        }
        _ => false,
    }
}

fn same_number(a: Option<u32>, b: Option<u32>) -> bool
    ensures { result ≡ same_number a b }
{
    a == b
}
