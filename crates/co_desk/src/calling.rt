//! What a call writes in the books of a desk.
ghost use Rattle.std.specs.Prelude.{◌≡◌, ℕ, ◌++◌, List, is_some, true};
ghost use Rattle.std.specs.declared.option.Option.TheVariants.{Some, None};
ghost use Rattle.co_object.specs.Callout.{call};
ghost use Rattle.co_object.specs.Group.{off_of};
ghost use Rattle.co_desk.specs.Books.{is_kept};
ghost use Rattle.co_desk.specs.Call.{call_entry, insert_turns};
ghost use Rattle.co_desk.specs.Desk.{Owes};
ghost use Rattle.co_desk.specs.May.{state_at};
ghost use Rattle.co_wheel.specs.Cpu.{Cpu};
ghost use Rattle.co_wheel.specs.Turns.{Turn, removal};
ghost use Rattle.co_desk.specs.Written.{AreTogether, IsEntryWritten, IsGroupWritten, IsInsertionWritten, IsRemovalWritten, MayAnswer};

use crate::books::Books;
use crate::desk::write_turn;
use crate::places::Places;
use crate::told::{Inserted, Told, number, time};
use crate::{Name, Passes};
use co_object::{CallOp, Entry, Op, QOp, QReply, Reply};
use co_sbt::Sbt;

/// Where a call took an arming out of the queue, the Remove before its entry. It gives its position.
#[inline(always)]
pub(crate) fn write_removal<N: Name>(
    books: &mut Books<N>,
    places: &Places,
    passes: &mut Passes,
    act: u64,
    i: u32,
    reply: &Reply,
    removed: bool,
) -> u64
    requires together { AreTogether N.name places.now passes.old books.old }
    requires removed { removed ≡ is_some (off_of reply.now) }
    requires here { (x : ℕ) → off_of reply.now ≡ Some x → x ≡ books.old.cpu }
    requires owes { (turns : List Turn) × (w : Cpu) × Owes (removal i (off_of reply.now) ++ turns) w books.old }
    ensures { IsRemovalWritten passes.old books.old act i (off_of reply.now) result passes.new books.new }
{
    if !removed {
        return 0;
    }
    let op = QOp::Remove { i };
    write_turn(books, places, passes, act, op, QReply::Off)
}

/// The entry of a call. It gives its position.
#[inline(always)]
pub(crate) fn write_call<N: Name>(
    books: &mut Books<N>,
    places: &Places,
    passes: &mut Passes,
    act: u64,
    i: u32,
    op: &CallOp,
    reply: &Reply,
) -> u64
    requires together { AreTogether N.name places.now passes.old books.old }
    requires here { is_kept books.old i ≡ true }
    requires reply { reply.now ≡ (call (state_at books.old i) op.now).1 }
    ensures { IsEntryWritten passes.old books.old i (call_entry passes.old act op.now reply.now) result passes.new books.new }
{
    let entry = Entry {
        actor: passes.actor(),
        act,
        op: Op::Call(*op),
        reply: *reply,
    };
    books.write_timer(places, passes, i, &entry)
}

/// Where the queue has an accepted arming, the Insert after its entry.
#[inline(always)]
pub(crate) fn write_insertion<N: Name>(
    books: &mut Books<N>,
    places: &Places,
    passes: &mut Passes,
    act: u64,
    i: u32,
    n: u64,
    due: Sbt,
    inserted: Option<Sbt>,
) -> Option<Inserted>
    requires together { AreTogether N.name places.now passes.old books.old }
    requires owes { (w : Cpu) × Owes (insert_turns i n due inserted) w books.old }
    ensures { IsInsertionWritten passes.old books.old act i n due inserted result passes.new books.new }
{
    let Some(at) = inserted else {
        return None;
    };
    let cpu = books.cpu();
    let op = QOp::Insert { i, n, t: due };
    let pos = write_turn(books, places, passes, act, op, QReply::At(at));
    Some(Inserted {
        cpu,
        n,
        due,
        at,
        pos,
    })
}

/// What a call did, entry after entry: what it took out of the queue, its own, and what it put in. Where these stand goes to its
/// place.
#[inline(always)]
pub(crate) fn write_group<N: Name>(
    books: &mut Books<N>,
    places: &Places,
    passes: &mut Passes,
    act: u64,
    i: u32,
    op: &CallOp,
    told: &mut Told,
)
    requires together { AreTogether N.name places.now passes.old books.old }
    requires may { MayAnswer books.old i op.now told.old.out }
    ensures { IsGroupWritten passes.old books.old act i op.now told.old told.new passes.new books.new }
{
    let removed = told.out.removed;
    let removal = write_removal(books, places, passes, act, i, &told.out.reply, removed);
    let entry = write_call(books, places, passes, act, i, op, &told.out.reply);
    let n = number(&told.out.reply);
    let due = time(op);
    let inserted = told.out.inserted;
    let insertion = write_insertion(books, places, passes, act, i, n, due, inserted);
    told.removal = removal;
    told.entry = entry;
    told.insertion = insertion;
}
