//! What one lock guards.
ghost use Rattle.std.specs.Prelude.{◌≡◌, ◌≢◌, ◌<◌, false, true};
ghost use Rattle.std.specs.declared.option.Option.TheVariants.{Some, None};
ghost use Rattle.co_object.specs.Journal.{scanner, step, reply_of, IsOfItsActor};
ghost use Rattle.co_desk.specs.Books.{AreBooks, books_of, is_kept};
ghost use Rattle.co_desk.specs.Desk.{IsDesk};
ghost use Rattle.co_desk.specs.Params.{actors_of, directs};
ghost use Rattle.co_desk.specs.May.{queue_at_desk};
ghost use Rattle.co_desk.specs.Moving.{IsTried};
ghost use Rattle.co_desk.specs.Outcomes.{IsScan, queue_entry_by};
ghost use Rattle.co_desk.specs.Written.{AreHere, AreTogether, IsTurnWritten};
ghost use Rattle.co_desk.specs.Asked.{Answers};

use crate::books::Books;
use crate::calling::write_group;
use crate::moving::{Moving, depart};
use crate::places::Places;
use crate::told::{Told, number, time, turn_note};
use crate::{CpuStory, Name, Params, Passes, Scanned, TimerStory};
use co_bucket::WheelQueue;
use co_life::{Keeper, Shown};
use co_object::{CallOp, QEntry, QOp, QReply};
use co_queue::Looks;
use co_sbt::Sbt;
use co_wheel::Wheel;
use std::marker::{Model, PhantomData};

/// What one lock guards: a CPU's wheel, the journal of its timer queue, and the histories of the callouts that stand there.
///
/// Each record's state is what its history gives, and the queue, with what is in service, stands for the plain queue after
/// the journal. A callout's service and its listed arming are at this CPU.
#[derive(Drop)]
pub struct Desk<N: Name> {
    pub(crate) wheel: Wheel<WheelQueue>,
    pub(crate) books: Books<N>,
    /// How many Scans the journal has. The count stands still at 2^64 - 1.
    pub(crate) scans: u64,
}

impl<N: Name> Model for Desk<N> {
    ghost use Rattle.co_desk.specs.Books.{BooksView};
    ghost use Rattle.co_desk.specs.Desk.{IsDesk};

    ghost Value = { BooksView };

    ghost view = { λ d. d.books };

    ghost invariant = { λ d. IsDesk d.wheel d.books d.scans };
}

/// Writes what the queue did next, and gives its position.
#[inline(always)]
pub(crate) fn write_turn<N: Name>(
    books: &mut Books<N>,
    places: &Places,
    passes: &mut Passes,
    act: u64,
    op: QOp,
    reply: QReply,
) -> u64
    requires together { AreTogether N.name places.now passes.old books.old }
    requires possible { reply_of (step books.old.params.buckets (directs books.old.params) (queue_at_desk books.old) op) ≡ Some reply }
    requires actor { IsOfItsActor (actors_of books.old.params) books.old.cpu passes.old.actor op }
    ensures { IsTurnWritten passes.old books.old (queue_entry_by passes.old act op reply) result passes.new books.new }
{
    let entry = QEntry {
        actor: passes.actor(),
        act,
        op,
        reply,
    };
    books.write(places, passes, &entry)
}

impl<N: Name> Desk<N> {
    /// A desk of a wheel and of the histories that it shows, whose journal has no Scan yet.
    pub fn new(
        cpu: u32,
        params: &Params,
        wheel: Wheel<WheelQueue>,
        keepers: Vec<Option<Keeper<TimerStory>>>,
        journal: Keeper<CpuStory>,
    ) -> Desk<N>
        requires books { AreBooks N.name params.now cpu keepers.items journal }
        requires desk { IsDesk wheel (books_of params.now cpu keepers.items journal) 0 }
        ensures { result ≡ books_of params.now cpu keepers.items journal }
    {
        let books = Books {
            cpu,
            params: Shown::of(params),
            keepers,
            journal,
            of: PhantomData,
        };
        Desk {
            wheel,
            books,
            scans: 0,
        }
    }

    /// The desk's CPU.
    #[inline(always)]
    pub fn cpu(&self) -> u32
        ensures { result ≡ self.now.cpu }
    {
        self.books.cpu()
    }

    /// The books, where nothing else is wanted any more.
    pub fn into_books(self) -> Books<N> {
        self.books
    }

    /// What is due at this CPU has come due. None where the desk is of another CPU, and there alone.
    #[inline(always)]
    pub fn scan(
        &mut self,
        places: &Places,
        passes: &mut Passes,
        cpu: u32,
        act: u64,
        now: Sbt,
    ) -> Option<Scanned>
        requires service { AreHere N.name places.now passes.old }
        requires scanner { passes.old.actor ≡ scanner (actors_of passes.old.params) cpu }
        ensures { Answers passes.old result (self.old.cpu ≢ cpu) (λ out. IsScan passes.old cpu act now out passes.new) passes.new }
    {
        if self.books.cpu() != cpu {
            return None;
        }
        self.books.meet(places, passes);
        let mut looks = Looks::new();
        let count = self.wheel.scan(now, &mut looks);
        let op = QOp::Scan { now };
        let actor = passes.actor();
        let pos = write_turn(
            &mut self.books,
            places,
            passes,
            act,
            op,
            QReply::Count(count),
        );
        self.scans = self.scans.saturating_add(1);
        Some(Scanned {
            count,
            note: turn_note(
                actor,
                act,
                cpu,
                QOp::Scan { now },
                QReply::Count(count),
                pos,
            ),
            looks: looks.count(),
        })
    }

    /// A caller's operation on callout `i`. What it did goes to its place, and so does the callout where it leaves for another CPU.
    /// False where it isn't here, and there alone.
    #[inline(always)]
    pub fn call(
        &mut self,
        places: &Places,
        passes: &mut Passes,
        act: u64,
        i: u32,
        op: &CallOp,
        told: &mut Told,
        gone: &mut Option<Moving<N>>,
    ) -> bool
        requires service { AreHere N.name places.now passes.old }
        requires none { gone.old ≡ None }
        ensures why { result ≡ false → is_kept self.old i ≡ false }
        ensures tried { IsTried passes.old act i op.now result told.new gone.new passes.new }
    {
        if !self.books.has(i) {
            return false;
        }
        self.books.meet(places, passes);
        self.wheel.call_into(i, op, &mut told.out);
        write_group(&mut self.books, places, passes, act, i, op, told);
        let n = number(&told.out.reply);
        depart(&mut self.books, &mut told.out.leaves, n, time(op), gone);
        true
    }
}
