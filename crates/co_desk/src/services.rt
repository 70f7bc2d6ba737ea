//! The sections of a desk in which a callout is serviced, and its landing.
ghost use Rattle.std.specs.Prelude.{◌≡◌, ◌≢◌, ◌<◌, ◌⊎◌, IfErr, IfOk, false, nat_lt, true};
ghost use Rattle.std.specs.declared.option.Option.TheVariants.{Some, None};
ghost use Rattle.co_object.specs.declared.queue.QOp.TheVariants.{Insert};
ghost use Rattle.co_object.specs.declared.queue.QReply.TheVariants.{At};
ghost use Rattle.co_object.specs.Journal.{reply_of, step};
ghost use Rattle.co_object.specs.Queue.{Due};
ghost use Rattle.co_desk.specs.Desk.{scans_in};
ghost use Rattle.co_desk.specs.May.{queue_at_desk};
ghost use Rattle.co_desk.specs.Outcomes.{queue_entry_by};
ghost use Rattle.co_desk.specs.Params.{directs};
ghost use Rattle.co_desk.specs.Services.{IsBegun, IsFree, IsLanded, IsServing};
ghost use Rattle.co_desk.specs.Serving.{Runs, Waits};
ghost use Rattle.co_desk.specs.Written.{AreHere, AreTogether, IsTurnWritten};
ghost use Rattle.co_desk.specs.Asked.{Answers, AnswersEnd, IsStarted};
ghost use Rattle.co_wheel.specs.Callouts.{is_serviced};

use crate::books::Books;
use crate::desk::{Desk, write_turn};
use crate::finished::Finished;
use crate::moving::{Moving, depart};
use crate::places::Places;
use crate::popped::Popped;
use crate::running::{enter_run, free, run_note, serviced, waited, write_taken};
use crate::told::Inserted;
use crate::{Made, Name, Passes};
use co_object::{QOp, QReply, RunOp};
use co_sbt::Sbt;

/// Writes that arming `n` of callout `i` has come into the queue, and tells of it.
#[inline(always)]
fn write_landed<N: Name>(
    books: &mut Books<N>,
    places: &Places,
    passes: &mut Passes,
    act: u64,
    i: u32,
    n: u64,
    t: Sbt,
    at: Sbt,
) -> Inserted
    requires together { AreTogether N.name places.now passes.old books.old }
    requires possible { reply_of (step books.old.params.buckets (directs books.old.params) (queue_at_desk books.old) (Insert i n t)) ≡ Some (At at) }
    ensures told { result ≡ record { cpu = books.old.cpu; n = n; due = t; at = at; pos = result.pos } }
    ensures written { IsTurnWritten passes.old books.old (queue_entry_by passes.old act (Insert i n t) (At at)) result.pos passes.new books.new }
{
    let cpu = books.cpu();
    let op = QOp::Insert { i, n, t };
    let pos = write_turn(books, places, passes, act, op, QReply::At(at));
    Inserted {
        cpu,
        n,
        due: t,
        at,
        pos,
    }
}

impl<N: Name> Desk<N> {
    /// Whether the journal has fewer Scans.
    #[inline(always)]
    pub fn lacks(&self, scans: u64) -> bool
        ensures { result ≡ nat_lt (scans_in self.now.journal) scans }
    {
        self.scans < scans
    }

    /// Whether this CPU or its interrupt has this arming of callout `i` in service, by the journal.
    #[inline(always)]
    pub fn services(&self, i: u32, n: u64) -> bool
        ensures { result ≡ is_serviced (queue_at_desk self.now).serving (queue_at_desk self.now).directing i n }
    {
        self.wheel.services(i, n)
    }

    /// The first callout that has come due goes into service: of this CPU, or of its interrupt where `direct`. None where
    /// the desk is of another CPU, or its journal has fewer Scans yet, and there alone.
    #[inline(always)]
    pub fn next(
        &mut self,
        places: &Places,
        passes: &mut Passes,
        cpu: u32,
        act: u64,
        scans: u64,
        direct: bool,
    ) -> Option<Popped>
        requires service { AreHere N.name places.now passes.old }
        requires free { IsFree direct passes.old cpu }
        ensures { Answers passes.old result ((self.old.cpu ≢ cpu) ⊎ (scans_in self.old.journal < scans)) (λ out. IsStarted direct passes.old cpu act scans out passes.new) passes.new }
    {
        if self.books.cpu() != cpu {
            return None;
        }
        if self.lacks(scans) {
            return None;
        }
        self.books.meet(places, passes);
        let out = self.wheel.start(direct);
        Some(write_taken(&mut self.books, places, passes, act, direct, out))
    }

    /// The lock of the callout that this CPU has in service is held. None where the desk is of another CPU, and there
    /// alone.
    #[inline(always)]
    pub fn begin(
        &mut self,
        places: &Places,
        passes: &mut Passes,
        cpu: u32,
        act: u64,
    ) -> Option<Made>
        requires service { AreHere N.name places.now passes.old }
        requires serves { (d : Due) × IsServing false passes.old cpu d (Waits d.n) }
        ensures { Answers passes.old result (self.old.cpu ≢ cpu) (λ out. (d : Due) → IsServing false passes.old cpu d (Waits d.n) → IsBegun passes.old cpu act d out passes.new) passes.new }
    {
        if self.books.cpu() != cpu {
            return None;
        }
        self.books.meet(places, passes);
        let Some((i, n)) = serviced(&self.wheel, false) else {
            unreachable!()
        };
        self.books.meet_timer(places, passes, i);
        let reply = self.wheel.begin();
        let op = RunOp::Begin { n, cpu };
        let actor = passes.actor();
        let pos = enter_run(&mut self.books, places, passes, act, i, &op, &reply);
        let note = run_note(actor, act, i, &op, &reply, pos);
        Some(Made {
            reply,
            notes: [Some(note), None, None],
        })
    }

    /// The service is over: of this CPU, or of its interrupt where `direct`. What was done goes to its place, and so does the callout where
    /// it leaves for another CPU. False where the desk is of another CPU, and there alone.
    #[inline(always)]
    pub fn end(
        &mut self,
        places: &Places,
        passes: &mut Passes,
        cpu: u32,
        act: u64,
        direct: bool,
        told: &mut Finished,
        gone: &mut Option<Moving<N>>,
    ) -> bool
        requires service { AreHere N.name places.now passes.old }
        requires serves { (d : Due) × IsServing direct passes.old cpu d (Runs d.n) }
        requires none { gone.old ≡ None }
        ensures { AnswersEnd direct passes.old cpu act result (self.old.cpu ≢ cpu) told.new gone.new passes.new }
    {
        if self.books.cpu() != cpu {
            return false;
        }
        self.books.meet(places, passes);
        let Some((i, n)) = serviced(&self.wheel, direct) else {
            unreachable!()
        };
        self.books.meet_timer(places, passes, i);
        self.wheel.end_into(direct, &mut told.out);
        let op = RunOp::End { n, cpu };
        let entry = enter_run(
            &mut self.books,
            places,
            passes,
            act,
            i,
            &op,
            &told.out.reply,
        );
        let freed = write_turn(
            &mut self.books,
            places,
            passes,
            act,
            free(direct),
            QReply::Freed,
        );
        let (next, due) = waited(&told.out.reply);
        depart(&mut self.books, &mut told.out.leaves, next, due, gone);
        told.tell(direct, cpu, i, n, entry, freed);
        true
    }

    /// A callout comes here that is armed at this CPU. It is handed back where the desk is another CPU's, or has no such
    /// number, or has it.
    pub fn land(
        &mut self,
        places: &Places,
        passes: &mut Passes,
        act: u64,
        moving: Moving<N>,
    ) -> Result<Inserted, Moving<N>>
        requires service { AreHere N.name places.now passes.old }
        requires params { moving.params ≡ passes.old.params }
        ensures back { IfErr result (λ m. (m ≡ moving) × (passes.new ≡ passes.old)) }
        ensures landed { IfOk result (λ x. IsLanded passes.old act moving.i moving.target x passes.new) }
    {
        let i = moving.callout();
        let cpu = moving.cpu();
        if self.books.cpu() != cpu || self.books.size() <= i as usize || self.books.has(i) {
            return Err(moving);
        }
        self.books.meet(places, passes);
        let n = moving.n;
        let t = moving.due;
        let at = self.wheel.land(moving.parcel);
        self.books.put(i, moving.keeper);
        Ok(write_landed(&mut self.books, places, passes, act, i, n, t, at))
    }
}
