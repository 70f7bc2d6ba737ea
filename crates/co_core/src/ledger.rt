//! What is booked: each actor's cursor in its program, and how long each history is. The notes themselves are told to a listener.
ghost use Rattle.std.specs.Prelude.{◌≡◌, ℕ, ◌+◌, ◌<◌, ◌≤◌, ◌^◌, true, false, [], ◌∷◌, length, is_some, Some, IfOk, OnOk, MatchBool};
ghost use Rattle.std.specs.declared.option.Option.TheVariants.{None};
ghost use Rattle.co_object.specs.declared.queue.QOp.TheVariants.{Insert, Remove};
ghost use Rattle.co_object.specs.declared.queue.QReply.TheVariants.{At, Off};
ghost use Rattle.co_program.specs.declared.cursor.PendingInsert.{PendingInsert};
ghost use Rattle.co_object.specs.declared.state.State.{State};
ghost use Rattle.co_object.specs.Entries.{is_armed};
ghost use Rattle.co_object.specs.Stand.{off};
ghost use Rattle.co_object.specs.Queue.{Queue as TimerQueue};
ghost use Rattle.co_program.specs.Follows.{one_scan};
ghost use Rattle.co_core.specs.Noting.{FollowsWorld, HasWritten, IsNoteMade, IsNoteMadeIf, Listens, MayNote, MayWrite, MayWriteJournal};
ghost use Rattle.co_world.specs.Step.{callout_answers, own_note, queue_answers};
ghost use Rattle.co_core.specs.Written.{HasGoneOn, IsBooked, MayMove, booked_at};

mod boot;
mod holders;
mod waits;

use co_listener::Listener;
use co_object::{AnyEntry, Entry, Note, Op, OwnEntry, OwnKind, Place, QEntry, QOp, QReply, Reply};
use co_program::{Cursor, PendingInsert, Script, SilentStep, advance, go};
use co_sbt::{NoMemory, Sbt};
use holders::{Holders, rehold};
use std::marker::Model;

/// What is booked: each actor's cursor in its program, and how long each history is.
#[derive(Drop)]
pub(crate) struct Ledger {
    /// By actor: its cursor in its program.
    cursors: Vec<Cursor>,
    /// By lock: how many actors hold it.
    holders: Vec<Holders>,
    /// By callout: how many entries its history has.
    histories: Vec<u64>,
    /// By CPU: how many entries its journal has, and how many of them are Scans.
    journals: Vec<u64>,
    scans: Vec<u64>,
    /// By actor: how many notes of its own it has.
    own: Vec<u64>,
    /// How many notes there are.
    made: u64,
}

impl Model for Ledger {
    ghost use Rattle.co_core.specs.Written.{Booked};

    ghost Value = { Booked };

    ghost view = { λ b. record { cursors = b.cursors.items; histories = b.histories.items; journals = b.journals.items; scans = b.scans.items; own = b.own.items; made = b.made } };

    ghost use Rattle.co_core.specs.Holders.{AreHolders};

    ghost invariant = { λ b. AreHolders b.holders.items b.cursors.items };
}

/// Who makes a note: an actor, in the act of this number.
#[derive(Clone, Copy)]
pub(crate) struct Author {
    pub actor: u32,
    pub act: u64,
}

/// A number of notes that never fits into memory, so no count reaches it: 2^63.
const MOST: u64 = 0x8000_0000_0000_0000;

impl Ledger {
    /// The actor's cursor in its program.
    pub(crate) fn cursor(&self, actor: u32) -> &Cursor
        requires { actor < length self.now.cursors }
        ensures { result.now ≡ booked_at self.now actor }
    {
        &self.cursors[actor as usize]
    }

    /// What the actor's cursor has on its way.
    pub(crate) fn parcel(&self, actor: u32) -> Option<PendingInsert>
        requires { actor < length self.now.cursors }
        ensures { result ≡ (booked_at self.now actor).parcel }
    {
        let cursor = &self.cursors[actor as usize];
        cursor.parcel
    }

    /// The actor goes on in its program without a note.
    #[inline(always)]
    pub(crate) fn go(&mut self, script: &Script, actor: u32, to: &SilentStep)
        requires { MayMove script.now self.old actor to.now }
        ensures { HasGoneOn script.now actor to.now self.old self.new }
    {
        let cursor = &mut self.cursors[actor as usize];
        let from = cursor.hold;
        go(script, cursor, to);
        let hold = cursor.hold;
        rehold(&mut self.holders, from, hold);
    }

    /// Whether there are more notes than fit into memory.
    pub(crate) fn is_full(&self) -> bool
        ensures { MatchBool result (2 ^ 63 ≤ self.now.made) (self.now.made < 2 ^ 63) }
    {
        self.made >= MOST
    }

    /// The actor makes a note, of which the listener is told, and goes on in its program. `listed` is whether the callout stands
    /// in a queue now.
    // Inlined, as is `go`: what is booked is short beside the cost of a call.
    #[inline(always)]
    fn write<N: Listener>(
        &mut self,
        script: &Script,
        actor: u32,
        listener: &mut N,
        listed: bool,
        note: &Note,
    ) -> Result<(), NoMemory>
        requires may { MayNote script.now self.old actor }
        requires room { actor < N.actors listener.old }
        ensures booked { OnOk result (IsBooked script.now actor listed note.now self.old self.new) }
        ensures wrote { OnOk result (HasWritten N.has N.room actor (note.now ∷ []) self.old self.new listener.old listener.new) }
        ensures listens { Listens N.actors N.room 1 listener.old listener.new result }
    {
        listener.write(actor, note)?;
        let cursor = &mut self.cursors[actor as usize];
        // The checker knows the range of a number behind a reference once it is read.
        let _over = cursor.task;
        // The table of holders stays, since no note changes what the actor holds.
        advance(script, cursor, listed, note.place, &note.entry);
        self.made += 1;
        Ok(())
    }

    /// An entry in a callout's history. Where it accepts an arming, `listed` is whether the callout stands in a queue now.
    #[inline(always)]
    pub(crate) fn write_callout<N: Listener>(
        &mut self,
        script: &Script,
        author: Author,
        listener: &mut N,
        i: u32,
        op: &Op,
        reply: &Reply,
        listed: bool,
    ) -> Result<(), NoMemory>
        requires may { MayWrite script.now self.old author.actor }
        requires room { author.actor < N.actors listener.old }
        requires known { i < length script.now.timers }
        ensures made { OnOk result (IsNoteMade N.has N.room author.actor self.old self.new listener.old listener.new
            (λ notes. (state : State) → (is_armed reply.now ≡ true → listed ≡ is_some (off state)) → FollowsWorld script.now author.actor notes self.old self.new (λ w. callout_answers script.now w author.actor author.act i op.now (Some (state, reply.now))))) }
        ensures listens { Listens N.actors N.room 1 listener.old listener.new result }
    {
        let pos = self.histories[i as usize];
        self.histories[i as usize] = pos + 1;
        let note = Note {
            place: Place::Timer(i),
            pos,
            entry: AnyEntry::Timer(Entry {
                actor: author.actor,
                act: author.act,
                op: *op,
                reply: *reply,
            }),
        };
        self.write(script, author.actor, listener, listed, &note)
    }

    /// An entry in a CPU's journal.
    #[inline(always)]
    pub(crate) fn write_queue<N: Listener>(
        &mut self,
        script: &Script,
        author: Author,
        listener: &mut N,
        cpu: u32,
        op: QOp,
        reply: QReply,
    ) -> Result<(), NoMemory>
        requires may { MayWriteJournal script.now self.old author.actor cpu }
        requires room { author.actor < N.actors listener.old }
        ensures made { OnOk result (IsNoteMade N.has N.room author.actor self.old self.new listener.old listener.new
            (λ notes. (queue : TimerQueue) → FollowsWorld script.now author.actor notes self.old self.new (λ w. queue_answers script.now w author.actor author.act cpu op (Some (queue, reply))))) }
        ensures listens { Listens N.actors N.room 1 listener.old listener.new result }
    {
        let pos = self.journals[cpu as usize];
        self.journals[cpu as usize] = pos + 1;
        let scans = self.scans[cpu as usize];
        self.scans[cpu as usize] = scans + one_scan(&op);
        let note = Note {
            place: Place::Cpu(cpu),
            pos,
            entry: AnyEntry::Cpu(QEntry {
                actor: author.actor,
                act: author.act,
                op,
                reply,
            }),
        };
        self.write(script, author.actor, listener, false, &note)
    }

    /// Where a call takes an arming out of its queue, the Remove before its entry. The answer is how many notes that are.
    pub(crate) fn write_removal<N: Listener>(
        &mut self,
        script: &Script,
        author: Author,
        listener: &mut N,
        cpu: u32,
        i: u32,
        removed: bool,
    ) -> Result<u32, NoMemory>
        requires may { MayWriteJournal script.now self.old author.actor cpu }
        requires room { author.actor < N.actors listener.old }
        ensures made { IfOk result (λ number. IsNoteMadeIf N.has N.room author.actor self.old self.new listener.old listener.new number (removed ≡ false)
            (λ notes. (queue : TimerQueue) → removed ≡ true → FollowsWorld script.now author.actor notes self.old self.new (λ w. queue_answers script.now w author.actor author.act cpu (Remove i) (Some (queue, Off))))) }
        ensures listens { Listens N.actors N.room 1 listener.old listener.new result }
    {
        if !removed {
            return Ok(0);
        }
        self.write_queue(
            script,
            author,
            listener,
            cpu,
            QOp::Remove { i },
            QReply::Off,
        )?;
        Ok(1)
    }

    /// Where an arming has entered the queue of its CPU, the Insert that the actor's cursor has on its way. The answer is
    /// how many notes that are.
    pub(crate) fn write_insertion<N: Listener>(
        &mut self,
        script: &Script,
        actor: u32,
        listener: &mut N,
        at: Option<Sbt>,
    ) -> Result<u32, NoMemory>
        requires may { MayWrite script.now self.old actor }
        requires room { actor < N.actors listener.old }
        requires known { is_some at ≡ true → (parcel : PendingInsert) × ((booked_at self.old actor).parcel ≡ Some parcel) × (parcel.cpu < script.now.cpus) }
        ensures made { IfOk result (λ number. IsNoteMadeIf N.has N.room actor self.old self.new listener.old listener.new number (at ≡ None)
            (λ notes. (queue : TimerQueue) (parcel : PendingInsert) (t : ℕ) → at ≡ Some t → (booked_at self.old actor).parcel ≡ Some parcel →
            FollowsWorld script.now actor notes self.old self.new (λ w. queue_answers script.now w actor parcel.act parcel.cpu (Insert parcel.i parcel.n parcel.due) (Some (queue, At t))))) }
        ensures listens { Listens N.actors N.room 1 listener.old listener.new result }
    {
        let Some(at) = at else {
            return Ok(0);
        };
        let Some(parcel) = self.parcel(actor) else {
            return Ok(0);
        };
        self.write_landing(script, actor, listener, &parcel, at)?;
        Ok(1)
    }

    /// The Insert of a callout that comes to the CPU at which it is armed.
    pub(crate) fn write_landing<N: Listener>(
        &mut self,
        script: &Script,
        actor: u32,
        listener: &mut N,
        parcel: &PendingInsert,
        at: Sbt,
    ) -> Result<(), NoMemory>
        requires may { MayWriteJournal script.now self.old actor parcel.now.cpu }
        requires room { actor < N.actors listener.old }
        ensures made { OnOk result (IsNoteMade N.has N.room actor self.old self.new listener.old listener.new
            (λ notes. (queue : TimerQueue) → FollowsWorld script.now actor notes self.old self.new (λ w. queue_answers script.now w actor parcel.now.act parcel.now.cpu (Insert parcel.now.i parcel.now.n parcel.now.due) (Some (queue, At at))))) }
        ensures listens { Listens N.actors N.room 1 listener.old listener.new result }
    {
        let op = QOp::Insert {
            i: parcel.i,
            n: parcel.n,
            t: parcel.due,
        };
        let author = Author {
            actor,
            act: parcel.act,
        };
        self.write_queue(script, author, listener, parcel.cpu, op, QReply::At(at))
    }

    /// An entry of the actor's own: an act that came to no callout.
    pub(crate) fn write_own<N: Listener>(
        &mut self,
        script: &Script,
        author: Author,
        listener: &mut N,
        kind: OwnKind,
    ) -> Result<(), NoMemory>
        requires may { MayWrite script.now self.old author.actor }
        requires room { author.actor < N.actors listener.old }
        ensures made { OnOk result (IsNoteMade N.has N.room author.actor self.old self.new listener.old listener.new
            (λ notes. FollowsWorld script.now author.actor notes self.old self.new (λ w. own_note script.now w author.actor author.act kind))) }
        ensures listens { Listens N.actors N.room 1 listener.old listener.new result }
    {
        let Author { actor, act } = author;
        let pos = self.own[actor as usize];
        self.own[actor as usize] = pos + 1;
        let entry = OwnEntry { actor, act, kind };
        let note = Note {
            place: Place::Actor(actor),
            pos,
            entry: AnyEntry::Own(entry),
        };
        self.write(script, actor, listener, false, &note)
    }
}

fn one_scan(op: &QOp) -> u64
    ensures scans { result ≡ one_scan op.now }
    ensures few { result ≤ 1 }
{
    match op {
        QOp::Scan { .. } => 1,
        _ => 0,
    }
}
