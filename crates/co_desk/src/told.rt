//! What a call did, and the notes of it.
ghost use Rattle.std.specs.Prelude.{◌≡◌, is_some};
ghost use Rattle.std.specs.declared.option.Option.TheVariants.{Some};
ghost use Rattle.co_object.specs.declared.op.Op.TheVariants.{Call};
ghost use Rattle.co_object.specs.Group.{off_of};
ghost use Rattle.co_desk.specs.Call.{due_named, insertion_told, notes_with, noted_insert, notes_in, number_accepted, removal_told, told_notes};
ghost use Rattle.co_desk.specs.Outcomes.{noted_entry, noted_turn};

use crate::Made;
use co_object::{AnyEntry, CallOp, Entry, Note, Op, Place, PlainOp, QEntry, QOp, QReply, Reply};
use co_sbt::Sbt;
use co_wheel::CallOut;

/// An Insert that was written.
#[derive(Drop)]
pub struct Inserted {
    /// In whose queue the arming stands.
    pub(crate) cpu: u32,
    /// The arming's number.
    pub(crate) n: u64,
    /// When it is due.
    pub(crate) due: Sbt,
    /// The time at which it stands there.
    pub(crate) at: Sbt,
    /// Where the Insert stands in the journal.
    pub(crate) pos: u64,
}

/// What a call did, in few words: its reply, and where its entries stand. Its notes are made of this where they are wanted.
#[derive(Drop)]
pub struct Told {
    /// What the wheel answered. The reply names the queue that had an arming.
    pub(crate) out: CallOut,
    /// Where the Remove of that arming stands in the journal.
    pub(crate) removal: u64,
    /// Where the call's entry stands in the callout's history.
    pub(crate) entry: u64,
    /// The Insert of the new arming, where that stands in a queue.
    pub(crate) insertion: Option<Inserted>,
}

/// The number of the arming that a reply accepts.
#[inline(always)]
pub(crate) fn number(reply: &Reply) -> u64
    ensures { result ≡ number_accepted reply.now }
{
    match *reply {
        Reply::Armed { n, .. } => n,
        _ => 0,
    }
}

/// The due time that an operation names.
#[inline(always)]
pub(crate) fn time(op: &CallOp) -> Sbt
    ensures { result ≡ due_named op.now }
{
    match *op {
        CallOp::Plain(PlainOp::Reset { due, .. }) => due,
        CallOp::Plain(PlainOp::Schedule { due, .. }) => due,
        _ => Sbt::zero(),
    }
}

/// The note of an entry of a CPU's journal.
#[inline(always)]
pub(crate) fn turn_note(actor: u32, act: u64, cpu: u32, op: QOp, reply: QReply, pos: u64) -> Note
    ensures { result ≡ noted_turn actor act cpu op reply pos }
{
    Note {
        place: Place::Cpu(cpu),
        pos,
        entry: AnyEntry::Cpu(QEntry {
            actor,
            act,
            op,
            reply,
        }),
    }
}

/// The note of a call's entry.
#[inline(always)]
fn call_note(actor: u32, act: u64, i: u32, op: &CallOp, reply: &Reply, pos: u64) -> Note
    ensures { result ≡ noted_entry i (record { actor = actor; act = act; op = Call op.now; reply = reply.now }) pos }
{
    Note {
        place: Place::Timer(i),
        pos,
        entry: AnyEntry::Timer(Entry {
            actor,
            act,
            op: Op::Call(*op),
            reply: *reply,
        }),
    }
}

/// The note of what a call took out of a queue.
#[inline(always)]
fn removal_note(actor: u32, act: u64, i: u32, reply: &Reply, pos: u64) -> Option<Note>
    ensures { notes_with result ≡ removal_told actor act i (off_of reply.now) pos }
{
    let Some(cpu) = reply.off() else {
        return None;
    };
    let op = QOp::Remove { i };
    Some(turn_note(actor, act, cpu, op, QReply::Off, pos))
}

/// The note of what a call put in a queue.
#[inline(always)]
pub(crate) fn insertion_note(
    actor: u32,
    act: u64,
    i: u32,
    insertion: &Option<Inserted>,
) -> Option<Note>
    ensures { notes_with result ≡ insertion_told actor act i insertion.now }
{
    match insertion {
        None => None,
        Some(inserted) => Some(inserted.note(actor, act, i)),
    }
}

impl Inserted {
    /// The note of this Insert, of callout `i`.
    #[inline(always)]
    pub(crate) fn note(&self, actor: u32, act: u64, i: u32) -> Note
        ensures { result ≡ noted_insert actor act i self.now }
    {
        let op = QOp::Insert {
            i,
            n: self.n,
            t: self.due,
        };
        turn_note(actor, act, self.cpu, op, QReply::At(self.at), self.pos)
    }
}

impl Told {
    /// A place for what a call did, before it has done anything.
    #[inline(always)]
    pub fn none() -> Told {
        Told {
            out: CallOut::none(),
            removal: 0,
            entry: 0,
            insertion: None,
        }
    }

    /// The callout's reply.
    #[inline(always)]
    pub fn reply(&self) -> Reply
        ensures { result ≡ self.now.out.reply }
    {
        self.out.reply
    }

    /// What left has landed: its Insert is told too.
    #[inline(always)]
    pub fn tell_insert(&mut self, inserted: Inserted)
        ensures { self.new ≡ record self.old { insertion = Some inserted } }
    {
        self.insertion = Some(inserted);
    }

    /// Whether the call took an arming out of a queue.
    #[inline(always)]
    pub fn has_removal(&self) -> bool
        ensures { result ≡ is_some (off_of self.now.out.reply) }
    {
        self.out.reply.off().is_some()
    }

    /// Whether the call put an arming in a queue.
    #[inline(always)]
    pub fn has_insertion(&self) -> bool
        ensures { result ≡ is_some self.now.insertion }
    {
        self.insertion.is_some()
    }

    /// The note of what actor `actor`'s call in its act `act` on callout `i` took out of a queue, if it took anything.
    #[inline(always)]
    pub fn note_of_removal(&self, actor: u32, act: u64, i: u32) -> Option<Note>
        ensures { notes_with result ≡ removal_told actor act i (off_of self.now.out.reply) self.now.removal }
    {
        removal_note(actor, act, i, &self.out.reply, self.removal)
    }

    /// The note of that call's own entry.
    #[inline(always)]
    pub fn note_of_entry(&self, actor: u32, act: u64, i: u32, op: &CallOp) -> Note
        ensures { result ≡ noted_entry i (record { actor = actor; act = act; op = Call op.now; reply = self.now.out.reply }) self.now.entry }
    {
        call_note(actor, act, i, op, &self.out.reply, self.entry)
    }

    /// The note of what that call put in a queue, if it put in anything.
    #[inline(always)]
    pub fn note_of_insertion(&self, actor: u32, act: u64, i: u32) -> Option<Note>
        ensures { notes_with result ≡ insertion_told actor act i self.now.insertion }
    {
        insertion_note(actor, act, i, &self.insertion)
    }

    /// The answer of that call, note after note: what it took out of the queue, its entry, and what it put in.
    ///
    /// Inlined, the answer would be made in pieces, and these copied once for each caller in between.
    #[inline(never)]
    pub fn answer(&self, actor: u32, act: u64, i: u32, op: &CallOp) -> Made
        ensures reply { result.reply ≡ self.now.out.reply }
        ensures notes { notes_in result.notes ≡ told_notes actor act i op.now self.now }
    {
        let removal = self.note_of_removal(actor, act, i);
        let entry = self.note_of_entry(actor, act, i, op);
        let insertion = self.note_of_insertion(actor, act, i);
        Made {
            reply: self.out.reply,
            notes: [removal, Some(entry), insertion],
        }
    }
}
