//! A note in few bytes.
ghost use Rattle.std.specs.Prelude.{◌≡◌};
ghost use Rattle.co_object.specs.declared.note.AnyEntry.TheVariants as entries;
ghost use Rattle.co_object.specs.Lists.{act_of, actor_of};
ghost use Rattle.co_packed.specs.Halves.{op_in, reply_in};
ghost use Rattle.co_packed.specs.Parts.{entry_of, place_of};
ghost use Rattle.co_packed.specs.Typed.{EntryTyped};

use crate::halves::{AnyOp, AnyReply};
use crate::kinds::{Sort, Whose};
use crate::operations::{op_of, op_parts, queue_op_of, queue_op_parts};
use crate::replies::{queue_reply_of, queue_reply_parts, reply_of, reply_parts};
use crate::typed::entry_is_typed;
use crate::words::{OpWords, ReplyWords, no_op_words, no_reply_words};
use co_object::{AnyEntry, Entry, Note, OwnEntry, Place, QEntry};
use co_sbt::Sbt;
use std::marker::Model;

/// A note in 88 bytes, where a [`Note`] has 160: numbers that every operation and every reply shares, and their kinds.
///
/// Contracts see the note.
#[derive(Drop)]
pub struct PackedNote {
    pos: u64,
    act: u64,
    time: Sbt,
    prec: Sbt,
    word: u64,
    reply_time: Sbt,
    reply_word: u64,
    place: u32,
    actor: u32,
    number: u32,
    cpu: u32,
    code: i32,
    reply_number: u32,
    off: u32,
    whose: Whose,
    sort: Sort,
}

const _: () = prove!(size_of::<PackedNote>() == 88);

impl Model for PackedNote {
    ghost use Rattle.co_object.specs.declared.note.Note.{Note};

    ghost Value = { Note };

    ghost use Rattle.co_packed.specs.Unpacked.{unpacked};

    ghost view = { unpacked };
}

/// An entry in kinds and numbers.
pub(crate) struct EntryParts {
    pub(crate) actor: u32,
    pub(crate) act: u64,
    pub(crate) sort: Sort,
    pub(crate) op: OpWords,
    pub(crate) reply: ReplyWords,
}

/// An entry of a callout in kinds and numbers.
#[inline(always)]
fn timer_parts(entry: &Entry) -> EntryParts
    ensures { entry_of result.sort result.actor result.act result.op result.reply ≡ entries.Timer entry.now }
{
    let (kind, op) = op_parts(&entry.op);
    let (answer, reply) = reply_parts(&entry.reply);
    EntryParts {
        actor: entry.actor,
        act: entry.act,
        sort: Sort::Timer(kind, answer),
        op,
        reply,
    }
}

/// An entry of a CPU's journal in kinds and numbers.
#[inline(always)]
fn cpu_parts(entry: &QEntry) -> EntryParts
    ensures { entry_of result.sort result.actor result.act result.op result.reply ≡ entries.Cpu entry.now }
{
    let (kind, op) = queue_op_parts(&entry.op);
    let (answer, reply) = queue_reply_parts(&entry.reply);
    EntryParts {
        actor: entry.actor,
        act: entry.act,
        sort: Sort::Cpu(kind, answer),
        op,
        reply,
    }
}

/// An entry of any history in kinds and numbers.
#[inline(always)]
pub(crate) fn entry_parts(entry: &AnyEntry) -> EntryParts
    ensures { entry_of result.sort result.actor result.act result.op result.reply ≡ entry.now }
{
    match entry {
        AnyEntry::Timer(entry) => timer_parts(entry),
        AnyEntry::Cpu(entry) => cpu_parts(entry),
        AnyEntry::Own(entry) => EntryParts {
            actor: entry.actor,
            act: entry.act,
            sort: Sort::Own(entry.kind),
            op: no_op_words(),
            reply: no_reply_words(),
        },
    }
}

/// The entry of this sort, by this actor in this act.
pub(crate) fn entry_of(
    sort: Sort,
    actor: u32,
    act: u64,
    op: &OpWords,
    reply: &ReplyWords,
) -> AnyEntry
    ensures { result ≡ entry_of sort actor act op.now reply.now }
{
    match sort {
        Sort::Timer(kind, answer) => AnyEntry::Timer(Entry {
            actor,
            act,
            op: op_of(kind, op),
            reply: reply_of(answer, reply),
        }),
        Sort::Cpu(kind, answer) => AnyEntry::Cpu(QEntry {
            actor,
            act,
            op: queue_op_of(kind, op),
            reply: queue_reply_of(answer, reply),
        }),
        Sort::Own(kind) => AnyEntry::Own(OwnEntry { actor, act, kind }),
    }
}

/// A place as its kind and its number.
pub(crate) fn place_parts(place: Place) -> (Whose, u32)
    ensures { place_of result.0 result.1 ≡ place }
{
    match place {
        Place::Timer(timer) => (Whose::Timer, timer),
        Place::Cpu(cpu) => (Whose::Cpu, cpu),
        Place::Actor(actor) => (Whose::Actor, actor),
    }
}

/// The place of this kind and of this number.
pub(crate) fn place_of(whose: Whose, number: u32) -> Place
    ensures { result ≡ place_of whose number }
{
    match whose {
        Whose::Timer => Place::Timer(number),
        Whose::Cpu => Place::Cpu(number),
        Whose::Actor => Place::Actor(number),
    }
}

impl PackedNote {
    /// The note in few bytes.
    pub fn of(note: &Note) -> PackedNote
        ensures { result ≡ note.now }
    {
        let (whose, place) = place_parts(note.place);
        let EntryParts {
            actor,
            act,
            sort,
            op,
            reply,
        } = entry_parts(&note.entry);
        PackedNote {
            pos: note.pos,
            act,
            time: op.time,
            prec: op.prec,
            word: op.word,
            reply_time: reply.time,
            reply_word: reply.word,
            place,
            actor,
            number: op.number,
            cpu: op.cpu,
            code: reply.code,
            reply_number: reply.number,
            off: reply.off,
            whose,
            sort,
        }
    }

    /// The note.
    pub fn note(&self) -> Note
        ensures { result ≡ self.now }
    {
        let op = OpWords {
            time: self.time,
            prec: self.prec,
            word: self.word,
            number: self.number,
            cpu: self.cpu,
        };
        let reply = ReplyWords {
            time: self.reply_time,
            word: self.reply_word,
            code: self.code,
            number: self.reply_number,
            off: self.off,
        };
        Note {
            place: place_of(self.whose, self.place),
            pos: self.pos,
            entry: entry_of(self.sort, self.actor, self.act, &op, &reply),
        }
    }

    /// A copy, which says the same.
    pub fn copy(&self) -> PackedNote
        ensures { result ≡ self.now }
    {
        PackedNote {
            pos: self.pos,
            act: self.act,
            time: self.time,
            prec: self.prec,
            word: self.word,
            reply_time: self.reply_time,
            reply_word: self.reply_word,
            place: self.place,
            actor: self.actor,
            number: self.number,
            cpu: self.cpu,
            code: self.code,
            reply_number: self.reply_number,
            off: self.off,
            whose: self.whose,
            sort: self.sort,
        }
    }

    /// Whose history has its entry.
    pub fn place(&self) -> Place
        ensures { result ≡ self.now.place }
    {
        place_of(self.whose, self.place)
    }

    /// The entry's position in that history, counted from 0.
    pub fn pos(&self) -> u64
        ensures { result ≡ self.now.pos }
    {
        self.pos
    }

    /// Who made its entry.
    #[inline(always)]
    #[tactic(auto, using(crate::proofs::Makers::actor_kept))]
    pub fn actor(&self) -> u32
        ensures { result ≡ actor_of self.now.entry }
    {
        self.actor
    }

    /// In which of its actor's acts its entry was made, counted from 0.
    #[inline(always)]
    #[tactic(auto, using(crate::proofs::Makers::act_kept))]
    pub fn act(&self) -> u64
        ensures { result ≡ act_of self.now.entry }
    {
        self.act
    }

    /// The operation of its entry.
    // Inlined as `reply` is: where it is put into words at once, none of the many forms of an operation is built in memory.
    #[inline(always)]
    pub fn op(&self) -> AnyOp
        ensures { result ≡ op_in self.now.entry }
    {
        let op = OpWords {
            time: self.time,
            prec: self.prec,
            word: self.word,
            number: self.number,
            cpu: self.cpu,
        };
        match self.sort {
            Sort::Timer(kind, _) => AnyOp::Timer(op_of(kind, &op)),
            Sort::Cpu(kind, _) => AnyOp::Cpu(queue_op_of(kind, &op)),
            Sort::Own(kind) => AnyOp::Own(kind),
        }
    }

    /// The reply of its entry.
    #[inline(always)]
    pub fn reply(&self) -> AnyReply
        ensures { result ≡ reply_in self.now.entry }
    {
        let reply = ReplyWords {
            time: self.reply_time,
            word: self.reply_word,
            code: self.code,
            number: self.reply_number,
            off: self.off,
        };
        match self.sort {
            Sort::Timer(_, answer) => AnyReply::Timer(reply_of(answer, &reply)),
            Sort::Cpu(_, answer) => AnyReply::Cpu(queue_reply_of(answer, &reply)),
            Sort::Own(_) => AnyReply::Own,
        }
    }

    /// The values of its entry are in the ranges of their types. This is a law: nothing is unpacked when it runs.
    #[inline]
    pub fn is_typed(&self)
        ensures { EntryTyped self.now.entry }
    {
        let op = OpWords {
            time: self.time,
            prec: self.prec,
            word: self.word,
            number: self.number,
            cpu: self.cpu,
        };
        let reply = ReplyWords {
            time: self.reply_time,
            word: self.reply_word,
            code: self.code,
            number: self.reply_number,
            off: self.off,
        };
        entry_is_typed(self.sort, self.actor, self.act, op, reply);
    }
}
