//! The notebooks of a run's actors.
ghost use Rattle.std.specs.Prelude.{◌≡◌, ◌<◌, ◌≤◌, ◌+◌, ◌^◌, ◌++◌, ◌∷◌, [], OnOk, OnErr, length};

use co_object::{AnyEntry, CallOp, Entry, Note, Op, PlainOp, QEntry, QOp, QReply, Reply, RunOp};
use co_packed::PackedNote;
use co_sbt::{NoMemory, Room, Seq};
use std::alloc::Global;
use std::marker::Model;

/// What an actor notes, in its order. Room is made before, so that a note finds it.
///
/// Contracts see the notes and the room for more.
pub trait Notebook: Drop {
    ghost use Rattle.std.specs.Prelude.{◌≡◌, ◌<◌, ◌≤◌, ◌+◌, ◌^◌, ◌++◌, ◌∷◌, [], ℕ, List, OnOk, OnErr, length};
    ghost use Rattle.co_object.specs.declared.note.Note.{Note};

    ghost notes: { Self → List Note };

    ghost spare: { Self → ℕ };

    /// Makes room for `count` notes more, fewer than 2^56 with those that are there. After `NoMemory` the room is as
    /// before.
    fn reserve(&mut self, count: u32) -> Result<(), NoMemory>
        ensures notes { notes self.new ≡ notes self.old }
        ensures ok { OnOk result (count ≤ spare self.new) }
        ensures few { OnOk result (length (notes self.new) + spare self.new < 2 ^ 56) }
        ensures err { OnErr result (spare self.new ≡ spare self.old) };

    /// Notes into the room.
    fn push(&mut self, note: Note)
        requires { 1 ≤ spare self.old }
        ensures notes { notes self.new ≡ notes self.old ++ note ∷ [] }
        ensures spare { spare self.new + 1 ≡ spare self.old };

    /// The notes, in the order in which they were made.
    fn into_notes(self) -> Seq<Note>
        ensures { result ≡ notes self };
}

/// What an actor needs of its book while it plays: a [`Notebook`] without its end.
pub trait Book: Drop {
    ghost use Rattle.std.specs.Prelude.{◌≡◌, ◌<◌, ◌≤◌, ◌+◌, ◌^◌, ◌++◌, ◌∷◌, [], ℕ, List, OnOk, OnErr, length};
    ghost use Rattle.co_object.specs.declared.note.Note.{Note};

    ghost notes: { Self → List Note };

    ghost spare: { Self → ℕ };

    /// As a notebook's.
    fn reserve(&mut self, count: u32) -> Result<(), NoMemory>
        ensures notes { notes self.new ≡ notes self.old }
        ensures ok { OnOk result (count ≤ spare self.new) }
        ensures few { OnOk result (length (notes self.new) + spare self.new < 2 ^ 56) }
        ensures err { OnErr result (spare self.new ≡ spare self.old) };

    /// As a notebook's, of a note that is only looked at.
    fn push(&mut self, note: &Note)
        requires { 1 ≤ spare self.old }
        ensures notes { notes self.new ≡ notes self.old ++ note.now ∷ [] }
        ensures spare { spare self.new + 1 ≡ spare self.old };
}

impl<B: Notebook> Book for B {
    ghost notes = { B.notes };

    ghost spare = { B.spare };

    fn reserve(&mut self, count: u32) -> Result<(), NoMemory> {
        Notebook::reserve(self, count)
    }

    fn push(&mut self, note: &Note) {
        Notebook::push(self, *note);
    }
}

/// More notes than one list ever has room for.
const MOST_NOTES: usize = 1 << 56;

/// A book that takes its room from the allocator, and keeps its notes as `T`.
#[derive(Drop)]
pub struct KeptBook<T> {
    notes: Room<T>,
    spare: u32,
    ghost roomy: { spare ≤ notes.spare },
    ghost few: { length notes.items + spare < 2 ^ 56 },
}

/// A notebook of plain notes.
pub type RoomBook = KeptBook<Note>;

/// A book of packed notes, which takes about half the memory.
pub(crate) type PackedBook = KeptBook<PackedNote>;

impl<T: Drop> KeptBook<T> {
    /// An empty one, which takes no memory.
    pub fn new(alloc: Global) -> KeptBook<T>
        ensures notes { result.notes.items ≡ [] }
        ensures spare { result.spare ≡ 0 }
    {
        KeptBook {
            notes: Room::from_seq(Seq::new(alloc)),
            spare: 0,
        }
    }

    /// Makes room for `count` notes more, fewer than 2^56 with those that are there. After `NoMemory` the room is as
    /// before.
    fn make_room(&mut self, count: u32) -> Result<(), NoMemory>
        ensures notes { self.new.notes.items ≡ self.old.notes.items }
        ensures ok { OnOk result (count ≤ self.new.spare) }
        ensures few { length self.new.notes.items + self.new.spare < 2 ^ 56 }
        ensures err { OnErr result (self.new.spare ≡ self.old.spare) }
    {
        if self.spare >= count {
            return Ok(());
        }
        if self.notes.len() >= MOST_NOTES - count as usize {
            return Err(NoMemory {});
        }
        self.notes.reserve(count as usize)?;
        self.spare = count;
        Ok(())
    }

    /// Keeps a note, in the room.
    fn keep(&mut self, note: T)
        requires { 1 ≤ self.old.spare }
        ensures notes { self.new.notes.items ≡ self.old.notes.items ++ note ∷ [] }
        ensures spare { self.new.spare + 1 ≡ self.old.spare }
    {
        self.spare -= 1;
        self.notes.push(note);
    }

    /// The notes as they are kept, in the order in which they were made.
    pub(crate) fn into_kept(self) -> Seq<T>
        ensures { result ≡ self.notes.items }
    {
        self.notes.into_seq()
    }
}

impl Notebook for KeptBook<Note> {
    ghost notes = { λ b. b.notes.items };

    ghost spare = { λ b. b.spare };

    fn reserve(&mut self, count: u32) -> Result<(), NoMemory> {
        self.make_room(count)
    }

    fn push(&mut self, note: Note) {
        // The check has to be told of all the types of a note's parts.
        let _call = Op::Call(CallOp::Plain(PlainOp::Stop));
        let _run = Op::Run(RunOp::Begin { n: 0, cpu: 0 });
        let _parts: (Option<Entry>, Option<QEntry>, Option<AnyEntry>) = (None, None, None);
        let _answers = (Reply::Busy, QOp::Pop, QReply::Empty);
        self.keep(note);
    }

    fn into_notes(self) -> Seq<Note> {
        self.into_kept()
    }
}

/// Its end takes memory, so it is no [`Notebook`].
impl Book for KeptBook<PackedNote> {
    ghost notes = { λ b. b.notes.items };

    ghost spare = { λ b. b.spare };

    fn reserve(&mut self, count: u32) -> Result<(), NoMemory> {
        self.make_room(count)
    }

    fn push(&mut self, note: &Note) {
        self.keep(PackedNote::of(note));
    }
}

/// A notebook that refuses its reserve of one number, counted from 0.
#[derive(Drop)]
pub struct ShortBook {
    book: RoomBook,
    refused: u64,
    reserves: u64,
}

impl ShortBook {
    /// An empty one, which takes no memory.
    pub fn new(alloc: Global, refused: u64) -> ShortBook
        ensures notes { result.book.notes.items ≡ [] }
        ensures spare { result.book.spare ≡ 0 }
    {
        ShortBook {
            book: RoomBook::new(alloc),
            refused,
            reserves: 0,
        }
    }
}

impl Notebook for ShortBook {
    ghost notes = { λ b. b.book.notes.items };

    ghost spare = { λ b. b.book.spare };

    fn reserve(&mut self, count: u32) -> Result<(), NoMemory> {
        let number = self.reserves;
        self.reserves = number.saturating_add(1);
        if number == self.refused {
            return Err(NoMemory {});
        }
        Notebook::reserve(&mut self.book, count)
    }

    fn push(&mut self, note: Note) {
        Notebook::push(&mut self.book, note);
    }

    fn into_notes(self) -> Seq<Note> {
        self.book.into_notes()
    }
}
