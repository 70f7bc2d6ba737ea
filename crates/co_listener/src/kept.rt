//! A listener that keeps every note: a list for each actor.
ghost use Rattle.std.specs.Prelude.{◌≡◌, ◌++◌, ◌∷◌, [], IfOk};
ghost use Rattle.co_listener.specs.MadeNotes.{lists_by};

use crate::listener::Listener;
use co_object::{
    AnyEntry, CallOp, Entry, Lists, Note, Op, PlainOp, QEntry, QOp, QReply, Reply, RunOp,
};
use co_sbt::{NoMemory, Seq};
use std::alloc::Global;
use std::marker::Model;

/// Keeps the notes of each actor in a list of its own, in the order in which they are told. Contracts see the lists. Our own
/// decision.
#[derive(Drop)]
pub struct KeptLists {
    alloc: Global,
    lists: Lists,
}

impl Model for KeptLists {
    ghost use Rattle.std.specs.Prelude.{List};
    ghost use Rattle.co_object.specs.declared.note.Note.{Note};

    ghost Value = { List (List Note) };

    ghost view = { λ kept. kept.lists };
}

/// A note behind the others of its list.
fn with_note(notes: Seq<Note>, note: &Note) -> Result<Seq<Note>, NoMemory>
    ensures { IfOk result (λ more. more ≡ notes ++ note.now ∷ []) }
{
    // The checker wants each enum inside a note that holds a time to be named where a note is passed on.
    let _call = Op::Call(CallOp::Plain(PlainOp::Stop));
    let _run = Op::Run(RunOp::Begin { n: 0, cpu: 0 });
    let _parts: (Option<Entry>, Option<QEntry>, Option<AnyEntry>) = (None, None, None);
    let _answers = (Reply::Busy, QOp::Pop, QReply::Empty);
    let mut more = notes;
    more.push(*note)?;
    Ok(more)
}

impl KeptLists {
    /// An empty list for each actor, whose number is below `actors`. Fails for want of memory alone.
    pub fn new(alloc: Global, actors: u32) -> Result<KeptLists, NoMemory>
        ensures { IfOk result (λ kept. kept ≡ lists_by actors []) }
    {
        let mut lists: Lists = Seq::new(alloc);
        for _actor in 0..actors {
            let notes: Seq<Note> = Seq::new(alloc);
            lists.push(notes)?;
        }
        Ok(KeptLists { alloc, lists })
    }

    /// The lists, with all notes that were told.
    pub fn into_lists(self) -> Lists
        ensures { result ≡ self }
    {
        self.lists
    }
}

impl Listener for KeptLists {
    ghost use Rattle.std.specs.Prelude.{◌≡◌, length};
    ghost use Rattle.co_listener.specs.MadeNotes.{lists_by};

    ghost actors = { λ kept. length kept };

    ghost has = { λ kept made. kept ≡ lists_by (length kept) made };

    ghost room = { λ kept. 0 };

    fn write(&mut self, actor: u32, note: &Note) -> Result<(), NoMemory> {
        let index = actor as usize;
        let notes = self.lists.replace(index, Seq::new(self.alloc));
        let _empty = self.lists.replace(index, with_note(notes, note)?);
        Ok(())
    }
}
