//! An actor's notes in hand, while it steps.
ghost use Rattle.std.specs.Prelude.{◌≡◌, ◌<◌, [], length, replicate, set, IfOk, OnErr};
ghost use Rattle.co_core.specs.Hand.{IsTakenOut};

use co_listener::Listener;
use co_object::{
    AnyEntry, CallOp, Entry, Lists, Note, Op, PlainOp, QEntry, QOp, QReply, Reply, RunOp,
};
use co_sbt::{NoMemory, Room, Seq};
use std::alloc::Global;
use std::marker::Model;

/// How many notes a step makes at most: with an entry a Remove before it and an Insert after it.
const MOST: u32 = 3;

/// An actor's notes, taken out of the lists, with room for those of a step.
#[derive(Drop)]
pub(crate) struct Hand {
    actor: u32,
    notes: Room<Note>,
    /// For how many notes more there is room.
    left: u32,
}

impl Model for Hand {
    ghost use Rattle.std.specs.Prelude.{◌≤◌};
    ghost use Rattle.co_core.specs.Hand.{NotesInHand};

    ghost Value = { NotesInHand };

    ghost view = { λ hand. record { actor = hand.actor; notes = hand.notes.items; left = hand.left } };

    ghost invariant = { λ hand. hand.left ≤ hand.notes.spare };
}

impl Listener for Hand {
    ghost use Rattle.std.specs.Prelude.{◌≡◌, ◌+◌};
    ghost use Rattle.co_listener.specs.MadeNotes.{list_by};

    ghost actors = { λ hand. hand.actor + 1 };

    ghost has = { λ hand made. hand.notes ≡ list_by made hand.actor };

    ghost room = { λ hand. hand.left };

    /// Another actor's notes are not kept here.
    fn write(&mut self, actor: u32, note: &Note) -> Result<(), NoMemory> {
        // The checker wants each enum inside a note that holds a time to be named where a note is passed on.
        let _call = Op::Call(CallOp::Plain(PlainOp::Stop));
        let _run = Op::Run(RunOp::Begin { n: 0, cpu: 0 });
        let _parts: (Option<Entry>, Option<QEntry>, Option<AnyEntry>) = (None, None, None);
        let _answers = (Reply::Busy, QOp::Pop, QReply::Empty);
        if self.left == 0 {
            return Err(NoMemory {});
        }
        if actor == self.actor {
            self.left -= 1;
            self.notes.push(*note);
        }
        Ok(())
    }
}

/// Takes an actor's notes out of the lists, with room for those of a step. After NoMemory the lists are as they were.
pub(crate) fn take_out(alloc: Global, lists: &mut Lists, actor: u32) -> Result<Hand, NoMemory>
    requires { actor < length lists.old }
    ensures ok { IfOk result (λ hand. IsTakenOut lists.old actor lists.new hand) }
    ensures err { OnErr result (lists.new ≡ lists.old) }
{
    let list = lists.replace(actor as usize, Seq::new(alloc));
    let mut notes = Room::from_seq(list);
    let reserved = notes.reserve(MOST as usize);
    match reserved {
        Ok(()) => Ok(Hand {
            actor,
            notes,
            left: MOST,
        }),
        Err(_) => {
            let _empty = lists.replace(actor as usize, notes.into_seq());
            Err(NoMemory {})
        }
    }
}

/// Puts an actor's notes back into the lists.
pub(crate) fn put_back(lists: &mut Lists, hand: Hand)
    requires { hand.actor < length lists.old }
    ensures { lists.new ≡ set lists.old hand.actor hand.notes }
{
    let _empty = lists.replace(hand.actor as usize, hand.notes.into_seq());
}

/// `count` empty lists of notes, one for each actor. `NoMemory` where there is no room for them.
pub(crate) fn empty_lists(alloc: Global, count: usize) -> Result<Lists, NoMemory>
    ensures { IfOk result (λ lists. lists ≡ replicate count []) }
{
    let mut lists: Lists = Seq::new(alloc);
    while lists.as_slice().len() < count {
        let notes: Seq<Note> = Seq::new(alloc);
        lists.push(notes)?;
    }
    Ok(lists)
}
