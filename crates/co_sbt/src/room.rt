//! A list with room at its end.
ghost use Rattle.std.specs.Prelude.{◌≡◌, ◌≤◌, ◌<◌, ◌+◌, ◌++◌, ◌∷◌, [], OnOk, OnErr, length};

use crate::seq::{NoMemory, Seq};
use std::marker::Model;

/// A list with room at its end, into which pushes take no memory.
///
/// Contracts see the list and how many pushes the room is good for. It is our own: whoever may not want for memory at a
/// push makes the room before.
#[derive(Drop)]
pub struct Room<T> {
    items: Vec<T>,
}

impl<T> Model for Room<T> {
    ghost use Rattle.std.specs.Prelude.{◌-◌, vec_len, vec_capacity};
    ghost use Rattle.co_sbt.specs.RoomView.{RoomView};

    ghost Value = { RoomView T };

    ghost view = { λ r. record { items = r.items.items; spare = vec_capacity r.items - vec_len r.items } };
}

impl<T: Drop> Room<T> {
    /// The list with the room that it has at its end, which may be none. Takes no memory.
    pub fn from_seq(list: Seq<T>) -> Room<T>
        ensures { result.items ≡ list }
    {
        Room {
            items: list.into_vec(),
        }
    }

    /// Makes room for `count` pushes; the list stays. After `NoMemory` the room stays too.
    pub fn reserve(&mut self, count: usize) -> Result<(), NoMemory>
        ensures items { self.new.items ≡ self.old.items }
        ensures ok { OnOk result (count ≤ self.new.spare) }
        ensures err { OnErr result (self.new.spare ≡ self.old.spare) }
    {
        Ok(self.items.reserve(count)?)
    }

    /// Appends an item, into the room. The caller has made room for it by `reserve`.
    pub fn push(&mut self, item: T)
        requires { 0 < self.old.spare }
        ensures items { self.new.items ≡ self.old.items ++ item ∷ [] }
        ensures spare { self.old.spare ≤ self.new.spare + 1 }
    {
        match self.items.push(item) {
            Ok(()) => {}
            Err(_) => unreachable!(),
        }
    }

    /// How many items the list has, the room not counted.
    pub fn len(&self) -> usize
        ensures { result ≡ length self.now.items }
    {
        self.items.len()
    }

    /// The list. It keeps its room, of which contracts then say nothing. Takes no memory.
    pub fn into_seq(self) -> Seq<T>
        ensures { result ≡ self.items }
    {
        Seq::from_vec(self.items)
    }
}
