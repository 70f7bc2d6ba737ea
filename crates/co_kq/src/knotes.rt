//! Knotes in the slots of a slab, found by their idents.
ghost use Rattle.std.specs.Prelude.{◌≡◌, ◌≤◌, ◌<◌, [], true, false, Some, None, IfOk, IfSome, IfNone, ◌-◌, length, slice_set};
ghost use Rattle.slab.specs.Slab.{Slab as SlabView, get, slab_len, ContainsKey, HasRoomFor};
ghost use Rattle.co_kq.specs.Kevents.{knote_of, without, expires, expired, next_after, event_of};
ghost use Rattle.co_kq.specs.Slots.{knotes_in, slot_at, HasNoIdent, AreDistinct, StandsAtKey, ticked_slot, IsFirstReady, AreQuiet, TellsOne};
ghost use Rattle.co_kq.specs.Changes.{told_slot, IsKnotePut, IsSlotChanged};
ghost use Rattle.co_kq.specs.declared.knote.Slot.{Slot as SlotOf};
ghost use Rattle.co_kq.specs.Index.{IsChanged, key_of};
ghost use Rattle.co_kq.specs.Numbers.{HasTimer, next_time};

use crate::index::Index;
use crate::kevent::Event;
use crate::knote::{Knote, Slot};
use co_sbt::{NoMemory, Sbt};
use slab::Slab;
use std::alloc::Global;
use std::marker::Model;

/// The knotes of a list, each with its callout. Contracts see the slab in which they stand.
///
/// No call but `new` takes memory. An ident is found by a binary search; the first knote with expirations stands at an end.
#[derive(Drop)]
pub struct Knotes {
    slab: Slab<Slot>,
    /// The keys of all knotes.
    order: Index,
    /// The keys of those that have expirations.
    ready: Index,
}

impl Model for Knotes {
    ghost use Rattle.slab.specs.Slab.{Slab as SlabView};
    ghost use Rattle.co_kq.specs.declared.knote.Slot.{Slot as SlotOf};
    ghost use Rattle.co_kq.specs.Listed.{AreListed};

    ghost Value = { SlabView SlotOf };

    ghost view = { λ k. k.slab };

    ghost invariant = { λ k. AreListed k.slab k.order k.ready };
}

impl Knotes {
    /// No knotes, with room for `room` of them. `NoMemory` where there is no room for their slots and keys.
    pub fn new(alloc: Global, room: u32) -> Result<Knotes, NoMemory>
        ensures empty { IfOk result (λ knotes. knotes.slots ≡ []) }
        ensures capacity { IfOk result (λ knotes. room ≤ knotes.capacity) }
    {
        let slab: Slab<Slot> = match Slab::with_capacity(alloc, room as usize) {
            Ok(slab) => slab,
            Err(_) => return Err(NoMemory {}),
        };
        let room = slab.capacity();
        let order = Index::new(alloc, room)?;
        let ready = Index::new(alloc, room)?;
        Ok(Knotes { slab, order, ready })
    }

    /// How many knotes there are.
    pub fn len(&self) -> usize
        ensures { result ≡ slab_len self.now }
    {
        self.slab.len()
    }

    /// The key of the knote of an ident, if there is one.
    pub fn find(&self, ident: u64) -> Option<usize>
        ensures found { IfSome result (λ key. StandsAtKey self.now.slots key ident) }
        ensures absent { IfNone result (HasNoIdent self.now.slots ident) }
    {
        self.order.find(ident)
    }

    /// Puts a knote in the place of the old one of its ident, at this key. The answer is its callout, which it keeps.
    pub fn rewrite(&mut self, key: usize, knote: Knote) -> u32
        requires there { StandsAtKey self.old.slots key knote.ident }
        requires distinct { AreDistinct self.old.slots }
        requires fresh { knote.count ≡ 0 }
        ensures had { HasTimer self.old.slots key result }
        ensures put { IsKnotePut self.old self.new key (record { knote = knote; timer = result }) 1 }
    {
        let ident = knote.ident;
        let slot = self.slab.remove(key);
        let timer = slot.timer;
        self.slab.insert_reserved(Slot { knote, timer });
        self.ready.remove(ident);
        timer
    }

    /// Puts in a knote of a new ident, for which there is room. The answer is its key.
    pub fn insert(&mut self, knote: Knote, timer: u32) -> usize
        requires room { HasRoomFor self.old 1 }
        requires absent { HasNoIdent self.old.slots knote.ident }
        requires distinct { AreDistinct self.old.slots }
        requires fresh { knote.count ≡ 0 }
        ensures vacant { get self.old result ≡ None }
        ensures put { IsKnotePut self.old self.new result (record { knote = knote; timer = timer }) 0 }
    {
        let ident = knote.ident;
        let key = self.slab.insert_reserved(Slot { knote, timer });
        self.order.insert(ident, key);
        key
    }

    /// Takes the knote at a key out.
    pub fn remove(&mut self, key: usize) -> Slot
        requires there { ContainsKey self.old key }
        requires distinct { AreDistinct self.old.slots }
        ensures was { get self.old key ≡ Some result }
        ensures found { knote_of result.knote.ident (knotes_in self.old.slots) ≡ Some result.knote }
        ensures list { knotes_in self.new.slots ≡ without result.knote.ident (knotes_in self.old.slots) }
        ensures changed { IsSlotChanged self.old self.new key None 1 0 }
    {
        let slot = self.slab.remove(key);
        self.order.remove(slot.knote.ident);
        self.ready.remove(slot.knote.ident);
        slot
    }

    /// The key of the first knote with expirations, by rising ident, if there is one.
    pub fn first_ready(&self) -> Option<usize>
        ensures first { IfSome result (IsFirstReady self.now.slots) }
        ensures none { IfNone result (AreQuiet self.now.slots) }
    {
        self.ready.first()
    }

    /// Whether the knote at a key expires once alone.
    pub fn is_once(&self, key: usize) -> bool
        requires there { ContainsKey self.now key }
        ensures { (s : SlotOf) → slot_at self.now.slots key ≡ Some s → s.knote.oneshot ≡ result }
    {
        match self.slab.get(key) {
            Some(slot) => slot.knote.oneshot,
            None => unreachable!(),
        }
    }

    /// Tells the expirations of the first knote that has any, where this one expires once alone: it leaves.
    pub fn tell_once(&mut self, key: usize) -> Slot
        requires first { IsFirstReady self.old.slots key }
        requires once { (s : SlotOf) → slot_at self.old.slots key ≡ Some s → s.knote.oneshot ≡ true }
        requires distinct { AreDistinct self.old.slots }
        ensures was { get self.old key ≡ Some result }
        ensures tells { TellsOne (knotes_in self.old.slots) (event_of result.knote) (knotes_in self.new.slots) }
        ensures changed { IsSlotChanged self.old self.new key None 1 0 }
    {
        self.remove(key)
    }

    /// Tells the expirations of the first knote that has any, where this one goes on: it begins anew.
    pub fn tell_again(&mut self, key: usize) -> Event
        requires first { IsFirstReady self.old.slots key }
        requires again { (s : SlotOf) → slot_at self.old.slots key ≡ Some s → s.knote.oneshot ≡ false }
        requires distinct { AreDistinct self.old.slots }
        ensures tells { TellsOne (knotes_in self.old.slots) result (knotes_in self.new.slots) }
        ensures changed { IsSlotChanged self.old self.new key (told_slot (slot_at self.old.slots key)) 1 1 }
    {
        let Some(slot) = self.slab.get_mut(key) else {
            unreachable!()
        };
        let event = Event {
            ident: slot.knote.ident,
            count: slot.knote.count,
        };
        slot.knote.count = 0;
        self.ready.take_first();
        event
    }

    /// The knote at a key expires where its time has come; the answer is its next time then, None where it has none or
    /// where its time has not come. Times are in units of 2^-32 s.
    pub fn expire_at(&mut self, key: usize, now: Sbt) -> Option<Sbt>
        ensures next { result ≡ next_time now (slot_at self.old.slots key) }
        ensures slots { self.new.slots ≡ slice_set self.old.slots key (ticked_slot now (slot_at self.old.slots key)) }
        ensures capacity { self.new.capacity ≡ self.old.capacity }
    {
        let slot = self.slab.get_mut(key)?;
        if !expires(now, &slot.knote) {
            return None;
        }
        mark(&mut self.ready, key, &slot.knote);
        expire(&mut slot.knote);
        slot.knote.next
    }
}

/// The knote at a key has expirations from now on.
fn mark(ready: &mut Index, key: usize, knote: &Knote)
    requires absent { knote.now.count ≡ 0 → key_of knote.now.ident ready.old.entries ≡ None }
    requires there { 0 < knote.now.count → key_of knote.now.ident ready.old.entries ≡ Some key }
    requires room { knote.now.count ≡ 0 → length ready.old.entries < ready.old.room }
    ensures changed { IsChanged ready.old.entries knote.now.ident (Some key) ready.new.entries }
    ensures room { ready.new.room ≡ ready.old.room }
{
    if knote.count == 0 {
        ready.insert(knote.ident, key);
    }
}

/// Whether a knote's time has come.
fn expires(now: Sbt, knote: &Knote) -> bool
    ensures { result ≡ expires now knote.now }
{
    match knote.next {
        Some(time) => time <= now,
        None => false,
    }
}

/// When a knote expires next, behind an expiration.
fn next_after(knote: &Knote) -> Option<Sbt>
    ensures { result ≡ next_after knote.now.oneshot knote.now.span knote.now.next }
{
    match knote.next {
        Some(time) if !knote.oneshot => Some(time.sat_add(knote.span)),
        _ => None,
    }
}

/// A knote expires: its next time and its count change.
fn expire(knote: &mut Knote)
    ensures { knote.new ≡ expired knote.old }
{
    // In place: a knote that is put together anew and then copied has to wait for its stores.
    knote.next = next_after(knote);
    knote.count = knote.count.saturating_add(1);
}
