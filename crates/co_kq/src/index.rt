//! Keys by ident.
ghost use Rattle.std.specs.Prelude.{◌≢◌, true, false, ◌≡◌, ℕ, ◌≤◌, ◌<◌, None, Some, [], length, IfOk, IfNone, IfSome};
ghost use Rattle.co_kq.specs.Index.{AreFalling, IsChanged, IsLowestKey, key_of, index_entry};

use co_sbt::NoMemory;
use std::alloc::Global;
use std::collections::VecDeque;
use std::marker::Model;

/// A knote, by its ident.
#[derive(Clone, Copy)]
pub struct Keyed {
    /// Its ident, any 64 bits.
    pub ident: u64,
    /// The key of its slot in the slab.
    pub key: usize,
}

/// Keys by ident, with room that is taken once: finding one takes a binary search, and putting one in or taking one out moves
/// those that are lower or those that are higher, whichever are fewer. So none moves where a new ident is higher than all, nor
/// where the lowest leaves.
#[derive(Drop)]
pub struct Index {
    /// The highest ident first.
    entries: VecDeque<Keyed>,
    /// For how many there is room.
    room: usize,
}

impl Model for Index {
    ghost use Rattle.std.specs.Prelude.{◌≢◌, ◌≤◌, true, false};
    ghost use Rattle.std.specs.VecDeque.{deque_capacity};
    ghost use Rattle.co_kq.specs.Index.{AreFalling, IndexView};

    ghost Value = { IndexView };

    ghost view = { λ x. record { entries = x.entries.items; room = x.room } };

    ghost invariant = { λ x. AreFalling x.entries.items × (x.room ≤ deque_capacity x.entries) };
}

/// How many idents are higher than this.
fn seek(entries: &VecDeque<Keyed>, ident: u64) -> usize
    requires { AreFalling entries.now.items }
    ensures within { result ≤ length entries.now.items }
    ensures above { (j : ℕ) → j < result → ident < (index_entry entries.now.items j).ident }
    ensures below { (j : ℕ) → result ≤ j → j < length entries.now.items → (index_entry entries.now.items j).ident ≤ ident }
{
    let mut low = 0;
    let mut high = entries.len();
    while low < high {
        let middle = low + (high - low) / 2;
        if ident < entries[middle].ident {
            low = middle + 1;
        } else {
            high = middle;
        }
    }
    low
}

/// Whether an ident stands there.
fn is_at(entries: &VecDeque<Keyed>, at: usize, ident: u64) -> bool
    ensures yes { result ≡ true → (at < length entries.now.items) × ((index_entry entries.now.items at).ident ≡ ident) }
    ensures no { result ≡ false → at < length entries.now.items → (index_entry entries.now.items at).ident ≢ ident }
{
    at < entries.len() && entries[at].ident == ident
}

/// Whether an ident is higher than all.
fn is_highest(entries: &VecDeque<Keyed>, ident: u64) -> bool
    requires { AreFalling entries.now.items }
    ensures { result ≡ true → (j : ℕ) → j < length entries.now.items → (index_entry entries.now.items j).ident < ident }
{
    if entries.is_empty() {
        return true;
    }
    entries[0].ident < ident
}

impl Index {
    /// No keys, with room for `room` of them. This alone takes memory; `NoMemory` where there is none for these.
    pub fn new(alloc: Global, room: usize) -> Result<Index, NoMemory>
        ensures empty { IfOk result (λ index. index.entries ≡ []) }
        ensures room { IfOk result (λ index. room ≤ index.room) }
    {
        let entries = VecDeque::with_capacity(alloc, room)?;
        Ok(Index { entries, room })
    }

    /// The key of an ident. None exactly where no knote has it.
    pub fn find(&self, ident: u64) -> Option<usize>
        ensures { result ≡ key_of ident self.now.entries }
    {
        let at = seek(&self.entries, ident);
        if is_at(&self.entries, at, ident) {
            Some(self.entries[at].key)
        } else {
            None
        }
    }

    /// Puts in the key of an ident that has none, where there is room.
    #[inline]
    pub fn insert(&mut self, ident: u64, key: usize)
        requires absent { key_of ident self.old.entries ≡ None }
        requires room { length self.old.entries < self.old.room }
        ensures changed { IsChanged self.old.entries ident (Some key) self.new.entries }
        ensures room { self.new.room ≡ self.old.room }
    {
        if is_highest(&self.entries, ident) {
            self.entries.push_front_reserved(Keyed { ident, key });
        } else {
            self.insert_within(ident, key);
        }
    }

    /// Puts it in where its ident belongs.
    // Apart, so that a new highest ident is put in with no call: where knotes expire by rising ident, each is.
    #[inline(never)]
    fn insert_within(&mut self, ident: u64, key: usize)
        requires absent { key_of ident self.old.entries ≡ None }
        requires room { length self.old.entries < self.old.room }
        ensures changed { IsChanged self.old.entries ident (Some key) self.new.entries }
        ensures room { self.new.room ≡ self.old.room }
    {
        let at = seek(&self.entries, ident);
        match self.entries.insert(at, Keyed { ident, key }) {
            Ok(()) => {}
            Err(_) => unreachable!(),
        }
    }

    /// Takes out the key of an ident, if it has one.
    pub fn remove(&mut self, ident: u64)
        ensures changed { IsChanged self.old.entries ident None self.new.entries }
        ensures room { self.new.room ≡ self.old.room }
    {
        let at = seek(&self.entries, ident);
        if is_at(&self.entries, at, ident) {
            self.entries.remove(at);
        }
    }

    /// The key of the lowest ident. None exactly where there is none.
    pub fn first(&self) -> Option<usize>
        ensures some { IfSome result (IsLowestKey self.now.entries) }
        ensures none { IfNone result (self.now.entries ≡ []) }
    {
        if self.entries.is_empty() {
            return None;
        }
        let last = self.entries.len() - 1;
        Some(self.entries[last].key)
    }

    /// Takes out the key of the lowest ident, if there is one.
    pub fn take_first(&mut self)
        ensures changed { (key : ℕ) (f : IsLowestKey self.old.entries key) → IsChanged self.old.entries f.ident None self.new.entries }
        ensures room { self.new.room ≡ self.old.room }
    {
        self.entries.pop_back();
    }
}
