//! Lists of callouts, linked by their numbers.
ghost use Rattle.std.specs.Prelude.{◌≡◌, ℕ, ◌+◌, ◌<◌, ◌^◌, ◌==◌, true, false, nat_lt, List, ◌∷◌, [], ◌++◌, IfOk, if◌then◌else◌};
ghost use Rattle.std.specs.List.{range_with_len};

use std::alloc::{AllocError, Global};

/// Some lists of callouts, of which each callout stands in one at most.
///
/// A list is a ring through its head. `next` and `prev` name the neighbours of each callout and of each head, so a callout
/// goes in and out in constant time, and takes no memory.
#[derive(Drop)]
pub struct Rings {
    /// The callouts are the numbers below it, and the head of list k is this number plus k.
    pub size: u32,
    /// The lists are the numbers below it.
    pub count: u32,
    /// The number behind each callout and each head, in its ring.
    pub next: Vec<u32>,
    /// The number before each callout and each head, in its ring.
    pub prev: Vec<u32>,
    /// The list in which a callout stands, or `count` where it stands in none.
    pub place: Vec<u32>,
    ghost small: { size + count < 2 ^ 32 },
}

impl Rings {
    ghost use Rattle.co_bucket.specs.Rings.{list_of, AreLinked, is_listed, Become, AreEmpty, first_of, without};

    /// `count` empty lists for `size` callouts.
    pub fn new(alloc: Global, size: u32, count: u32) -> Result<Rings, AllocError>
        requires { size + count < 2 ^ 32 }
        ensures { IfOk result (AreEmpty size count) }
    {
        let nodes = size + count;
        Ok(Rings {
            size,
            count,
            next: count_up(alloc, nodes)?,
            prev: count_up(alloc, nodes)?,
            place: vec![in alloc; count; size as usize]?,
        })
    }

    /// Callout `i` stands in one of the lists.
    pub fn is_listed(&self, i: u32) -> bool
        requires { AreLinked self.now }
        ensures { result ≡ is_listed self.now i }
    {
        i < self.size && self.place[i as usize] < self.count
    }

    /// The first callout of a list. None where nothing stands in it.
    pub fn first(&self, list: u32) -> Option<u32>
        requires linked { AreLinked self.now }
        requires list { list < self.now.count }
        ensures { result ≡ first_of (list_of self.now list) }
    {
        self.callout(self.next[(self.size + list) as usize])
    }

    /// The callout after `i` in its list. None where it is the last.
    pub fn after(&self, i: u32) -> Option<u32>
        requires linked { AreLinked self.now }
        requires callout { i < self.now.size }
        ensures { (k : ℕ) → k < self.now.count → (front rest : List ℕ) → list_of self.now k ≡ front ++ i ∷ rest → result ≡ first_of rest }
    {
        self.callout(self.next[i as usize])
    }

    /// The callout of a number that may be a head.
    fn callout(&self, number: u32) -> Option<u32>
        ensures { result ≡ (if nat_lt number self.now.size then Some number else None) }
    {
        if number < self.size {
            Some(number)
        } else {
            None
        }
    }

    /// Takes callout `i` out of its list.
    pub fn take_out(&mut self, i: u32)
        requires linked { AreLinked self.old }
        requires listed { is_listed self.old i ≡ true }
        ensures out { Become self.old self.new (λ k. without i (list_of self.old k)) }
        ensures free { is_listed self.new i ≡ false }
    {
        let before = self.prev[i as usize];
        let after = self.next[i as usize];
        self.next[before as usize] = after;
        self.prev[after as usize] = before;
        self.place[i as usize] = self.count;
    }

    /// Puts callout `i` in at the head of a list.
    pub fn put_first(&mut self, list: u32, i: u32)
        requires linked { AreLinked self.old }
        requires list { list < self.old.count }
        requires callout { i < self.old.size }
        requires free { is_listed self.old i ≡ false }
        ensures { Become self.old self.new (λ k. if k == list then i ∷ list_of self.old k else list_of self.old k) }
    {
        let head = self.size + list;
        let first = self.next[head as usize];
        self.next[head as usize] = i;
        self.prev[first as usize] = i;
        self.next[i as usize] = first;
        self.prev[i as usize] = head;
        self.place[i as usize] = list;
    }

    /// Puts callout `i` in at the end of a list.
    pub fn put_last(&mut self, list: u32, i: u32)
        requires linked { AreLinked self.old }
        requires list { list < self.old.count }
        requires callout { i < self.old.size }
        requires free { is_listed self.old i ≡ false }
        ensures { Become self.old self.new (λ k. if k == list then list_of self.old k ++ i ∷ [] else list_of self.old k) }
    {
        let head = self.size + list;
        let last = self.prev[head as usize];
        self.next[last as usize] = i;
        self.prev[head as usize] = i;
        self.next[i as usize] = head;
        self.prev[i as usize] = last;
        self.place[i as usize] = list;
    }
}

/// The numbers below `n`.
fn count_up(alloc: Global, n: u32) -> Result<Vec<u32>, AllocError>
    ensures { IfOk result (λ numbers. numbers.items ≡ range_with_len 0 n) }
{
    let mut numbers = Vec::new(alloc);
    for x in 0..n {
        numbers.push(x)?;
    }
    Ok(numbers)
}
