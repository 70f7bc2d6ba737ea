//! What the numbers of the callouts are in use for.
ghost use Rattle.std.specs.Prelude.{◌≡◌, ◌<◌, ◌≤◌, length, true, false, replicate, slice_set, IfOk};
ghost use Rattle.std.specs.List.{count_by};
ghost use Rattle.co_kq.specs.Numbers.{is_held, left_use, use_at};
ghost use Rattle.co_kq.specs.declared.numbers.Use.TheVariants.{Free, Held};

use crate::knote::Slot;
use co_sbt::NoMemory;
use std::alloc::Global;
use std::marker::Model;

/// What a callout is in use for.
#[derive(Clone, Copy)]
pub enum Use {
    /// For nothing, and it isn't armed.
    Free,
    /// For nothing, and it may be armed: its knote is gone.
    Stale,
    /// For the knote at this key.
    Held(usize),
}

impl Use {
    /// Whether a knote has the callout.
    pub fn is_held(self) -> bool
        ensures { result ≡ is_held self }
    {
        match self {
            Use::Held(_) => true,
            _ => false,
        }
    }
}

/// What each callout is in use for. Contracts see the uses by the callouts' numbers.
#[derive(Drop)]
pub struct Uses {
    pub(crate) list: Vec<Use>,
    /// Whether any may be stale.
    pub(crate) stale: bool,
}

impl Model for Uses {
    ghost use Rattle.std.specs.Prelude.{List};
    ghost use Rattle.co_kq.specs.declared.numbers.Use.{Use as UseOf};
    ghost use Rattle.co_kq.specs.Numbers.{IsMarked};

    ghost Value = { List UseOf };

    ghost view = { λ u. u.list.items };

    ghost invariant = { λ u. IsMarked u.stale u.list.items };
}

/// The first of these callouts that no knote has.
fn loose_in(uses: &[Use]) -> u32
    requires few { length uses.now ≤ 1024 }
    requires some { count_by is_held uses.now < length uses.now }
    ensures below { result < length uses.now }
    ensures loose { is_held (use_at uses.now result) ≡ false }
{
    for number in 0..uses.len() {
        if !uses[number].is_held() {
            return number as u32;
        }
    }
    unreachable!()
}

impl Uses {
    /// `count` callouts, none of which is in use for anything. `NoMemory` where there is no room for their list.
    pub fn new(alloc: Global, count: u32) -> Result<Uses, NoMemory>
        ensures { IfOk result (λ uses. uses ≡ replicate count Free) }
    {
        let list = vec![in alloc; Use::Free; count as usize]?;
        Ok(Uses { list, stale: false })
    }

    /// The first callout that no knote has.
    pub fn first_loose(&self) -> u32
        requires few { length self.now ≤ 1024 }
        requires some { count_by is_held self.now < length self.now }
        ensures below { result < length self.now }
        ensures loose { is_held (use_at self.now result) ≡ false }
    {
        loose_in(self.list.as_slice())
    }

    /// The key of the knote that has a callout.
    pub fn key_of(&self, number: u32) -> usize
        requires below { number < length self.now }
        requires held { is_held (use_at self.now number) ≡ true }
        ensures { use_at self.now number ≡ Held result }
    {
        match self.list[number as usize] {
            Use::Held(key) => key,
            Use::Free => unreachable!(),
            Use::Stale => unreachable!(),
        }
    }

    /// The knote at a key has the callout.
    pub fn hold(&mut self, number: u32, key: usize)
        requires { number < length self.old }
        ensures { self.new ≡ slice_set self.old number (Held key) }
    {
        self.list[number as usize] = Use::Held(key);
    }

    /// A knote is gone: its callout is in use for nothing.
    pub fn release(&mut self, slot: &Slot)
        requires { slot.now.timer < length self.old }
        ensures { self.new ≡ slice_set self.old slot.now.timer (left_use slot.now) }
    {
        let number = slot.timer as usize;
        if slot.knote.next.is_some() {
            self.list[number] = Use::Stale;
            self.stale = true;
            return;
        }
        self.list[number] = Use::Free;
    }
}
