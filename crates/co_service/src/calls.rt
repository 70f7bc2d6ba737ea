//! A caller's operation: the desk that has the callout is found, and what leaves it lands.
ghost use Rattle.std.specs.Prelude.{◌≡◌, ◌<◌, length, true};
ghost use Rattle.std.specs.Option.{option_copied};
ghost use Rattle.co_lock.specs.Covers.{covers};
ghost use Rattle.co_object.specs.declared.op.CallOp.{CallOp};
ghost use Rattle.co_desk.specs.Call.{IsCalled, NamesCpu, notes_in, told_notes};
ghost use Rattle.co_service.specs.Kept.{Keeps};
ghost use Rattle.co_desk.specs.Moving.{IsDone};
ghost use Rattle.co_desk.specs.Params.{spec_at};
ghost use Rattle.co_desk.specs.Views.{AreOf, PassesView};

use crate::Service;
use co_desk::{Made, Moving, Name, Passes, Told};
use co_lock::Hold;
use co_object::CallOp;
use std::sync::Wait;
use std::sync::atomic::Ordering;

impl<N: Name> Service<N> {
    /// The CPU whose desk is asked first for a callout.
    #[inline(always)]
    pub(crate) fn hint(&self, i: u32) -> usize
        ensures { result < self.now.cpus }
    {
        let Some(word) = self.hints.get(i as usize) else {
            return 0;
        };
        let cpu = word.load(Ordering::SeqCst) as usize;
        if cpu < self.desks.len() { cpu } else { 0 }
    }

    /// The CPU whose desk is asked where this one's doesn't have the callout.
    #[inline(always)]
    pub(crate) fn next_desk(&self, cpu: usize) -> usize
        requires { cpu < self.now.cpus }
        ensures { result < self.now.cpus }
    {
        let count = self.desks.len();
        if cpu + 1 < count { cpu + 1 } else { 0 }
    }

    /// What left with a call lands.
    #[inline(always)]
    pub(crate) fn land_left<R: Wait>(
        &self,
        rt: &R,
        passes: &mut Passes,
        act: u64,
        i: u32,
        leaves: Option<Moving<N>>,
        told: &mut Told,
    )
        requires { (p : PassesView) × (op : CallOp) × AreOf N.name self.now p × IsDone p act i op told.old leaves passes.old }
        ensures called { (p : PassesView) (op : CallOp) → IsDone p act i op told.old leaves passes.old → IsCalled p act i op told.new.out.reply (told_notes p.actor act i op told.new) passes.new }
        ensures kept { (p : PassesView) (op : CallOp) → AreOf N.name self.now p → IsDone p act i op told.old leaves passes.old → Keeps N.name self.now p passes.new }
    {
        if let Some(moving) = leaves {
            told.tell_insert(self.land(rt, passes, act, moving));
        }
    }

    /// A call on callout `i`, the landing of its record at another CPU included. The caller's hold covers it.
    ///
    /// It waits for the desks' locks, and while the record is on its way. The caller still has in service what it had.
    pub fn call<R: Wait>(
        &self,
        rt: &R,
        passes: &mut Passes,
        act: u64,
        i: u32,
        op: &CallOp,
        hold: Option<&Hold<'_>>,
    ) -> Made
        requires passes { AreOf N.name self.now passes.old }
        requires callout { i < length self.now.specs }
        requires cpu { NamesCpu self.now.cpus op.now }
        requires covered { covers (option_copied hold) (spec_at self.now i) op.now ≡ true }
        ensures called { IsCalled passes.old act i op.now result.reply (notes_in result.notes) passes.new }
        ensures kept { Keeps N.name self.now passes.old passes.new }
    {
        let actor = passes.actor();
        let mut told = Told::none();
        self.call_into(rt, passes, act, i, op, hold, &mut told);
        told.answer(actor, act, i, op)
    }

    /// The same call. What it did goes to its place, and no note is made of it: for a caller that keeps none.
    #[inline(always)]
    pub fn call_into<R: Wait>(
        &self,
        rt: &R,
        passes: &mut Passes,
        act: u64,
        i: u32,
        op: &CallOp,
        hold: Option<&Hold<'_>>,
        told: &mut Told,
    )
        requires passes { AreOf N.name self.now passes.old }
        requires callout { i < length self.now.specs }
        requires cpu { NamesCpu self.now.cpus op.now }
        requires covered { covers (option_copied hold) (spec_at self.now i) op.now ≡ true }
        ensures called { IsCalled passes.old act i op.now told.new.out.reply (told_notes passes.old.actor act i op.now told.new) passes.new }
        ensures kept { Keeps N.name self.now passes.old passes.new }
    {
        let _ = hold;
        let mut leaves = None;
        let mut cpu = self.hint(i);
        for _ in rt.forever() {
            let locked = &self.desks[cpu];
            let here = locked
                .desk
                .lock(rt)
                .call(&self.places, passes, act, i, op, told, &mut leaves);
            if here {
                self.land_left(rt, passes, act, i, leaves, told);
                return;
            }
            cpu = self.next_desk(cpu);
        }
        unreachable!()
    }
}
