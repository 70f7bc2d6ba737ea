//! One actor of a CPU as a handle.
ghost use Rattle.std.specs.Prelude.{◌<◌, length};
ghost use Rattle.std.specs.Option.{option_copied};
ghost use Rattle.co_hand.specs.Ports.{IsCoverAnswered, NamesCpuBelow};
ghost use Rattle.co_timers.specs.Handles.{IsHandle};

use crate::Timers;
use crate::timers::held_of;
use co_hand::PortReply;
use co_lock::{Hold, covers};
use co_object::{CallOp, PlainOp};
use co_service::{Name, Passes};
use std::sync::Wait;

/// One actor of a CPU: what it has seen, and the number of its next act.
#[derive(Drop)]
pub struct Lane {
    pub(crate) passes: Passes,
    pub(crate) act: u64,
}

impl Lane {
    ghost use Rattle.co_timers.specs.Ports.{CameTo, handle_of};

    /// A call on callout `i` under this hold, which uses up an act where it is made.
    pub(crate) fn ask<N: Name, R: Wait>(
        &mut self,
        rt: &R,
        timers: &Timers<N>,
        i: u32,
        op: &PlainOp,
        hold: Option<&Hold<'_>>,
    ) -> PortReply
        requires handle { IsHandle N.name timers.now.params self.old.passes }
        requires callout { i < length timers.now.params.specs }
        requires cpu { NamesCpuBelow timers.now.params.cpus op.now }
        ensures handle { IsHandle N.name timers.now.params self.new.passes }
        ensures came { CameTo (handle_of self.old) (option_copied hold.entry) i op.now result (handle_of self.new) }
        ensures answered { IsCoverAnswered timers.now.params.specs (option_copied hold.entry) (record { i = i; op = op.now; answer = result }) }
    {
        let asked = CallOp::Plain(*op);
        if !covers(held_of(hold), &timers.spec(i), &asked) {
            return PortReply::NotHeld;
        }
        let reply = timers.make(rt, &mut self.passes, self.act, i, &asked, hold);
        self.act = self.act.saturating_add(1);
        PortReply::Reply(reply)
    }
}
