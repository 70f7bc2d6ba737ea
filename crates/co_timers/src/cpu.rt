//! A CPU's handle.
ghost use Rattle.std.specs.Prelude.{◌≡◌};
ghost use Rattle.co_timers.specs.Rounds.{AreNeedsOf};

use crate::Timers;
use crate::lane::Lane;
use crate::rounds::serve_all;
use crate::turned::Turned;
use co_hand::Handler;
use co_sbt::Sbt;
use co_service::{Name, Passes};
use std::marker::Model;
use std::sync::Wait;

/// Both actors of a CPU.
#[derive(Drop)]
pub struct Lanes {
    /// Its interrupt, which scans, and serves the direct callouts.
    pub(crate) direct: Lane,
    /// Its own actor, which serves all others.
    pub(crate) others: Lane,
    /// How many turns it has made, for each of which its interrupt has scanned.
    pub(crate) turns: u64,
}

/// A CPU's handle: the passes of both its actors, and the number of each one's next act, which no caller has to keep. It goes into the
/// CPU's thread. Acts are counted as a [`Client`](crate::Client)'s are.
///
/// Contracts see the CPU's number, and what each of its actors has seen and will do next. Between turns nothing is in service.
#[derive(Drop)]
pub struct Cpu<'a, N: Name> {
    timers: &'a Timers<N>,
    number: u32,
    /// None while it turns.
    pub(crate) lanes: Option<Lanes>,
}

impl<'a, N: Name> Model for Cpu<'a, N> {
    ghost use Rattle.co_timers.specs.Turns.{CpuView, IsCpuWith, cpu_with};

    ghost Value = { CpuView };

    ghost view = { λ c. cpu_with c.number c.lanes };

    ghost invariant = { λ c. IsCpuWith N.name c.timers.now.params c.number c.lanes };
}

impl Lanes {
    ghost use Rattle.co_timers.specs.Turns.{IsCpuHandle, IsTurned, cpu_view};

    /// The whole tick of a CPU: an act of its interrupt, and an act of its own.
    fn turn<'a, N: Name, R: Wait + Sync, H: Handler>(
        self,
        rt: &'a R,
        timers: &'a Timers<N>,
        cpu: u32,
        now: Sbt,
        handler: &mut H,
    ) -> (Lanes, Turned)
        requires cpu { IsCpuHandle N.name timers.now.params (cpu_view cpu self) }
        requires needs { AreNeedsOf (H.needs handler.old) timers.now.params }
        ensures turned { IsTurned (H.needs handler.old) H.runs handler.old (cpu_view cpu self) now result.1 handler.new (cpu_view cpu result.0) }
        ensures cpu { IsCpuHandle N.name timers.now.params (cpu_view cpu result.0) }
        ensures needs { H.needs handler.new ≡ H.needs handler.old }
    {
        let Lanes {
            mut direct,
            mut others,
            turns,
        } = self;
        let turns = turns.saturating_add(1);
        // The act of the interrupt: its scan, and the services of all direct callouts that have come due.
        let act = direct.act;
        direct.act = act.saturating_add(1);
        let scanned = timers.service.scan(rt, &mut direct.passes, cpu, act, now);
        let (direct, first) = serve_all(rt, timers, cpu, act, 0, true, direct, handler);
        // The act of the CPU: the services of all others, once its journal has a Scan for each turn.
        let act = others.act;
        others.act = act.saturating_add(1);
        let (others, second) = serve_all(rt, timers, cpu, act, turns, false, others, handler);
        let turned = Turned {
            scanned: scanned.count,
            direct: first,
            others: second,
        };
        let after = Lanes {
            direct,
            others,
            turns,
        };
        (after, turned)
    }
}

impl<'a, N: Name> Cpu<'a, N> {
    ghost use Rattle.co_timers.specs.Turns.{IsTurned, IsCpuHandle, cpu_view};

    /// The handle of a CPU whose actors have these passes, before their first acts.
    pub(crate) fn new(
        timers: &'a Timers<N>,
        number: u32,
        direct: Passes,
        others: Passes,
    ) -> Cpu<'a, N>
        requires { IsCpuHandle N.name timers.now.params (record { cpu = number; direct = record { passes = direct; act = 0 }; others = record { passes = others; act = 0 }; turns = 0 }) }
        ensures { result ≡ record { cpu = number; direct = record { passes = direct; act = 0 }; others = record { passes = others; act = 0 }; turns = 0 } }
    {
        let lanes = Lanes {
            direct: Lane {
                passes: direct,
                act: 0,
            },
            others: Lane {
                passes: others,
                act: 0,
            },
            turns: 0,
        };
        Cpu {
            timers,
            number,
            lanes: Some(lanes),
        }
    }

    /// The number of the CPU.
    pub fn number(&self) -> u32
        ensures { result ≡ self.now.cpu }
    {
        self.number
    }

    /// The whole tick of the CPU at the time `now`, in units of 2^-32 s, or at that of its last scan where it is
    /// later. What is due comes due; then the interrupt serves all direct callouts that have come due, and after that
    /// the CPU all others, one after the other.
    ///
    /// A service takes the callout's lock first, where it has one; then the handler runs the function, unless a stop has cancelled
    /// the arming meanwhile; the lock is released and the service ends; and where an asynchronous drain awaited that, the handler runs
    /// the drain's function, which is told of the service too: where the callout's own function was skipped, with the drain's function and argument
    /// 0. What a function calls through its port is an act of the actor that serves. The handler has the service's callouts and
    /// CPUs.
    ///
    /// It waits for the locks of callouts and CPUs. Afterwards neither actor has anything in service, and the last that each asked for
    /// was answered that nothing is left.
    pub fn turn<R: Wait + Sync, H: Handler>(&mut self, rt: &R, now: Sbt, handler: &mut H) -> Turned
        requires { AreNeedsOf (H.needs handler.old) self.old.others.passes.params }
        ensures turned { IsTurned (H.needs handler.old) H.runs handler.old self.old now result handler.new self.new }
        ensures params { self.new.others.passes.params ≡ self.old.others.passes.params }
        ensures needs { H.needs handler.new ≡ H.needs handler.old }
    {
        let Some(lanes) = self.lanes.take() else {
            unreachable!()
        };
        let (lanes, turned) = lanes.turn(rt, self.timers, self.number, now, handler);
        // By a call: an assignment would write out here how the lanes go that stood there, and none do.
        let _ = self.lanes.insert(lanes);
        turned
    }
}
