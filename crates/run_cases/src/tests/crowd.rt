//! Many clients reset, stop and move the same callouts, beside CPUs that service them.
use super::running::{count_timers, notes_of, run_text};
use super::scene::FREE;
use super::waits::comes_to;
use co_hand::Gate;
use co_object::Lists;
use co_program::{Act, Acts, Script, When, Where, Who};
use co_sbt::{Sbt, Seq};
use co_script::print_script;
use std::alloc::Global;
use std::ops::Range;
use std::process::Abort;
use std::sync::atomic::{AtomicU64, Ordering};

const CLIENTS: u32 = 8;

const CPUS: u32 = 4;

const CALLOUTS: u32 = 64;

/// How many acts a client makes.
const ACTS: u64 = 3000;

/// How many acts the clients make from one tick of a CPU to the next.
const BETWEEN: u64 = 80;

/// How often a CPU ticks.
const TICKS: u64 = ACTS * CLIENTS as u64 / BETWEEN + 1;

/// How many acts lie at most between an arming and its time.
const SPAN: u64 = 128;

/// The units that go by from one act of the clients to the next: a sixteenth of a bucket.
const UNITS: u64 = 0x10_0000;

/// The time after so many acts of the clients.
fn time_after(acts: u64) -> Sbt {
    Sbt::new(acts.saturating_mul(UNITS)).unwrap_or(Sbt::zero())
}

/// The next number of a linear congruence modulo 2^64.
fn next_draw(draw: u64) -> u64 {
    draw.wrapping_mul(6364136223846793005)
        .wrapping_add(1442695040888963407)
}

/// A client's act of this number: in turn a reset where the callout is, a stop, and a reset at the CPU that is drawn.
fn choose(number: u64, draw: u64) -> Act {
    let who = Who::Timer((draw >> 33) as u32 % CALLOUTS);
    let begun = number.saturating_mul(u64::from(CLIENTS));
    let cpu = match number % 3 {
        0 => Where::Home,
        1 => return Act::Stop(who),
        _ => Where::Cpu((draw >> 43) as u32 % CPUS),
    };
    Act::Reset {
        who,
        when: When::At(time_after(begun.saturating_add(draw / 1024 % SPAN))),
        func: 0,
        arg: draw,
        cpu,
        prec: Sbt::zero(),
    }
}

/// Adds an act to a program.
fn add(rt: &impl Abort, acts: &mut Acts, act: Act) {
    // The check has to be told of the types of an act's parts.
    let _parts: (Option<Who>, Option<When>, Option<Where>) = (None, None, None);
    acts.push(act).expect(rt, "no memory");
}

/// The act of this number of an actor: of a client as [`choose`] says, of a CPU a tick whenever the clients have made some acts more.
fn act_of(actor: u32, number: u64, draw: u64) -> Act {
    if actor < CLIENTS {
        choose(number, draw)
    } else {
        Act::Tick(time_after(number.saturating_mul(BETWEEN)))
    }
}

/// An actor's program. A CPU ticks up to all acts of the clients.
fn acts_of(rt: &impl Abort, alloc: Global, actor: u32) -> Acts {
    let count = if actor < CLIENTS { ACTS } else { TICKS };
    let mut acts = Seq::new(alloc);
    let mut draw = u64::from(actor);
    for number in 0..count {
        draw = next_draw(draw);
        add(rt, &mut acts, act_of(actor, number, draw));
    }
    acts
}

/// The programs of these actors.
fn programs(rt: &impl Abort, alloc: Global, actors: Range<u32>) -> Seq<Acts> {
    let mut programs = Seq::new(alloc);
    for actor in actors {
        programs
            .push(acts_of(rt, alloc, actor))
            .expect(rt, "no memory");
    }
    programs
}

/// The crowd's script, with callouts without locks.
fn script(rt: &impl Abort, alloc: Global) -> Script {
    let mut funcs = Seq::new(alloc);
    funcs.push(Seq::new(alloc)).expect(rt, "no memory");
    let timers = Seq::filled(alloc, CALLOUTS as usize, FREE).expect(rt, "no memory");
    Script {
        version: 1,
        hz: 1000,
        cpus: CPUS,
        buckets: 16,
        locks: Seq::new(alloc),
        timers,
        funcs,
        clients: programs(rt, alloc, 0..CLIENTS),
        ticks: programs(rt, alloc, CLIENTS..CLIENTS + CPUS),
        turns: Seq::new(alloc),
    }
}

/// The text of the crowd's script.
fn text(rt: &impl Abort, alloc: Global) -> Seq<u8> {
    let script = script(rt, alloc);
    let text = print_script(alloc, &script).expect(rt, "no memory");
    drop(script);
    text
}

/// A gate at which a CPU's tick waits until the clients have come as far.
#[derive(Drop)]
struct Pace {
    /// How many acts of clients were announced.
    acts: AtomicU64,
    /// How many waits gave up.
    faults: AtomicU64,
}

impl Gate for Pace {
    fn at(&self, actor: u32, act: u64) {
        if actor < CLIENTS {
            self.acts.fetch_add(1, Ordering::SeqCst);
        } else if !comes_to(&self.acts, act.saturating_mul(BETWEEN)) {
            self.faults.fetch_add(1, Ordering::SeqCst);
        }
    }
}

/// Each client's calls are answered once.
fn have_their_calls<R: Abort>(rt: &R, lists: &Lists) {
    for client in 0..CLIENTS as usize {
        assert!(rt; count_timers(notes_of(rt, lists, client)) == ACTS as usize);
    }
}

#[test]
fn eight_clients_and_four_cpus(rt: HostRuntime) {
    let alloc = rt.alloc();
    let text = text(&rt, alloc);
    let gate = Pace {
        acts: AtomicU64::new(0),
        faults: AtomicU64::new(0),
    };
    let lists = run_text(&rt, alloc, text.as_slice(), &gate);
    assert!(rt; gate.faults.load(Ordering::SeqCst) == 0);
    have_their_calls(&rt, &lists);
    drop(lists);
}
