//! The generated script.
ghost use Rattle.std.specs.Prelude.{◌≡◌, ◌∷◌, [], IfOk};
ghost use Rattle.co_gen.specs.Generator.{client, first, functions, generated, group_kind, spec_of, tick_acts};

use crate::acts::{client_acts, lock_use, push_act, tick_acts};
use crate::choice::time;
use crate::draws::Draws;
use co_lock::LockKind;
use co_object::Spec;
use co_program::{Act, Acts, Script, When, Where, Who};
use co_sbt::{NoMemory, Sbt, Seq};
use std::alloc::Global;

/// Mutexes and reader-writer locks take turns.
fn lock_kind(lock: u32) -> LockKind
    ensures { result ≡ group_kind lock }
{
    if lock % 2 == 0 {
        LockKind::Mtx
    } else {
        LockKind::Rw
    }
}

fn locks(alloc: Global) -> Result<Seq<LockKind>, NoMemory>
    ensures { IfOk result (λ locks. locks ≡ first group_kind 8) }
{
    let mut locks = Seq::new(alloc);
    for lock in 0..8 {
        locks.push(lock_kind(lock))?;
    }
    Ok(locks)
}

/// The function of every fourth callout releases the lock itself.
fn spec_of(timer: u32) -> Spec
    ensures { result ≡ spec_of timer }
{
    Spec {
        lock: lock_use(timer),
        returns_unlocked: timer % 4 == 3,
        direct: false,
    }
}

fn timers(alloc: Global) -> Result<Seq<Spec>, NoMemory>
    ensures { IfOk result (λ timers. timers ≡ first spec_of 64) }
{
    let mut timers = Seq::new(alloc);
    for timer in 0..64 {
        timers.push(spec_of(timer))?;
    }
    Ok(timers)
}

/// A function of one act.
fn one(alloc: Global, act: Act) -> Result<Acts, NoMemory>
    ensures { IfOk result (λ acts. acts ≡ act ∷ []) }
{
    let mut acts = Seq::new(alloc);
    push_act(&mut acts, act)?;
    Ok(acts)
}

/// Function 1 arms its callout again, function 2 asks whether it is armed, and the others do nothing.
fn functions(alloc: Global) -> Result<Seq<Acts>, NoMemory>
    ensures { IfOk result (λ funcs. funcs ≡ functions) }
{
    let again = Act::Schedule {
        who: Who::Me,
        when: When::After(time(1_073_741_824)),
        cpu: Where::Home,
        prec: Sbt::zero(),
    };
    let mut funcs = Seq::new(alloc);
    funcs.push(Seq::new(alloc))?;
    funcs.push(one(alloc, again)?)?;
    funcs.push(one(alloc, Act::Pending(Who::Me))?)?;
    funcs.push(Seq::new(alloc))?;
    Ok(funcs)
}

/// The clients, which draw one after the other.
fn clients(alloc: Global, seed: u64) -> Result<Seq<Acts>, NoMemory>
    ensures { IfOk result (λ clients. clients ≡ first (client seed) 8) }
{
    let mut draws = Draws::new(seed);
    let mut clients = Seq::new(alloc);
    for _ in 0..8_u32 {
        clients.push(client_acts(alloc, &mut draws)?)?;
    }
    Ok(clients)
}

fn ticks(alloc: Global) -> Result<Seq<Acts>, NoMemory>
    ensures { IfOk result (λ ticks. ticks ≡ first (λ cpu. tick_acts) 4) }
{
    let mut ticks = Seq::new(alloc);
    for _ in 0..4_u32 {
        ticks.push(tick_acts(alloc)?)?;
    }
    Ok(ticks)
}

/// The script of a seed: eight clients that make calls by chance on 64 callouts of four CPUs, with no turns. The same seed
/// gives the same script. Its draws, its numbers and its acts are our own decision.
///
/// NoMemory where the script finds no memory.
pub fn gen_script(alloc: Global, seed: u64) -> Result<Script, NoMemory>
    ensures { IfOk result (λ script. script ≡ generated seed) }
{
    Ok(Script {
        version: 1,
        hz: 1000,
        cpus: 4,
        buckets: 256,
        locks: locks(alloc)?,
        timers: timers(alloc)?,
        funcs: functions(alloc)?,
        clients: clients(alloc, seed)?,
        ticks: ticks(alloc)?,
        turns: Seq::new(alloc),
    })
}
