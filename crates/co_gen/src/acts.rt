//! The acts of clients and CPUs.
ghost use Rattle.std.specs.Prelude.{◌≡◌, ◌++◌, ◌∷◌, [], OnOk, IfOk};
ghost use Rattle.co_gen.specs.Generator.{call_of, client_acts, group, group_lock, lock_number, lock_use, state_after, tick_acts, under, wants_lock, where_of};

use crate::choice::{Choice, Kind, choice_of, time};
use crate::draws::Draws;
use co_object::LockUse;
use co_program::{Act, Acts, When, Where, Who};
use co_sbt::{NoMemory, Room, Sbt, Seq};
use std::alloc::Global;

/// The lock of a callout: of four the first has none, the others a mutex, a reader-writer lock and a mutex.
pub fn lock_use(timer: u32) -> LockUse
    ensures { result ≡ lock_use timer }
{
    let pair = timer / 4 % 4;
    match timer % 4 {
        0 => LockUse::Free,
        1 => LockUse::Mtx(2 * pair),
        2 => LockUse::Rw(2 * pair + 1),
        _ => LockUse::Mtx(2 * pair),
    }
}

fn lock_number(lock: LockUse) -> Option<u32>
    ensures { result ≡ lock_number lock }
{
    match lock {
        LockUse::Free => None,
        LockUse::Mtx(id) => Some(id),
        LockUse::Rw(id) => Some(id),
        LockUse::RwShared(id) => Some(id),
    }
}

/// Whether the call is made under the callout's lock.
fn wants_lock(kind: Kind) -> bool
    ensures { result ≡ wants_lock kind }
{
    match kind {
        Kind::Pending | Kind::Drain => false,
        Kind::Reset | Kind::Schedule | Kind::Stop | Kind::AsyncDrain => true,
    }
}

/// The lock of a group, if it has one.
fn lock_of(choice: &Choice) -> Option<u32>
    ensures { result ≡ group_lock choice.now }
{
    if wants_lock(choice.kind) {
        lock_number(lock_use(choice.timer))
    } else {
        None
    }
}

/// The CPU of a reset: half of the numbers name one.
fn where_of(cpu: u32) -> Where
    ensures { result ≡ where_of cpu }
{
    if cpu < 4 {
        Where::Cpu(cpu)
    } else {
        Where::Home
    }
}

/// The call of a group.
fn call_of(choice: &Choice) -> Act
    ensures { result ≡ call_of choice.now }
{
    let who = Who::Timer(choice.timer);
    let when = When::After(choice.span);
    match choice.kind {
        Kind::Reset => Act::Reset {
            who,
            when,
            func: choice.timer % 4,
            arg: u64::from(choice.timer),
            cpu: where_of(choice.cpu),
            prec: Sbt::zero(),
        },
        Kind::Schedule => Act::Schedule {
            who,
            when,
            cpu: Where::Home,
            prec: Sbt::zero(),
        },
        Kind::Stop => Act::Stop(who),
        Kind::AsyncDrain => Act::AsyncDrain { who, func: 3 },
        Kind::Pending => Act::Pending(who),
        Kind::Drain => Act::Drain(choice.timer),
    }
}

/// Appends an act. `NoMemory` where there is no room for it.
pub fn push_act(acts: &mut Acts, act: Act) -> Result<(), NoMemory>
    ensures { OnOk result (acts.new ≡ acts.old ++ act ∷ []) }
{
    // By this value the proof meets the type of the moments in an act.
    let _moment = When::At(Sbt::zero());
    acts.push(act)
}

/// Appends a call between the taking and the release of a lock.
fn push_under(acts: &mut Acts, lock: Option<u32>, call: Act) -> Result<(), NoMemory>
    ensures { OnOk result (acts.new ≡ acts.old ++ under lock call) }
{
    match lock {
        Some(id) => {
            push_act(acts, Act::Lock(id))?;
            push_act(acts, call)?;
            push_act(acts, Act::Unlock)
        }
        None => push_act(acts, call),
    }
}

/// Appends a group of this number.
fn push_group(acts: &mut Acts, number: u32, choice: &Choice) -> Result<(), NoMemory>
    ensures { OnOk result (acts.new ≡ acts.old ++ group number choice.now) }
{
    push_act(acts, Act::Now(time(u64::from(number) * 67_108_864)))?;
    push_under(acts, lock_of(choice), call_of(choice))
}

/// No acts yet, with room for `count` of them. `NoMemory` where there is none for these.
fn acts_for(alloc: Global, count: usize) -> Result<Acts, NoMemory>
    ensures { IfOk result (λ acts. acts ≡ []) }
{
    let mut room = Room::from_seq(Seq::new(alloc));
    room.reserve(count)?;
    Ok(room.into_seq())
}

/// The acts of a client: 1024 groups, and a draw for each. `NoMemory` where there is no room for them.
pub fn client_acts(alloc: Global, draws: &mut Draws) -> Result<Acts, NoMemory>
    ensures acts { IfOk result (λ acts. acts ≡ client_acts draws.old) }
    ensures draws { OnOk result (draws.new ≡ state_after draws.old 1024) }
{
    let mut acts = acts_for(alloc, 4096)?;
    for number in 0..1024 {
        let choice = choice_of(draws.draw());
        push_group(&mut acts, number, &choice)?;
    }
    Ok(acts)
}

/// The ticks of a CPU: 1280, as far apart as the groups. `NoMemory` where there is no room for them.
pub fn tick_acts(alloc: Global) -> Result<Acts, NoMemory>
    ensures { IfOk result (λ acts. acts ≡ tick_acts) }
{
    let mut acts = acts_for(alloc, 1280)?;
    for number in 0..1280_u64 {
        push_act(&mut acts, Act::Tick(time((number + 1) * 67_108_864)))?;
    }
    Ok(acts)
}
