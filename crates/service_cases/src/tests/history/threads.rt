//! Two threads write through one keeper behind a lock.
ghost use Rattle.std.specs.Prelude.{◌≡◌, ◌<◌, [], ◌∷◌, ◌++◌};
ghost use Rattle.std.specs.List.{All};
ghost use Rattle.service_cases.specs.Histories.{said_by, numbered};
ghost use Rattle.co_life.specs.Seen.{own};
ghost use Rattle.co_life.specs.Views.{pass_view};

use super::actors::both;
use co_life::{Closed, Keeper, Life, Pass, Story};
use std::alloc::Global;
use std::marker::{Brand, PhantomData};
use std::process::Abort;
use std::sync::{Mutex, Wait};
use std::thread::{Threads, join};

/// Entries (actor, value), any list of which is legal.
struct Remarks;

impl Story for Remarks {
    type Entry = (u32, u64);

    ghost use Rattle.std.specs.Prelude.{⊤};
    ghost use Rattle.service_cases.specs.Histories.{said_by};

    ghost actor = { said_by };

    ghost legal = { λ _. ⊤ };

    ghost empty_is_legal = { tt };

    ghost prefix_is_legal = { λ _ _ _. tt };
}

// The lives that are shared: whoever calls a function generic in it picks them.
trait Name {
    ghost use Rattle.std.specs.Prelude.{List};
    ghost use Rattle.co_life.specs.Identity.{LifeId};

    ghost lives: { List LifeId };
}

impl Name for Brand {
    ghost use Rattle.std.specs.Prelude.{[]};

    ghost lives = { [] };
}

// What the lock keeps: the keeper of the one life, which has two actors.
#[derive(Drop)]
struct Desk<N: Name> {
    keeper: Keeper<Remarks>,
    of: PhantomData<N>,
    ghost named: { N.lives ≡ keeper.life ∷ [] },
    ghost two: { keeper.actors ≡ 2 },
}

impl<N: Name> Desk<N> {
    fn write(
        &mut self,
        life: &Life<Remarks>,
        pass: Pass<Remarks>,
        entry: (u32, u64),
    ) -> Pass<Remarks>
        requires life { N.lives ≡ life.now ∷ [] }
        requires pass { pass.life ≡ life.now }
        requires actor { said_by entry ≡ pass.actor }
        ensures same { (result.life ≡ pass.life) × (result.actor ≡ pass.actor) }
        ensures own { own said_by pass.actor result.seen ≡ own said_by pass.actor pass.seen ++ entry ∷ [] }
    {
        life.write(&mut self.keeper, pass, entry).0
    }
}

// Writes `count` entries of an actor that has none.
fn write_all<N: Name, R: Wait>(
    rt: &R,
    life: &Life<Remarks>,
    desk: &Mutex<Desk<N>>,
    actor: u32,
    count: u64,
    mut pass: Pass<Remarks>,
) -> Pass<Remarks>
    requires life { N.lives ≡ life.now ∷ [] }
    requires pass { pass ≡ pass_view life.now actor [] }
    ensures same { (result.life ≡ life.now) × (result.actor ≡ actor) }
    ensures own { own said_by actor result.seen ≡ numbered actor count }
{
    for value in 0..count {
        pass = desk.lock(rt).write(life, pass, (actor, value));
    }
    pass
}

// Two threads write as many entries each, and the history ends.
fn write_both<N: Name + Send + Sync, R: Threads + Wait + Sync>(
    rt: &R,
    life: Life<Remarks>,
    keeper: Keeper<Remarks>,
    zero: Pass<Remarks>,
    one: Pass<Remarks>,
    count: u64,
) -> Closed<Remarks>
    requires life { (N.lives ≡ life ∷ []) × (keeper.life ≡ life) × (keeper.actors ≡ 2) }
    requires passes { (zero ≡ pass_view life 0 []) × (one ≡ pass_view life 1 []) }
    ensures zero { own said_by 0 result ≡ numbered 0 count }
    ensures one { own said_by 1 result ≡ numbered 1 count }
    ensures others { All (λ e. said_by e < 2) result }
{
    let desk = Mutex::new(Desk::<N> {
        keeper,
        of: PhantomData,
    });
    let (zero, one) = join(
        rt,
        || -> Pass<Remarks>
            requires { (N.lives ≡ life ∷ []) × (zero ≡ pass_view life 0 []) }
            ensures same { (result.life ≡ life) × (result.actor ≡ 0) }
            ensures own { own said_by 0 result.seen ≡ numbered 0 count }
        { write_all(rt, &life, &desk, 0, count, zero) },
        || -> Pass<Remarks>
            requires { (N.lives ≡ life ∷ []) × (one ≡ pass_view life 1 []) }
            ensures same { (result.life ≡ life) × (result.actor ≡ 1) }
            ensures own { own said_by 1 result.seen ≡ numbered 1 count }
        { write_all(rt, &life, &desk, 1, count, one) },
    );
    let Desk { mut keeper, of: _ } = desk.into_inner();
    life.meet(&mut keeper, zero);
    life.meet(&mut keeper, one);
    life.close(keeper)
}

// A history of two threads, each of which wrote as many entries: it has each of them once.
fn share<R: Threads + Wait + Sync + Abort>(rt: &R, alloc: Global, count: u64) -> Closed<Remarks>
    ensures zero { own said_by 0 result ≡ numbered 0 count }
    ensures one { own said_by 1 result ≡ numbered 1 count }
    ensures others { All (λ e. said_by e < 2) result }
{
    let (life, keeper, passes) = Life::new(alloc, 2).expect(rt, "no memory");
    let (zero, one) = both(&life, passes);
    write_both::<Brand, R>(rt, life, keeper, zero, one, count)
}

#[test]
fn two_threads_share_a_history(rt: HostRuntime) {
    drop(share(&rt, rt.alloc(), 1000));
}
