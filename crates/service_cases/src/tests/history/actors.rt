//! Two actors of one history, and of two.
ghost use Rattle.std.specs.Prelude.{◌≡◌, [], ◌∷◌};
ghost use Rattle.service_cases.specs.Histories.{said_by};
ghost use Rattle.co_life.specs.Seen.{own};
ghost use Rattle.co_life.specs.Views.{AreFresh, pass_view};

use co_life::{Closed, Life, Pass, Story};
use co_sbt::Seq;
use std::alloc::Global;
use std::process::Abort;

/// Entries (actor, value), in which each value is the number of entries before it.
struct Counting;

impl Story for Counting {
    type Entry = (u32, u64);

    ghost use Rattle.service_cases.specs.Histories.{said_by, Counts, Counts-front};

    ghost actor = { said_by };

    ghost legal = { Counts };

    ghost empty_is_legal = { tt };

    ghost prefix_is_legal = { Counts-front };
}

// Takes the passes of two actors out, in the order of their numbers.
pub fn both<S: Story>(life: &Life<S>, passes: Seq<Pass<S>>) -> (Pass<S>, Pass<S>)
    requires { AreFresh life.now 2 passes }
    ensures { (result.0 ≡ pass_view life.now 0 []) × (result.1 ≡ pass_view life.now 1 []) }
{
    let mut passes = passes.into_vec();
    match (passes.pop(), passes.pop()) {
        (Some(one), Some(zero)) => (zero, one),
        _ => unreachable!(),
    }
}

// The writes (0, 0), (1, 1), (0, 2), their positions, and the history after a close that both passes met before.
fn two_actors<R: Abort>(rt: &R, alloc: Global) -> (Closed<Counting>, [u64; 3])
    ensures positions { result.1 ≡ 0 ∷ 1 ∷ 2 ∷ [] }
    ensures first { own said_by 0 result.0 ≡ (0, 0) ∷ (0, 2) ∷ [] }
    ensures second { own said_by 1 result.0 ≡ (1, 1) ∷ [] }
{
    let (life, mut keeper, passes) = Life::<Counting>::new(alloc, 2).expect(rt, "no memory");
    let (zero, one) = both(&life, passes);
    let (zero, first) = life.write(&mut keeper, zero, (0, 0));
    let (one, second) = life.write(&mut keeper, one, (1, 1));
    let (zero, third) = life.write(&mut keeper, zero, (0, 2));
    life.meet(&mut keeper, zero);
    life.meet(&mut keeper, one);
    (life.close(keeper), [first, second, third])
}

#[test]
fn entries_have_their_positions(rt: HostRuntime) {
    let (closed, positions) = two_actors(&rt, rt.alloc());
    drop(closed);
    assert!(rt; positions == [0, 1, 2]);
}
