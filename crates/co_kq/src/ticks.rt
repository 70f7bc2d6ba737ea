//! What a tick does with the callouts.
ghost use Rattle.std.specs.Prelude.{◌≡◌, ◌≢◌, ◌<◌, ◌≤◌, ℕ, [], length, true, false};
ghost use Rattle.co_single.specs.Alarms.{callout_count, waiting_of};
ghost use Rattle.co_single.specs.Seen.{AddsEntries};
ghost use Rattle.co_kq.specs.declared.numbers.Use.TheVariants.{Stale};
ghost use Rattle.co_kq.specs.Numbers.{use_at};
ghost use Rattle.co_kq.specs.Ticks.{AreCleared, AreDue, CanServe, HasNothingWaiting, IsKnoteExpired, IsTicking};

use crate::knotes::Knotes;
use crate::numbers::{Use, Uses};
use co_sbt::Sbt;
use co_service::Name;
use co_single::Single;
use std::sync::Wait;

/// A callout whose knote is gone is not armed any more, and is in use for nothing.
#[tactic(auto, using(co_single::proofs::OfAct::none_adds))]
fn clear<N: Name, R: Wait>(
    rt: &R,
    act: u64,
    single: &mut Single<N>,
    uses: &mut [Use],
    number: usize,
)
    requires below { number < length uses.old }
    requires callouts { callout_count single.old ≡ length uses.old }
    requires few { length uses.old ≤ 1024 }
    ensures cleared { AreCleared uses.old single.old uses.new single.new }
    ensures free { use_at uses.new number ≢ Stale }
    ensures entries { AddsEntries single.old act single.new }
{
    if let Use::Stale = uses[number] {
        single.disarm(rt, act, number as u32);
        uses[number] = Use::Free;
    }
}

/// No callout of these whose knote is gone is armed any more.
fn clear_all<N: Name, R: Wait>(rt: &R, act: u64, single: &mut Single<N>, uses: &mut [Use])
    requires callouts { callout_count single.old ≡ length uses.old }
    requires few { length uses.old ≤ 1024 }
    ensures cleared { AreCleared uses.old single.old uses.new single.new }
    ensures none { (number : ℕ) → use_at uses.new number ≢ Stale }
    ensures entries { AddsEntries single.old act single.new }
{
    for number in 0..uses.len() {
        clear(rt, act, single, uses, number);
    }
}

/// No callout whose knote is gone is armed any more. Where none may be stale, nothing is done.
#[tactic(auto, using(co_single::proofs::OfAct::none_adds))]
pub fn clear_stale<N: Name, R: Wait>(rt: &R, act: u64, single: &mut Single<N>, uses: &mut Uses)
    requires callouts { callout_count single.old ≡ length uses.old }
    requires few { length uses.old ≤ 1024 }
    ensures cleared { AreCleared uses.old single.old uses.new single.new }
    ensures none { (number : ℕ) → use_at uses.new number ≢ Stale }
    ensures entries { AddsEntries single.old act single.new }
{
    if !uses.stale {
        return;
    }
    clear_all(rt, act, single, uses.list.as_mut_slice());
    uses.stale = false;
}

/// The first knote whose callout waits expires; the answer is whether there was one.
fn serve_one<N: Name, R: Wait>(
    rt: &R,
    act: u64,
    single: &mut Single<N>,
    knotes: &mut Knotes,
    uses: &Uses,
    now: Sbt,
) -> bool
    requires { CanServe now knotes.old.slots uses.now single.old }
    ensures served { result ≡ true → IsKnoteExpired now knotes.old.slots uses.now single.old knotes.new.slots single.new }
    ensures over { result ≡ false → HasNothingWaiting knotes.old.slots single.old knotes.new.slots single.new }
    ensures capacity { knotes.new.capacity ≡ knotes.old.capacity }
    ensures entries { AddsEntries single.old act single.new }
{
    let Some(fired) = single.fire(rt, act) else {
        return false;
    };
    let key = uses.key_of(fired.i);
    if let Some(next) = knotes.expire_at(key, now) {
        single.arm(rt, act, fired.i, next, 0);
    }
    true
}

/// Each knote expires whose callout waits.
pub fn serve_all<N: Name, R: Wait>(
    rt: &R,
    act: u64,
    single: &mut Single<N>,
    knotes: &mut Knotes,
    uses: &Uses,
    now: Sbt,
)
    requires { AreDue now act knotes.old.slots uses.now single.old }
    ensures serving { IsTicking now act knotes.old.slots uses.now single.old knotes.new.slots single.new }
    ensures nothing { waiting_of single.new ≡ [] }
    ensures capacity { knotes.new.capacity ≡ knotes.old.capacity }
    ensures entries { AddsEntries single.old act single.new }
{
    while serve_one(rt, act, single, knotes, uses, now) {}
}
