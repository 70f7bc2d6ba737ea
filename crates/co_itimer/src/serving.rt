//! What is due expires.
ghost use Rattle.std.specs.Prelude.{◌<◌, ◌^◌};
ghost use Rattle.co_itimer.specs.Serving.{AllWait, AreServed, IsArmedAgain, IsSetTo};
ghost use Rattle.co_single.specs.Alarms.{callout_count, made_at};
ghost use Rattle.co_single.specs.Seen.{AddsEntries};

use crate::book::Book;
use co_sbt::Sbt;
use co_service::Name;
use co_single::Single;
use std::sync::Wait;

/// Arms a process's callout for its next time; where it has none the callout is disarmed.
pub(crate) fn set_to<N: Name, R: Wait>(
    rt: &R,
    act: u64,
    single: &mut Single<N>,
    p: u32,
    next: Option<Sbt>,
)
    requires callout { p < callout_count single.old }
    requires made { made_at single.old p < 2 ^ 62 }
    ensures set { IsSetTo single.old p next single.new }
    ensures entries { AddsEntries single.old act single.new }
{
    match next {
        Some(due) => single.arm(rt, act, p, due, 0),
        None => single.disarm(rt, act, p),
    }
}

/// Arms a callout that has fired again, where its process has a next time.
#[tactic(auto, using(co_single::proofs::OfAct::none_adds))]
fn arm_again<N: Name, R: Wait>(rt: &R, act: u64, single: &mut Single<N>, p: u32, next: Option<Sbt>)
    requires callout { p < callout_count single.old }
    requires made { made_at single.old p < 2 ^ 62 }
    ensures armed { IsArmedAgain single.old p next single.new }
    ensures entries { AddsEntries single.old act single.new }
{
    if let Some(due) = next {
        single.arm(rt, act, p, due, 0);
    }
}

/// Each process whose callout waits expires, and its callout is armed again where it has a next time. No other is looked at.
pub(crate) fn serve_all<N: Name, R: Wait>(rt: &R, act: u64, single: &mut Single<N>, book: &mut Book)
    requires act { act < 2 ^ 62 }
    requires wait { AllWait single.old book.old act }
    ensures served { AreServed act single.old book.old single.new book.new }
    ensures entries { AddsEntries single.old act single.new }
{
    while let Some(fired) = single.fire(rt, act) {
        let next = book.expire(fired.i);
        arm_again(rt, act, single, fired.i, next);
    }
}
