//! A wheel over a plain list.
ghost use Rattle.std.specs.Prelude.{◌≡◌, None};
ghost use Rattle.co_object.specs.declared.CallOp.TheVariants.{Plain};
ghost use Rattle.co_object.specs.declared.PlainOp.TheVariants.{Reset};

use crate::tests::specs::spec;
use co_object::{CallOp, PlainOp, Reply};
use co_queue::{ListQueue, Looks};
use co_record::Record;
use co_sbt::Sbt;
use co_wheel::{NextOut, Wheel};
use std::alloc::Global;
use std::process::Abort;

/// A reset for this time, where the callout is.
fn armed_for(due: Sbt) -> CallOp
    ensures { result ≡ Plain (Reset due 0 0 7 None) }
{
    CallOp::Plain(PlainOp::Reset {
        due,
        prec: Sbt::zero(),
        func: 0,
        arg: 7,
        cpu: None,
    })
}

/// What a callout that is due in a second is answered on a wheel: how many have come due, its arming and its function's call, and
/// the last time.
fn fires<R: Abort>(rt: &R, alloc: Global, second: Sbt) -> (u32, Option<(u64, Reply)>, Sbt) {
    let queue = ListQueue::new(alloc, 1, 16, &[false]).expect(rt, "no memory");
    let mut wheel = Wheel::new(alloc, 0, 1, queue).expect(rt, "no memory");
    wheel.put(Record::new(0, spec(false), 0));
    wheel.call(0, &armed_for(second));
    let count = wheel.scan(second, &mut Looks::new());
    let taken = match wheel.next() {
        NextOut::Took { n, reply, .. } => Some((n, reply)),
        NextOut::Empty => None,
    };
    let last = wheel.last();
    drop(wheel);
    (count, taken, last)
}

#[test]
fn a_callout_fires(rt: HostRuntime) {
    let second = Sbt::from_ticks(1, 1);
    let go = Reply::Go { func: 0, arg: 7 };
    assert!(rt; fires(&rt, rt.alloc(), second) == (1, Some((0, go)), second));
}

/// Which of two callouts are at a CPU before the first call.
fn here<R: Abort>(rt: &R, alloc: Global, cpu: u32) -> [bool; 2] {
    let specs = [spec(false), spec(true)];
    let queue = ListQueue::new(alloc, 2, 16, &[false, true]).expect(rt, "no memory");
    let wheel = Wheel::boot(alloc, cpu, &specs, queue).expect(rt, "no memory");
    let here = [wheel.holds(0), wheel.holds(1)];
    drop(wheel);
    here
}

#[test]
fn all_callouts_begin_at_cpu_0(rt: HostRuntime) {
    assert!(rt; here(&rt, rt.alloc(), 0) == [true, true]);
    assert!(rt; here(&rt, rt.alloc(), 1) == [false, false]);
}

/// Whether the first arming of callout 0 is in service before and after it has come due; then of its second arming, and of the
/// other callout's first.
fn services<R: Abort>(rt: &R, alloc: Global, second: Sbt) -> [bool; 4] {
    let specs = [spec(false), spec(true)];
    let queue = ListQueue::new(alloc, 2, 16, &[false, true]).expect(rt, "no memory");
    let mut wheel = Wheel::boot(alloc, 0, &specs, queue).expect(rt, "no memory");
    wheel.call(0, &armed_for(second));
    wheel.scan(second, &mut Looks::new());
    let before = wheel.services(0, 0);
    wheel.next();
    let all = [
        before,
        wheel.services(0, 0),
        wheel.services(0, 1),
        wheel.services(1, 0),
    ];
    drop(wheel);
    all
}

#[test]
fn an_arming_is_in_service(rt: HostRuntime) {
    let all = services(&rt, rt.alloc(), Sbt::from_ticks(1, 1));
    assert!(rt; all == [false, true, false, false]);
}
