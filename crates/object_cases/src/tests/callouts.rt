//! A callout alone.

use co_object::{Alone, CallOp, LockUse, Op, PlainOp, Reply, Spec};
use co_sbt::Sbt;

#[test]
fn wears_out(rt: HostRuntime) {
    let spec = Spec {
        lock: LockUse::Free,
        returns_unlocked: false,
        direct: false,
    };
    let mut callout = Alone::open(spec, u64::MAX);
    let due = Sbt::from_ticks(1, 1000);
    let reset = PlainOp::Reset {
        due,
        prec: due,
        func: 0,
        arg: 7,
        cpu: None,
    };
    assert!(rt; callout.step(&Op::Call(CallOp::Plain(reset))) == Some(Reply::Worn));
}
