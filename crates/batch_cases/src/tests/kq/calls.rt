//! Worked calls of a kevent list.
ghost use Rattle.std.specs.Prelude.{◌≡◌};

use crate::tests::halves;
use co_kq::{Add, Event, Kq, KqFresh, Unit};
use co_service::Name;
use std::alloc::Global;
use std::marker::Brand;
use std::process::Abort;
use std::sync::Wait;

/// A timer of a second and a half, told after two expirations: each answer is as it should be.
fn counts<N: Name, R: Abort + Wait>(rt: &R, alloc: Global, fresh: KqFresh) -> bool
    requires name { fresh.name ≡ N.name }
    requires two { fresh.callouts ≡ 2 }
{
    let mut list = Kq::<N>::open(alloc, fresh).expect(rt, "no memory");
    let mut out = [Event { ident: 0, count: 0 }; 4];
    let mut right = list.add(rt, 7, 1500, Unit::Milli, false) == Add::Added;
    right &= list.add(rt, 8, 0, Unit::Seconds, false) == Add::BadValue;
    right &= list.tick(rt, halves(2)) == 0;
    right &= list.tick(rt, halves(3)) == 1;
    right &= list.tick(rt, halves(18)) == 1;
    right &= list.events(out.as_mut_slice()) == 1;
    right &= out[0] == Event { ident: 7, count: 2 };
    right &= list.events(out.as_mut_slice()) == 0;
    right &= list.delete(7) == Some(0);
    right &= list.delete(7).is_none();
    right &= list.work() == 5;
    drop(list.close(rt));
    right
}

#[test]
fn a_timer_counts_its_expirations(rt: HostRuntime) {
    let fresh = Kq::boot(rt.alloc(), 2).expect(&rt, "no memory");
    assert!(rt; counts::<Brand, _>(&rt, rt.alloc(), fresh));
}
