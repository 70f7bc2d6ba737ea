//! Worked calls of a queue.
ghost use Rattle.std.specs.Prelude.{◌≡◌};

use co_event::{Armed, Event, EventQueue};
use co_sbt::Sbt;

/// Settles the queue, or answers false where a window ends by then.
fn settles(queue: &mut EventQueue, now: Sbt) -> bool
    ensures { queue.new.timers.size ≡ queue.old.timers.size }
{
    let clear = match queue.next_event() {
        Some(moment) => now < moment,
        None => true,
    };
    if clear {
        queue.settle(now);
    }
    clear
}

/// The calls on a queue of two timers, whose windows end at two seconds: whether each is answered so.
fn waits(queue: &mut EventQueue, second: Sbt) -> bool
    requires { queue.old.timers.size ≡ 2 }
{
    let two = second.sat_add(second);
    let five = two.sat_add(two).sat_add(second);
    let mut out = [9; 2];
    let mut right = queue.next_event() == None;
    let first = queue.arm(1, second, second);
    let other = queue.arm(0, two, Sbt::zero());
    right &= first
        == Armed {
            code: 0,
            due: second,
        }
        && other == Armed { code: 0, due: two };
    right &= queue.next_event() == Some(two);
    right &= !settles(queue, five);
    right &= queue.take(&mut out) == Some(Event { at: two, count: 2 });
    // of one bucket the newest is the first
    right &= out == [0, 1];
    right &= queue.take(&mut out) == None;
    right &= settles(queue, five) && queue.now() == five;
    right && queue.stop(0) == -1
}

#[test]
fn waits_for_the_end_of_a_window(rt: HostRuntime) {
    let mut queue = EventQueue::new(rt.alloc(), 2).expect(&rt, "no memory");
    let right = waits(&mut queue, Sbt::from_ticks(1, 1));
    drop(queue);
    assert!(rt; right);
}
