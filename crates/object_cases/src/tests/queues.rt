//! The plain list and the wheel side by side, and worked rows of both.
ghost use Rattle.std.specs.Prelude.{◌≡◌, ◌<◌, ◌≤◌, ◌^◌, IfOk, length};

use co_bucket::WheelQueue;
use co_queue::{ListQueue, Looks, TimerQueue};
use co_sbt::{NoMemory, Sbt};

/// The next number of a linear congruence modulo 2^31.
fn next_number(x: u64) -> u64
    ensures { result < 2 ^ 31 }
{
    (x % 0x8000_0000 * 1_103_515_245 + 12_345) % 0x8000_0000
}

/// The time of a number of units, modulo 2^62.
fn time(units: u64) -> Sbt {
    match Sbt::new(units % 0x4000_0000_0000_0000) {
        Some(t) => t,
        None => unreachable!(),
    }
}

/// Takes a callout out, and puts it in again with another arming.
fn replace<Q: TimerQueue>(queue: &mut Q, i: u32, n: u64, t: Sbt) -> (bool, Sbt)
    requires { i < (Q.state queue.old).size }
    ensures { (Q.state queue.new).size ≡ (Q.state queue.old).size }
{
    let found = queue.remove(i);
    let at = queue.insert(i, n, t);
    (found, at)
}

/// Arms callout i, from 0 on, at the i-th of the times, with arming 0.
fn arm<Q: TimerQueue>(queue: &mut Q, times: &[u64])
    requires size { length times.now ≤ (Q.state queue.old).size }
    requires small { length times.now ≤ 1024 }
{
    for (i, units) in times.iter().enumerate() {
        replace(queue, i as u32, 0, time(*units));
    }
}

/// The count and the looks of a scan.
fn scan<Q: TimerQueue>(queue: &mut Q, now: Sbt) -> (u32, u64)
    ensures { (Q.state queue.new).size ≡ (Q.state queue.old).size }
{
    let mut looks = Looks::new();
    let count = queue.scan(now, &mut looks);
    (count, looks.count())
}

/// Whether a list and a wheel answer an operation of this kind the same, the wheel with no more looks.
fn answer_alike(
    list: &mut ListQueue,
    wheel: &mut WheelQueue,
    kind: u64,
    i: u32,
    n: u64,
    due: Sbt,
    now: Sbt,
) -> bool
    requires list { list.old.size ≡ 8 }
    requires wheel { wheel.old.size ≡ 8 }
    requires callout { i < 8 }
    ensures list { list.new.size ≡ 8 }
    ensures wheel { wheel.new.size ≡ 8 }
{
    match kind {
        0 | 1 | 2 | 3 => replace(list, i, n, due) == replace(wheel, i, n, due),
        4 => list.remove(i) == wheel.remove(i),
        5 => {
            let (listed, most) = scan(list, now);
            let (wheeled, looks) = scan(wheel, now);
            listed == wheeled && looks <= most
        }
        6 => list.pop() == wheel.pop(),
        _ => list.pop_direct() == wheel.pop_direct(),
    }
}

/// Whether both answer an operation the same, and then have the same last time. The draw x picks the kind and the callout, and y
/// the time.
fn agree(list: &mut ListQueue, wheel: &mut WheelQueue, round: u64, x: u64, y: u64) -> bool
    requires list { list.old.size ≡ 8 }
    requires wheel { wheel.old.size ≡ 8 }
    ensures list { list.new.size ≡ 8 }
    ensures wheel { wheel.new.size ≡ 8 }
{
    let kind = x / 65536 % 8;
    let i = (x / 1024 % 8) as u32;
    let now = round % 4000 * 400_000;
    let same = answer_alike(list, wheel, kind, i, round, time(now + y / 64), time(now));
    same && list.last() == wheel.last()
}

/// The round in which they first differ, or else the number of rounds.
fn agree_for(list: &mut ListQueue, wheel: &mut WheelQueue, rounds: u64) -> u64
    requires list { list.old.size ≡ 8 }
    requires wheel { wheel.old.size ≡ 8 }
{
    let mut x = 1;
    for round in 0..rounds {
        x = next_number(x);
        let y = next_number(x);
        if !agree(list, wheel, round, x, y) {
            return round;
        }
        x = y;
    }
    rounds
}

#[test]
fn answers_agree(rt: HostRuntime) {
    let direct = [false, true, false, false, true, false, false, false];
    let mut list = ListQueue::new(rt.alloc(), 8, 16, &direct).expect(&rt, "no memory");
    let mut wheel = WheelQueue::new(rt.alloc(), 8, 16, &direct).expect(&rt, "no memory");
    let rounds = agree_for(&mut list, &mut wheel, 4000);
    drop(list);
    drop(wheel);
    assert!(rt; rounds == 4000);
}

/// Whether the callouts come due in this order, and no others.
fn pops<Q: TimerQueue>(queue: &mut Q, order: &[u32]) -> bool {
    for i in order {
        if queue.pop() != Some((*i, 0)) {
            return false;
        }
    }
    queue.pop().is_none()
}

/// Arms callouts from 0 on at these times, and scans: the count and the looks, and whether they then come in this order.
fn plays<Q: TimerQueue>(queue: &mut Q, times: &[u64], now: u64, order: &[u32]) -> ((u32, u64), bool)
    requires size { length times.now ≤ (Q.state queue.old).size }
    requires small { length times.now ≤ 1024 }
{
    arm(queue, times);
    let counted = scan(queue, time(now));
    (counted, pops(queue, order))
}

/// Three callouts at the border of two buckets, taken out bucket by bucket.
fn takes_a_bucket_in_order<Q: TimerQueue + Drop>(made: Result<Q, NoMemory>) -> bool
    requires { IfOk made (λ queue. (Q.state queue).size ≡ 3) }
{
    let Ok(mut queue) = made else {
        return false;
    };
    let times = [16777215, 16777216, 16777217];
    plays(&mut queue, &times, 16777217, &[0, 2, 1]) == ((3, 3), true)
}

/// What is more than a turn away stays until the turn of its time.
fn takes_in_two_turns<Q: TimerQueue + Drop>(made: Result<Q, NoMemory>) -> bool
    requires { IfOk made (λ queue. (Q.state queue).size ≡ 4) }
{
    let Ok(mut queue) = made else {
        return false;
    };
    let times = [285212672, 33554432, 16777216, 838860800];
    let first = plays(&mut queue, &times, 671088640, &[2, 0, 1]);
    let other = plays(&mut queue, &[], 838860800, &[3]);
    [first, other] == [((3, 4), true), ((1, 1), true)]
}

#[test]
fn order_in_a_bucket_and_in_two_turns(rt: HostRuntime) {
    let alloc = rt.alloc();
    assert!(rt; takes_a_bucket_in_order(ListQueue::new(alloc, 3, 256, &[false; 3])));
    assert!(rt; takes_a_bucket_in_order(WheelQueue::new(alloc, 3, 256, &[false; 3])));
    assert!(rt; takes_in_two_turns(ListQueue::new(alloc, 4, 16, &[false; 4])));
    assert!(rt; takes_in_two_turns(WheelQueue::new(alloc, 4, 16, &[false; 4])));
}

/// The count and the looks of a scan that comes to the third of 64 buckets, with a callout in each.
fn scan_of_three<Q: TimerQueue + Drop>(made: Result<Q, NoMemory>) -> Option<(u32, u64)>
    requires { IfOk made (λ queue. (Q.state queue).size ≡ 64) }
{
    let Ok(mut queue) = made else {
        return None;
    };
    let mut times = [0; 64];
    for (i, at) in times.iter_mut().enumerate() {
        *at = i as u64 * 16777216;
    }
    arm(&mut queue, &times);
    Some(scan(&mut queue, time(33554432)))
}

#[test]
fn looks_at_visited_buckets(rt: HostRuntime) {
    let listed = scan_of_three(ListQueue::new(rt.alloc(), 64, 16, &[false; 64]));
    assert!(rt; listed == Some((3, 64)));
    let wheeled = scan_of_three(WheelQueue::new(rt.alloc(), 64, 16, &[false; 64]));
    assert!(rt; wheeled == Some((3, 12)));
}
