//! Client locks, taken by one thread and by two.
ghost use Rattle.std.specs.Prelude.{◌≡◌, ◌<◌, Some, length, slice_get, ◌∷◌, []};

use super::turns::comes_to;
use co_lock::{ClientLocks, Held, Hold, LockKind};
use std::alloc::Global;
use std::process::Abort;
use std::sync::atomic::{AtomicU64, Ordering};
use std::sync::{Barrier, Wait};
use std::thread;
use std::thread::{Threads, join};

// A mutex and two reader-writer locks.
fn three_locks<R: Abort>(rt: &R, alloc: Global) -> ClientLocks
    ensures { result ≡ LockKind.Mtx ∷ LockKind.Rw ∷ LockKind.Rw ∷ [] }
{
    ClientLocks::new(alloc, &[LockKind::Mtx, LockKind::Rw, LockKind::Rw]).expect(rt, "no memory")
}

// Whether the hold says that it is this one.
fn is(hold: &Hold<'_>, id: u32, exclusive: bool) -> bool {
    let says = hold.id() == id && hold.exclusive() == exclusive;
    says && hold.held() == Held { id, exclusive }
}

// Takes the mutex, and under it a reader-writer lock in each mode. Whether each hold says so.
fn take_each<R: Wait + Sync>(rt: &R, locks: &ClientLocks) -> bool
    requires { locks.now ≡ LockKind.Mtx ∷ LockKind.Rw ∷ LockKind.Rw ∷ [] }
{
    let mutex = locks.lock(rt, 0);
    let writing = locks.lock(rt, 1);
    let writes = is(&writing, 1, true);
    drop(writing);
    let reading = locks.read(rt, 1);
    let reads = is(&reading, 1, false) && is(&mutex, 0, true);
    drop(reading);
    drop(mutex);
    writes && reads
}

#[test]
fn a_drop_releases_each_lock(rt: HostRuntime) {
    let locks = three_locks(&rt, rt.alloc());
    assert!(rt; take_each(&rt, &locks) && take_each(&rt, &locks));
    drop(locks);
}

// Adds 1 so often, by a read and a write of which others may come between unless the lock keeps them out.
fn count_up<R: Wait + Sync>(rt: &R, locks: &ClientLocks, id: u32, count: &AtomicU64)
    requires { id < length locks.now }
{
    for _ in 0..1000 {
        let hold = locks.lock(rt, id);
        let seen = count.load(Ordering::SeqCst);
        thread::yield_now();
        count.store(seen.wrapping_add(1), Ordering::SeqCst);
        drop(hold);
    }
}

// The count after two threads have counted up under one lock.
fn counted_by_two<R: Threads + Wait + Sync>(rt: &R, locks: &ClientLocks, id: u32) -> u64
    requires { id < length locks.now }
{
    let count = AtomicU64::new(0);
    join(
        rt,
        ||
            requires { id < length locks.now }
        { count_up(rt, locks, id, &count) },
        ||
            requires { id < length locks.now }
        { count_up(rt, locks, id, &count) },
    );
    count.load(Ordering::SeqCst)
}

#[test]
fn exclusive_holds_exclude_each_other(rt: HostRuntime) {
    let locks = three_locks(&rt, rt.alloc());
    assert!(rt; counted_by_two(&rt, &locks, 0) == 2000);
    assert!(rt; counted_by_two(&rt, &locks, 1) == 2000);
    drop(locks);
}

// Takes the lock in read mode, and keeps it until another has it as well.
fn read_beside<R: Wait + Sync>(rt: &R, locks: &ClientLocks, id: u32, met: &Barrier) -> Held
    requires { slice_get locks.now id ≡ Some LockKind.Rw }
{
    let hold = locks.read(rt, id);
    met.wait(rt);
    let held = hold.held();
    drop(hold);
    held
}

// What two readers of one lock hold at once.
fn read_by_two<R: Threads + Wait + Sync>(rt: &R, locks: &ClientLocks, id: u32) -> (Held, Held)
    requires { slice_get locks.now id ≡ Some LockKind.Rw }
{
    let met = Barrier::new(2);
    join(
        rt,
        || -> Held
            requires { slice_get locks.now id ≡ Some LockKind.Rw }
        { read_beside(rt, locks, id, &met) },
        || -> Held
            requires { slice_get locks.now id ≡ Some LockKind.Rw }
        { read_beside(rt, locks, id, &met) },
    )
}

#[test]
fn readers_share_a_lock(rt: HostRuntime) {
    let locks = three_locks(&rt, rt.alloc());
    let reading = Held {
        id: 1,
        exclusive: false,
    };
    assert!(rt; read_by_two(&rt, &locks, 1) == (reading, reading));
    drop(locks);
}

// Takes the locks but `kept`, one after the other, once that one is kept.
fn take_others<R: Wait + Sync>(
    rt: &R,
    locks: &ClientLocks,
    kept: u32,
    begun: &AtomicU64,
    taken: &AtomicU64,
)
    requires { length locks.now ≡ 3 }
{
    if !comes_to(begun, 1) {
        return;
    }
    for id in 0..3 {
        if id != kept {
            drop(locks.lock(rt, id));
            taken.fetch_add(1, Ordering::SeqCst);
        }
    }
}

// Keeps a lock while another takes two. Whether it could before the wait for it was over.
fn keep<R: Wait + Sync>(
    rt: &R,
    locks: &ClientLocks,
    kept: u32,
    begun: &AtomicU64,
    taken: &AtomicU64,
) -> bool
    requires { kept < length locks.now }
{
    let hold = locks.lock(rt, kept);
    begun.store(1, Ordering::SeqCst);
    let are_taken = comes_to(taken, 2);
    drop(hold);
    are_taken
}

// Whether the other locks are free while this one is kept.
fn others_are_free<R: Threads + Wait + Sync>(rt: &R, locks: &ClientLocks, kept: u32) -> bool
    requires three { length locks.now ≡ 3 }
    requires kept { kept < 3 }
{
    let begun = AtomicU64::new(0);
    let taken = AtomicU64::new(0);
    let (free, ()) = join(
        rt,
        || -> bool
            requires { kept < length locks.now }
        { keep(rt, locks, kept, &begun, &taken) },
        ||
            requires { length locks.now ≡ 3 }
        { take_others(rt, locks, kept, &begun, &taken) },
    );
    free
}

// Keeps the three locks at once: which each hold says that it is of.
fn keep_each<R: Wait + Sync>(rt: &R, locks: &ClientLocks) -> [u32; 3]
    requires { locks.now ≡ LockKind.Mtx ∷ LockKind.Rw ∷ LockKind.Rw ∷ [] }
{
    let mutex = locks.lock(rt, 0);
    let first = locks.read(rt, 1);
    let second = locks.lock(rt, 2);
    let ids = [mutex.id(), first.id(), second.id()];
    drop(second);
    drop(first);
    drop(mutex);
    ids
}

#[test]
fn each_lock_is_its_own(rt: HostRuntime) {
    let locks = three_locks(&rt, rt.alloc());
    for kept in 0..3 {
        assert!(rt; others_are_free(&rt, &locks, kept));
    }
    assert!(rt; keep_each(&rt, &locks) == [0, 1, 2]);
    drop(locks);
}
