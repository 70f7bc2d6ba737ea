//! Lists, and lists with room.

use super::functions::two;
use super::specs::spec;
use co_object::Spec;
use co_sbt::{Room, Seq};
use std::alloc::Global;
use std::process::Abort;

/// A list that has grown at its end, by two pushes and two within its room.
fn grown<R: Abort>(rt: &R, alloc: Global) -> Seq<u64> {
    let mut room = Room::from_seq(two(rt, alloc, 3, 5));
    room.reserve(2).expect(rt, "no memory");
    room.push(8);
    room.push(13);
    room.into_seq()
}

/// A copy with one number replaced, and the number that stood there.
fn replaced<R: Abort>(rt: &R, alloc: Global) -> (Seq<u64>, u64) {
    let mut numbers = Seq::copy_of(alloc, &[3_u64, 5]).expect(rt, "no memory");
    numbers.extend_from_slice(&[8]).expect(rt, "no memory");
    let old = numbers.replace(1, 7);
    (numbers, old)
}

/// Whether the first of two lists is empty, and the other has the number 8 alone.
fn is_first_cleared(lists: &[Seq<u64>]) -> bool {
    match lists {
        [first, other] => first.as_slice().is_empty() && other.as_slice() == [8].as_slice(),
        _ => false,
    }
}

/// Whether the first of two lists can be cleared alone.
fn clears<R: Abort>(rt: &R, alloc: Global) -> bool {
    let first = Seq::copy_of(alloc, &[3_u64, 5]).expect(rt, "no memory");
    let other = Seq::copy_of(alloc, &[8_u64]).expect(rt, "no memory");
    let mut lists = two(rt, alloc, first, other);
    lists.clear_at(0);
    let cleared = is_first_cleared(lists.as_slice());
    drop(lists);
    cleared
}

/// Whether a list is of these items.
fn has<T: PartialEq + Drop>(list: Seq<T>, items: &[T]) -> bool {
    let same = list.as_slice() == items;
    drop(list);
    same
}

#[test]
fn grows_and_replaces(rt: HostRuntime) {
    assert!(rt; has(grown(&rt, rt.alloc()), &[3, 5, 8, 13]));
    let (numbers, old) = replaced(&rt, rt.alloc());
    assert!(rt; old == 5);
    assert!(rt; has(numbers, &[3, 7, 8]));
}

#[test]
fn clears_one_of_its_lists(rt: HostRuntime) {
    assert!(rt; clears(&rt, rt.alloc()));
}

#[test]
fn repeats_one_item(rt: HostRuntime) {
    let three = Seq::filled(rt.alloc(), 3, 7_u64).expect(&rt, "no memory");
    assert!(rt; has(three, &[7, 7, 7]));
    let none = Seq::filled(rt.alloc(), 0, 7_u64).expect(&rt, "no memory");
    assert!(rt; has(none, &[]));
}

#[test]
fn tells_which_callouts_are_direct(rt: HostRuntime) {
    let specs = [spec(false), spec(true), spec(true)];
    let directs = Spec::directs(rt.alloc(), &specs).expect(&rt, "no memory");
    assert!(rt; has(directs, &[false, true, true]));
}
