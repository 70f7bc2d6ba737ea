//! The numbers of notes of the places, and where each note belongs, which threads count beside each other.
ghost use Rattle.std.specs.Prelude.{◌≡◌, ◌<◌, ◌+◌, ◌++◌, ℕ, length, slice_index, OnOk, IfOk};
ghost use Rattle.co_program.specs.Places.{AllHavePlaces};
ghost use Rattle.co_print.specs.Order.{AreCounted};

use crate::order::{Counted, count_lists, sum};
use co_packed::PackedNote;
use co_program::Script;
use co_sbt::{NoMemory, Seq};
use co_script::append;
use std::alloc::Global;
use std::thread::{Threads, join};

/// How often the lists are halved: three times, for 8 parts.
const HALVINGS: u32 = 3;

/// Adds other numbers of notes to those of the same places. `NoMemory` where a sum is too large.
fn add_counts(counts: &mut Seq<usize>, more: &[usize]) -> Result<(), NoMemory>
    requires { length more.now ≡ length counts.old }
    ensures length { OnOk result (length counts.new ≡ length counts.old) }
    ensures each { OnOk result ((i : ℕ) → i < length counts.old → slice_index counts.new i ≡ slice_index counts.old i + slice_index more.now i) }
{
    for place in 0..more.len() {
        let counted = counts.as_slice();
        let count = sum(counted[place], more[place])?;
        counts.replace(place, count);
    }
    Ok(())
}

/// What is counted of the lists in front and of those behind them, together. `NoMemory` where there is no room for it.
fn joined(mut front: Counted, back: Counted) -> Result<Counted, NoMemory>
    requires { length back.counts ≡ length front.counts }
    ensures length { IfOk result (λ all. length all.counts ≡ length front.counts) }
    ensures each { IfOk result (λ all. (i : ℕ) → i < length front.counts → slice_index all.counts i ≡ slice_index front.counts i + slice_index back.counts i) }
    ensures spots { IfOk result (λ all. all.spots ≡ front.spots ++ back.spots) }
{
    add_counts(&mut front.counts, back.counts.as_slice())?;
    append(&mut front.spots, back.spots)?;
    Ok(front)
}

/// What `count_lists` gives. The lists are halved this often, and the halves are counted beside each other, the first one
/// in a thread of its own where one can be had.
#[cycle(counted)]
fn count_halves<R: Threads + Sync>(
    rt: &R,
    alloc: Global,
    script: &Script,
    lists: &[Seq<PackedNote>],
    halvings: u32,
) -> Result<Counted, NoMemory>
    requires { AllHavePlaces script.now lists.now }
    ensures { IfOk result (λ counted. AreCounted script.now lists.now counted) }
{
    if halvings == 0 || lists.len() < 2 {
        return count_lists(alloc, script, lists);
    }
    let (first, second) = lists.split_at(lists.len() / 2);
    let left = halvings - 1;
    let front = || -> Result<Counted, NoMemory>
        requires { AllHavePlaces script.now first.now }
        ensures { IfOk result (λ counted. AreCounted script.entry.now first.entry.now counted) }
    { count_halves(rt, alloc, script, first, left) };
    let back = || -> Result<Counted, NoMemory>
        requires { AllHavePlaces script.now second.now }
        ensures { IfOk result (λ counted. AreCounted script.entry.now second.entry.now counted) }
    { count_halves(rt, alloc, script, second, left) };
    let (before, behind) = join(rt, front, back);
    let counted = before?;
    joined(counted, behind?)
}

/// The number of notes of each place and where each note belongs, as `count_lists` gives it: up to 8 threads count some
/// lists each. `NoMemory` where there is no room for what is counted, and where the number of a note's place or its
/// position is 2^32 or more.
pub(crate) fn count_by_threads<R: Threads + Sync>(
    rt: &R,
    alloc: Global,
    script: &Script,
    lists: &[Seq<PackedNote>],
) -> Result<Counted, NoMemory>
    requires { AllHavePlaces script.now lists.now }
    ensures { IfOk result (λ counted. AreCounted script.now lists.now counted) }
{
    count_halves(rt, alloc, script, lists, HALVINGS)
}
