//! One order of all notes of a report, which keeps each actor's numbers and each place's positions.
ghost use Rattle.std.specs.Prelude.{◌<◌, OnOk, IfOk};
ghost use Rattle.co_check.specs.Lines.{IsReport};
ghost use Rattle.co_order.specs.Merging.{FirstNext, FirstZero, IsBoard, IsMerging, not_come};
ghost use Rattle.co_order.specs.Order.{IsOrdered, MayCome};

use crate::board::Board;
use crate::hints::Hints;
use crate::merge::Merge;
use co_report::Report;
use co_sbt::{NoMemory, Seq};
use std::alloc::Global;
use std::mem;

/// What the merge of a report's notes comes to.
#[derive(Drop)]
pub enum Ordered {
    /// The indices of all note lines, in an order that keeps the numbers and the positions.
    Whole(Seq<usize>),
    /// There is none: the number of the first line whose note is left where nothing more may come.
    Stuck { line: u64 },
}

/// Keeps a note for later.
fn wake(woken: &mut Vec<usize>, index: usize) -> Result<(), NoMemory> {
    match woken.push(index) {
        Ok(()) => Ok(()),
        Err(_) => Err(NoMemory {}),
    }
}

/// Takes a note, and wakes what may come by this: the note below it, and last the one that likely is its actor's next.
fn step(
    board: &Board,
    hints: &Hints,
    merge: &mut Merge,
    woken: &mut Vec<usize>,
    at: usize,
) -> Result<(), NoMemory>
    requires board { IsBoard board.now }
    requires merge { IsMerging board.now.script.now board.now.lines.now merge.old }
    requires next { MayCome board.now.script.now board.now.lines.now merge.old.order at }
    ensures merge { OnOk result (IsMerging board.now.script.now board.now.lines.now merge.new) }
    ensures left { OnOk result (not_come merge.new < not_come merge.old) }
{
    merge.take(board, at)?;
    let below = at.saturating_add(1);
    let next = hints.after(board.lines, at);
    if below != next && merge.may_come(board, below) {
        wake(woken, below)?;
    }
    wake(woken, next)
}

/// The first note that may come next.
fn first_next(board: &Board, merge: &Merge) -> Option<usize>
    requires board { IsBoard board.now }
    requires merge { IsMerging board.now.script.now board.now.lines.now merge.now }
    ensures { FirstNext board.now.script.now board.now.lines.now merge.now.order result }
{
    for i in 0..board.lines.len() {
        if merge.may_come(board, i) {
            return Some(i);
        }
    }
    None
}

/// All notes that may come at first, the last of them first.
fn openings(alloc: Global, board: &Board, merge: &Merge) -> Result<Vec<usize>, NoMemory>
    requires board { IsBoard board.now }
    requires merge { IsMerging board.now.script.now board.now.lines.now merge.now }
{
    let mut woken = Vec::new(alloc);
    for i in 0..board.lines.len() {
        let at = board.lines.len() - 1 - i;
        if merge.may_come(board, at) {
            wake(&mut woken, at)?;
        }
    }
    Ok(woken)
}

/// Where the first 0 stands.
fn first_zero(come: &[u64]) -> Option<usize>
    ensures { FirstZero come.now result }
{
    for (i, times) in come.iter().enumerate() {
        if *times == 0 {
            return Some(i);
        }
    }
    None
}

/// The note that comes next: the one that was woken last, of those that may come; and where there is none, the first that may.
fn next_of(board: &Board, merge: &Merge, woken: &mut Vec<usize>) -> Option<usize>
    requires board { IsBoard board.now }
    requires merge { IsMerging board.now.script.now board.now.lines.now merge.now }
    ensures { FirstNext board.now.script.now board.now.lines.now merge.now.order result }
{
    while let Some(index) = woken.pop() {
        if merge.may_come(board, index) {
            return Some(index);
        }
    }
    first_next(board, merge)
}

/// Takes notes as long as one may come.
fn take_rest(
    board: &Board,
    hints: &Hints,
    merge: &mut Merge,
    woken: &mut Vec<usize>,
) -> Result<(), NoMemory>
    requires board { IsBoard board.now }
    requires merge { IsMerging board.now.script.now board.now.lines.now merge.old }
    ensures merge { OnOk result (IsMerging board.now.script.now board.now.lines.now merge.new) }
    ensures nothing { OnOk result (FirstNext board.now.script.now board.now.lines.now merge.new.order None) }
{
    while let Some(at) = next_of(board, merge, woken) {
        step(board, hints, merge, woken, at)?;
    }
    Ok(())
}

/// Takes notes from the first on, as long as one may come.
fn take_all(alloc: Global, board: &Board, hints: &Hints, merge: &mut Merge) -> Result<(), NoMemory>
    requires board { IsBoard board.now }
    requires merge { IsMerging board.now.script.now board.now.lines.now merge.old }
    ensures merge { OnOk result (IsMerging board.now.script.now board.now.lines.now merge.new) }
    ensures nothing { OnOk result (FirstNext board.now.script.now board.now.lines.now merge.new.order None) }
{
    let mut woken = openings(alloc, board, merge)?;
    take_rest(board, hints, merge, &mut woken)
}

/// What a merge comes to that is at its end. It is of no more use.
fn ended(alloc: Global, board: &Board, merge: &mut Merge) -> Ordered
    requires board { IsBoard board.now }
    requires merge { IsMerging board.now.script.now board.now.lines.now merge.old }
    requires nothing { FirstNext board.now.script.now board.now.lines.now merge.old.order None }
    ensures { IsOrdered board.now.script.now board.now.lines.now result }
{
    match first_zero(merge.come.as_slice()) {
        Some(i) => Ordered::Stuck {
            line: board.lines[i].line,
        },
        None => Ordered::Whole(mem::replace(&mut merge.order, Seq::new(alloc))),
    }
}

/// Merges the notes of a board, from before the first on.
fn merge_all(
    alloc: Global,
    board: &Board,
    hints: &Hints,
    merge: &mut Merge,
) -> Result<Ordered, NoMemory>
    requires board { IsBoard board.now }
    requires merge { IsMerging board.now.script.now board.now.lines.now merge.old }
    ensures { IfOk result (IsOrdered board.now.script.now board.now.lines.now) }
{
    take_all(alloc, board, hints, merge)?;
    Ok(ended(alloc, board, merge))
}

/// Merges the notes of a board.
fn merged(alloc: Global, board: &Board, hints: &Hints) -> Result<Ordered, NoMemory>
    requires { IsBoard board.now }
    ensures { IfOk result (IsOrdered board.now.script.now board.now.lines.now) }
{
    let mut merge = Merge::open(alloc, board)?;
    merge_all(alloc, board, hints, &mut merge)
}

/// Merges the notes of a board, with hints where the next ones stand.
fn hinted(alloc: Global, board: &Board) -> Result<Ordered, NoMemory>
    requires { IsBoard board.now }
    ensures { IfOk result (IsOrdered board.now.script.now board.now.lines.now) }
{
    let hints = Hints::new(alloc, board.script, board.lines)?;
    merged(alloc, board, &hints)
}

/// The indices of a report's note lines in one order in which the numbers of each actor are 0, 1, 2 and so on, and the notes of
/// each place come as they stand in the report; or, where it has no such order, the number of the first line whose note is left
/// when notes have come as long as one could. Each note comes once. An actor goes on as long as it can, so that what it makes in
/// one section stays together. It takes time and memory in proportion to the notes. The order is our own.
pub fn order_of(alloc: Global, report: &Report) -> Result<Ordered, NoMemory>
    requires { IsReport report.now }
    ensures { IfOk result (IsOrdered report.now.script report.now.lines) }
{
    let board = Board::new(alloc, &report.script, report.lines.as_slice())?;
    hinted(alloc, &board)
}
