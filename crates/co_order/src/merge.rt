//! An order that is being made.
ghost use Rattle.std.specs.Prelude.{◌≡◌, ◌<◌, ◌↔◌, ◌==◌, ◌&&◌, IsTrue, slice_get, OnOk, IfOk};
ghost use Rattle.co_order.specs.Merging.{IsBoard, IsMerging, not_come};
ghost use Rattle.co_order.specs.Order.{MayCome, comes_next};

use crate::board::Board;
use crate::counts::raise;
use co_program::{actor_count, place_count, place_index};
use co_report::Line;
use co_sbt::{NoMemory, Seq};
use std::alloc::Global;

/// The notes that have come, and how far the actors and the places are by them.
#[derive(Drop)]
pub(crate) struct Merge {
    /// By actor: how many of its notes have come.
    pub(crate) numbers: Seq<u64>,
    /// By place: how many of its notes have come.
    pub(crate) positions: Seq<u64>,
    /// By line: how often its note has come, which is once at most.
    pub(crate) come: Seq<u64>,
    /// The notes that have come, by the indices of their lines.
    pub(crate) order: Seq<usize>,
}

/// Whether a note that came so often is next: by its number and the count of its actor's notes, and by its rank and the count of
/// its place's.
fn fits(times: u64, number: u64, count: u64, rank: u64, position: u64) -> bool
    ensures { result ≡ ((times == 0) && ((number == count) && (rank == position))) }
{
    times == 0 && (number == count && rank == position)
}

impl Merge {
    /// Before the first note.
    pub(crate) fn open(alloc: Global, board: &Board) -> Result<Merge, NoMemory>
        requires { IsBoard board.now }
        ensures { IfOk result (IsMerging board.now.script.now board.now.lines.now) }
    {
        let numbers = Seq::filled(alloc, actor_count(board.script) as usize, 0_u64)?;
        let positions = Seq::filled(alloc, place_count(board.script), 0_u64)?;
        let come = Seq::filled(alloc, board.lines.len(), 0_u64)?;
        Ok(Merge {
            numbers,
            positions,
            come,
            order: Seq::new(alloc),
        })
    }

    /// Whether the note of this line, at this index, may come next.
    fn is_next(&self, board: &Board, i: usize, line: &Line) -> bool
        requires board { IsBoard board.now }
        requires merge { IsMerging board.now.script.now board.now.lines.now self.now }
        requires line { slice_get board.now.lines.now i ≡ Some line.now }
        ensures { result ≡ comes_next board.now.script.now board.now.lines.now self.now.order i line.now }
    {
        let come = self.come.as_slice()[i];
        let number = self.numbers.as_slice()[line.entry.actor() as usize];
        let position = self.positions.as_slice()[place_index(board.script, line.place)];
        let rank = board.ranks.as_slice()[i];
        fits(come, line.number, number, rank, position)
    }

    /// Whether the note of the line at this index may come next.
    pub(crate) fn may_come(&self, board: &Board, i: usize) -> bool
        requires board { IsBoard board.now }
        requires merge { IsMerging board.now.script.now board.now.lines.now self.now }
        ensures { IsTrue result ↔ MayCome board.now.script.now board.now.lines.now self.now.order i }
    {
        if i < board.lines.len() {
            self.is_next(board, i, &board.lines[i])
        } else {
            false
        }
    }

    /// Takes a note that may come next. After NoMemory the merge is of no more use.
    pub(crate) fn take(&mut self, board: &Board, i: usize) -> Result<(), NoMemory>
        requires board { IsBoard board.now }
        requires merge { IsMerging board.now.script.now board.now.lines.now self.old }
        requires next { MayCome board.now.script.now board.now.lines.now self.old.order i }
        ensures merge { OnOk result (IsMerging board.now.script.now board.now.lines.now self.new) }
        ensures left { OnOk result (not_come self.new < not_come self.old) }
    {
        let line = &board.lines[i];
        raise(&mut self.numbers, line.entry.actor() as usize)?;
        raise(&mut self.positions, place_index(board.script, line.place))?;
        raise(&mut self.come, i)?;
        self.order.push(i)
    }
}
