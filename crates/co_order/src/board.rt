//! The notes that are to be ordered, with their positions.
ghost use Rattle.std.specs.Prelude.{◌≡◌, IfOk};
ghost use Rattle.co_check.specs.Lines.{AreLinesOf};
ghost use Rattle.co_program.specs.Scripts.{IsScript};
ghost use Rattle.co_order.specs.Merging.{AreRanks, IsBoard};

use crate::counts::raise;
use co_program::{Script, place_count, place_index};
use co_report::Line;
use co_sbt::{NoMemory, Seq};
use std::alloc::Global;

/// A script, the note lines of its report, and of each line how many of its place stand above it.
#[derive(Drop)]
pub(crate) struct Board<'a> {
    pub(crate) script: &'a Script,
    pub(crate) lines: &'a [Line],
    pub(crate) ranks: Seq<u64>,
}

impl<'a> Board<'a> {
    pub(crate) fn new(
        alloc: Global,
        script: &'a Script,
        lines: &'a [Line],
    ) -> Result<Board<'a>, NoMemory>
        requires script { IsScript script.now }
        requires lines { AreLinesOf script.now lines.now }
        ensures board { IfOk result IsBoard }
        ensures script { IfOk result (λ b. b.script.now ≡ script.now) }
        ensures lines { IfOk result (λ b. b.lines.now ≡ lines.now) }
    {
        let ranks = ranks_of(alloc, script, lines)?;
        Ok(Board {
            script,
            lines,
            ranks,
        })
    }
}

/// How many lines of its place stand above each line.
fn ranks_of(alloc: Global, script: &Script, lines: &[Line]) -> Result<Seq<u64>, NoMemory>
    requires script { IsScript script.now }
    requires lines { AreLinesOf script.now lines.now }
    ensures { IfOk result (AreRanks script.now lines.now) }
{
    let mut counts = Seq::filled(alloc, place_count(script), 0_u64)?;
    let mut ranks = Seq::new(alloc);
    for line in lines {
        let place = place_index(script, line.place);
        ranks.push(counts.as_slice()[place])?;
        raise(&mut counts, place)?;
    }
    Ok(ranks)
}
