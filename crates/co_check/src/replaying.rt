//! The replay of a report's lines, with what is said of each.
ghost use Rattle.std.specs.Prelude.{◌<◌, [], List, length, IfOk};
ghost use Rattle.co_program.specs.Scripts.{IsScript};
ghost use Rattle.co_report.specs.declared.line.Line.{Line};
ghost use Rattle.co_report.specs.PackedLines.{line_of};
ghost use Rattle.co_check.specs.Hearing.{IsReplaying, IsReplayedOn};
ghost use Rattle.co_check.specs.Lines.{IsLineOf, lines_max};

use crate::fact::PackedFact;
use crate::index::count_entry;
use crate::replay::Replay;
use crate::verdict::Unfit;
use co_object::Note;
use co_program::{Script, actor_count};
use co_sbt::{NoMemory, Seq};
use std::alloc::Global;

/// The lines so far, each of which is possible where it stands.
#[derive(Drop)]
pub(crate) struct Replaying {
    replay: Replay,
    /// What is said of each of them.
    pub(crate) facts: Seq<PackedFact>,
    /// By actor: how many of them it made.
    pub(crate) counts: Vec<u32>,
}

impl Replaying {
    /// Before the first line.
    pub(crate) fn open(alloc: Global, script: &Script) -> Result<Replaying, NoMemory>
        requires { IsScript script.now }
        ensures { IfOk result (IsReplaying script.now []) }
    {
        let counts = Seq::filled(alloc, actor_count(script) as usize, 0)?.into_vec();
        let replay = Replay::open(alloc, script)?;
        Ok(Replaying {
            replay,
            facts: Seq::new(alloc),
            counts,
        })
    }

    /// Replays the next line. The answer is what is wrong with it, if something is; then the replay is of no more use.
    pub(crate) fn take(
        &mut self,
        script: &Script,
        line: u64,
        note: &Note,
    ) -> Result<Option<Unfit>, NoMemory>
        requires script { IsScript script.now }
        requires line { IsLineOf script.now (line_of line note.now) }
        requires after { (above : List Line) × IsReplaying script.now above self.old × (length above < lines_max) }
        ensures { IfOk result (λ wrong. (above : List Line) → IsReplaying script.now above self.old → IsReplayedOn script.now above (line_of line note.now) wrong self.new) }
    {
        match self.replay.take(script, note.place, &note.entry) {
            Ok(fact) => {
                self.facts.push(fact)?;
                count_entry(&mut self.counts, &note.entry);
                Ok(None)
            }
            Err(cause) => Ok(Some(cause)),
        }
    }
}
