//! Note lines, told as they are read to whoever keeps them.

use crate::line::Line;
use co_object::Note;
use co_sbt::{NoMemory, Seq};

/// Takes the note lines of a report, one after the other, as they are read.
///
/// What a listener keeps of them is its own affair. Our own decision.
pub trait LineListener {
    ghost use Rattle.std.specs.Prelude.{◌++◌, ◌∷◌, [], List, OnOk};
    ghost use Rattle.co_report.specs.declared.line.Line.{Line};
    ghost use Rattle.co_report.specs.PackedLines.{line_of};

    /// These are the lines that it has taken, in their order.
    ghost has: { Self → List Line → Type 0 };

    /// Takes the line of this number, which shows this note: a note's position is its number in its actor's list. Fails for
    /// want of memory alone; what the listener has after that is not told.
    fn take(&mut self, line: u64, note: &Note) -> Result<(), NoMemory>
        requires { (lines : List Line) × has self.old lines }
        ensures { OnOk result ((lines : List Line) → has self.old lines → has self.new (lines ++ line_of line note.now ∷ [])) };
}

/// A list that has all lines.
impl LineListener for Seq<Line> {
    ghost use Rattle.std.specs.Prelude.{◌≡◌};

    ghost has = { λ taken lines. taken ≡ lines };

    fn take(&mut self, line: u64, note: &Note) -> Result<(), NoMemory> {
        self.push(Line {
            line,
            place: note.place,
            number: note.pos,
            entry: note.entry,
        })
    }
}
