//! Acts of the open section that are read before their line is cut.
ghost use Rattle.std.specs.Prelude.{◌≡◌, ◌≤◌, length, IfOk, IfSome, MatchOption};
ghost use Rattle.co_script.specs.Beside.{SaysNext, TakesNext};

use super::Draft;
use co_grammar::act_ahead;
use co_program::{Act, When};
use co_sbt::{NoMemory, Sbt};

impl Draft {
    /// Puts into `into` the act that the line at the front of a text says, where it may be added, and gives what stands behind
    /// the line. None where the line says none, or says it in another form than those that are read so.
    #[inline(always)]
    fn said_next<'a>(&self, text: &'a [u8], into: &mut Act) -> Option<&'a [u8]>
        ensures { IfSome result (λ after. SaysNext self.now text.now into.new after.now) }
    {
        let (verb, after) = act_ahead(text, into)?;
        if !self.stage.may_act(verb) {
            return None;
        }
        match self.refuse(into) {
            Ok(()) => Some(after),
            Err(_) => None,
        }
    }

    /// Takes the line from a byte on where it says an act that may be added to the open section, and gives the byte behind the
    /// line. None where the line is another, or is not read so: then nothing is taken.
    #[inline(always)]
    pub fn take_next(&mut self, text: &[u8], at: usize) -> Result<Option<usize>, NoMemory>
        requires { at ≤ length text.now }
        ensures { IfOk result (λ behind. MatchOption behind (self.new ≡ self.old) (λ to. TakesNext text.now self.old self.new at to)) }
    {
        // Names the type that lies two deep in an act: the check needs it here.
        let _nested = When::At(Sbt::zero());
        let mut act = Act::Unlock;
        let Some(after) = self.said_next(text.split_at(at).1, &mut act) else {
            return Ok(None);
        };
        self.add(&act)?;
        Ok(Some(text.len() - after.len()))
    }
}
