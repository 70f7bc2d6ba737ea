//! How the first word of a line is read.
ghost use Rattle.std.specs.Prelude.{true, false};
ghost use Rattle.co_text.specs.Fallible.{Gives};
ghost use Rattle.co_script.specs.Reading.{opener_by};
ghost use Rattle.co_grammar.specs.Keywords.{act_kind, verb_of};

use co_grammar::{Opener, kind_of, verb_of};
use co_text::Cause;

/// How the first word of a line is read inside a section: a word of both kinds as the act.
#[tactic(auto, using(crate::proofs::Openers::act_within))]
pub(crate) fn opener_within(version: u32, first: &[u8]) -> Result<Opener, Cause>
    ensures { Gives (λ o. o) result (opener_by true (act_kind first.now) (verb_of version first.now)) }
{
    match verb_of(version, first) {
        Some(verb) => Ok(Opener::Act(verb)),
        None => match kind_of(first) {
            Some(kind) => Ok(Opener::Frame(kind)),
            None => Err(Cause::Word),
        },
    }
}

/// How the first word of a line is read outside a section: a word of both kinds as the line of the frame.
#[tactic(auto, using(crate::proofs::Openers::frame_outside))]
pub(crate) fn opener_outside(version: u32, first: &[u8]) -> Result<Opener, Cause>
    ensures { Gives (λ o. o) result (opener_by false (act_kind first.now) (verb_of version first.now)) }
{
    match kind_of(first) {
        Some(kind) => Ok(Opener::Frame(kind)),
        None => match verb_of(version, first) {
            Some(_) => Err(Cause::Order),
            None => Err(Cause::Word),
        },
    }
}
