//! What a command makes of its input, before it is written.
ghost use Rattle.std.specs.Prelude.{◌≡◌, IfOk};
ghost use Rattle.std.specs.List.{concat};
ghost use Rattle.co_top.specs.declared.status.Status.TheVariants.{BadScript};
ghost use Rattle.co_front.specs.Texts.{refusal_text};

use crate::status::Status;
use co_front::refusal_text;
use co_sbt::{NoMemory, Seq};
use co_text::Cause;
use std::alloc::Global;

/// The status that a command comes to, and the text for it, in pieces.
#[derive(Drop)]
pub(crate) struct Answer {
    pub(crate) status: Status,
    pub(crate) pieces: Seq<Seq<u8>>,
}

/// A text in one piece.
pub(crate) fn whole(alloc: Global, text: Seq<u8>) -> Result<Seq<Seq<u8>>, NoMemory>
    ensures { IfOk result (λ pieces. concat pieces ≡ text) }
{
    let mut pieces = Seq::new(alloc);
    pieces.push(text)?;
    Ok(pieces)
}

/// The answer to an input that is refused.
pub(crate) fn refused(alloc: Global, line: u64, cause: Cause) -> Result<Answer, NoMemory>
    ensures status { IfOk result (λ answer. answer.status ≡ BadScript) }
    ensures text { IfOk result (λ answer. concat answer.pieces ≡ refusal_text (record { line = line; cause = cause })) }
{
    let text = refusal_text(alloc, line, cause)?;
    Ok(Answer {
        status: Status::BadScript,
        pieces: whole(alloc, text)?,
    })
}
