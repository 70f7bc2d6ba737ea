//! What a command on a running service comes to.
ghost use Rattle.std.specs.Prelude.{◌≡◌, IfOk, Some, None};
ghost use Rattle.std.specs.List.{concat};
ghost use Rattle.co_top.specs.declared.status.Status.TheVariants.{Done, BadScript};
ghost use Rattle.co_top.specs.Outcomes.{IsOutcome};
ghost use Rattle.co_front.specs.Texts.{refusal_text};

use crate::answer::{Answer, refused, whole};
use crate::status::Status;
use co_sbt::{NoMemory, Seq};
use co_service::Closing;
use co_text::{Cause, ScriptFault};
use std::alloc::Global;

/// The answer of a command, and the closing of the service that it worked on, where it is done.
#[derive(Drop)]
pub(crate) struct Served {
    pub(crate) answer: Answer,
    pub(crate) closing: Option<Closing>,
}

impl Served {
    /// The work is done: its text, in pieces.
    pub(crate) fn done(pieces: Seq<Seq<u8>>, closing: Closing) -> Served
        ensures status { result.answer.status ≡ Done }
        ensures text { result.answer.pieces ≡ pieces }
        ensures closing { result.closing ≡ Some closing }
    {
        Served {
            answer: Answer {
                status: Status::Done,
                pieces,
            },
            closing: Some(closing),
        }
    }

    /// A text of commands is answered, or refused.
    pub(crate) fn of_batch(
        alloc: Global,
        out: Result<(Seq<u8>, Closing), ScriptFault>,
    ) -> Result<Served, NoMemory>
        ensures { IfOk result (λ served. IsOutcome out served.answer.status served.closing (concat served.answer.pieces)) }
    {
        match out {
            Ok((text, closing)) => match whole(alloc, text) {
                Ok(pieces) => Ok(Served::done(pieces, closing)),
                Err(end) => Err(end),
            },
            Err(ScriptFault::Bad { line, cause }) => Served::refused(alloc, line, cause),
            Err(ScriptFault::NoMemory) => Err(NoMemory {}),
        }
    }

    /// The input is refused: no service was begun.
    pub(crate) fn refused(alloc: Global, line: u64, cause: Cause) -> Result<Served, NoMemory>
        ensures status { IfOk result (λ served. served.answer.status ≡ BadScript) }
        ensures text { IfOk result (λ served. concat served.answer.pieces ≡ refusal_text (record { line = line; cause = cause })) }
        ensures closing { IfOk result (λ served. served.closing ≡ None) }
    {
        Ok(Served {
            answer: refused(alloc, line, cause)?,
            closing: None,
        })
    }
}
