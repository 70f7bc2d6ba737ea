//! What the start of a service did, and the notes of it.
ghost use Rattle.std.specs.Prelude.{◌≡◌};
ghost use Rattle.co_desk.specs.Services.{taken_of};

use crate::Taken;
use crate::running::{pop, run_note};
use crate::told::turn_note;
use co_object::{QReply, RunOp};
use co_record::Start;
use co_sbt::Sbt;

/// What the start of a service did, in few words: what was taken, and where its entries stand. Its notes are made of this where they
/// are wanted.
#[derive(Drop)]
pub enum Popped {
    /// Nothing had come due.
    Empty {
        /// Where the Pop stands in the CPU's journal.
        pop: u64,
    },
    /// Callout `i`'s arming `n` is taken into service.
    Took {
        /// The callout.
        i: u32,
        /// The arming's number.
        n: u64,
        /// The time of the last scan, in units of 2^-32 s.
        at: Sbt,
        /// Whether the function is to be called at once.
        reply: Start,
        /// Where the Pop stands in the CPU's journal.
        pop: u64,
        /// Where the Pick stands in the callout's history.
        pick: u64,
    },
}

impl Popped {
    /// The answer of a start by actor `actor` in its act `act`, of CPU `cpu` or of its interrupt where `direct`, with its notes.
    #[inline(always)]
    pub fn answer(&self, actor: u32, act: u64, cpu: u32, direct: bool) -> Taken
        ensures { result ≡ taken_of direct actor act cpu self.now }
    {
        let op = pop(direct);
        match self {
            Popped::Empty { pop } => Taken::Empty {
                note: turn_note(actor, act, cpu, op, QReply::Empty, *pop),
            },
            Popped::Took {
                i,
                n,
                at,
                reply,
                pop,
                pick,
            } => {
                let (i, n, at) = (*i, *n, *at);
                let reply = reply.reply();
                Taken::Took {
                    i,
                    n,
                    at,
                    reply,
                    pop: turn_note(actor, act, cpu, op, QReply::Got { i, n, at }, *pop),
                    pick: run_note(actor, act, i, &RunOp::Pick { n, cpu, at }, &reply, *pick),
                }
            }
        }
    }
}
