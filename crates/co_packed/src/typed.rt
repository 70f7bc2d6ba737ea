//! What their types say of the values of kinds and numbers: they are in range. Contracts know the range of a value that the
//! code has read. These functions do nothing when they run.
ghost use Rattle.co_packed.specs.Parts.{entry_of, op_of, queue_op_of, queue_reply_of, reply_of};
ghost use Rattle.co_packed.specs.Typed.{AnswerTyped, EntryTyped, OpTyped, QueueTyped, ReplyTyped};

use crate::kinds::{Answer, Kind, QAnswer, QKind, Sort};
use crate::words::{OpWords, ReplyWords};

/// The values of the operation of this kind are in the ranges of their types.
fn op_is_typed(kind: Kind, op: OpWords)
    ensures { OpTyped (op_of kind op) }
{}

/// The values of the reply of this kind are in the ranges of their types.
fn reply_is_typed(answer: Answer, reply: ReplyWords)
    ensures { ReplyTyped (reply_of answer reply) }
{}

/// The values of the queue's operation of this kind are in the ranges of their types.
fn queue_op_is_typed(kind: QKind, op: OpWords)
    ensures { QueueTyped (queue_op_of kind op) }
{}

/// The values of the queue's reply of this kind are in the ranges of their types.
fn queue_reply_is_typed(answer: QAnswer, reply: ReplyWords)
    ensures { AnswerTyped (queue_reply_of answer reply) }
{}

/// The values of the entry of this sort are in the ranges of their types.
pub(crate) fn entry_is_typed(sort: Sort, actor: u32, act: u64, op: OpWords, reply: ReplyWords)
    ensures { EntryTyped (entry_of sort actor act op reply) }
{
    match sort {
        Sort::Timer(kind, answer) => {
            op_is_typed(kind, op);
            reply_is_typed(answer, reply);
        }
        Sort::Cpu(kind, answer) => {
            queue_op_is_typed(kind, op);
            queue_reply_is_typed(answer, reply);
        }
        Sort::Own(_) => {}
    }
}
