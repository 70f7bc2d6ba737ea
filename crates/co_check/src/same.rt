//! Whether two values are the same.
ghost use Rattle.std.specs.Prelude.{◌≡◌};
ghost use Rattle.co_check.specs.Same.{same_answer, same_kind, same_op, same_queue_op, same_reply};

use co_object::{Op, OwnKind, QOp, QReply, Reply};

pub(crate) fn same_reply(a: &Reply, b: &Reply) -> bool
    ensures { result ≡ same_reply a.now b.now }
{
    *a == *b
}

pub(crate) fn same_answer(a: &QReply, b: &QReply) -> bool
    ensures { result ≡ same_answer a.now b.now }
{
    *a == *b
}

pub(crate) fn same_op(a: &Op, b: &Op) -> bool
    ensures { result ≡ same_op a.now b.now }
{
    *a == *b
}

pub(crate) fn same_queue_op(a: &QOp, b: &QOp) -> bool
    ensures { result ≡ same_queue_op a.now b.now }
{
    *a == *b
}

pub(crate) fn same_kind(a: OwnKind, b: OwnKind) -> bool
    ensures { result ≡ same_kind a b }
{
    a == b
}
