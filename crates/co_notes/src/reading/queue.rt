//! Operations on a timer queue and their answers, read from the words of a note.
ghost use Rattle.std.specs.Prelude.{◌≡◌};
ghost use Rattle.co_text.specs.Fallible.{Gives};
ghost use Rattle.co_notes.specs.NoteForms.{insert_form, remove_form, scan_form, direct_or, queue_form, at_form, count_form, got_form, answer_form, may_answer};

use crate::reading::names::Names;
use crate::reading::parts::Parts;
use crate::reading::values::{arming, callout, number32, time};
use co_object::{QOp, QReply};
use co_text::Cause;

fn insert(names: &Names, parts: &mut Parts) -> Result<QOp, Cause>
    ensures { Gives (λ x. (x, parts.new)) result (insert_form names.now parts.old) }
{
    let i = callout(names, parts)?;
    let n = arming(parts)?;
    let t = time(parts)?;
    Ok(QOp::Insert { i, n, t })
}

fn remove(names: &Names, parts: &mut Parts) -> Result<QOp, Cause>
    ensures { Gives (λ x. (x, parts.new)) result (remove_form names.now parts.old) }
{
    Ok(QOp::Remove {
        i: callout(names, parts)?,
    })
}

fn scan(parts: &mut Parts) -> Result<QOp, Cause>
    ensures { Gives (λ x. (x, parts.new)) result (scan_form parts.old) }
{
    Ok(QOp::Scan { now: time(parts)? })
}

/// One operation behind `direct`, else the other.
fn direct_or(direct: QOp, other: QOp, parts: &mut Parts) -> Result<QOp, Cause>
    ensures { Gives (λ x. (x, parts.new)) result (direct_or direct other parts.old) }
{
    if parts.option(b"direct".as_slice()) {
        Ok(direct)
    } else {
        Ok(other)
    }
}

/// An operation on a timer queue; `Form` where the parts begin none.
pub fn queue_op(names: &Names, parts: &mut Parts) -> Result<QOp, Cause>
    ensures { Gives (λ x. (x, parts.new)) result (queue_form names.now parts.old) }
{
    if parts.option(b"insert".as_slice()) {
        insert(names, parts)
    } else if parts.option(b"remove".as_slice()) {
        remove(names, parts)
    } else if parts.option(b"scan".as_slice()) {
        scan(parts)
    } else if parts.option(b"pop".as_slice()) {
        direct_or(QOp::PopDirect, QOp::Pop, parts)
    } else if parts.option(b"free".as_slice()) {
        direct_or(QOp::FreeDirect, QOp::Free, parts)
    } else {
        Err(Cause::Form)
    }
}

fn at(parts: &mut Parts) -> Result<QReply, Cause>
    ensures { Gives (λ x. (x, parts.new)) result (at_form parts.old) }
{
    Ok(QReply::At(time(parts)?))
}

fn count(parts: &mut Parts) -> Result<QReply, Cause>
    ensures { Gives (λ x. (x, parts.new)) result (count_form parts.old) }
{
    Ok(QReply::Count(number32(parts)?))
}

fn got(names: &Names, parts: &mut Parts) -> Result<QReply, Cause>
    ensures { Gives (λ x. (x, parts.new)) result (got_form names.now parts.old) }
{
    let i = callout(names, parts)?;
    let n = arming(parts)?;
    let at = time(parts)?;
    Ok(QReply::Got { i, n, at })
}

/// An answer of a timer queue; `Form` where the parts begin none.
pub fn answer(names: &Names, parts: &mut Parts) -> Result<QReply, Cause>
    ensures { Gives (λ x. (x, parts.new)) result (answer_form names.now parts.old) }
{
    if parts.option(b"at".as_slice()) {
        at(parts)
    } else if parts.option(b"off".as_slice()) {
        Ok(QReply::Off)
    } else if parts.option(b"missing".as_slice()) {
        Ok(QReply::Missing)
    } else if parts.option(b"count".as_slice()) {
        count(parts)
    } else if parts.option(b"got".as_slice()) {
        got(names, parts)
    } else if parts.option(b"empty".as_slice()) {
        Ok(QReply::Empty)
    } else if parts.option(b"freed".as_slice()) {
        Ok(QReply::Freed)
    } else {
        Err(Cause::Form)
    }
}

/// The answer is one that the operation may have.
pub fn may_answer(op: &QOp, answer: &QReply) -> bool
    ensures { result ≡ may_answer op.now answer.now }
{
    match op {
        QOp::Insert { .. } => matches!(answer, QReply::At(_)),
        QOp::Remove { .. } => matches!(answer, QReply::Off | QReply::Missing),
        QOp::Scan { .. } => matches!(answer, QReply::Count(_)),
        QOp::Pop | QOp::PopDirect => matches!(answer, QReply::Got { .. } | QReply::Empty),
        QOp::Free | QOp::FreeDirect => matches!(answer, QReply::Freed),
    }
}
