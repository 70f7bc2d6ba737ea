//! Operations on a callout, read from the words of a note.
ghost use Rattle.std.specs.Prelude.{◌≡◌};
ghost use Rattle.co_text.specs.Fallible.{Gives};
ghost use Rattle.co_notes.specs.NoteForms.{due_and_precision, target, reset_form, schedule_form, pick_form, op_form, drain_form, adrain_form, begin_form, end_form, choice, run_forms, op_forms};
ghost use Rattle.co_object.specs.declared.Op.TheVariants as ops;
ghost use Rattle.co_object.specs.declared.CallOp.TheVariants as calls;

use crate::reading::names::Names;
use crate::reading::parts::Parts;
use crate::reading::values::{argument, arming, cpu, cpu_or_none, func, literal, time, truth};
use co_object::{CallOp, Op, PlainOp, RunOp};
use co_sbt::Sbt;
use co_text::{Cause, is_word};

/// `uDUE pr uPREC`.
#[inline(always)]
fn due_and_precision(parts: &mut Parts) -> Result<(Sbt, Sbt), Cause>
    ensures { Gives (λ x. (x, parts.new)) result (due_and_precision parts.old) }
{
    let due = time(parts)?;
    literal(b"pr".as_slice(), parts)?;
    let prec = time(parts)?;
    Ok((due, prec))
}

/// `cpu pC` or `cpu -`.
fn target(names: &Names, parts: &mut Parts) -> Result<Option<u32>, Cause>
    ensures { Gives (λ x. (x, parts.new)) result (target names.now parts.old) }
{
    literal(b"cpu".as_slice(), parts)?;
    cpu_or_none(names, parts)
}

fn reset(names: &Names, parts: &mut Parts) -> Result<Op, Cause>
    ensures { Gives (λ x. (x, parts.new)) result (reset_form names.now parts.old) }
{
    let (due, prec) = due_and_precision(parts)?;
    let func = func(names, parts)?;
    let arg = argument(parts)?;
    let cpu = target(names, parts)?;
    let op = PlainOp::Reset {
        due,
        prec,
        func,
        arg,
        cpu,
    };
    Ok(Op::Call(CallOp::Plain(op)))
}

fn schedule(names: &Names, parts: &mut Parts) -> Result<Op, Cause>
    ensures { Gives (λ x. (x, parts.new)) result (schedule_form names.now parts.old) }
{
    let (due, prec) = due_and_precision(parts)?;
    let cpu = target(names, parts)?;
    let op = PlainOp::Schedule { due, prec, cpu };
    Ok(Op::Call(CallOp::Plain(op)))
}

fn async_drain(names: &Names, parts: &mut Parts) -> Result<Op, Cause>
    ensures { Gives (λ x. (x, parts.new)) result (adrain_form names.now parts.old) }
{
    let op = PlainOp::AsyncDrain {
        func: func(names, parts)?,
    };
    Ok(Op::Call(CallOp::Plain(op)))
}

fn drain(parts: &mut Parts) -> Result<Op, Cause>
    ensures { Gives (λ x. (x, parts.new)) result (drain_form parts.old) }
{
    let op = CallOp::DrainTry {
        took: truth(parts)?,
    };
    Ok(Op::Call(op))
}

#[inline(always)]
fn pick(names: &Names, parts: &mut Parts) -> Result<Op, Cause>
    ensures { Gives (λ x. (x, parts.new)) result (pick_form names.now parts.old) }
{
    let n = arming(parts)?;
    let cpu = cpu(names, parts)?;
    let at = time(parts)?;
    let op = RunOp::Pick { n, cpu, at };
    Ok(Op::Run(op))
}

fn begin(names: &Names, parts: &mut Parts) -> Result<Op, Cause>
    ensures { Gives (λ x. (x, parts.new)) result (begin_form names.now parts.old) }
{
    let n = arming(parts)?;
    let cpu = cpu(names, parts)?;
    Ok(Op::Run(RunOp::Begin { n, cpu }))
}

fn end(names: &Names, parts: &mut Parts) -> Result<Op, Cause>
    ensures { Gives (λ x. (x, parts.new)) result (end_form names.now parts.old) }
{
    let n = arming(parts)?;
    let cpu = cpu(names, parts)?;
    Ok(Op::Run(RunOp::End { n, cpu }))
}

/// An operation by one word alone.
fn plain(op: PlainOp) -> Op
    ensures { result ≡ ops.Call (calls.Plain op) }
{
    Op::Call(CallOp::Plain(op))
}

/// What a CPU does with a callout in service, by the word that it begins with.
#[tactic(auto, unfolding(crate::specs::NoteForms::run_forms))]
fn run_by(names: &Names, word: &[u8], parts: &mut Parts) -> Result<Op, Cause>
    ensures { Gives (λ x. (x, parts.new)) result (choice (run_forms names.now) word.now parts.old) }
{
    if is_word(word, b"pick".as_slice()) {
        pick(names, parts)
    } else if is_word(word, b"begin".as_slice()) {
        begin(names, parts)
    } else if is_word(word, b"end".as_slice()) {
        end(names, parts)
    } else {
        Err(Cause::Form)
    }
}

/// The operation that a word begins.
#[tactic(auto, unfolding(crate::specs::NoteForms::op_forms))]
fn op_by(names: &Names, word: &[u8], parts: &mut Parts) -> Result<Op, Cause>
    ensures { Gives (λ x. (x, parts.new)) result (choice (op_forms names.now) word.now parts.old) }
{
    if is_word(word, b"reset".as_slice()) {
        reset(names, parts)
    } else if is_word(word, b"schedule".as_slice()) {
        schedule(names, parts)
    } else if is_word(word, b"stop".as_slice()) {
        Ok(plain(PlainOp::Stop))
    } else if is_word(word, b"adrain".as_slice()) {
        async_drain(names, parts)
    } else if is_word(word, b"active".as_slice()) {
        Ok(plain(PlainOp::Active))
    } else if is_word(word, b"pending".as_slice()) {
        Ok(plain(PlainOp::Pending))
    } else if is_word(word, b"deactivate".as_slice()) {
        Ok(plain(PlainOp::Deactivate))
    } else if is_word(word, b"init".as_slice()) {
        Ok(plain(PlainOp::Init))
    } else if is_word(word, b"retire".as_slice()) {
        Ok(plain(PlainOp::Retire))
    } else if is_word(word, b"drain".as_slice()) {
        drain(parts)
    } else {
        run_by(names, word, parts)
    }
}

/// An operation, looked up by its word.
fn operation_by_word(names: &Names, parts: &mut Parts) -> Result<Op, Cause>
    ensures { Gives (λ x. (x, parts.new)) result (op_form names.now parts.old) }
{
    let word = parts.word()?;
    op_by(names, word, parts)
}

/// An operation of few values. The frequent ones are compared in place.
#[inline(always)]
fn short_operation(names: &Names, parts: &mut Parts) -> Result<Op, Cause>
    ensures { Gives (λ x. (x, parts.new)) result (op_form names.now parts.old) }
{
    if parts.option(b"begin".as_slice()) {
        begin(names, parts)
    } else if parts.option(b"pending".as_slice()) {
        Ok(plain(PlainOp::Pending))
    } else if parts.option(b"stop".as_slice()) {
        Ok(plain(PlainOp::Stop))
    } else if parts.option(b"adrain".as_slice()) {
        async_drain(names, parts)
    } else if parts.option(b"drain".as_slice()) {
        drain(parts)
    } else {
        operation_by_word(names, parts)
    }
}

/// An operation; `Form` where the parts begin none. The most frequent ones are compared first.
pub fn operation(names: &Names, parts: &mut Parts) -> Result<Op, Cause>
    ensures { Gives (λ x. (x, parts.new)) result (op_form names.now parts.old) }
{
    if parts.option(b"pick".as_slice()) {
        pick(names, parts)
    } else if parts.option(b"schedule".as_slice()) {
        schedule(names, parts)
    } else if parts.option(b"end".as_slice()) {
        end(names, parts)
    } else if parts.option(b"reset".as_slice()) {
        reset(names, parts)
    } else {
        short_operation(names, parts)
    }
}
