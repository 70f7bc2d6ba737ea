//! Operations in kinds and numbers.
ghost use Rattle.std.specs.Prelude.{◌≡◌};
ghost use Rattle.co_object.specs.declared.op.Op.TheVariants.{Call, Run};
ghost use Rattle.co_object.specs.declared.op.CallOp.TheVariants.{Plain};
ghost use Rattle.co_object.specs.declared.op.PlainOp.TheVariants as plain;
ghost use Rattle.co_packed.specs.Parts.{op_of, queue_op_of};

use crate::kinds::{Kind, QKind};
use crate::words::{OpWords, no_op_words};
use co_object::{CallOp, Op, PlainOp, QOp, RunOp};

/// The kind and the numbers of an operation of a caller that is no drain.
#[inline(always)]
fn plain_parts(op: &PlainOp) -> (Kind, OpWords)
    ensures { op_of result.0 result.1 ≡ Call (Plain op.now) }
{
    let none = no_op_words();
    match *op {
        PlainOp::Reset {
            due: time,
            prec,
            func: number,
            arg: word,
            cpu: None,
        } => (
            Kind::Reset,
            OpWords {
                time,
                prec,
                word,
                number,
                ..none
            },
        ),
        PlainOp::Reset {
            due: time,
            prec,
            func: number,
            arg: word,
            cpu: Some(cpu),
        } => (
            Kind::ResetOn,
            OpWords {
                time,
                prec,
                word,
                number,
                cpu,
            },
        ),
        PlainOp::Schedule {
            due: time,
            prec,
            cpu: None,
        } => (Kind::Schedule, OpWords { time, prec, ..none }),
        PlainOp::Schedule {
            due: time,
            prec,
            cpu: Some(cpu),
        } => (
            Kind::ScheduleOn,
            OpWords {
                time,
                prec,
                cpu,
                ..none
            },
        ),
        PlainOp::Stop => (Kind::Stop, none),
        PlainOp::AsyncDrain { func: number } => (Kind::AsyncDrain, OpWords { number, ..none }),
        PlainOp::Active => (Kind::Active, none),
        PlainOp::Pending => (Kind::Pending, none),
        PlainOp::Deactivate => (Kind::Deactivate, none),
        PlainOp::Init => (Kind::Init, none),
        PlainOp::Retire => (Kind::Retire, none),
    }
}

/// The kind and the numbers of an operation of the service.
#[inline(always)]
fn run_parts(op: &RunOp) -> (Kind, OpWords)
    ensures { op_of result.0 result.1 ≡ Run op.now }
{
    let none = no_op_words();
    match *op {
        RunOp::Pick {
            n: word,
            cpu,
            at: time,
        } => (
            Kind::Pick,
            OpWords {
                time,
                word,
                cpu,
                ..none
            },
        ),
        RunOp::Begin { n: word, cpu } => (Kind::Begin, OpWords { word, cpu, ..none }),
        RunOp::End { n: word, cpu } => (Kind::End, OpWords { word, cpu, ..none }),
    }
}

/// The kind and the numbers of an operation on a callout.
#[inline(always)]
pub(crate) fn op_parts(op: &Op) -> (Kind, OpWords)
    ensures { op_of result.0 result.1 ≡ op.now }
{
    match op {
        Op::Call(CallOp::Plain(plain)) => plain_parts(plain),
        Op::Call(CallOp::DrainTry { took: false }) => (Kind::Drain, no_op_words()),
        Op::Call(CallOp::DrainTry { took: true }) => (Kind::DrainTook, no_op_words()),
        Op::Run(run) => run_parts(run),
    }
}

/// The kind and the numbers of an operation on a queue.
#[inline(always)]
pub(crate) fn queue_op_parts(op: &QOp) -> (QKind, OpWords)
    ensures { queue_op_of result.0 result.1 ≡ op.now }
{
    let none = no_op_words();
    match *op {
        QOp::Insert {
            i: number,
            n: word,
            t: time,
        } => (
            QKind::Insert,
            OpWords {
                time,
                word,
                number,
                ..none
            },
        ),
        QOp::Remove { i: number } => (QKind::Remove, OpWords { number, ..none }),
        QOp::Scan { now: time } => (QKind::Scan, OpWords { time, ..none }),
        QOp::Pop => (QKind::Pop, none),
        QOp::Free => (QKind::Free, none),
        QOp::PopDirect => (QKind::PopDirect, none),
        QOp::FreeDirect => (QKind::FreeDirect, none),
    }
}

/// A reset for this CPU, or for the home CPU where none is given.
#[inline(always)]
fn reset_of(words: &OpWords, cpu: Option<u32>) -> Op
    ensures { result ≡ Call (Plain (plain.Reset words.now.time words.now.prec words.now.number words.now.word cpu)) }
{
    Op::Call(CallOp::Plain(PlainOp::Reset {
        due: words.time,
        prec: words.prec,
        func: words.number,
        arg: words.word,
        cpu,
    }))
}

/// A schedule for this CPU, or for the home CPU where none is given.
#[inline(always)]
fn schedule_of(words: &OpWords, cpu: Option<u32>) -> Op
    ensures { result ≡ Call (Plain (plain.Schedule words.now.time words.now.prec cpu)) }
{
    Op::Call(CallOp::Plain(PlainOp::Schedule {
        due: words.time,
        prec: words.prec,
        cpu,
    }))
}

/// The operation on a callout of this kind and with these numbers.
#[inline(always)]
pub(crate) fn op_of(kind: Kind, words: &OpWords) -> Op
    ensures { result ≡ op_of kind words.now }
{
    let OpWords {
        time,
        word,
        number,
        cpu,
        ..
    } = *words;
    match kind {
        Kind::Reset => reset_of(words, None),
        Kind::ResetOn => reset_of(words, Some(cpu)),
        Kind::Schedule => schedule_of(words, None),
        Kind::ScheduleOn => schedule_of(words, Some(cpu)),
        Kind::Stop => Op::Call(CallOp::Plain(PlainOp::Stop)),
        Kind::AsyncDrain => Op::Call(CallOp::Plain(PlainOp::AsyncDrain { func: number })),
        Kind::Active => Op::Call(CallOp::Plain(PlainOp::Active)),
        Kind::Pending => Op::Call(CallOp::Plain(PlainOp::Pending)),
        Kind::Deactivate => Op::Call(CallOp::Plain(PlainOp::Deactivate)),
        Kind::Init => Op::Call(CallOp::Plain(PlainOp::Init)),
        Kind::Retire => Op::Call(CallOp::Plain(PlainOp::Retire)),
        Kind::Drain => Op::Call(CallOp::DrainTry { took: false }),
        Kind::DrainTook => Op::Call(CallOp::DrainTry { took: true }),
        Kind::Pick => Op::Run(RunOp::Pick {
            n: word,
            cpu,
            at: time,
        }),
        Kind::Begin => Op::Run(RunOp::Begin { n: word, cpu }),
        Kind::End => Op::Run(RunOp::End { n: word, cpu }),
    }
}

/// The operation on a queue of this kind and with these numbers.
#[inline(always)]
pub(crate) fn queue_op_of(kind: QKind, words: &OpWords) -> QOp
    ensures { result ≡ queue_op_of kind words.now }
{
    let OpWords {
        time,
        word,
        number,
        ..
    } = *words;
    match kind {
        QKind::Insert => QOp::Insert {
            i: number,
            n: word,
            t: time,
        },
        QKind::Remove => QOp::Remove { i: number },
        QKind::Scan => QOp::Scan { now: time },
        QKind::Pop => QOp::Pop,
        QKind::Free => QOp::Free,
        QKind::PopDirect => QOp::PopDirect,
        QKind::FreeDirect => QOp::FreeDirect,
    }
}
