//! Operations on a callout.
ghost use Rattle.std.specs.Prelude.{◌≡◌, ◌++◌, ◌∷◌, [], codes, decimal, OnOk};
ghost use Rattle.co_object.specs.declared.PlainOp.TheVariants.{AsyncDrain, Reset};
ghost use Rattle.co_notes.specs.Parts.{joined};
ghost use Rattle.co_view.specs.Seconds.{seconds_word};
ghost use Rattle.co_view.specs.Words.{on_timer, op_words, plain_words, run_words};

use crate::words::begin_at;
use co_object::{CallOp, Op, PlainOp, RunOp};
use co_sbt::{NoMemory, Sbt};
use co_text::{Page, Token};

/// A verb and a callout.
fn print_on(page: &mut Page, verb: &[u8], timer: u32) -> Result<(), NoMemory>
    ensures { OnOk result (page.new ≡ page.old ++ joined (on_timer verb.now timer)) }
{
    page.begin(&Token::Text(verb), &[Token::Number(u64::from(timer))])
}

/// A verb, a callout and a time.
fn print_on_at(page: &mut Page, verb: &[u8], timer: u32, time: Sbt) -> Result<(), NoMemory>
    ensures { OnOk result (page.new ≡ page.old ++ joined (verb.now ∷ decimal timer ∷ codes "at" ∷ seconds_word time ∷ [])) }
{
    begin_at(
        page,
        &Token::Text(verb),
        &[Token::Number(u64::from(timer))],
        time,
    )
}

#[tactic(auto, using(crate::proofs::Pieces::begun_more))]
fn print_reset(
    page: &mut Page,
    timer: u32,
    due: Sbt,
    prec: Sbt,
    func: u32,
    arg: u64,
    cpu: Option<u32>,
) -> Result<(), NoMemory>
    ensures { OnOk result (page.new ≡ page.old ++ joined (plain_words timer (Reset due prec func arg cpu))) }
{
    print_on_at(page, b"reset timer", timer, due)?;
    page.more(&[
        Token::Text(b"to"),
        Token::Lettered(b'f', u64::from(func)),
        Token::Lettered(b'a', arg),
    ])
}

fn print_async_drain(page: &mut Page, timer: u32, func: u32) -> Result<(), NoMemory>
    ensures { OnOk result (page.new ≡ page.old ++ joined (plain_words timer (AsyncDrain func))) }
{
    page.begin(
        &Token::Text(b"async drain timer"),
        &[
            Token::Number(u64::from(timer)),
            Token::Text(b"to"),
            Token::Lettered(b'f', u64::from(func)),
        ],
    )
}

fn print_plain(page: &mut Page, timer: u32, op: &PlainOp) -> Result<(), NoMemory>
    ensures { OnOk result (page.new ≡ page.old ++ joined (plain_words timer op.now)) }
{
    match *op {
        PlainOp::Reset {
            due,
            prec,
            func,
            arg,
            cpu,
        } => print_reset(page, timer, due, prec, func, arg, cpu),
        PlainOp::Schedule { due, .. } => { print_on_at(page, b"schedule timer", timer, due) }
        PlainOp::Stop => print_on(page, b"stop timer", timer),
        PlainOp::AsyncDrain { func } => print_async_drain(page, timer, func),
        PlainOp::Active => print_on(page, b"ask active of timer", timer),
        PlainOp::Pending => print_on(page, b"ask pending of timer", timer),
        PlainOp::Deactivate => print_on(page, b"deactivate timer", timer),
        PlainOp::Init => print_on(page, b"init timer", timer),
        PlainOp::Retire => print_on(page, b"retire timer", timer),
    }
}

/// A verb, a callout and an arming's number.
fn print_arming(page: &mut Page, verb: &[u8], timer: u32, n: u64) -> Result<(), NoMemory>
    ensures { OnOk result (page.new ≡ page.old ++ joined (verb.now ∷ decimal timer ∷ (35 ∷ decimal n) ∷ [])) }
{
    page.begin(
        &Token::Text(verb),
        &[Token::Number(u64::from(timer)), Token::Lettered(b'#', n)],
    )
}

/// A verb, a callout, an arming's number and a time.
fn print_arming_at(
    page: &mut Page,
    verb: &[u8],
    timer: u32,
    n: u64,
    time: Sbt,
) -> Result<(), NoMemory>
    ensures { OnOk result (page.new ≡ page.old ++ joined (verb.now ∷ decimal timer ∷ (35 ∷ decimal n) ∷ codes "at" ∷ seconds_word time ∷ [])) }
{
    begin_at(
        page,
        &Token::Text(verb),
        &[Token::Number(u64::from(timer)), Token::Lettered(b'#', n)],
        time,
    )
}

fn print_run(page: &mut Page, timer: u32, op: &RunOp) -> Result<(), NoMemory>
    ensures { OnOk result (page.new ≡ page.old ++ joined (run_words timer op.now)) }
{
    match *op {
        RunOp::Pick { n, at, .. } => { print_arming_at(page, b"take timer", timer, n, at) }
        RunOp::Begin { n, .. } => print_arming(page, b"has the lock of timer", timer, n),
        RunOp::End { n, .. } => print_arming(page, b"end timer", timer, n),
    }
}

/// An operation on a callout.
pub(crate) fn print_op(page: &mut Page, timer: u32, op: &Op) -> Result<(), NoMemory>
    ensures { OnOk result (page.new ≡ page.old ++ joined (op_words timer op.now)) }
{
    match op {
        Op::Call(CallOp::Plain(op)) => print_plain(page, timer, op),
        Op::Call(CallOp::DrainTry { .. }) => print_on(page, b"drain timer", timer),
        Op::Run(op) => print_run(page, timer, op),
    }
}
