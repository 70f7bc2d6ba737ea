//! Operations on a callout.
ghost use Rattle.std.specs.Prelude.{◌≡◌, ◌++◌, ◌∷◌, [], codes, decimal, OnOk};
ghost use Rattle.co_text.specs.Lines.{spaced};
ghost use Rattle.co_notes.specs.NoteTexts.{plain_words, op_words, cpu_word, truth_word};
ghost use Rattle.co_object.specs.declared.Op.TheVariants as ops;
ghost use Rattle.co_object.specs.declared.PlainOp.TheVariants as plain;
ghost use Rattle.co_object.specs.declared.RunOp.TheVariants as runs;

use crate::note::words::{print_target, print_truth};
use co_grammar::print_lone;
use co_object::{CallOp, Op, PlainOp, RunOp};
use co_sbt::{NoMemory, Sbt};
use co_text::Page;

#[inline(always)]
fn print_reset(
    page: &mut Page,
    due: Sbt,
    prec: Sbt,
    func: u32,
    arg: u64,
    place: Option<u32>,
) -> Result<(), NoMemory>
    ensures { OnOk result (page.new ≡ page.old ++ spaced (plain_words (plain.Reset due prec func arg place))) }
{
    page.tagged(b" reset u".as_slice(), due.raw())?;
    page.tagged(b" pr u".as_slice(), prec.raw())?;
    page.tagged(b" f".as_slice(), func as u64)?;
    page.tagged(b" a".as_slice(), arg)?;
    print_target(page, place)
}

#[inline(always)]
fn print_schedule(page: &mut Page, due: Sbt, prec: Sbt, place: Option<u32>) -> Result<(), NoMemory>
    ensures { OnOk result (page.new ≡ page.old ++ spaced (plain_words (plain.Schedule due prec place))) }
{
    page.tagged(b" schedule u".as_slice(), due.raw())?;
    page.tagged(b" pr u".as_slice(), prec.raw())?;
    print_target(page, place)
}

#[inline(always)]
fn print_plain(page: &mut Page, op: &PlainOp) -> Result<(), NoMemory>
    ensures { OnOk result (page.new ≡ page.old ++ spaced (plain_words op.now)) }
{
    match *op {
        PlainOp::Reset {
            due,
            prec,
            func,
            arg,
            cpu,
        } => print_reset(page, due, prec, func, arg, cpu),
        PlainOp::Schedule { due, prec, cpu } => print_schedule(page, due, prec, cpu),
        PlainOp::Stop => page.text(b" stop".as_slice()),
        PlainOp::AsyncDrain { func } => print_lone(page, b" adrain f".as_slice(), func as u64),
        PlainOp::Active => page.text(b" active".as_slice()),
        PlainOp::Pending => page.text(b" pending".as_slice()),
        PlainOp::Deactivate => page.text(b" deactivate".as_slice()),
        PlainOp::Init => page.text(b" init".as_slice()),
        PlainOp::Retire => page.text(b" retire".as_slice()),
    }
}

#[inline(always)]
fn print_drain(page: &mut Page, took: bool) -> Result<(), NoMemory>
    ensures { OnOk result (page.new ≡ page.old ++ spaced (codes "drain" ∷ truth_word took ∷ [])) }
{
    page.text(b" drain".as_slice())?;
    print_truth(page, took)
}

#[inline(always)]
fn print_call(page: &mut Page, op: &CallOp) -> Result<(), NoMemory>
    ensures { OnOk result (page.new ≡ page.old ++ spaced (op_words (ops.Call op.now))) }
{
    match op {
        CallOp::Plain(op) => print_plain(page, op),
        CallOp::DrainTry { took } => print_drain(page, *took),
    }
}

#[inline(always)]
fn print_pick(page: &mut Page, n: u64, cpu: u32, at: Sbt) -> Result<(), NoMemory>
    ensures { OnOk result (page.new ≡ page.old ++ spaced (op_words (ops.Run (runs.Pick n cpu at)))) }
{
    page.tagged(b" pick #".as_slice(), n)?;
    page.tagged(b" p".as_slice(), cpu as u64)?;
    page.tagged(b" u".as_slice(), at.raw())
}

/// A text, the number of an arming and a CPU.
#[inline(always)]
fn print_serviced(page: &mut Page, tag: &[u8], n: u64, cpu: u32) -> Result<(), NoMemory>
    ensures { OnOk result (page.new ≡ page.old ++ (tag.now ++ (decimal n ++ spaced (cpu_word cpu ∷ [])))) }
{
    page.tagged(tag, n)?;
    page.tagged(b" p".as_slice(), cpu as u64)
}

#[inline(always)]
fn print_run(page: &mut Page, op: &RunOp) -> Result<(), NoMemory>
    ensures { OnOk result (page.new ≡ page.old ++ spaced (op_words (ops.Run op.now))) }
{
    match *op {
        RunOp::Pick { n, cpu, at } => print_pick(page, n, cpu, at),
        RunOp::Begin { n, cpu } => print_serviced(page, b" begin #".as_slice(), n, cpu),
        RunOp::End { n, cpu } => print_serviced(page, b" end #".as_slice(), n, cpu),
    }
}

/// Appends the words of an operation on a callout, each behind a space, as `reset`, `pick` or `end`. `NoMemory` where
/// the page finds no room.
#[inline(always)]
pub fn print_op(page: &mut Page, op: &Op) -> Result<(), NoMemory>
    ensures { OnOk result (page.new ≡ page.old ++ spaced (op_words op.now)) }
{
    match op {
        Op::Call(op) => print_call(page, op),
        Op::Run(op) => print_run(page, op),
    }
}
