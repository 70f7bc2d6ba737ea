//! Replies of a callout.
ghost use Rattle.std.specs.Prelude.{◌≡◌, ◌++◌, ◌∷◌, [], codes, Some, None, OnOk};
ghost use Rattle.std.specs.Fmt.{signed_decimal};
ghost use Rattle.co_text.specs.Lines.{spaced};
ghost use Rattle.co_notes.specs.NoteTexts.{reply_words, off_words};
ghost use Rattle.co_object.specs.declared.Reply.TheVariants as replies;

use crate::note::words::{print_drain, print_off, print_truth, print_woke};
use co_object::{Next, Reply};
use co_sbt::NoMemory;
use co_text::Page;

/// The end of a run, behind which no run is next.
#[inline(always)]
fn print_last(page: &mut Page, drain: Option<u32>, woke: bool) -> Result<(), NoMemory>
    ensures { OnOk result (page.new ≡ page.old ++ spaced (reply_words (replies.Ended drain None woke))) }
{
    page.text(b" ended".as_slice())?;
    print_drain(page, drain)?;
    page.text(b" next -".as_slice())?;
    print_woke(page, woke)
}

/// The end of a run, behind which this run is next.
#[inline(always)]
fn print_followed(
    page: &mut Page,
    drain: Option<u32>,
    next: Next,
    woke: bool,
) -> Result<(), NoMemory>
    ensures { OnOk result (page.new ≡ page.old ++ spaced (reply_words (replies.Ended drain (Some next) woke))) }
{
    page.text(b" ended".as_slice())?;
    print_drain(page, drain)?;
    page.tagged(b" next #".as_slice(), next.n)?;
    page.tagged(b" p".as_slice(), next.cpu as u64)?;
    page.tagged(b" u".as_slice(), next.due.raw())?;
    print_woke(page, woke)
}

#[inline(always)]
fn print_ended(
    page: &mut Page,
    drain: Option<u32>,
    next: &Option<Next>,
    woke: bool,
) -> Result<(), NoMemory>
    ensures { OnOk result (page.new ≡ page.old ++ spaced (reply_words (replies.Ended drain next.now woke))) }
{
    match *next {
        Some(next) => print_followed(page, drain, next, woke),
        None => print_last(page, drain, woke),
    }
}

#[inline(always)]
fn print_armed(
    page: &mut Page,
    code: i32,
    n: u64,
    cpu: u32,
    off: Option<u32>,
) -> Result<(), NoMemory>
    ensures { OnOk result (page.new ≡ page.old ++ spaced (reply_words (replies.Armed code n cpu off))) }
{
    page.text(b" armed ".as_slice())?;
    page.signed(code)?;
    page.tagged(b" #".as_slice(), n)?;
    page.tagged(b" p".as_slice(), cpu as u64)?;
    print_off(page, off)
}

#[inline(always)]
fn print_not_armed(page: &mut Page, code: i32) -> Result<(), NoMemory>
    ensures { OnOk result (page.new ≡ page.old ++ spaced (codes "notarmed" ∷ signed_decimal code ∷ [])) }
{
    page.text(b" notarmed ".as_slice())?;
    page.signed(code)
}

/// A text, a code, and the queue that an arming was taken off.
#[inline(always)]
fn print_taken(page: &mut Page, text: &[u8], code: i32, off: Option<u32>) -> Result<(), NoMemory>
    ensures { OnOk result (page.new ≡ page.old ++ (text.now ++ (signed_decimal code ++ spaced (off_words off)))) }
{
    page.text(text)?;
    page.signed(code)?;
    print_off(page, off)
}

#[inline(always)]
fn print_wait(page: &mut Page, n: u64, took: bool, off: Option<u32>) -> Result<(), NoMemory>
    ensures { OnOk result (page.new ≡ page.old ++ spaced (reply_words (replies.Wait n took off))) }
{
    page.tagged(b" wait #".as_slice(), n)?;
    print_truth(page, took)?;
    print_off(page, off)
}

#[inline(always)]
fn print_in_use(page: &mut Page, armed: bool, serviced: bool) -> Result<(), NoMemory>
    ensures { OnOk result (page.new ≡ page.old ++ spaced (reply_words (replies.InUse armed serviced))) }
{
    page.text(b" inuse".as_slice())?;
    print_truth(page, armed)?;
    print_truth(page, serviced)
}

#[inline(always)]
fn print_go(page: &mut Page, func: u32, arg: u64) -> Result<(), NoMemory>
    ensures { OnOk result (page.new ≡ page.old ++ spaced (reply_words (replies.Go func arg))) }
{
    page.tagged(b" go f".as_slice(), func as u64)?;
    page.tagged(b" a".as_slice(), arg)
}

/// Appends the words of a callout's reply, each behind a space. `NoMemory` where the page finds no room.
#[inline(always)]
pub fn print_reply(page: &mut Page, reply: &Reply) -> Result<(), NoMemory>
    ensures { OnOk result (page.new ≡ page.old ++ spaced (reply_words reply.now)) }
{
    match reply {
        Reply::Armed { code, n, cpu, off } => print_armed(page, *code, *n, *cpu, *off),
        Reply::NotArmed { code } => print_not_armed(page, *code),
        Reply::NoHandler => page.text(b" nohandler".as_slice()),
        Reply::Worn => page.text(b" worn".as_slice()),
        Reply::Stopped { code, off } => print_taken(page, b" stopped ".as_slice(), *code, *off),
        Reply::Wait { n, took, off } => print_wait(page, *n, *took, *off),
        Reply::Drained { code, off } => print_taken(page, b" drained ".as_slice(), *code, *off),
        Reply::Busy => page.text(b" busy".as_slice()),
        Reply::Yes => page.text(b" yes".as_slice()),
        Reply::No => page.text(b" no".as_slice()),
        Reply::Done => page.text(b" done".as_slice()),
        Reply::Live => page.text(b" live".as_slice()),
        Reply::Retired => page.text(b" retired".as_slice()),
        Reply::InUse { armed, serviced } => print_in_use(page, *armed, *serviced),
        Reply::Go { func, arg } => print_go(page, *func, *arg),
        Reply::Hold => page.text(b" hold".as_slice()),
        Reply::Skip => page.text(b" skip".as_slice()),
        Reply::Ended { drain, next, woke } => print_ended(page, *drain, next, *woke),
    }
}
