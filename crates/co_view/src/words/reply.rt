//! Replies of a callout.
ghost use Rattle.std.specs.Prelude.{◌≡◌, ◌++◌, ◌∷◌, [], codes, decimal, OnOk};
ghost use Rattle.co_object.specs.declared.Reply.TheVariants.{Armed, Ended, Go};
ghost use Rattle.co_text.specs.Lines.{spaced};
ghost use Rattle.co_view.specs.Words.{armed_word, coded, drain_words, drained_word, in_use_word, next_words, refused_word, reply_words, stopped_word, woke_words};

use crate::words::{print_at, print_word};
use co_object::{Next, Reply};
use co_sbt::NoMemory;
use co_text::{Page, Token};

/// What the code of a reset says.
fn armed_word(code: i32) -> &'static [u8]
    ensures { result.now ≡ armed_word code }
{
    if code == 0 {
        b"armed"
    } else {
        b"armed in place of another"
    }
}

/// What the code of a reset says that a drain keeps from arming.
fn refused_word(code: i32) -> &'static [u8]
    ensures { result.now ≡ refused_word code }
{
    if code == 0 {
        b"not armed (a drain waits)"
    } else {
        b"not armed (a drain waits), and what waited for its lock is cancelled"
    }
}

/// What the code of a stop says.
fn stopped_word(code: i32) -> &'static [u8]
    ensures { result.now ≡ stopped_word code }
{
    if code < 0 {
        b"(nothing to stop)"
    } else if code == 0 {
        b"(its service is under way)"
    } else {
        b"(it will not run)"
    }
}

/// What the code of a drain says.
fn drained_word(code: i32) -> &'static [u8]
    ensures { result.now ≡ drained_word code }
{
    if code < 0 {
        b"(over for good)"
    } else {
        b"(over for good; it was armed)"
    }
}

fn print_armed(
    page: &mut Page,
    code: i32,
    n: u64,
    cpu: u32,
    off: Option<u32>,
) -> Result<(), NoMemory>
    ensures { OnOk result (page.new ≡ page.old ++ spaced (reply_words (Armed code n cpu off))) }
{
    page.more(&[
        Token::Text(b"->"),
        Token::Signed(code),
        Token::Text(armed_word(code)),
        Token::Lettered(b'#', n),
        Token::Text(b"on CPU"),
        Token::Number(u64::from(cpu)),
    ])
}

/// A code and what it says.
fn print_coded(page: &mut Page, code: i32, meaning: &[u8]) -> Result<(), NoMemory>
    ensures { OnOk result (page.new ≡ page.old ++ spaced (coded code meaning.now)) }
{
    page.more(&[
        Token::Text(b"->"),
        Token::Signed(code),
        Token::Text(meaning),
    ])
}

fn print_wait(page: &mut Page, n: u64) -> Result<(), NoMemory>
    ensures { OnOk result (page.new ≡ page.old ++ spaced (codes "-> waits for the end of" ∷ (35 ∷ decimal n) ∷ [])) }
{
    page.more(&[
        Token::Text(b"-> waits for the end of"),
        Token::Lettered(b'#', n),
    ])
}

fn print_go(page: &mut Page, func: u32, arg: u64) -> Result<(), NoMemory>
    ensures { OnOk result (page.new ≡ page.old ++ spaced (reply_words (Go func arg))) }
{
    page.more(&[
        Token::Text(b"-> calls"),
        Token::Lettered(b'f', u64::from(func)),
        Token::Lettered(b'a', arg),
    ])
}

fn in_use_word(armed: bool, serviced: bool) -> &'static [u8]
    ensures { result.now ≡ in_use_word armed serviced }
{
    match (armed, serviced) {
        (true, true) => b"-> in use: armed and in service",
        (true, false) => b"-> in use: armed",
        (false, true) => b"-> in use: in service",
        (false, false) => b"-> in use",
    }
}

/// The function of an asynchronous drain, if there is one.
fn print_drain(page: &mut Page, drain: Option<u32>) -> Result<(), NoMemory>
    ensures { OnOk result (page.new ≡ page.old ++ spaced (drain_words drain)) }
{
    match drain {
        Some(func) => page.more(&[
            Token::Text(b"and calls drain"),
            Token::Lettered(b'f', u64::from(func)),
        ]),
        None => Ok(()),
    }
}

/// The arming that moves on, if there is one.
fn print_next(page: &mut Page, next: &Option<Next>) -> Result<(), NoMemory>
    ensures { OnOk result (page.new ≡ page.old ++ spaced (next_words next.now)) }
{
    match next {
        Some(next) => {
            let before = [
                Token::Text(b"and moves on as"),
                Token::Lettered(b'#', next.n),
                Token::Text(b"to CPU"),
                Token::Number(u64::from(next.cpu)),
            ];
            print_at(page, &before, next.due)
        }
        None => Ok(()),
    }
}

/// Whether a drain is woken.
fn print_woke(page: &mut Page, woke: bool) -> Result<(), NoMemory>
    ensures { OnOk result (page.new ≡ page.old ++ spaced (woke_words woke)) }
{
    if woke {
        print_word(page, b"and wakes a drain")
    } else {
        Ok(())
    }
}

fn print_ended(
    page: &mut Page,
    drain: Option<u32>,
    next: &Option<Next>,
    woke: bool,
) -> Result<(), NoMemory>
    ensures { OnOk result (page.new ≡ page.old ++ spaced (reply_words (Ended drain next.now woke))) }
{
    print_word(page, b"-> over")?;
    print_drain(page, drain)?;
    print_next(page, next)?;
    print_woke(page, woke)
}

/// A reply of a callout.
pub(crate) fn print_reply(page: &mut Page, reply: &Reply) -> Result<(), NoMemory>
    ensures { OnOk result (page.new ≡ page.old ++ spaced (reply_words reply.now)) }
{
    match *reply {
        Reply::Armed { code, n, cpu, off } => print_armed(page, code, n, cpu, off),
        Reply::NotArmed { code } => print_coded(page, code, refused_word(code)),
        Reply::NoHandler => print_word(page, b"-> no function to call"),
        Reply::Worn => print_word(page, b"-> no arming is left"),
        Reply::Stopped { code, .. } => print_coded(page, code, stopped_word(code)),
        Reply::Wait { n, .. } => print_wait(page, n),
        Reply::Drained { code, .. } => print_coded(page, code, drained_word(code)),
        Reply::Busy => print_word(page, b"-> busy (another drain waits)"),
        Reply::Yes => print_word(page, b"-> yes"),
        Reply::No => print_word(page, b"-> no"),
        Reply::Done => print_word(page, b"-> done"),
        Reply::Live => print_word(page, b"-> live already"),
        Reply::Retired => print_word(page, b"-> out of use"),
        Reply::InUse { armed, serviced } => print_word(page, in_use_word(armed, serviced)),
        Reply::Go { func, arg } => print_go(page, func, arg),
        Reply::Hold => print_word(page, b"-> waits for its lock"),
        Reply::Skip => print_word(page, b"-> skipped, it was cancelled"),
        Reply::Ended {
            drain,
            ref next,
            woke,
        } => print_ended(page, drain, next, woke),
    }
}
