//! Replies in kinds and numbers.
ghost use Rattle.std.specs.Prelude.{◌≡◌, None, Some, pos};
ghost use Rattle.co_object.specs.declared.reply.Reply.TheVariants as replies;
ghost use Rattle.co_packed.specs.Parts.{queue_reply_of, reply_of};

use crate::kinds::{Answer, QAnswer};
use crate::words::{ReplyWords, no_reply_words};
use co_object::{Next, QReply, Reply};

/// The kind and the numbers of the reply to an end after which no arming moves.
fn rested_parts(drain: Option<u32>, woke: bool) -> (Answer, ReplyWords)
    ensures { reply_of result.0 result.1 ≡ replies.Ended drain None woke }
{
    let none = no_reply_words();
    match (drain, woke) {
        (None, false) => (Answer::Ended, none),
        (None, true) => (Answer::EndedWoke, none),
        (Some(off), false) => (Answer::EndedDrain, ReplyWords { off, ..none }),
        (Some(off), true) => (Answer::EndedDrainWoke, ReplyWords { off, ..none }),
    }
}

/// The kind and the numbers of the reply to an end after which an arming moves to its CPU.
fn moved_parts(drain: Option<u32>, next: Next, woke: bool) -> (Answer, ReplyWords)
    ensures { reply_of result.0 result.1 ≡ replies.Ended drain (Some next) woke }
{
    let words = ReplyWords {
        time: next.due,
        word: next.n,
        number: next.cpu,
        ..no_reply_words()
    };
    match (drain, woke) {
        (None, false) => (Answer::EndedNext, words),
        (None, true) => (Answer::EndedNextWoke, words),
        (Some(off), false) => (Answer::EndedNextDrain, ReplyWords { off, ..words }),
        (Some(off), true) => (Answer::EndedNextDrainWoke, ReplyWords { off, ..words }),
    }
}

/// The kind and the numbers of the reply to an end.
fn ended_parts(drain: Option<u32>, next: Option<Next>, woke: bool) -> (Answer, ReplyWords)
    ensures { reply_of result.0 result.1 ≡ replies.Ended drain next woke }
{
    match next {
        None => rested_parts(drain, woke),
        Some(next) => moved_parts(drain, next, woke),
    }
}

/// The kind and the numbers of the reply to a drain that has to wait.
fn wait_parts(word: u64, took: bool, off: Option<u32>) -> (Answer, ReplyWords)
    ensures { reply_of result.0 result.1 ≡ replies.Wait word took off }
{
    let none = no_reply_words();
    match (took, off) {
        (false, None) => (Answer::Wait, ReplyWords { word, ..none }),
        (false, Some(off)) => (Answer::WaitOff, ReplyWords { word, off, ..none }),
        (true, None) => (Answer::WaitTook, ReplyWords { word, ..none }),
        (true, Some(off)) => (Answer::WaitTookOff, ReplyWords { word, off, ..none }),
    }
}

/// The kind and the numbers of the reply to an arming that was accepted.
fn armed_parts(code: i32, word: u64, number: u32, off: Option<u32>) -> (Answer, ReplyWords)
    ensures { reply_of result.0 result.1 ≡ replies.Armed code word number off }
{
    let words = ReplyWords {
        code,
        word,
        number,
        ..no_reply_words()
    };
    match off {
        None => (Answer::Armed, words),
        Some(off) => (Answer::ArmedOff, ReplyWords { off, ..words }),
    }
}

/// The kind and the numbers of the reply to a stop, or to the begin of an asynchronous drain.
fn stopped_parts(code: i32, off: Option<u32>) -> (Answer, ReplyWords)
    ensures { reply_of result.0 result.1 ≡ replies.Stopped code off }
{
    let words = code_alone(code);
    match off {
        None => (Answer::Stopped, words),
        Some(off) => (Answer::StoppedOff, ReplyWords { off, ..words }),
    }
}

/// The kind and the numbers of the reply to a drain that is done.
fn drained_parts(code: i32, off: Option<u32>) -> (Answer, ReplyWords)
    ensures { reply_of result.0 result.1 ≡ replies.Drained code off }
{
    let words = code_alone(code);
    match off {
        None => (Answer::Drained, words),
        Some(off) => (Answer::DrainedOff, ReplyWords { off, ..words }),
    }
}

/// The kind and the numbers of the reply to a retire that is refused.
fn in_use_parts(armed: bool, serviced: bool) -> (Answer, ReplyWords)
    ensures { reply_of result.0 result.1 ≡ replies.InUse armed serviced }
{
    match (armed, serviced) {
        (false, false) => bare(Answer::InUse),
        (true, false) => bare(Answer::InUseArmed),
        (false, true) => bare(Answer::InUseServiced),
        (true, true) => bare(Answer::InUseBoth),
    }
}

/// A reply with no numbers.
#[inline(always)]
fn bare(answer: Answer) -> (Answer, ReplyWords)
    ensures { result ≡ (answer, record { time = 0; word = 0; code = pos 0; number = 0; off = 0 }) }
{
    (answer, no_reply_words())
}

/// A code is all that the reply has.
#[inline(always)]
fn code_alone(code: i32) -> ReplyWords
    ensures { result ≡ record { time = 0; word = 0; code = code; number = 0; off = 0 } }
{
    ReplyWords {
        code,
        ..no_reply_words()
    }
}

/// The kind and the numbers of the reply that the function is to run.
fn go_parts(number: u32, word: u64) -> (Answer, ReplyWords)
    ensures { reply_of result.0 result.1 ≡ replies.Go number word }
{
    let words = ReplyWords {
        word,
        number,
        ..no_reply_words()
    };
    (Answer::Go, words)
}

/// The kind and the numbers of a callout's reply.
#[inline(always)]
pub(crate) fn reply_parts(reply: &Reply) -> (Answer, ReplyWords)
    ensures { reply_of result.0 result.1 ≡ reply.now }
{
    match *reply {
        Reply::Armed { code, n, cpu, off } => armed_parts(code, n, cpu, off),
        Reply::NotArmed { code } => (Answer::NotArmed, code_alone(code)),
        Reply::NoHandler => bare(Answer::NoHandler),
        Reply::Worn => bare(Answer::Worn),
        Reply::Stopped { code, off } => stopped_parts(code, off),
        Reply::Wait { n, took, off } => wait_parts(n, took, off),
        Reply::Drained { code, off } => drained_parts(code, off),
        Reply::Busy => bare(Answer::Busy),
        Reply::Yes => bare(Answer::Yes),
        Reply::No => bare(Answer::No),
        Reply::Done => bare(Answer::Done),
        Reply::Go { func, arg } => go_parts(func, arg),
        Reply::Hold => bare(Answer::Hold),
        Reply::Skip => bare(Answer::Skip),
        Reply::Ended { drain, next, woke } => ended_parts(drain, next, woke),
        Reply::Live => bare(Answer::Live),
        Reply::Retired => bare(Answer::Retired),
        Reply::InUse { armed, serviced } => in_use_parts(armed, serviced),
    }
}

/// The kind and the numbers of a queue's reply.
#[inline(always)]
pub(crate) fn queue_reply_parts(reply: &QReply) -> (QAnswer, ReplyWords)
    ensures { queue_reply_of result.0 result.1 ≡ reply.now }
{
    let none = no_reply_words();
    match *reply {
        QReply::At(time) => (QAnswer::At, ReplyWords { time, ..none }),
        QReply::Off => (QAnswer::Off, none),
        QReply::Missing => (QAnswer::Missing, none),
        QReply::Count(number) => (QAnswer::Count, ReplyWords { number, ..none }),
        QReply::Got {
            i: number,
            n: word,
            at: time,
        } => (
            QAnswer::Got,
            ReplyWords {
                time,
                word,
                number,
                ..none
            },
        ),
        QReply::Empty => (QAnswer::Empty, none),
        QReply::Freed => (QAnswer::Freed, none),
    }
}

/// The reply of this kind and with these numbers.
#[inline(always)]
pub(crate) fn reply_of(answer: Answer, words: &ReplyWords) -> Reply
    ensures { result ≡ reply_of answer words.now }
{
    let ReplyWords {
        time,
        word: n,
        code,
        number,
        off,
    } = *words;
    let next = Next {
        n,
        cpu: number,
        due: time,
    };
    match answer {
        Answer::Armed => Reply::Armed {
            code,
            n,
            cpu: number,
            off: None,
        },
        Answer::ArmedOff => Reply::Armed {
            code,
            n,
            cpu: number,
            off: Some(off),
        },
        Answer::NotArmed => Reply::NotArmed { code },
        Answer::NoHandler => Reply::NoHandler,
        Answer::Worn => Reply::Worn,
        Answer::Stopped => Reply::Stopped { code, off: None },
        Answer::StoppedOff => Reply::Stopped {
            code,
            off: Some(off),
        },
        Answer::Wait => Reply::Wait {
            n,
            took: false,
            off: None,
        },
        Answer::WaitOff => Reply::Wait {
            n,
            took: false,
            off: Some(off),
        },
        Answer::WaitTook => Reply::Wait {
            n,
            took: true,
            off: None,
        },
        Answer::WaitTookOff => Reply::Wait {
            n,
            took: true,
            off: Some(off),
        },
        Answer::Drained => Reply::Drained { code, off: None },
        Answer::DrainedOff => Reply::Drained {
            code,
            off: Some(off),
        },
        Answer::Busy => Reply::Busy,
        Answer::Yes => Reply::Yes,
        Answer::No => Reply::No,
        Answer::Done => Reply::Done,
        Answer::Go => Reply::Go {
            func: number,
            arg: n,
        },
        Answer::Hold => Reply::Hold,
        Answer::Skip => Reply::Skip,
        Answer::Ended => Reply::Ended {
            drain: None,
            next: None,
            woke: false,
        },
        Answer::EndedWoke => Reply::Ended {
            drain: None,
            next: None,
            woke: true,
        },
        Answer::EndedDrain => Reply::Ended {
            drain: Some(off),
            next: None,
            woke: false,
        },
        Answer::EndedDrainWoke => Reply::Ended {
            drain: Some(off),
            next: None,
            woke: true,
        },
        Answer::EndedNext => Reply::Ended {
            drain: None,
            next: Some(next),
            woke: false,
        },
        Answer::EndedNextWoke => Reply::Ended {
            drain: None,
            next: Some(next),
            woke: true,
        },
        Answer::EndedNextDrain => Reply::Ended {
            drain: Some(off),
            next: Some(next),
            woke: false,
        },
        Answer::EndedNextDrainWoke => Reply::Ended {
            drain: Some(off),
            next: Some(next),
            woke: true,
        },
        Answer::Live => Reply::Live,
        Answer::Retired => Reply::Retired,
        Answer::InUse => Reply::InUse {
            armed: false,
            serviced: false,
        },
        Answer::InUseArmed => Reply::InUse {
            armed: true,
            serviced: false,
        },
        Answer::InUseServiced => Reply::InUse {
            armed: false,
            serviced: true,
        },
        Answer::InUseBoth => Reply::InUse {
            armed: true,
            serviced: true,
        },
    }
}

/// The queue's reply of this kind and with these numbers.
#[inline(always)]
pub(crate) fn queue_reply_of(answer: QAnswer, words: &ReplyWords) -> QReply
    ensures { result ≡ queue_reply_of answer words.now }
{
    let ReplyWords {
        time,
        word,
        number,
        ..
    } = *words;
    match answer {
        QAnswer::At => QReply::At(time),
        QAnswer::Off => QReply::Off,
        QAnswer::Missing => QReply::Missing,
        QAnswer::Count => QReply::Count(number),
        QAnswer::Got => QReply::Got {
            i: number,
            n: word,
            at: time,
        },
        QAnswer::Empty => QReply::Empty,
        QAnswer::Freed => QReply::Freed,
    }
}
