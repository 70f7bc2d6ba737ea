//! The numbers of operations and of replies, without their kinds.
ghost use Rattle.std.specs.Prelude.{◌≡◌, pos};

use co_sbt::Sbt;

/// The numbers of an operation. What it does not use is 0.
#[derive(Clone, Copy)]
pub(crate) struct OpWords {
    /// When it is due, or the operation was.
    pub(crate) time: Sbt,
    /// How precisely.
    pub(crate) prec: Sbt,
    /// An argument or an arming.
    pub(crate) word: u64,
    /// A function or a callout.
    pub(crate) number: u32,
    /// A CPU.
    pub(crate) cpu: u32,
}

/// The numbers of a reply. What it does not use is 0.
#[derive(Clone, Copy)]
pub(crate) struct ReplyWords {
    /// When the next arming is due, or the queue's time.
    pub(crate) time: Sbt,
    /// An argument or an arming.
    pub(crate) word: u64,
    /// What the kernel's function returns.
    pub(crate) code: i32,
    /// A CPU, a function, a callout or a count.
    pub(crate) number: u32,
    /// The CPU in whose queue an arming stood, or the function of an asynchronous drain.
    pub(crate) off: u32,
}

/// No numbers of an operation.
pub(crate) fn no_op_words() -> OpWords
    ensures { result ≡ record { time = 0; prec = 0; word = 0; number = 0; cpu = 0 } }
{
    OpWords {
        time: Sbt::zero(),
        prec: Sbt::zero(),
        word: 0,
        number: 0,
        cpu: 0,
    }
}

/// No numbers of a reply.
pub(crate) fn no_reply_words() -> ReplyWords
    ensures { result ≡ record { time = 0; word = 0; code = pos 0; number = 0; off = 0 } }
{
    ReplyWords {
        time: Sbt::zero(),
        word: 0,
        code: 0,
        number: 0,
        off: 0,
    }
}
