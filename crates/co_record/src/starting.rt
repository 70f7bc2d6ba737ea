//! How the service of an arming starts.
ghost use Rattle.std.specs.Prelude.{◌≡◌};
ghost use Rattle.co_object.specs.declared.reply.Reply.TheVariants.{Go, Hold};

use co_object::Reply;
use std::marker::Model;

/// How the service of an arming starts: its function is to be called at once, or its lock is to be taken first. It has 16 bytes,
/// where a [`Reply`] has 56.
///
/// Contracts see the callout's reply.
#[derive(Debug, Drop)]
pub struct Start {
    waits: bool,
    /// The function and its argument, where they are to be called.
    func: u32,
    arg: u64,
}

impl Model for Start {
    ghost use Rattle.co_object.specs.declared.reply.Reply.{Reply};
    ghost use Rattle.co_record.specs.Start.{reply_of};

    ghost Value = { Reply };

    ghost view = { λ s. reply_of s.waits s.func s.arg };
}

impl Start {
    /// The function is to be called at once, with this argument.
    #[inline(always)]
    pub(crate) fn call(func: u32, arg: u64) -> Start
        ensures { result ≡ Go func arg }
    {
        Start {
            waits: false,
            func,
            arg,
        }
    }

    /// The callout's lock is to be taken first.
    #[inline(always)]
    pub(crate) fn hold() -> Start
        ensures { result ≡ Hold }
    {
        Start {
            waits: true,
            func: 0,
            arg: 0,
        }
    }

    /// The callout's reply.
    #[inline(always)]
    pub fn reply(&self) -> Reply
        ensures { result ≡ self.now }
    {
        if self.waits {
            Reply::Hold
        } else {
            Reply::Go {
                func: self.func,
                arg: self.arg,
            }
        }
    }
}
