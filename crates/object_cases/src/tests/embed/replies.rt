//! The replies that are expected, as `include/callout.h` numbers and describes them.

use co_embed::CalloutReply;

/// What `CALLOUT_SECOND` is: a second in units of 2^-32 s.
pub(crate) const SECOND: u64 = 4_294_967_296;

/// A reply of callout 0 at CPU 0 that tells nothing.
pub(crate) const BLANK: CalloutReply = CalloutReply {
    answer: 0,
    code: 0,
    n: 0,
    func: 0,
    arg: 0,
    at: 0,
    id: 0,
    cpu: 0,
    removed: 0,
    took: 0,
    woke: 0,
    leaves: 0,
};

/// What stands in the reply before the first call.
pub(crate) const UNTOUCHED: CalloutReply = CalloutReply {
    answer: 99,
    id: 99,
    ..BLANK
};

/// What the reply is expected to tell, of callout 0 at CPU 0.
#[derive(Clone, Copy)]
pub(crate) enum Told {
    /// It is not looked at.
    Any,
    /// No call has written to it.
    Untouched,
    /// `CALLOUT_ARMED`: this arming stands in the queue at this time, in the place of no other.
    Armed(u64, u64),
    /// `CALLOUT_NOTARMED`: a drain stands, and no call is cancelled.
    NotArmed,
    NoHandler,
    /// What the function of callout(9) returns, and whether an arming was taken out of the queue.
    Stopped(i32, u8),
    /// Arming 0 is in service, and whether the try took an arming away.
    Wait(u8),
    /// The same as of a stop.
    Drained(i32, u8),
    Busy,
    /// `CALLOUT_GO` of a `next`: this arming is in service, and calls function 70 with this argument, at this time.
    Go(u64, u64, u64),
    /// `CALLOUT_GO` of a `begin`, which has told the arming and the time before, with the argument.
    GoOn(u64),
    /// The first arming waits for its lock from this time on.
    Hold(u64),
    Skip,
    /// This drain function is to be called, if not 0, and whether a drain waits.
    Ended(u64, u8),
    /// This very reply.
    Is(CalloutReply),
}

/// Whether the reply tells this.
pub(crate) fn is_told(told: Told, reply: &CalloutReply) -> bool {
    match told {
        Told::Any => true,
        Told::Untouched => *reply == UNTOUCHED,
        Told::Is(wanted) => *reply == wanted,
        _ => *reply == reply_of(told),
    }
}

/// The reply of callout 0 at CPU 0 that tells this.
fn reply_of(told: Told) -> CalloutReply {
    let mut reply = BLANK;
    match told {
        Told::Armed(n, at) => {
            reply.answer = 1;
            reply.n = n;
            reply.at = at;
        }
        Told::NotArmed => reply.answer = 2,
        Told::NoHandler => reply.answer = 3,
        Told::Stopped(code, removed) => {
            reply.answer = 5;
            reply.code = code;
            reply.removed = removed;
        }
        Told::Wait(took) => {
            reply.answer = 6;
            reply.removed = took;
            reply.took = took;
        }
        Told::Drained(code, removed) => {
            reply.answer = 7;
            reply.code = code;
            reply.removed = removed;
        }
        Told::Busy => reply.answer = 8,
        Told::Go(n, arg, at) => {
            reply = go(arg);
            reply.n = n;
            reply.at = at;
        }
        Told::GoOn(arg) => reply = go(arg),
        Told::Hold(at) => {
            reply.answer = 13;
            reply.at = at;
        }
        Told::Skip => reply.answer = 14,
        Told::Ended(func, woke) => {
            reply.answer = 15;
            reply.func = func;
            reply.woke = woke;
        }
        Told::Any | Told::Untouched | Told::Is(_) => {}
    }
    reply
}

/// Function 70 is to be called.
fn go(arg: u64) -> CalloutReply {
    CalloutReply {
        answer: 12,
        func: 70,
        arg,
        ..BLANK
    }
}
