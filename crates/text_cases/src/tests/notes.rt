//! Notes by what they say.
use co_object::{
    AnyEntry, CallOp, Entry, Note, Op, Place, PlainOp, QEntry, QOp, QReply, Reply, RunOp,
};
use co_sbt::Sbt;

/// What the history of a callout says. Times are whole seconds.
pub(super) enum Callout {
    /// It is armed for a time, with a precision of as much or none, for function 0 with an argument: the code, the number of the arming, and
    /// the CPU in whose queue an earlier one was.
    Armed(i32, bool, u64, i32, u64, Option<u32>),
    /// Its service by CPU 0 of this arming begins at a time: function 0 is called with an argument, or the lock is waited for.
    Picked(u64, i32, Option<u64>),
    /// It is stopped: the code, and the CPU in whose queue the arming was.
    Stopped(i32, Option<u32>),
    /// The service of arming 0 has the lock, and finds it cancelled.
    Skipped,
    /// The service of this arming ends.
    Ended(u64),
    /// A drain's try has to wait for arming 0.
    Waits,
    /// A drain's last try, and its code.
    Drained(i32),
}

/// What the history of a CPU's queue says of arming 0 of callout 0. Times are whole seconds.
pub(super) enum Queue {
    /// It is put there for a time.
    Inserted(i32),
    Removed,
    /// At a time it has come due.
    Scanned(i32),
    /// It is taken to be serviced, for which the time was.
    Popped(i32),
    /// Its service is over.
    Freed,
}

/// What a note says, at a callout or at a CPU.
pub(super) enum Said {
    Of(Callout),
    At(u32, Queue),
}

/// The position of a note in its place, the actor and the act that made it, and what it says.
pub(super) type Row = (u64, u32, u64, Said);

fn seconds(count: i32) -> Sbt {
    Sbt::from_ticks(count, 1)
}

/// The call of a callout's history, and its reply.
fn callout_of(said: &Callout) -> (Op, Reply) {
    let drain = Op::Call(CallOp::DrainTry { took: false });
    match *said {
        Callout::Armed(at, spread, arg, code, n, off) => {
            let due = seconds(at);
            let prec = if spread { due } else { Sbt::zero() };
            let op = PlainOp::Reset {
                due,
                prec,
                func: 0,
                arg,
                cpu: None,
            };
            let reply = Reply::Armed {
                code,
                n,
                cpu: 0,
                off,
            };
            (Op::Call(CallOp::Plain(op)), reply)
        }
        Callout::Picked(n, at, arg) => {
            let reply = match arg {
                Some(arg) => Reply::Go { func: 0, arg },
                None => Reply::Hold,
            };
            let at = seconds(at);
            (Op::Run(RunOp::Pick { n, cpu: 0, at }), reply)
        }
        Callout::Stopped(code, off) => {
            let op = Op::Call(CallOp::Plain(PlainOp::Stop));
            (op, Reply::Stopped { code, off })
        }
        Callout::Skipped => (Op::Run(RunOp::Begin { n: 0, cpu: 0 }), Reply::Skip),
        Callout::Ended(n) => {
            let reply = Reply::Ended {
                drain: None,
                next: None,
                woke: false,
            };
            (Op::Run(RunOp::End { n, cpu: 0 }), reply)
        }
        Callout::Waits => {
            let reply = Reply::Wait {
                n: 0,
                took: false,
                off: None,
            };
            (drain, reply)
        }
        Callout::Drained(code) => (drain, Reply::Drained { code, off: None }),
    }
}

/// The operation of a queue's history, and its reply.
fn queue_of(said: &Queue) -> (QOp, QReply) {
    match *said {
        Queue::Inserted(at) => {
            let t = seconds(at);
            (QOp::Insert { i: 0, n: 0, t }, QReply::At(t))
        }
        Queue::Removed => (QOp::Remove { i: 0 }, QReply::Off),
        Queue::Scanned(at) => (QOp::Scan { now: seconds(at) }, QReply::Count(1)),
        Queue::Popped(at) => {
            let at = seconds(at);
            (QOp::Pop, QReply::Got { i: 0, n: 0, at })
        }
        Queue::Freed => (QOp::Free, QReply::Freed),
    }
}

/// The note that a row tells.
pub(super) fn note_of(row: &Row) -> Note {
    let (pos, actor, act, said) = row;
    let (pos, actor, act) = (*pos, *actor, *act);
    let (place, entry) = match said {
        Said::Of(said) => {
            let (op, reply) = callout_of(said);
            let entry = Entry {
                actor,
                act,
                op,
                reply,
            };
            (Place::Timer(0), AnyEntry::Timer(entry))
        }
        Said::At(cpu, said) => {
            let (op, reply) = queue_of(said);
            let entry = QEntry {
                actor,
                act,
                op,
                reply,
            };
            (Place::Cpu(*cpu), AnyEntry::Cpu(entry))
        }
    };
    Note { place, pos, entry }
}
