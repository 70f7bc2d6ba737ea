//! The notes that calls are expected to give.
use super::stage::seconds;
use co_object::{
    AnyEntry, CallOp, Entry, Next, Note, Op, Place, PlainOp, QEntry, QOp, QReply, Reply, RunOp,
};
use co_sbt::Sbt;

/// Who serves what has come due at a CPU.
#[derive(Clone, Copy)]
pub(super) enum Lane {
    /// The CPU's own service.
    Own,
    /// Its interrupt.
    Direct,
}

/// What an entry says. Times are whole seconds.
#[derive(Clone, Copy)]
pub(super) enum Told {
    /// A stop: its code, and the CPU in whose queue the arming was.
    Stopped(i32, Option<u32>),
    /// A reset for this time to function 0 with an argument, on a CPU or not: which arming that is, and on which CPU.
    Armed(i32, u64, Option<u32>, u64, u32),
    /// An arming is picked by a CPU at this time: function 0 is called with an argument, or the callout's lock is waited for.
    Picked(u64, u32, i32, Option<u64>),
    /// The lock is held, and the arming was cancelled meanwhile.
    Skipped(u64, u32),
    /// The service of an arming by a CPU ends: the arming that moves on, to a CPU and for a time.
    Ended(u64, u32, Option<(u64, u32, i32)>),
    /// An arming, of this callout and number, is put into a CPU's queue.
    Inserted(u32, u64, i32),
    /// The arming of this callout is taken out of it.
    Removed(u32),
    /// A scan of a CPU's queue, and its count.
    Scanned(i32, u32),
    /// From this lane of a CPU one is taken.
    Popped(Lane, u32, u64, i32),
    /// Nothing is there to be taken.
    Empty(Lane),
    /// The CPU's service of one of this lane is over.
    Freed(Lane),
}

/// Where an entry stands, the actor and the act that made it, and what it says.
pub(super) type Row = (Place, u64, u32, u64, Told);

/// A call with its reply.
fn called(op: PlainOp, reply: Reply) -> Option<(Op, Reply)> {
    Some((Op::Call(CallOp::Plain(op)), reply))
}

/// A step of a service with its reply.
fn ran(op: RunOp, reply: Reply) -> Option<(Op, Reply)> {
    Some((Op::Run(op), reply))
}

/// The arming that moves on.
fn next_of(next: Option<(u64, u32, i32)>) -> Option<Next> {
    let (n, cpu, due) = next?;
    Some(Next {
        n,
        cpu,
        due: seconds(due),
    })
}

/// A call on a callout or a step of its service, and its reply.
fn callout_of(told: &Told) -> Option<(Op, Reply)> {
    match *told {
        Told::Stopped(code, off) => called(PlainOp::Stop, Reply::Stopped { code, off }),
        Told::Armed(due, arg, cpu, n, at) => {
            let op = PlainOp::Reset {
                due: seconds(due),
                prec: Sbt::zero(),
                func: 0,
                arg,
                cpu,
            };
            let reply = Reply::Armed {
                code: 0,
                n,
                cpu: at,
                off: None,
            };
            called(op, reply)
        }
        Told::Picked(n, cpu, at, arg) => {
            let reply = match arg {
                Some(arg) => Reply::Go { func: 0, arg },
                None => Reply::Hold,
            };
            let at = seconds(at);
            ran(RunOp::Pick { n, cpu, at }, reply)
        }
        Told::Skipped(n, cpu) => ran(RunOp::Begin { n, cpu }, Reply::Skip),
        Told::Ended(n, cpu, next) => {
            let reply = Reply::Ended {
                drain: None,
                next: next_of(next),
                woke: false,
            };
            ran(RunOp::End { n, cpu }, reply)
        }
        _ => None,
    }
}

/// One is taken from this lane.
fn pop(lane: Lane) -> QOp {
    match lane {
        Lane::Own => QOp::Pop,
        Lane::Direct => QOp::PopDirect,
    }
}

/// An operation of a CPU's queue or of one of its lanes, and its reply.
fn cpu_of(told: &Told) -> Option<(QOp, QReply)> {
    match *told {
        Told::Inserted(i, n, t) => {
            let t = seconds(t);
            Some((QOp::Insert { i, n, t }, QReply::At(t)))
        }
        Told::Removed(i) => Some((QOp::Remove { i }, QReply::Off)),
        Told::Scanned(now, count) => {
            let now = seconds(now);
            Some((QOp::Scan { now }, QReply::Count(count)))
        }
        Told::Popped(lane, i, n, at) => {
            let at = seconds(at);
            Some((pop(lane), QReply::Got { i, n, at }))
        }
        Told::Empty(lane) => Some((pop(lane), QReply::Empty)),
        Told::Freed(Lane::Own) => Some((QOp::Free, QReply::Freed)),
        Told::Freed(Lane::Direct) => Some((QOp::FreeDirect, QReply::Freed)),
        _ => None,
    }
}

/// The entry of an actor's act that says this.
fn entry_of(actor: u32, act: u64, told: &Told) -> Option<AnyEntry> {
    if let Some((op, reply)) = callout_of(told) {
        let entry = Entry {
            actor,
            act,
            op,
            reply,
        };
        return Some(AnyEntry::Timer(entry));
    }
    let (op, reply) = cpu_of(told)?;
    let entry = QEntry {
        actor,
        act,
        op,
        reply,
    };
    Some(AnyEntry::Cpu(entry))
}

/// Whether a note is as the row tells.
fn is(note: &Note, row: &Row) -> bool {
    let (place, pos, actor, act, told) = row;
    let here = note.place == *place && note.pos == *pos;
    here && entry_of(*actor, *act, told) == Some(note.entry)
}

/// Whether the notes are as the rows tell.
pub(super) fn are(notes: &[Note], rows: &[Row]) -> bool {
    for (note, row) in notes.iter().zip(rows) {
        if !is(note, row) {
            return false;
        }
    }
    notes.len() == rows.len()
}
