//! Notes of each kind, with numbers that are 0, small or the greatest, in a packed list.
use co_object::{
    AnyEntry, CallOp, Entry, Next, Note, Op, OwnEntry, OwnKind, Place, PlainOp, QEntry, QOp,
    QReply, Reply, RunOp,
};
use co_packed::{Head, PackedNotes};
use co_sbt::{Sbt, Seq};
use std::alloc::Global;
use std::process::Abort;

/// The numbers of a note.
#[derive(Clone, Copy)]
struct Numbers {
    long: u64,
    short: u32,
    code: i32,
    time: u64,
}

/// None, some of one byte and of more, a high bit alone, and the greatest.
static NUMBERS: [Numbers; 6] = [
    Numbers {
        long: 0,
        short: 0,
        code: 0,
        time: 0,
    },
    Numbers {
        long: 1,
        short: 127,
        code: 1,
        time: 128,
    },
    Numbers {
        long: 16384,
        short: 16383,
        code: -1,
        time: 22978075033,
    },
    Numbers {
        long: 0x8000_0000_0000_0000,
        short: 0x8000_0000,
        code: -64,
        time: 0x4000_0000_0000_0000,
    },
    Numbers {
        long: 0xffff_ffff_ffff_ffff,
        short: 0xffff_ffff,
        code: 0x7fff_ffff,
        time: 0x7fff_ffff_ffff_ffff,
    },
    Numbers {
        long: 0x7fff_ffff_ffff_ffff,
        short: 1,
        code: -0x8000_0000,
        time: 1,
    },
];

/// The operations of a caller on a callout.
fn plain_ops(numbers: &Numbers, time: Sbt) -> [PlainOp; 11] {
    let Numbers { long, short, .. } = *numbers;
    [
        PlainOp::Reset {
            due: time,
            prec: Sbt::zero(),
            func: short,
            arg: long,
            cpu: None,
        },
        PlainOp::Reset {
            due: time,
            prec: time,
            func: 0,
            arg: long,
            cpu: Some(short),
        },
        PlainOp::Schedule {
            due: Sbt::zero(),
            prec: time,
            cpu: None,
        },
        PlainOp::Schedule {
            due: time,
            prec: time,
            cpu: Some(short),
        },
        PlainOp::Stop,
        PlainOp::AsyncDrain { func: short },
        PlainOp::Active,
        PlainOp::Pending,
        PlainOp::Deactivate,
        PlainOp::Init,
        PlainOp::Retire,
    ]
}

/// The operations of a drain and of the service on a callout.
fn other_ops(numbers: &Numbers, time: Sbt) -> [Op; 5] {
    let Numbers { long, short, .. } = *numbers;
    [
        Op::Call(CallOp::DrainTry { took: false }),
        Op::Call(CallOp::DrainTry { took: true }),
        Op::Run(RunOp::Pick {
            n: long,
            cpu: short,
            at: time,
        }),
        Op::Run(RunOp::Begin {
            n: long,
            cpu: short,
        }),
        Op::Run(RunOp::End {
            n: long,
            cpu: short,
        }),
    ]
}

/// An arming that moves to another CPU.
fn next_of(numbers: &Numbers, time: Sbt) -> Option<Next> {
    Some(Next {
        n: numbers.long,
        cpu: numbers.short,
        due: time,
    })
}

/// Replies of a callout with numbers, the ends of services among them.
fn replies(numbers: &Numbers, time: Sbt, off: Option<u32>) -> [Reply; 11] {
    let Numbers {
        long,
        short,
        code,
        ..
    } = *numbers;
    let drain = off;
    [
        Reply::Armed {
            code,
            n: long,
            cpu: short,
            off,
        },
        Reply::NotArmed { code },
        Reply::Stopped { code, off },
        Reply::Wait {
            n: long,
            took: false,
            off,
        },
        Reply::Wait {
            n: long,
            took: true,
            off,
        },
        Reply::Drained { code, off },
        Reply::Go {
            func: short,
            arg: long,
        },
        Reply::Ended {
            drain,
            next: None,
            woke: false,
        },
        Reply::Ended {
            drain,
            next: None,
            woke: true,
        },
        Reply::Ended {
            drain,
            next: next_of(numbers, time),
            woke: false,
        },
        Reply::Ended {
            drain,
            next: next_of(numbers, time),
            woke: true,
        },
    ]
}

/// Replies of a callout with none.
const BARE: [Reply; 14] = [
    Reply::NoHandler,
    Reply::Worn,
    Reply::Busy,
    Reply::Yes,
    Reply::No,
    Reply::Done,
    Reply::Hold,
    Reply::Skip,
    Reply::Live,
    Reply::Retired,
    Reply::InUse {
        armed: false,
        serviced: false,
    },
    Reply::InUse {
        armed: true,
        serviced: false,
    },
    Reply::InUse {
        armed: false,
        serviced: true,
    },
    Reply::InUse {
        armed: true,
        serviced: true,
    },
];

/// The operations on a queue, each with a reply.
fn queue_entries(numbers: &Numbers, time: Sbt) -> [(QOp, QReply); 7] {
    let Numbers { long, short, .. } = *numbers;
    let got = QReply::Got {
        i: short,
        n: long,
        at: time,
    };
    let insert = QOp::Insert {
        i: short,
        n: long,
        t: time,
    };
    [
        (insert, QReply::At(time)),
        (QOp::Remove { i: short }, QReply::Off),
        (QOp::Scan { now: time }, QReply::Count(short)),
        (QOp::Pop, got),
        (QOp::Free, QReply::Freed),
        (QOp::PopDirect, QReply::Empty),
        (QOp::FreeDirect, QReply::Missing),
    ]
}

/// What an actor's own history has.
static OWN: [OwnKind; 4] = [
    OwnKind::NotHeld,
    OwnKind::HoldsLock,
    OwnKind::Holding,
    OwnKind::NotHolding,
];

/// A list of notes, and the same list packed.
#[derive(Drop)]
struct Making {
    /// Those of the notes that come next.
    numbers: Numbers,
    notes: Seq<Note>,
    packed: PackedNotes,
}

impl Making {
    /// Adds an entry at each kind of place.
    fn add(&mut self, rt: &impl Abort, entry: &AnyEntry) {
        let Numbers { long, short, .. } = self.numbers;
        for place in [Place::Timer(short), Place::Cpu(short), Place::Actor(short)] {
            let note = Note {
                place,
                pos: long,
                entry: *entry,
            };
            self.packed.push(&note).expect(rt, "no memory");
            self.notes.push(note).expect(rt, "no memory");
        }
    }

    /// Adds an entry of a callout.
    fn add_timer(&mut self, rt: &impl Abort, op: Op, reply: Reply) {
        let Numbers { long, short, .. } = self.numbers;
        self.add(
            rt,
            &AnyEntry::Timer(Entry {
                actor: short,
                act: long,
                op,
                reply,
            }),
        );
    }

    /// Adds callers' operations.
    fn add_calls(&mut self, rt: &impl Abort, calls: &[PlainOp]) {
        for plain in calls {
            self.add_timer(rt, Op::Call(CallOp::Plain(*plain)), Reply::Yes);
        }
    }

    /// Adds operations of drains and of the service.
    fn add_others(&mut self, rt: &impl Abort, others: &[Op]) {
        for op in others {
            self.add_timer(rt, *op, Reply::Done);
        }
    }

    /// Adds replies to a caller.
    fn add_replies(&mut self, rt: &impl Abort, replies: &[Reply]) {
        for reply in replies {
            self.add_timer(rt, Op::Call(CallOp::Plain(PlainOp::Stop)), *reply);
        }
    }

    /// Adds the entries of queues.
    fn add_queues(&mut self, rt: &impl Abort, entries: &[(QOp, QReply)]) {
        let Numbers { long, short, .. } = self.numbers;
        for (op, reply) in entries {
            self.add(
                rt,
                &AnyEntry::Cpu(QEntry {
                    actor: short,
                    act: long,
                    op: *op,
                    reply: *reply,
                }),
            );
        }
    }

    /// Adds the entries of actors.
    fn add_own(&mut self, rt: &impl Abort, kinds: &[OwnKind]) {
        let Numbers { long, short, .. } = self.numbers;
        for kind in kinds {
            self.add(
                rt,
                &AnyEntry::Own(OwnEntry {
                    actor: short,
                    act: long,
                    kind: *kind,
                }),
            );
        }
    }

    /// Adds notes of each kind with these numbers.
    fn add_all(&mut self, rt: &impl Abort, numbers: Numbers) {
        self.numbers = numbers;
        let time = Sbt::new(numbers.time).unwrap_or(Sbt::zero());
        self.add_calls(rt, &plain_ops(&numbers, time));
        self.add_others(rt, &other_ops(&numbers, time));
        self.add_replies(rt, &BARE);
        self.add_replies(rt, &replies(&numbers, time, None));
        self.add_replies(rt, &replies(&numbers, time, Some(numbers.short)));
        self.add_queues(rt, &queue_entries(&numbers, time));
        self.add_own(rt, &OWN);
    }

    /// Whether each note is found in the packed list, from the last to the first.
    fn are_found(&self) -> bool {
        for at in (0..self.packed.len()).rev() {
            match self.notes.as_slice().get(at) {
                Some(note) if at < self.packed.len() && self.packed.note(at) == *note => {}
                _ => return false,
            }
        }
        self.packed.len() == self.notes.as_slice().len()
    }

    /// Whether a pass over the packed list has each note.
    fn are_passed(&self) -> bool {
        let mut ahead = self.packed.ahead();
        for note in self.notes.as_slice() {
            if ahead.next() != Some(*note) {
                return false;
            }
        }
        ahead.next().is_none()
    }

    /// Whether a pass over the heads has that of each note.
    fn are_headed(&self) -> bool {
        let mut ahead = self.packed.ahead();
        for note in self.notes.as_slice() {
            if !is_head_of(ahead.next_head(), note) {
                return false;
            }
        }
        ahead.next_head().is_none()
    }
}

/// Whether this is the head of this note.
fn is_head_of(head: Option<Head>, note: &Note) -> bool {
    match head {
        Some(head) => {
            head.place == note.place && head.pos == note.pos && head.actor == note.entry.actor()
        }
        None => false,
    }
}

/// Whether a packed list of notes of each kind with each of these numbers has the notes, one by one and in passes over them and their heads.
fn has_notes(rt: &impl Abort, alloc: Global, all: &[Numbers]) -> bool {
    let mut making = Making {
        numbers: NUMBERS[0],
        notes: Seq::new(alloc),
        packed: PackedNotes::new(alloc),
    };
    for numbers in all {
        making.add_all(rt, *numbers);
    }
    making.are_found() && making.are_passed() && making.are_headed()
}

#[test]
fn packed_lists_have_the_notes(rt: HostRuntime) {
    assert!(rt; has_notes(&rt, rt.alloc(), &NUMBERS));
    assert!(rt; has_notes(&rt, rt.alloc(), &NUMBERS[2..3]));
}
