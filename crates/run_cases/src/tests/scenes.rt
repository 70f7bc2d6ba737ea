//! Scripts whose acts wait for those of other actors at the gate, with what is told of the actors then.
use super::running::count_in;
use super::waits::{After, Far, run_in_order};
use co_object::{AnyEntry, Entry, Lists, Note, Op, Place, Reply, RunOp};

/// What is told of an actor's notes.
#[derive(Clone, Copy)]
enum Told {
    /// How many there are.
    All(usize),
    /// How many stand in a place.
    In(Place, usize),
    /// The reply to the first begin.
    Begun(Said),
    /// The replies of callouts, in order.
    Replies(&'static [Said]),
}

/// A reply of callout 0.
#[derive(Clone, Copy)]
enum Said {
    /// Its first arming, at CPU 0.
    Armed,
    /// It can't retire, since its function runs.
    InUse,
    /// It does not stop, since its function runs.
    Running,
    Retired,
    Done,
    NoHandler,
    /// Its function 0 is called with this argument.
    Go(u64),
    Skip,
}

/// A script, which acts wait for others, how many acts each actor announces, and what is told of actors.
#[derive(Clone, Copy)]
struct Scene {
    name: &'static str,
    text: &'static str,
    after: &'static [After],
    acts: &'static [u64],
    told: &'static [(usize, Told)],
}

/// The reply that says this.
fn reply_of(said: Said) -> Reply {
    match said {
        Said::Armed => Reply::Armed {
            code: 0,
            n: 0,
            cpu: 0,
            off: None,
        },
        Said::InUse => Reply::InUse {
            armed: false,
            serviced: true,
        },
        Said::Running => Reply::Stopped { code: 0, off: None },
        Said::Retired => Reply::Retired,
        Said::Done => Reply::Done,
        Said::NoHandler => Reply::NoHandler,
        Said::Go(arg) => Reply::Go { func: 0, arg },
        Said::Skip => Reply::Skip,
    }
}

static SCENES: [Scene; 10] = [
    // Two clients call beside each other.
    Scene {
        name: "two clients",
        text: "callout 1
timer 0 mpsafe
client 0
stop 0
client 1
stop 0
",
        after: &[],
        acts: &[1, 1, 0],
        told: &[(0, Told::All(1)), (1, Told::All(1))],
    },
    // None of the actors could go on alone: the first client's last act, the tick, the function's act, the second client's first act and its
    // last come in this order.
    Scene {
        name: "beside each other",
        text: "callout 1
cpus 2
funcs 1
timer 0 mpsafe
timer 1 mpsafe
func 0
pending me
client 0
reset 0 =1 f0 a0
pending 0
client 1
reset 1 =1 f0 a1 cpu 1
pending 1
cpu 0
tick 1
",
        after: &[
            After {
                actor: 2,
                act: 0,
                other: 0,
                far: Far::Acts(2),
            },
            After {
                actor: 1,
                act: 0,
                other: 2,
                far: Far::Acts(2),
            },
            After {
                actor: 2,
                act: 1,
                other: 1,
                far: Far::Acts(2),
            },
        ],
        acts: &[2, 2, 2, 0],
        told: &[],
    },
    // A direct callout and another one come due together, and an interrupt and its CPU service them: the tick comes after both resets.
    Scene {
        name: "both lanes",
        text: "callout 2
funcs 1
timer 0 mpsafe direct
timer 1 mpsafe
func 0
pending me
client 0
reset 0 =1 f0 a0
reset 1 =1 f0 a1
cpu 0
tick 1
",
        after: &[After {
            actor: 2,
            act: 0,
            other: 0,
            far: Far::Notes(4),
        }],
        acts: &[2, 2, 2],
        told: &[
            (2, Told::In(Place::Timer(0), 3)),
            (2, Told::In(Place::Timer(1), 0)),
            (1, Told::In(Place::Timer(1), 3)),
            (1, Told::In(Place::Timer(0), 0)),
        ],
    },
    // A callout comes due while a client keeps its lock: the client's act 2 waits until the CPU has picked the callout. It runs once the mutex
    // is free.
    Scene {
        name: "runs once the mutex is free",
        text: "callout 1
funcs 1
lock 0 mtx
timer 0 mtx 0
client 0
lock 0
reset 0 =1 f0 a5
unlock
cpu 0
tick 1
",
        after: &[
            After {
                actor: 1,
                act: 0,
                other: 0,
                far: Far::Notes(2),
            },
            After {
                actor: 0,
                act: 2,
                other: 1,
                far: Far::Notes(3),
            },
        ],
        acts: &[3, 1],
        told: &[(1, Told::Begun(Said::Go(5)))],
    },
    // Here the client stops it.
    Scene {
        name: "is skipped where it was stopped",
        text: "callout 1
funcs 1
lock 0 mtx
timer 0 mtx 0
client 0
lock 0
reset 0 =1 f0 a5
stop 0
unlock
cpu 0
tick 1
",
        after: &[
            After {
                actor: 1,
                act: 0,
                other: 0,
                far: Far::Notes(2),
            },
            After {
                actor: 0,
                act: 2,
                other: 1,
                far: Far::Notes(3),
            },
        ],
        acts: &[4, 1],
        told: &[(1, Told::Begun(Said::Skip))],
    },
    // Readers share a lock: the client keeps it until the function runs.
    Scene {
        name: "readers share a lock",
        text: "callout 1
funcs 1
lock 0 rw
timer 0 rw 0 shared
func 0
pending me
client 0
rlock 0
reset 0 =1 f0 a5
unlock
cpu 0
tick 1
",
        after: &[
            After {
                actor: 1,
                act: 0,
                other: 0,
                far: Far::Notes(2),
            },
            After {
                actor: 0,
                act: 2,
                other: 1,
                far: Far::Acts(2),
            },
        ],
        acts: &[3, 2],
        told: &[],
    },
    // A client drains a callout whose function runs, and waits beside the CPU that ends the service: the drain comes while the function runs, which
    // goes on once the drain was told to wait. The client's notes are the reset's two, the drain that is to wait, and the one that waited.
    Scene {
        name: "waits for the end",
        text: "callout 1
funcs 1
timer 0 mpsafe
func 0
pending me
client 0
reset 0 =1 f0 a5
drain 0
cpu 0
tick 1
",
        after: &[
            After {
                actor: 1,
                act: 0,
                other: 0,
                far: Far::Notes(2),
            },
            After {
                actor: 0,
                act: 1,
                other: 1,
                far: Far::Acts(2),
            },
            After {
                actor: 1,
                act: 1,
                other: 0,
                far: Far::Notes(3),
            },
        ],
        acts: &[2, 2],
        told: &[(0, Told::All(4))],
    },
    // The same beside the interrupt.
    Scene {
        name: "waits for the interrupt",
        text: "callout 2
funcs 1
timer 0 mpsafe direct
func 0
pending me
client 0
reset 0 =1 f0 a5
drain 0
cpu 0
tick 1
",
        after: &[
            After {
                actor: 2,
                act: 0,
                other: 0,
                far: Far::Notes(2),
            },
            After {
                actor: 0,
                act: 1,
                other: 2,
                far: Far::Acts(2),
            },
            After {
                actor: 2,
                act: 1,
                other: 0,
                far: Far::Notes(3),
            },
        ],
        acts: &[2, 1, 2],
        told: &[(0, Told::All(4))],
    },
    // A callout moves after its service: the second reset comes while the function runs, and the second tick after the first CPU's end.
    Scene {
        name: "moves after its service",
        text: "callout 1
cpus 2
funcs 1
timer 0 mpsafe
func 0
pending me
client 0
reset 0 =1 f0 a0
reset 0 =2 f0 a1 cpu 1
cpu 0
tick 1
cpu 1
tick 2
",
        after: &[
            After {
                actor: 1,
                act: 0,
                other: 0,
                far: Far::Notes(2),
            },
            After {
                actor: 0,
                act: 1,
                other: 1,
                far: Far::Acts(2),
            },
            After {
                actor: 1,
                act: 1,
                other: 0,
                far: Far::Notes(3),
            },
            After {
                actor: 2,
                act: 0,
                other: 1,
                far: Far::Notes(7),
            },
        ],
        acts: &[2, 2, 2],
        told: &[
            (1, Told::In(Place::Cpu(1), 1)),
            (2, Told::In(Place::Timer(0), 3)),
        ],
    },
    // A callout retires after its service, and comes again: the first retire comes while the function runs, and the client goes on once the drain's
    // function has retired it.
    Scene {
        name: "retires after its service",
        text: "callout 2
funcs 2
timer 0 mpsafe
func 0
pending me
func 1
retire me
client 0
reset 0 =1 f0 a0
retire 0
adrain 0 f1
pending 0
init 0
schedule 0 =3
cpu 0
tick 1
",
        after: &[
            After {
                actor: 2,
                act: 0,
                other: 0,
                far: Far::Notes(2),
            },
            After {
                actor: 0,
                act: 1,
                other: 1,
                far: Far::Acts(2),
            },
            After {
                actor: 1,
                act: 1,
                other: 0,
                far: Far::Notes(4),
            },
            After {
                actor: 0,
                act: 3,
                other: 1,
                far: Far::Notes(6),
            },
        ],
        acts: &[6, 3, 1],
        told: &[(
            0,
            Told::Replies(&[
                Said::Armed,
                Said::InUse,
                Said::Running,
                Said::Retired,
                Said::Done,
                Said::NoHandler,
            ]),
        )],
    },
];

/// The reply to the first begin of these notes.
fn begun(notes: &[Note]) -> Option<Reply> {
    for note in notes {
        if let AnyEntry::Timer(
            Entry {
                op: Op::Run(RunOp::Begin { .. }),
                reply,
                ..
            },
        ) = note.entry
        {
            return Some(reply);
        }
    }
    None
}

/// Whether the replies of callouts in these notes are these.
fn have_replies(notes: &[Note], wanted: &[Said]) -> bool {
    let mut found: usize = 0;
    for note in notes {
        if let AnyEntry::Timer(entry) = note.entry {
            match wanted.get(found) {
                Some(said) if entry.reply == reply_of(*said) => {}
                _ => return false,
            }
            found = found.saturating_add(1);
        }
    }
    found == wanted.len()
}

/// Whether that can be told of these notes.
fn is_told(notes: &[Note], told: Told) -> bool {
    match told {
        Told::All(count) => notes.len() == count,
        Told::In(place, count) => count_in(notes, place) == count,
        Told::Begun(said) => begun(notes) == Some(reply_of(said)),
        Told::Replies(replies) => have_replies(notes, replies),
    }
}

/// Whether all that is to be told of the actors can be.
fn are_told(lists: &Lists, all: &[(usize, Told)]) -> bool {
    for (actor, told) in all {
        match lists.as_slice().get(*actor) {
            Some(list) if is_told(list.as_slice(), *told) => {}
            _ => return false,
        }
    }
    true
}

#[test]
fn scenes(rt: HostRuntime) {
    for scene in &SCENES {
        let text = scene.text.as_bytes();
        let lists = run_in_order(&rt, rt.alloc(), text, scene.after, scene.acts);
        let told = are_told(&lists, scene.told);
        drop(lists);
        assert!(rt; told, "{}", scene.name);
    }
}
