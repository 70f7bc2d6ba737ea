//! Worked histories of callout 0, and their counts.
ghost use Rattle.std.specs.Prelude.{◌≡◌};
ghost use Rattle.co_program.specs.Scripts.{IsScript};

use crate::tests::notes::{Callout, Row, Said};
use crate::tests::told::tell;
use crate::tests::{is_right, script_of};
use co_gen::{Counts, TallyOf};
use co_program::{Script, actor_count};
use co_report::Subject;
use std::alloc::Global;
use std::marker::Brand;
use std::process::Abort;

/// A callout without a lock, and a client.
const FREE: &str = "callout 1
funcs 1
timer 0 mpsafe
client 0
";

/// A callout with a mutex, and a client.
const LOCKED: &str = "callout 1
funcs 1
lock 0 mtx
timer 0 mtx 0
client 0
";

const NOTHING: Counts = Counts {
    notes: 0,
    armed: 0,
    fired: 0,
    superseded: 0,
    stopped: 0,
    pending: 0,
};

/// The counts of a type's script, whose callout 0 has this history.
fn counts_told<S: Subject, R: Abort>(
    rt: &R,
    alloc: Global,
    script: &Script,
    history: &[Row],
) -> Counts
    requires of { script.now ≡ S.script }
    requires script { IsScript script.now }
{
    let mut tally = TallyOf::<S>::new(alloc, script).expect(rt, "no memory");
    tell(rt, &mut tally, actor_count(script), history);
    tally.counts()
}

/// Whether the callout of a text's script has these counts after this history.
fn has<R: Abort>(rt: &R, alloc: Global, text: &str, history: &[Row], wanted: &Counts) -> bool {
    let script = script_of(rt, alloc, text.as_bytes());
    let counts = counts_told::<Brand, _>(rt, alloc, &script, history);
    drop(script);
    counts == *wanted
}

/// The first arming, for the first second.
const ARMED: Row = (0, 0, 0, Said::Of(Callout::Armed(1, false, 0, 0, 0, None)));

/// What a case shows, its script, what actor 0 does with callout 0, and the counts then.
const CASES: &[(&str, &str, &[Row], Counts)] = &[
    (
        "replaced",
        FREE,
        &[
            ARMED,
            (
                1,
                0,
                0,
                Said::Of(Callout::Armed(2, false, 0, 1, 1, Some(0))),
            ),
            (2, 0, 0, Said::Of(Callout::Picked(1, 2, Some(0)))),
            (3, 0, 0, Said::Of(Callout::Ended(1))),
        ],
        Counts {
            notes: 4,
            armed: 2,
            fired: 1,
            superseded: 1,
            ..NOTHING
        },
    ),
    (
        "cancelled while it waits",
        LOCKED,
        &[
            ARMED,
            (1, 0, 0, Said::Of(Callout::Picked(0, 1, None))),
            (2, 0, 0, Said::Of(Callout::Stopped(1, None))),
            (3, 0, 0, Said::Of(Callout::Skipped)),
            (4, 0, 0, Said::Of(Callout::Ended(0))),
        ],
        Counts {
            notes: 5,
            armed: 1,
            stopped: 1,
            ..NOTHING
        },
    ),
    (
        "stop during service",
        FREE,
        &[
            ARMED,
            (1, 0, 0, Said::Of(Callout::Picked(0, 1, Some(0)))),
            (2, 0, 0, Said::Of(Callout::Armed(2, false, 0, 0, 1, None))),
            (3, 0, 0, Said::Of(Callout::Stopped(0, Some(0)))),
            (4, 0, 0, Said::Of(Callout::Ended(0))),
        ],
        Counts {
            notes: 5,
            armed: 2,
            fired: 1,
            stopped: 1,
            ..NOTHING
        },
    ),
    (
        "still armed",
        FREE,
        &[ARMED],
        Counts {
            notes: 1,
            armed: 1,
            pending: 1,
            ..NOTHING
        },
    ),
    ("empty run", FREE, &[], NOTHING),
];

#[test]
fn fates_are_counted(rt: HostRuntime) {
    for (name, text, history, wanted) in CASES {
        is_right(&rt, name, has(&rt, rt.alloc(), text, history, wanted));
    }
}
