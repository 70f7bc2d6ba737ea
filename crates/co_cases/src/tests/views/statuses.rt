//! How a view ends.

use super::calls::{Ends, Row, show_all, shows};
use super::reports::NO_ORDER;
use crate::examples::ONE_FIRING_REPORT;
use co_view_top::Status;

/// The line that is written of notes without an order.
const ORDER: &str = "line 18: order\n";

/// Texts that are no report, and a report without an order, which every view needs.
const LINES: &[Row] = &[
    (&["summary"], "", Status::BadReport, "line 0: version\n"),
    (
        &["summary"],
        "callout-report 1",
        Status::BadReport,
        "line 1: cut\n",
    ),
    (
        &["summary"],
        "callout-report 2\n",
        Status::BadReport,
        "line 1: version\n",
    ),
    (
        &["summary"],
        "callout-report 1\ncallout 1\nhz 1000\n",
        Status::BadReport,
        "line 0: note\n",
    ),
    (
        &["summary"],
        "callout-report 1\ncallout 1\nhz 1000\ncpus 1\nwheel 24\nfuncs 0\ntimer 0 mpsafe\ncpu 0\nhistories\n",
        Status::BadReport,
        "line 5: number\n",
    ),
    (
        &["summary"],
        "callout-report 1\ncallout 1\nhz 1000\ncpus 1\nwheel 256\nfuncs 0\ntimer 0 mpsafe\ncpu 0\nhistories\ntimer 0\nwheel 0\n\
        actor p0\n",
        Status::BadReport,
        "line 13: note\n",
    ),
    (&["lanes"], NO_ORDER, Status::NoOrder, ORDER),
    (&["summary"], NO_ORDER, Status::NoOrder, ORDER),
    (&["trace"], NO_ORDER, Status::NoOrder, ORDER),
    (&["svg"], NO_ORDER, Status::NoOrder, ORDER),
];

#[test]
fn first_bad_line_is_written(rt: HostRuntime) {
    show_all(&rt, rt.alloc(), LINES);
}

const USAGE: &str = "usage: callout_view [lanes] | timer N | cpu N | summary | trace | svg\n";

/// Words that are no view.
const NO_VIEWS: &[&[&str]] = &[
    &["lane"],
    &["timer"],
    &["timer", "one"],
    &["timer", "4294967296"],
    &["summary", "0"],
    &["cpu", "0", "0"],
];

/// The source fails where it is read.
#[test]
fn words_that_are_no_view(rt: HostRuntime) {
    let ends = Ends {
        report: ONE_FIRING_REPORT,
        read_fails: &[0],
        room: 100,
        write_fails: &[],
    };
    for words in NO_VIEWS {
        let refused = shows(
            &rt,
            rt.alloc(),
            words,
            &ends,
            Status::Usage,
            USAGE.as_bytes(),
        );
        assert!(rt; refused);
    }
}

const EXITS: &[(Status, u8)] = &[
    (Status::Done, 0),
    (Status::BadReport, 1),
    (Status::Usage, 2),
    (Status::ReadFault, 3),
    (Status::WriteFault, 4),
    (Status::NoMemory, 5),
    (Status::NoOrder, 6),
];

#[test]
fn exit_statuses(rt: HostRuntime) {
    for (status, exit) in EXITS {
        assert!(rt; status.exit_status() == *exit);
    }
}
