//! One firing over ends that fail.

use super::calls::{Ends, shows};
use super::texts::TIMER_LANES;
use crate::examples::ONE_FIRING_REPORT;
use co_view_top::Status;
use std::alloc::Global;
use std::process::Abort;

/// Whether the view `timer 0` ends so, and so many bytes of its text are written, into this room and where these reads and writes fail.
fn ends<R: Abort>(
    rt: &R,
    alloc: Global,
    read_fails: &[u64],
    room: usize,
    write_fails: &[u64],
    status: Status,
    written: usize,
) -> bool {
    let ends = Ends {
        report: ONE_FIRING_REPORT,
        read_fails,
        room,
        write_fails,
    };
    match TIMER_LANES.as_bytes().get(..written) {
        Some(front) => shows(rt, alloc, &["timer", "0"], &ends, status, front),
        None => false,
    }
}

/// In each read, and in the one that finds the end.
#[test]
fn each_read_fails_in_turn(rt: HostRuntime) {
    let room = TIMER_LANES.len();
    for turn in 0..ONE_FIRING_REPORT.len() as u64 / 32 + 1 {
        let failed = ends(&rt, rt.alloc(), &[turn], room, &[], Status::ReadFault, 0);
        assert!(rt; failed, "read {turn}");
    }
}

/// The room, the writes that fail, how the view ends, and how much is written: the second write fails, where a front of the text was
/// written; then none does, into room for the whole text and for too little.
const WRITES: &[(usize, &[u64], Status, usize)] = &[
    (TIMER_LANES.len(), &[1], Status::WriteFault, 32),
    (TIMER_LANES.len(), &[], Status::Done, TIMER_LANES.len()),
    (100, &[], Status::WriteFault, 100),
];

#[test]
fn writes_fail_and_find_no_room(rt: HostRuntime) {
    for (room, fails, status, written) in WRITES {
        assert!(rt; ends(&rt, rt.alloc(), &[], *room, fails, *status, *written));
    }
}
