//! One firing over ends that fail.
use crate::examples::{ONE_FIRING, ONE_FIRING_REPORT};
use crate::{Ends, call};
use co_top::Status;
use std::process::Abort;
use std::sync::Wait;
use std::thread::Threads;

/// How many bytes the report has.
const WHOLE: usize = ONE_FIRING_REPORT.len();

/// How many bytes the script has.
const SCRIPT: u64 = ONE_FIRING.len() as u64;

/// Whether a call that reads and writes byte by byte, of which these fail, ends so, with so many bytes of the report written.
fn ends<R: AllocGlobal + Threads + Wait + Sync + Abort>(
    rt: &R,
    read_fails: &[u64],
    room: usize,
    write_fails: &[u64],
    status: Status,
    written: usize,
) -> bool {
    let ends = Ends {
        input: ONE_FIRING.as_bytes(),
        room,
        piece: 1,
        read_fails,
        write_fails,
    };
    match ONE_FIRING_REPORT.as_bytes().get(..written) {
        Some(front) => call(rt, ["steps"].as_slice(), &ends, None).says(status, front),
        None => false,
    }
}

/// The script's bytes are read one by one, and one more read finds its end.
#[test]
fn each_read_fails_in_turn(rt: HostRuntime) {
    for turn in 0..SCRIPT + 1 {
        assert!(rt;
            ends(&rt, &[turn], WHOLE, &[], Status::ReadFault, 0),
            "read {turn}"
        );
    }
}

/// Where a write fails, and where none does but a sink without room takes nothing.
#[test]
fn each_write_fails_in_turn(rt: HostRuntime) {
    for turn in 0..WHOLE {
        let fails = ends(&rt, &[], WHOLE, &[turn as u64], Status::WriteFault, turn);
        let is_full = ends(&rt, &[], turn, &[], Status::WriteFault, turn);
        assert!(rt; fails && is_full, "write {turn}");
    }
}
