//! The texts of views: lanes of all notes, of a callout and of a CPU, summaries, and a trace.

use super::calls::{Row, show_all};
use super::pictures::FIRING_TRACE;
use super::reports::{DRAIN_WAITS, STOP_DURING_SERVICE};
use crate::examples::ONE_FIRING_REPORT;
use co_view_top::Status;

/// The text that docs/VIEW.md shows.
const DRAIN_LANES: &str = "line\tc0\tc1\tp0\tp1\n\
    24\treset timer 0 at 1s to f0 a7 -> 0 armed #0 on CPU 1\n\
    32\tCPU 1: insert timer 0 #0 at 1s -> in the queue at 1s\n\
    33\t|\t|\t|\tCPU 1: tick at 1s -> due: 1\n\
    34\t|\t|\t|\tCPU 1: next due -> timer 0 #0 at 1s\n\
    25\t|\t|\t|\ttake timer 0 #0 at 1s -> waits for its lock\n\
    26\t|\tdrain timer 0 -> waits for the end of #0\n\
    27\t|\t|\t|\thas the lock of timer 0 #0 -> calls f0 a7\n\
    28\t|\t|\t|\tend timer 0 #0 -> over and wakes a drain\n\
    35\t|\t|\t|\tCPU 1: free -> done\n\
    36\t|\t|\t|\tCPU 1: next due -> none\n\
    29\t|\tdrain timer 0 -> -1 (over for good)\n";

/// The times are 1.5 seconds, and the notes have one order alone.
const FIRING_LANES: &str = "line\tc0\tp0\n\
    15\treset timer 0 at 1.500s to f0 a7 -> 0 armed #0 on CPU 0\n\
    19\tCPU 0: insert timer 0 #0 at 1.500s -> in the queue at 1.500s\n\
    20\t|\tCPU 0: tick at 1.500s -> due: 1\n\
    21\t|\tCPU 0: next due -> timer 0 #0 at 1.500s\n\
    16\t|\ttake timer 0 #0 at 1.500s -> calls f0 a7\n\
    17\t|\tend timer 0 #0 -> over\n\
    22\t|\tCPU 0: free -> done\n\
    23\t|\tCPU 0: next due -> none\n";

/// The callout's notes, and those of the queue that name it.
pub(super) const TIMER_LANES: &str = "line\tc0\tp0\n\
    15\treset timer 0 at 1.500s to f0 a7 -> 0 armed #0 on CPU 0\n\
    19\tCPU 0: insert timer 0 #0 at 1.500s -> in the queue at 1.500s\n\
    21\t|\tCPU 0: next due -> timer 0 #0 at 1.500s\n\
    16\t|\ttake timer 0 #0 at 1.500s -> calls f0 a7\n\
    17\t|\tend timer 0 #0 -> over\n";

/// The notes of CPU 1's queue, and the services on it.
const CPU_LANES: &str = "line\tc0\tc1\tp0\tp1\n\
    32\tCPU 1: insert timer 0 #0 at 1s -> in the queue at 1s\n\
    33\t|\t|\t|\tCPU 1: tick at 1s -> due: 1\n\
    34\t|\t|\t|\tCPU 1: next due -> timer 0 #0 at 1s\n\
    25\t|\t|\t|\ttake timer 0 #0 at 1s -> waits for its lock\n\
    27\t|\t|\t|\thas the lock of timer 0 #0 -> calls f0 a7\n\
    28\t|\t|\t|\tend timer 0 #0 -> over and wakes a drain\n\
    35\t|\t|\t|\tCPU 1: free -> done\n\
    36\t|\t|\t|\tCPU 1: next due -> none\n";

/// A callout and a CPU that are not there have no notes, nor has a CPU at which nothing happens.
const NO_NOTES: &str = "line\tc0\tc1\tp0\tp1\n";

/// The armings, what became of them, and the replies.
const FIRING_SUMMARY: &str =
    "timer 0: armings=1 fired=1 superseded=0 stopped=0 pending=0 | armed(0)=1 go=1 ended=1\n\
    in all: armings=1 fired=1 superseded=0 stopped=0 pending=0 | armed(0)=1 go=1 ended=1\n";

/// A stop whose code is 0 has taken the second arming away.
const STOP_SUMMARY: &str =
    "timer 0: armings=2 fired=1 superseded=0 stopped=1 pending=0 | armed(0)=2 stopped(0)=1 go=1 ended=1\n\
    in all: armings=2 fired=1 superseded=0 stopped=1 pending=0 | armed(0)=2 stopped(0)=1 go=1 ended=1\n";

const TEXTS: &[Row] = &[
    (&["lanes"], DRAIN_WAITS, Status::Done, DRAIN_LANES),
    (&[], DRAIN_WAITS, Status::Done, DRAIN_LANES),
    (&["lanes"], ONE_FIRING_REPORT, Status::Done, FIRING_LANES),
    (
        &["timer", "0"],
        ONE_FIRING_REPORT,
        Status::Done,
        TIMER_LANES,
    ),
    (&["cpu", "1"], DRAIN_WAITS, Status::Done, CPU_LANES),
    (&["timer", "1"], DRAIN_WAITS, Status::Done, NO_NOTES),
    (&["cpu", "0"], DRAIN_WAITS, Status::Done, NO_NOTES),
    (&["cpu", "4294967295"], DRAIN_WAITS, Status::Done, NO_NOTES),
    (
        &["summary"],
        ONE_FIRING_REPORT,
        Status::Done,
        FIRING_SUMMARY,
    ),
    (
        &["summary"],
        STOP_DURING_SERVICE,
        Status::Done,
        STOP_SUMMARY,
    ),
    (&["trace"], ONE_FIRING_REPORT, Status::Done, FIRING_TRACE),
];

#[test]
fn lanes_summaries_and_a_trace(rt: HostRuntime) {
    show_all(&rt, rt.alloc(), TEXTS);
}
