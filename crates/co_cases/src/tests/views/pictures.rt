//! Traces and pictures.

use super::calls::{quiet, view};
use super::reports::DRAIN_WAITS;
use co_view_top::Status;
use std::alloc::Global;
use std::process::Abort;

/// The lanes are armed for four steps and in service for one; each note is an event of a microsecond in its actor's lane.
pub(super) const FIRING_TRACE: &str = r##"{"traceEvents":[
{"ph":"M","name":"process_name","pid":1,"args":{"name":"callouts"}},
{"ph":"M","name":"process_name","pid":2,"args":{"name":"actors"}},
{"ph":"M","name":"thread_name","pid":1,"tid":0,"args":{"name":"timer 0 armed"}},
{"ph":"M","name":"thread_name","pid":1,"tid":1,"args":{"name":"timer 0 in service"}},
{"ph":"M","name":"thread_name","pid":2,"tid":0,"args":{"name":"c0"}},
{"ph":"M","name":"thread_name","pid":2,"tid":1,"args":{"name":"p0"}},
{"ph":"X","pid":2,"tid":0,"ts":0,"dur":1,"name":"reset timer 0 at 1.500s to f0 a7 -> 0 armed #0 on CPU 0","args":{"line":15,"act":0}},
{"ph":"B","pid":1,"tid":0,"ts":0,"name":"#0 on CPU 0"},
{"ph":"X","pid":2,"tid":0,"ts":1,"dur":1,"name":"CPU 0: insert timer 0 #0 at 1.500s -> in the queue at 1.500s","args":{"line":19,"act":0}},
{"ph":"X","pid":2,"tid":1,"ts":2,"dur":1,"name":"CPU 0: tick at 1.500s -> due: 1","args":{"line":20,"act":0}},
{"ph":"X","pid":2,"tid":1,"ts":3,"dur":1,"name":"CPU 0: next due -> timer 0 #0 at 1.500s","args":{"line":21,"act":0}},
{"ph":"X","pid":2,"tid":1,"ts":4,"dur":1,"name":"take timer 0 #0 at 1.500s -> calls f0 a7","args":{"line":16,"act":0}},
{"ph":"E","pid":1,"tid":0,"ts":4},
{"ph":"B","pid":1,"tid":1,"ts":4,"name":"#0 in service"},
{"ph":"X","pid":2,"tid":1,"ts":5,"dur":1,"name":"end timer 0 #0 -> over","args":{"line":17,"act":0}},
{"ph":"E","pid":1,"tid":1,"ts":5},
{"ph":"X","pid":2,"tid":1,"ts":6,"dur":1,"name":"CPU 0: free -> done","args":{"line":22,"act":0}},
{"ph":"X","pid":2,"tid":1,"ts":7,"dur":1,"name":"CPU 0: next due -> none","args":{"line":23,"act":0}}
]}
"##;

/// How often a part stands in a text.
fn times(text: &[u8], part: &[u8]) -> usize {
    let mut count: usize = 0;
    for at in 0..text.len() {
        if text[at..].starts_with(part) {
            count = count.saturating_add(1);
        }
    }
    count
}

/// Whether each part stands so often in a text.
fn has_each(text: &[u8], parts: &[(&str, usize)]) -> bool {
    for (part, count) in parts {
        if times(text, part.as_bytes()) != *count {
            return false;
        }
    }
    true
}

/// Whether the view of a drain that this word asks for has each of these parts so often.
fn has_parts<R: Abort>(rt: &R, alloc: Global, word: &str, parts: &[(&str, usize)]) -> bool {
    let (ended, sink) = view(rt, alloc, &[word], &quiet(DRAIN_WAITS));
    let has = ended == Status::Done && has_each(sink.bytes(), parts);
    drop(sink);
    has
}

/// Parts of the trace of a drain, and how often each stands there.
const TRACE_PARTS: &[(&str, usize)] = &[
    // The eleven notes of the report, each as one event.
    ("\"ph\":\"X\"", 11),
    ("\"line\":24,", 1),
    ("\"line\":25,", 1),
    ("\"line\":26,", 1),
    ("\"line\":27,", 1),
    ("\"line\":28,", 1),
    ("\"line\":29,", 1),
    ("\"line\":32,", 1),
    ("\"line\":33,", 1),
    ("\"line\":34,", 1),
    ("\"line\":35,", 1),
    ("\"line\":36,", 1),
    // Its callout was armed and in service, with a wait for its lock.
    ("\"ph\":\"B\"", 3),
    ("\"ph\":\"E\"", 3),
    ("\"tid\":1,\"ts\":4,\"name\":\"#0 waits for its lock\"}", 1),
    ("\"tid\":1,\"ts\":6,\"name\":\"#0 in service\"}", 1),
    // An arrow goes from the wait of step 5 to the end of step 7.
    ("\"ph\":\"s\",", 1),
    ("\"ph\":\"f\",", 1),
    ("\"id\":\"0.0\",\"pid\":2,\"tid\":1,\"ts\":5}", 1),
    ("\"id\":\"0.0\",\"pid\":2,\"tid\":3,\"ts\":7}", 1),
];

/// Parts of its picture.
const SVG_PARTS: &[(&str, usize)] = &[
    ("<svg ", 1),
    ("</svg>\n", 1),
    ("<circle ", 11),
    ("\">36</text>", 1),
    // Columns of 400 points behind a margin of 70, steps of 18 points below 80: the bar of the service that CPU 1, the fourth actor,
    // made from step 4 to step 7.
    ("<rect class=", 1),
    (
        "<rect class=\"t0\" x=\"1266\" y=\"152\" width=\"8\" height=\"54\"/>",
        1,
    ),
    // The arrow to its end from the second client's step 5.
    ("<path class=\"a\"", 1),
    ("<path class=\"a\" d=\"M470 170V215H1270V206\"/>", 1),
];

#[test]
fn parts_of_a_drain(rt: HostRuntime) {
    assert!(rt; has_parts(&rt, rt.alloc(), "trace", TRACE_PARTS));
    assert!(rt; has_parts(&rt, rt.alloc(), "svg", SVG_PARTS));
}
