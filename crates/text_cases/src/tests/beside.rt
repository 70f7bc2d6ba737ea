//! Long texts, of which threads read the sections beside each other: they give what one thread gives.
use super::is_right;
use co_program::Script;
use co_sbt::Seq;
use co_script::{print_script, read_script, read_script_by_threads};
use co_text::{Cause, ScriptFault};
use std::alloc::Global;
use std::process::Abort;
use std::thread::Threads;

/// Lines, and how often they stand.
type Part = (&'static str, usize);

/// Six lines before the sections.
const HEAD: Part = (
    "callout 1\ncpus 2\nfuncs 3\nlock 0 mtx\nlock 1 rw\ntimer 0 mpsafe\n",
    1,
);

/// An act of 26 bytes.
const RESET: &str = "reset 0 +0.01 f0 a7 cpu 1\n";

/// The text of these parts.
fn text_of<R: Abort>(rt: &R, alloc: Global, parts: &[Part]) -> Seq<u8> {
    let mut text = Seq::new(alloc);
    for (lines, times) in parts {
        for _ in 0..*times {
            text.extend_from_slice(lines.as_bytes())
                .expect(rt, "no memory");
        }
    }
    text
}

/// What is printed of a script that was read; nothing, and why none was read.
fn printed<R: Abort>(
    rt: &R,
    alloc: Global,
    read: Result<Script, ScriptFault>,
) -> (Seq<u8>, Option<ScriptFault>) {
    match read {
        Ok(script) => {
            let text = print_script(alloc, &script).expect(rt, "no memory");
            drop(script);
            (text, None)
        }
        Err(fault) => (Seq::new(alloc), Some(fault)),
    }
}

/// Whether threads read the text of these parts as one thread does, who finds this fault or none.
fn is_read_alike<R: Abort + Threads + Sync>(
    rt: &R,
    alloc: Global,
    parts: &[Part],
    fault: Option<ScriptFault>,
) -> bool {
    let text = text_of(rt, alloc, parts);
    let (wanted, why) = printed(rt, alloc, read_script(alloc, text.as_slice()));
    let (read, found) = printed(
        rt,
        alloc,
        read_script_by_threads(rt, alloc, text.as_slice()),
    );
    drop(text);
    let alike = read.as_slice() == wanted.as_slice() && found == fault && why == fault;
    drop(wanted);
    drop(read);
    alike
}

/// What a case shows, the parts of its text, and the line that is refused with its cause, where one is.
type Case = (&'static str, &'static [Part], Option<(u64, Cause)>);

const CASES: &[Case] = &[
    (
        "sections of each kind",
        &[
            HEAD,
            ("func 0\n", 1),
            (RESET, 4000),
            ("func 2\n", 1),
            (RESET, 4096),
            ("client 0\n", 1),
            ("stop 0\n", 20_000),
            ("client 1\n", 1),
            ("now 5\n", 12_000),
            ("now 6\n", 1),
            ("client 2\nclient 3\n", 1),
            ("now 1\n", 12_000),
            ("cpu 0\n", 1),
            ("tick 2\n", 10_000),
            ("cpu 1\n", 1),
            ("tick 1\n", 10_000),
            ("turns c0*5 c1\n", 1),
        ],
        None,
    ),
    (
        "blanks and comments",
        &[
            HEAD,
            ("client 0 # of many words\n", 1),
            ("# client 1\n", 5000),
            ("\n \t\r\n", 3),
            (" stop 0 # twice\n", 6000),
            (" \tclient 1\n", 1),
            ("now 3\n", 12_000),
        ],
        None,
    ),
    (
        "a bad line in the first section",
        &[
            HEAD,
            ("client 0\n", 1),
            ("stop 0\n", 10_000),
            ("stop 1\n", 1),
            ("stop 0\n", 10_000),
            ("client 1\n", 1),
            ("stop 2\n", 10_000),
        ],
        Some((10_008, Cause::Number)),
    ),
    (
        "a bad line in the middle",
        &[
            HEAD,
            ("client 0\n", 1),
            ("stop 0\n", 10_000),
            ("client 1\n", 1),
            ("stop 0\n", 10_000),
            ("now 5\nnow 4\n", 1),
            ("client 2\n", 1),
            ("stop 0\n", 10_000),
        ],
        Some((20_010, Cause::Falls)),
    ),
    (
        "a bad line in the last section",
        &[
            HEAD,
            ("cpu 0\n", 1),
            ("tick 1\n", 10_000),
            ("cpu 1\n", 1),
            ("tick 1\n", 10_000),
            ("stop 0\n", 1),
        ],
        Some((20_009, Cause::Order)),
    ),
    (
        "too many acts of a client",
        &[HEAD, ("client 0\n", 1), ("stop 0\n", 65_537)],
        Some((65_544, Cause::Many)),
    ),
    (
        "too many acts of a function",
        &[HEAD, ("func 0\n", 1), (RESET, 4097)],
        Some((4104, Cause::Many)),
    ),
    // 196608 and 60000 acts stand before the last client, whose 5537th is one too many.
    (
        "too many acts in all",
        &[
            HEAD,
            ("client 0\n", 1),
            ("stop 0\n", 65_536),
            ("client 1\n", 1),
            ("stop 0\n", 65_536),
            ("client 2\n", 1),
            ("stop 0\n", 65_536),
            ("client 3\n", 1),
            ("stop 0\n", 60_000),
            ("client 4\n", 1),
            ("stop 0\n", 10_000),
        ],
        Some((6 + 3 * 65_537 + 60_001 + 1 + 5537, Cause::Many)),
    ),
    (
        "sections in a wrong order",
        &[
            HEAD,
            ("cpu 0\n", 1),
            ("tick 1\n", 10_000),
            ("client 0\n", 1),
            ("stop 0\n", 10_000),
        ],
        Some((10_008, Cause::Order)),
    ),
    (
        "the frame behind a section",
        &[
            HEAD,
            ("client 0\n", 1),
            ("stop 0\n", 10_000),
            ("timer 1 mpsafe\n", 1),
            ("client 1\n", 1),
            ("stop 1\n", 10_000),
        ],
        Some((10_008, Cause::Order)),
    ),
    (
        "a line that is cut",
        &[HEAD, ("client 0\n", 1), ("stop 0\n", 10_000), ("stop 0", 1)],
        Some((10_008, Cause::Cut)),
    ),
    ("a frame alone", &[HEAD], None),
    (
        "no version",
        &[("client 0\n", 1), ("stop 0\n", 10_000)],
        Some((1, Cause::Version)),
    ),
];

/// A line that is refused.
fn bad(refused: Option<(u64, Cause)>) -> Option<ScriptFault> {
    let (line, cause) = refused?;
    Some(ScriptFault::Bad { line, cause })
}

#[test]
fn long_texts_are_read_alike(rt: HostRuntime) {
    for (name, parts, refused) in CASES {
        let alike = is_read_alike(&rt, rt.alloc(), parts, bad(*refused));
        is_right(&rt, name, alike);
    }
}
