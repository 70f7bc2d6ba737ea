//! Worked texts and their answers, and texts that are refused.
use crate::tests::rows::Row;
use co_text::Cause;

pub(crate) const TEXTS: &[Row] = &[
    // An event waits for the end of a window.
    (
        "event 1\ntimers 3\narm 0 =1 pr 1\narm 1 =1.5 pr 2\narm 2 =3 pr 0\nuntil 5\n",
        Ok(
            "armed 0 u4294967296\narmed 0 u6442450944\narmed 0 u12884901888\nevent u8589934592 2\nfired 0\nfired 1\nevent u12884901888 1\nfired 2\nuntil u21474836480\n",
        ),
    ),
    // An arming in the past fires now.
    (
        "event 1\ntimers 1\nuntil 2\narm 0 =1 pr 0\nuntil 2\nstop 0\n",
        Ok(
            "until u8589934592\narmed 0 u8589934592\nevent u8589934592 1\nfired 0\nuntil u8589934592\nstopped -1\n",
        ),
    ),
    // No command has no answer.
    ("# none\nevent 1 # words\n\ntimers 1024\n", Ok("")),
    // Texts that are refused: first those whose third line is bad, then those of which the first lines are.
    ("event 1\ntimers 1\nuntil \x01", Err((3, Cause::Cut))),
    ("event 1\ntimers 1\ntimers \x01\n", Err((3, Cause::Byte))),
    ("event 1\ntimers 1\ntimers 1\n", Err((3, Cause::Form))),
    ("event 1\ntimers 1\nevent 1\n", Err((3, Cause::Form))),
    ("event 1\ntimers 1\narm 1 =1\n", Err((3, Cause::Form))),
    ("event 1\ntimers 1\narm 1 1 pr 1\n", Err((3, Cause::Form))),
    ("event 1\ntimers 1\nuntil 1 1\n", Err((3, Cause::Form))),
    (
        "event 1\ntimers 1\narm 1 =1 pr 1\n",
        Err((3, Cause::Number)),
    ),
    (
        "event 1\ntimers 1\nstop 4294967296\n",
        Err((3, Cause::Number)),
    ),
    ("", Err((0, Cause::Version))),
    ("event 01\n", Err((1, Cause::Version))),
    ("event 1\n", Err((0, Cause::Form))),
    ("event 1\nstop 0\n", Err((2, Cause::Form))),
    ("event 1\ntimers 0\n", Err((2, Cause::Number))),
    ("event 1\ntimers 1025\n", Err((2, Cause::Number))),
];
