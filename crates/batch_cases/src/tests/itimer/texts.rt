//! Worked texts and their answers, and texts that are refused.
use crate::tests::rows::Row;
use co_text::Cause;

pub(crate) const TEXTS: &[Row] = &[
    // A timer follows its interval.
    (
        "itimer 1\nprocesses 1\nset 0 1 2\ntick 0.5\nget 0\ntick 6\nget 0\nalarm 0\nalarm 0\nset 0 0 5\nget 0\n",
        Ok(
            "was u0 u0\nticked 0\nis u2147483648 u8589934592\nticked 1\nis u4294967296 u8589934592\nalarm 1\nalarm 0\nwas u4294967296 u8589934592\nis u0 u0\n",
        ),
    ),
    // A timer without an interval expires once.
    (
        "itimer 1\nprocesses 1\nset 0 1 0\ntick 1\ntick 2\n",
        Ok("was u0 u0\nticked 1\nticked 0\n"),
    ),
    // A late tick does not drift: due at 1 and each second from there, what a tick at 3.75 finds late is due at 4 next, not at 4.75.
    (
        "itimer 1\nprocesses 2\nset 1 1 1\ntick 3.75\nget 1\ntick 3.75\ntick 4\nget 1\nalarm 0\nalarm 1\n",
        Ok(
            "was u0 u0\nticked 1\nis u1073741824 u4294967296\nticked 0\nticked 1\nis u4294967296 u4294967296\nalarm 0\nalarm 1\n",
        ),
    ),
    // No command has no answer.
    ("# none\nitimer 1 # words\n\nprocesses 1024\n", Ok("")),
    // Texts that are refused: first those whose third line is bad, in the order of the causes, then those of which the first lines or the clock are.
    ("itimer 1\nprocesses 2\ntick \x01", Err((3, Cause::Cut))),
    ("itimer 1\nprocesses 2\nget \x01\n", Err((3, Cause::Byte))),
    ("itimer 1\nprocesses 2\nset 0 1\n", Err((3, Cause::Form))),
    (
        "itimer 1\nprocesses 2\nset 2 1 1 1\n",
        Err((3, Cause::Form)),
    ),
    ("itimer 1\nprocesses 2\nclear 0\n", Err((3, Cause::Form))),
    (
        "itimer 1\nprocesses 2\nset 2 1 1\n",
        Err((3, Cause::Number)),
    ),
    ("itimer 1\nprocesses 2\nget 2\n", Err((3, Cause::Number))),
    (
        "itimer 1\nprocesses 2\nalarm 4294967296\n",
        Err((3, Cause::Number)),
    ),
    ("", Err((0, Cause::Version))),
    ("itimer 2\n", Err((1, Cause::Version))),
    ("itimer 1\n", Err((0, Cause::Form))),
    ("itimer 1\nprocesses 0\n", Err((2, Cause::Number))),
    ("itimer 1\nprocesses 1025\n", Err((2, Cause::Number))),
    (
        "itimer 1\nprocesses 1\ntick 2\ntick 1\n",
        Err((4, Cause::Falls)),
    ),
];
