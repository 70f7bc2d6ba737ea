//! Worked texts and their answers, and texts that are refused.
use crate::tests::rows::Row;
use co_text::Cause;

pub(crate) const TEXTS: &[Row] = &[
    // A sleeper is woken before its time is up, and its timer comes late.
    (
        "sleep 1\nsleepers 2\nsleep 0 7 1000\nsleep 1 7 0\nwakeup1 7\ntick 1\nawake 0\nawake 1\nwakeup 7\nawake 1\n",
        Ok("began 0\nbegan 1\none 0\nticked 0 1\nwoken\nasleep\nwoke 1\nwoken\n"),
    ),
    // A sleeper sleeps again, and times out at its very time.
    (
        "sleep 1\nsleepers 1\nawake 0\nwakeup1 7\nsleep 0 7 1\nsleep 0 8 0\nwakeup 7\nawake 0\nsleep 0 7 0\ntick 1\nawake 0\nwakeup 7\nsleep 0 9 1\ntick 1.001\nawake 0\n",
        Ok(
            "never\nnobody\nbegan 0\nalready\nwoke 1\nwoken\nbegan 1\nticked 0 0\nasleep\nwoke 1\nbegan 2\nticked 1 0\ntimedout\n",
        ),
    ),
    // A wakeup leaves the other channels of its bucket: 1 and 256 share one.
    (
        "sleep 1\nsleepers 4\nsleep 3 1 0\nsleep 0 256 0\nsleep 1 1 5\nsleep 2 256 5\nwakeup1 256\nwakeup 1\nawake 2\ntick 1\nawake 2\nwakeup 256\n",
        Ok(
            "began 0\nbegan 1\nbegan 2\nbegan 3\none 0\nwoke 2\nasleep\nticked 1 1\ntimedout\nwoke 0\n",
        ),
    ),
    // Texts that are refused.
    ("sleep 1\n", Err((0, Cause::Form))),
    ("sleep 1\nsleepers 1025\n", Err((2, Cause::Number))),
    ("sleep 1\nsleepers 1\nsleep 1\n", Err((3, Cause::Form))),
    (
        "sleep 1\nsleepers 1\nsleep 1 7 0\n",
        Err((3, Cause::Number)),
    ),
    (
        "sleep 1\nsleepers 1\nsleep 0 18446744073709551616 0\n",
        Err((3, Cause::Number)),
    ),
    (
        "sleep 1\nsleepers 1\nsleep 0 7 2147483648\n",
        Err((3, Cause::Number)),
    ),
    (
        "sleep 1\nsleepers 1\ntick 2\ntick 1\n",
        Err((4, Cause::Falls)),
    ),
];
