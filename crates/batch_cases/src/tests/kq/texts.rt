//! Worked texts and their answers, and texts that are refused.
use crate::tests::rows::Row;
use co_text::Cause;

pub(crate) const TEXTS: &[Row] = &[
    // A timer counts its expirations.
    (
        "kq 1\nknotes 2\nadd 7 1500 ms\ntick 1\ntick 1.5\ntick 9\nevents 4\nevents 4\n",
        Ok("added\nticked 0\nticked 1\nticked 1\nevents 1\n7 2\nevents 0\n"),
    ),
    // A oneshot timer and a full list.
    (
        "kq 1\nknotes 1\nadd 1 1 s oneshot\nadd 2 1 s\nadd 2 0 s\ntick 5\nadd 1 2 s\ndelete 1\ndelete 1\n",
        Ok("added\nfull\nvalue\nticked 1\nadded\ndeleted 0\nnoentry\n"),
    ),
    // Events have an order and a room. By rising ident, as many as are asked for.
    (
        "kq 1\nknotes 3\nadd 9 1 s\nadd 2 1000 ms\nadd 5 1 s oneshot\ntick 1\nevents 0\nevents 2\nevents 2\nadd 5 1 ns\n",
        Ok("added\nadded\nadded\nticked 3\nevents 0\nevents 2\n2 1\n5 1\nevents 1\n9 1\nadded\n"),
    ),
    // A timer that is added again begins anew. What it had counted is thrown away, and its time counts from now.
    (
        "kq 1\nknotes 1\nadd 1 1 s\ntick 1\nadd 1 3 s\nevents 1\ntick 3\ntick 4\nevents 1\n",
        Ok("added\nticked 1\nadded\nevents 0\nticked 0\nticked 1\nevents 1\n1 1\n"),
    ),
    // A deleted timer fires no more. Its callout is armed yet: it goes to the next timer, or is stopped before a tick.
    (
        "kq 1\nknotes 1\nadd 1 1 s\ndelete 1\nadd 2 2 s\ntick 1\ntick 2\ndelete 2\ntick 9\nevents 4\n",
        Ok("added\ndeleted 0\nadded\nticked 0\nticked 1\ndeleted 1\nticked 0\nevents 0\n"),
    ),
    // No command has no answer.
    ("# none\nkq 1 # words\n\nknotes 1024\n", Ok("")),
    // A timer in the place of a deleted one counts alone: the deleted one's callout is due with the new one's, which alone counts.
    (
        "kq 1\nknotes 2\nadd 1 1 s\ndelete 1\nadd 2 1 s\ntick 1\nevents 4\nadd 1 1 s\ntick 2\n",
        Ok("added\ndeleted 0\nadded\nticked 1\nevents 1\n2 1\nadded\nticked 2\n"),
    ),
    // A value has its ends. A span is less than 2^31 seconds, and at least a unit of 2^-32 seconds.
    (
        "kq 1\nknotes 1\nadd 1 2147483648 s\nadd 1 18446744073709551615 ns\nadd 1 2147483647 s\nadd 18446744073709551615 1 ns\ndelete 1\nadd 18446744073709551615 1 ns\n",
        Ok("value\nvalue\nadded\nfull\ndeleted 0\nadded\n"),
    ),
    // Texts that are refused: first those whose third line is bad, in the order of the causes, then those of which the first lines or the clock are.
    ("kq 1\nknotes 2\ntick \x01", Err((3, Cause::Cut))),
    ("kq 1\nknotes 2\ndelete \x01\n", Err((3, Cause::Byte))),
    ("kq 1\nknotes 2\nadd 1 1\n", Err((3, Cause::Form))),
    ("kq 1\nknotes 2\nadd 1 1 h\n", Err((3, Cause::Form))),
    ("kq 1\nknotes 2\nadd 1 1 s twice\n", Err((3, Cause::Form))),
    ("kq 1\nknotes 2\nremove 1\n", Err((3, Cause::Form))),
    (
        "kq 1\nknotes 2\nadd 18446744073709551616 1 s\n",
        Err((3, Cause::Number)),
    ),
    (
        "kq 1\nknotes 2\nadd 1 18446744073709551616 s\n",
        Err((3, Cause::Number)),
    ),
    (
        "kq 1\nknotes 2\ndelete 18446744073709551616\n",
        Err((3, Cause::Number)),
    ),
    ("kq 1\nknotes 2\nevents 1025\n", Err((3, Cause::Number))),
    ("", Err((0, Cause::Version))),
    ("kq 2\n", Err((1, Cause::Version))),
    ("kq 1\n", Err((0, Cause::Form))),
    ("kq 1\nknotes 0\n", Err((2, Cause::Number))),
    ("kq 1\nknotes 1025\n", Err((2, Cause::Number))),
    ("kq 1\nknotes 1\ntick 2\ntick 1\n", Err((4, Cause::Falls))),
];
