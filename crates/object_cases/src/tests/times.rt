//! Times and their spelling in decimals.

use co_sbt::{Sbt, read_seconds};

/// Ticks at a rate, and the time of so many.
static TICKS: [(i32, u32, u64); 3] = [(1, 1000000, 4294), (0, 1000, 4294967), (-5, 1000, 4294967)];

#[test]
fn counts_ticks(rt: HostRuntime) {
    for (ticks, hz, raw) in &TICKS {
        assert!(rt;
            Some(Sbt::from_ticks(*ticks, *hz)) == Sbt::new(*raw),
            "{raw}"
        );
    }
}

/// Texts, and the number of the time that each is read as, if it is one. 2^63 is no time.
const SECONDS: &[(&str, u64)] = &[
    ("0.000000001", 4),
    ("2147483647.999999999", 9223372036854775803),
    ("2147483648", 9223372036854775808),
    ("1.", 9223372036854775808),
    (".5", 9223372036854775808),
    ("", 9223372036854775808),
];

#[test]
fn reads_seconds(rt: HostRuntime) {
    for (text, raw) in SECONDS {
        assert!(rt; read_seconds(text.as_bytes()) == Sbt::new(*raw), "{text}");
    }
}

#[test]
fn has_a_last_time(rt: HostRuntime) {
    let last = Sbt::new(9223372036854775807).expect(&rt, "2^63 - 1 is a time");
    assert!(rt; last.sat_add(last) == last && Sbt::new(9223372036854775808).is_none());
}
