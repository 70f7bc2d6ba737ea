//! The names of the worked scripts.

/// Those of data/cases: one CPU without locks, services and moves, version 2, a drain that waits, and the beginnings of a script that are
/// scripts, by what they show. Then the examples, by the order in which the README and docs/RACES.md tell of them.
pub const WORKED: &[&str] = &[
    "cases/empty",
    "cases/one-firing",
    "cases/a-tick-that-is-early",
    "cases/one-unit-early",
    "cases/replaced",
    "cases/ticks-that-are-not-positive",
    "cases/in-the-past",
    "cases/the-largest-time",
    "cases/order-in-a-bucket",
    "cases/more-than-one-turn-of-the-wheel",
    "cases/the-codes-of-stop",
    "cases/schedule-without-a-handler",
    "cases/cancelled-while-it-waits",
    "cases/stop-during-service",
    "cases/deferred-move",
    "cases/deferred-move-that-is-stopped",
    "cases/in-transit",
    "cases/drain-against-reset",
    "cases/asynchronous-drain",
    "cases/return-unlocked",
    "cases/a-shared-lock",
    "cases/holding-and-not-holding",
    "cases/drain-behind-a-cancelled-call",
    "cases/both-lanes",
    "cases/soft-before-its-tick",
    "cases/retire-during-service",
    "cases/init-and-retire-at-rest",
    "cases/a-drain-waits-for-a-service-on-another-CPU",
    "cases/beginning-to-the-timer",
    "cases/beginning-to-the-client",
    "cases/beginning-to-the-lock",
    "cases/beginning-to-the-reset",
    "cases/beginning-to-the-stop",
    "cases/beginning-to-the-CPU",
    "cases/beginning-to-the-tick",
    "examples/first-firing",
    "examples/drain",
    "examples/race-return-value",
    "examples/race-flags",
    "examples/race-lock",
    "examples/teardown-drain",
    "examples/teardown-lock",
    "examples/teardown-async",
    "examples/periodic-stop",
    "examples/move-in-service",
    "examples/direct-execution",
    "examples/return-unlocked",
    "examples/shared-lock",
];

/// A report that is changed, by its name and that of the table of changes.
pub struct Broken {
    pub report: &'static str,
    pub table: &'static str,
    /// How many changes the table has.
    pub changes: u64,
    /// The line that names the table with them.
    pub line: &'static str,
}

/// The worked scripts whose reports are changed.
pub const BROKEN: &[Broken] = &[
    Broken {
        report: "cases/one-firing",
        table: "broken/one-firing",
        changes: 144,
        line: "broken/one-firing 144",
    },
    Broken {
        report: "cases/a-drain-waits-for-a-service-on-another-CPU",
        table: "broken/a-drain-waits-for-a-service-on-another-CPU",
        changes: 33,
        line: "broken/a-drain-waits-for-a-service-on-another-CPU 33",
    },
];
