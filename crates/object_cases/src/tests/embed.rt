//! Calls of `co_embed`, by what its C header and the manual page say of each.
mod directs;
mod drains;
mod errors;
mod flags;
mod limits;
mod lives;
mod moves;
mod replies;
mod rounds;
mod schedules;
mod stops;
mod tested;

use self::tested::{Row, play};

/// Lists of rows of one kind, for wheels of this CPU.
struct Group {
    name: &'static str,
    cpu: u32,
    lists: &'static [&'static [Row]],
}

static GROUPS: [Group; 10] = [
    Group {
        name: "rounds",
        cpu: 0,
        lists: rounds::LISTS,
    },
    Group {
        name: "schedules",
        cpu: 0,
        lists: schedules::LISTS,
    },
    Group {
        name: "stops",
        cpu: 0,
        lists: stops::LISTS,
    },
    Group {
        name: "drains",
        cpu: 0,
        lists: drains::LISTS,
    },
    Group {
        name: "flags",
        cpu: 0,
        lists: flags::LISTS,
    },
    Group {
        name: "errors",
        cpu: 0,
        lists: errors::LISTS,
    },
    Group {
        name: "directs",
        cpu: 0,
        lists: directs::LISTS,
    },
    Group {
        name: "lives",
        cpu: 0,
        lists: lives::LISTS,
    },
    Group {
        name: "leaving",
        cpu: 0,
        lists: moves::LEAVING,
    },
    Group {
        name: "landing",
        cpu: 1,
        lists: moves::LANDING,
    },
];

#[test]
fn calls_are_answered(rt: HostRuntime) {
    for group in &GROUPS {
        play(&rt, rt.alloc(), group.name, group.cpu, group.lists);
    }
}
