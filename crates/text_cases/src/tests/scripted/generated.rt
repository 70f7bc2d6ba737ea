//! The first seed's numbers and script.

use crate::tests::is_text;
use co_gen::{Counts, Draws, gen_script, print_soak};
use co_program::{Act, Script};
use co_sbt::Sbt;
use co_script::fits;

#[test]
fn first_draw(rt: HostRuntime) {
    assert!(rt; Draws::new(1).draw() == 908_834_774);
}

/// Whether there are eight clients, and what the first two acts of the first are.
fn has_eight_clients(script: &Script) -> bool {
    let clients = script.clients.as_slice();
    if clients.len() != 8 {
        return false;
    }
    let acts = clients[0].as_slice();
    acts.len() >= 2 && acts[0] == Act::Now(Sbt::zero()) && acts[1] == Act::Drain(22)
}

#[test]
fn first_script(rt: HostRuntime) {
    let script = gen_script(rt.alloc(), 1).expect(&rt, "no memory");
    let has_all = script.timers.as_slice().len() == 64;
    let is_first = fits(&script) && has_all && has_eight_clients(&script);
    drop(script);
    assert!(rt; is_first);
}

const COUNTS: Counts = Counts {
    notes: 33295,
    armed: 4447,
    fired: 1324,
    superseded: 1761,
    stopped: 1357,
    pending: 5,
};

#[test]
fn line_of_the_first_seed(rt: HostRuntime) {
    let wanted =
        "soak 1 notes 33295 armed 4447 fired 1324 superseded 1761 stopped 1357 pending 5\n";
    let line = print_soak(rt.alloc(), 1, &COUNTS).expect(&rt, "no memory");
    is_text(&rt, line, wanted.as_bytes());
}
