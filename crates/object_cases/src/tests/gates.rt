//! Gates through which two actors go.

use co_hand::{Gate, OpenGate};
use std::sync::{Barrier, Wait};
use std::thread::{Threads, join};

/// A gate at which each of two actors waits for the other.
#[derive(Drop)]
struct MeetingGate<'a, R: Wait> {
    rt: &'a R,
    met: &'a Barrier,
}

impl<'a, R: Wait> Gate for MeetingGate<'a, R> {
    fn at(&self, _actor: u32, _act: u64) {
        self.met.wait(self.rt);
    }
}

/// Takes an actor through the gate so often.
fn pass<G: Gate>(gate: &G, actor: u32, acts: u64) {
    for act in 0..acts {
        gate.at(actor, act);
    }
}

/// Two actors in threads of their own, which go through the gate together.
fn pass_both<R: Threads + Wait + Sync>(rt: &R, met: &Barrier) {
    join(
        rt,
        || { pass(&MeetingGate { rt, met }, 0, 3) },
        || { pass(&MeetingGate { rt, met }, 1, 3) },
    );
}

#[test]
fn a_gate_may_wait(rt: HostRuntime) {
    pass(&OpenGate {}, 0, 3);
    pass_both(&rt, &Barrier::new(2));
}
