//! Ports over callouts alone.
ghost use Rattle.std.specs.Prelude.{◌≡◌, ◌↔◌, ◌≤◌, ◌<◌, map, length, false};
ghost use Rattle.co_object.specs.declared.CallOp.TheVariants.{Plain};
ghost use Rattle.co_lock.specs.Covers.{covers};

use co_hand::{Port, PortCall, PortReply};
use co_lock::{Held, Hold, covers};
use co_object::{Alone, CallOp, Next, Op, PlainOp, Reply};
use co_sbt::{Room, Seq};
use std::alloc::Global;
use std::process::Abort;

/// Answers from callouts that it borrows, and stores its calls. It was made with a number.
#[derive(Drop)]
pub struct AlonePort<'a> {
    callouts: &'a mut [Alone],
    cpus: u32,
    number: u64,
    calls: Room<PortCall>,
    room: u32,
    ghost roomy: { room ≤ calls.spare },
}

impl<'a> AlonePort<'a> {
    /// A port over one CPU, for so many calls. There is memory for them.
    pub fn new<R: Abort>(
        rt: &R,
        alloc: Global,
        callouts: &'a mut [Alone],
        number: u64,
        room: u32,
    ) -> AlonePort<'a>
        ensures { (length result.callouts.now ≡ length callouts.old) × (result.cpus ≡ 1) × (result.room ≡ room) }
    {
        let mut calls = Room::from_seq(Seq::new(alloc));
        calls.reserve(room as usize).expect(rt, "no memory");
        AlonePort {
            callouts,
            cpus: 1,
            number,
            calls,
            room,
        }
    }

    /// The calls that were made.
    pub fn into_calls(self) -> Seq<PortCall> {
        let AlonePort { calls, .. } = self;
        calls.into_seq()
    }
}

impl<'a> Port for AlonePort<'a> {
    ghost use Rattle.std.specs.Prelude.{map};

    type Origin = u64;

    ghost state = { λ p. record { specs = map (λ callout. callout.spec) p.callouts.now; cpus = p.cpus; origin = p.number; made = p.calls.items; room = p.room } };

    fn call(&mut self, i: u32, op: &PlainOp, hold: Option<&Hold<'_>>) -> PortReply {
        // The check wants each type that lies deep in a stored call named where it is stored.
        let _next: Option<Next> = None;
        let _reply: Option<Reply> = None;
        let held = hold.map(Hold::held);
        let callouts = &mut *self.callouts;
        let answer = answer_of(&mut callouts[i as usize], op, held);
        let call = call_of(i, op, &answer);
        self.room -= 1;
        self.calls.push(call);
        answer
    }
}

/// The call of which this is the answer.
fn call_of(i: u32, op: &PlainOp, answer: &PortReply) -> PortCall
    ensures { result ≡ record { i = i; op = op.now; answer = answer.now } }
{
    PortCall {
        i,
        op: *op,
        answer: *answer,
    }
}

/// What the callout answers under this hold.
fn answer_of(callout: &mut Alone, op: &PlainOp, held: Option<Held>) -> PortReply
    ensures spec { callout.new.spec ≡ callout.old.spec }
    ensures answer { (result ≡ PortReply.NotHeld) ↔ (covers held callout.old.spec (Plain op.now) ≡ false) }
{
    let op = CallOp::Plain(*op);
    if !covers(held, &callout.spec, &op) {
        return PortReply::NotHeld;
    }
    match callout.step(&Op::Call(op)) {
        Some(reply) => PortReply::Reply(reply),
        None => unreachable!(),
    }
}
