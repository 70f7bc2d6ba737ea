//! The port through which a function makes calls on a running service.
ghost use Rattle.std.specs.Prelude.{◌≡◌, ◌<◌, ◌↔◌, IfOk, length, false};
ghost use Rattle.co_object.specs.declared.CallOp.TheVariants.{Plain};
ghost use Rattle.co_lock.specs.Covers.{covers};
ghost use Rattle.std.specs.Option.{option_copied};
ghost use Rattle.co_service.specs.Kept.{Keeps};
ghost use Rattle.co_desk.specs.Params.{spec_at};
ghost use Rattle.co_desk.specs.Views.{AreOf};
ghost use Rattle.co_hand.specs.Ports.{NamesCpuBelow};
ghost use Rattle.co_run.specs.PortCalls.{CameTo};

use co_hand::{Gate, Port, PortCall, PortReply};
use co_life::Shown;
use co_lock::{Hold, covers};
use co_object::{CallOp, Next, PlainOp, Reply, Spec};
use co_sbt::{NoMemory, Room, Seq};
use co_service::{Name, Passes, Service};
use std::alloc::Global;
use std::marker::Model;
use std::sync::Wait;

/// With what a port was made.
#[derive(Drop)]
pub struct PortOrigin {
    /// The actor that makes the calls.
    pub actor: u32,
    /// The number of the act that comes first.
    pub act: u64,
    /// What the actor had seen of the service, for contracts alone.
    pub passes: Shown<Passes>,
}

/// A port over a running service, for the functions that an actor of an embedding program runs. Each call goes through the
/// gate first, and has an act's number of its own.
///
/// It has the actor's passes while the function runs. Contracts see the parameters of its service, with what it was made, its
/// calls and the room for more.
#[derive(Drop)]
pub struct ServicePort<'a, N: Name, G: Gate, R: Wait> {
    rt: &'a R,
    gate: &'a G,
    service: &'a Service<N>,
    specs: &'a [Spec],
    passes: Passes,
    origin: PortOrigin,
    act: u64,
    calls: Room<PortCall>,
    room: u32,
}

impl<'a, N: Name, G: Gate, R: Wait> Model for ServicePort<'a, N, G, R> {
    ghost use Rattle.co_run.specs.Ports.{IsServicePort, ServicePortView};

    ghost Value = { ServicePortView };

    ghost view = { λ p. record { service = p.service.now; origin = p.origin; calls = p.calls.items; room = p.room } };

    ghost invariant = { λ p. IsServicePort N.name p.service.now p.specs.now p.origin p.calls.items (record { passes = p.passes; act = p.act }) p.room p.calls.spare };
}

impl<'a, N: Name, G: Gate, R: Wait> ServicePort<'a, N, G, R> {
    ghost use Rattle.co_run.specs.Ports.{HaveMade, IsNewPort};

    /// A port with room for `room` calls, the first of which has the number `act`. `specs` are those of the service's
    /// callouts. `NoMemory` where there is no room for the calls.
    pub fn new(
        rt: &'a R,
        alloc: Global,
        gate: &'a G,
        service: &'a Service<N>,
        specs: &'a [Spec],
        passes: Passes,
        act: u64,
        room: u32,
    ) -> Result<ServicePort<'a, N, G, R>, NoMemory>
        requires specs { specs.now ≡ service.now.specs }
        requires passes { AreOf N.name service.now passes }
        ensures { IfOk result (IsNewPort service.now passes act room) }
    {
        let mut calls = Room::from_seq(Seq::new(alloc));
        if let Err(refused) = calls.reserve(room as usize) {
            drop(passes);
            return Err(refused);
        }
        let origin = PortOrigin {
            actor: passes.actor(),
            act,
            passes: Shown::of(&passes),
        };
        Ok(ServicePort {
            rt,
            gate,
            service,
            specs,
            passes,
            origin,
            act,
            calls,
            room,
        })
    }

    /// The actor's passes after the calls, and the calls with their answers. The service has made each of them that the
    /// hold covered, in their order, and answered it so.
    pub fn into_parts(self) -> (Passes, Seq<PortCall>)
        ensures passes { AreOf N.name self.entry.service result.0 }
        ensures calls { result.1 ≡ self.entry.calls }
        ensures made { HaveMade N.name self.entry.origin self.entry.calls result.0 }
    {
        (self.passes, self.calls.into_seq())
    }
}

/// What the service answers to a call under this hold.
#[tactic(auto, using(crate::proofs::PortCalls::keeps_same))]
fn ask<N: Name, R: Wait>(
    rt: &R,
    service: &Service<N>,
    spec: &Spec,
    passes: &mut Passes,
    act: u64,
    i: u32,
    op: &PlainOp,
    hold: Option<&Hold<'_>>,
) -> PortReply
    requires of { AreOf N.name service.now passes.old }
    requires callout { i < length service.now.specs }
    requires spec { spec.now ≡ spec_at service.now i }
    requires cpu { NamesCpuBelow service.now.cpus op.now }
    ensures kept { Keeps N.name service.now passes.old passes.new }
    ensures came { CameTo passes.old act (option_copied hold.entry) i op.now result passes.new }
    ensures answer { (result ≡ PortReply.NotHeld) ↔ (covers (option_copied hold.entry) spec.now (Plain op.now) ≡ false) }
{
    let asked = CallOp::Plain(*op);
    let held = hold.map(Hold::held);
    if !covers(held, spec, &asked) {
        return PortReply::NotHeld;
    }
    let made = service.call(rt, passes, act, i, &asked, hold);
    PortReply::Reply(made.reply)
}

/// The call of which this is the answer.
fn call_of(i: u32, op: &PlainOp, answer: &PortReply) -> PortCall
    ensures { result ≡ record { i = i; op = op.now; answer = answer.now } }
{
    PortCall {
        i,
        op: *op,
        answer: *answer,
    }
}

impl<'a, N: Name, G: Gate, R: Wait> Port for ServicePort<'a, N, G, R> {
    type Origin = PortOrigin;

    ghost state = { λ p. record { specs = p.service.specs; cpus = p.service.cpus; origin = p.origin; made = p.calls; room = p.room } };

    fn call(&mut self, i: u32, op: &PlainOp, hold: Option<&Hold<'_>>) -> PortReply {
        let _next: Option<Next> = None;
        let _reply: Option<Reply> = None;
        self.gate.at(self.origin.actor, self.act);
        let specs = self.specs;
        let passes = &mut self.passes;
        let answer = ask(
            self.rt,
            self.service,
            &specs[i as usize],
            passes,
            self.act,
            i,
            op,
            hold,
        );
        let call = call_of(i, op, &answer);
        self.act = self.act.saturating_add(1);
        self.room -= 1;
        self.calls.push(call);
        answer
    }
}
