//! A service's actors leave with their passes, and bring them back.
ghost use Rattle.std.specs.Prelude.{◌≡◌, ◌+◌, ◌<◌, ℕ, Bool, IfOk, false, length, true};
ghost use Rattle.co_object.specs.Actors.{cpu_actor, interrupt_actor};
ghost use Rattle.co_object.specs.Journal.{scanner};
ghost use Rattle.co_service.specs.Booted.{booted};
ghost use Rattle.co_service.specs.Closing.{AreAll};
ghost use Rattle.co_service.specs.Crew.{AreNew};
ghost use Rattle.co_desk.specs.Params.{actor_count, actors_of};
ghost use Rattle.co_desk.specs.Services.{IsFree};
ghost use Rattle.co_desk.specs.Serving.{lane_actor};
ghost use Rattle.co_desk.specs.Views.{AreOf};
ghost use Rattle.co_service.specs.Kept.{KeepsFree};

use crate::Service;
use crate::closing::room_for;
use co_desk::{Name, Passes};
use co_life::Shown;
use co_sbt::{NoMemory, Room, Seq};
use std::alloc::Global;
use std::marker::Model;

/// The most actors that a service may have: 16 clients, 16 CPUs and their interrupts.
const MOST: usize = 48;

/// The last of these actors leaves.
fn last<N: Name>(service: &Service<N>, all: &mut Vec<Passes>) -> Passes
    requires { 0 < length all.old.items }
    ensures { (n : ℕ) → AreNew N.name service.now (n + 1) all.old.items → (result ≡ booted N.name service.now n) × AreNew N.name service.now n all.new.items }
{
    let _ = service;
    all.pop().unwrap()
}

impl<N: Name> Service<N> {
    /// The passes of the last of these actors, whose number this is; a thread of its own may take them along.
    ///
    /// `all` begins as [`Service::boot`] gives it. The actor has seen nothing, so a CPU's actor, or its interrupt's, has
    /// nothing in service.
    pub fn leave(&self, all: &mut Vec<Passes>, actor: u32) -> Passes
        requires all { AreNew N.name self.now (actor + 1) all.old.items }
        ensures passes { result ≡ booted N.name self.now actor }
        ensures of { AreOf N.name self.now result }
        ensures actor { result.actor ≡ actor }
        ensures free { (direct : Bool) (cpu : ℕ) → actor ≡ lane_actor direct (actors_of self.now) cpu → IsFree direct result cpu }
        ensures rest { AreNew N.name self.now actor all.new.items }
    {
        last(self, all)
    }

    /// The passes of a CPU's actor, where it is the last of these actors: it may serve the CPU, and in version 1 scan it.
    pub fn leave_cpu(&self, all: &mut Vec<Passes>, cpu: u32) -> Passes
        requires cpu { cpu < self.now.cpus }
        requires all { AreNew N.name self.now (self.now.clients + cpu + 1) all.old.items }
        ensures kept { KeepsFree N.name self.now (cpu_actor (actors_of self.now) cpu) false cpu result }
        ensures scans { self.now.version ≡ 1 → result.actor ≡ scanner (actors_of self.now) cpu }
        ensures rest { AreNew N.name self.now (self.now.clients + cpu) all.new.items }
    {
        last(self, all)
    }

    /// The passes of a CPU's interrupt, where it is the last of these actors: it may scan the CPU, and serve its direct
    /// callouts.
    pub fn leave_interrupt(&self, all: &mut Vec<Passes>, cpu: u32) -> Passes
        requires cpu { cpu < self.now.cpus }
        requires version { self.now.version ≡ 2 }
        requires all { AreNew N.name self.now (self.now.clients + self.now.cpus + cpu + 1) all.old.items }
        ensures kept { KeepsFree N.name self.now (interrupt_actor (actors_of self.now) cpu) true cpu result }
        ensures scans { result.actor ≡ scanner (actors_of self.now) cpu }
        ensures rest { AreNew N.name self.now (self.now.clients + self.now.cpus + cpu) all.new.items }
    {
        last(self, all)
    }
}

/// The passes that a service's actors have brought back. There is room for those of all.
///
/// Contracts see the service's parameters, and how many actors are back.
#[derive(Drop)]
pub struct Crew<N: Name> {
    of: Shown<Service<N>>,
    back: Room<Passes>,
}

impl<N: Name> Model for Crew<N> {
    ghost use Rattle.std.specs.Prelude.{length};
    ghost use Rattle.co_service.specs.Crew.{CrewView, IsCrew};

    ghost Value = { CrewView };

    ghost view = { λ c. record { params = c.of.value; count = length c.back.items } };

    ghost invariant = { λ c. IsCrew N.name c.of.value c.back };
}

impl<N: Name> Crew<N> {
    /// Nobody is back yet. `NoMemory` where there is no room for the passes of 48 actors, the most that a service may
    /// have.
    pub fn new(alloc: Global, service: &Service<N>) -> Result<Crew<N>, NoMemory>
        ensures { IfOk result (λ crew. crew ≡ record { params = service.now; count = 0 }) }
    {
        Ok(Crew {
            of: Shown::of(service),
            back: room_for(alloc, MOST)?,
        })
    }

    /// An actor brings its passes back. It takes no memory.
    pub fn back(&mut self, passes: Passes)
        requires room { self.old.count < 48 }
        requires of { AreOf N.name self.old.params passes }
        ensures { self.new ≡ record self.old { count = self.old.count + 1 } }
    {
        self.back.push(passes);
    }

    /// All actors' passes, with which the service ends. It takes no memory.
    pub fn into_all(self) -> Seq<Passes>
        requires { self.count ≡ actor_count self.params }
        ensures { AreAll N.name self.params result }
    {
        self.back.into_seq()
    }
}
