//! The posts of a service: its actors leave with handles, and bring them back.
ghost use Rattle.std.specs.Prelude.{◌≡◌, [], IfOk, IfSome, false, is_some, map, replicate, slice_index_or, slice_set, true, ◌==◌, length};
ghost use Rattle.std.specs.List.{All};
ghost use Rattle.std.specs.declared.option.Option.TheVariants.{Some};
ghost use Rattle.co_service.specs.Booted.{AreBooted, booted};
ghost use Rattle.co_service.specs.Fresh.{AreNamed};
ghost use Rattle.co_object.specs.Actors.{cpu_actor, interrupt_actor};
ghost use Rattle.co_desk.specs.Params.{actor_count, actors_of};
ghost use Rattle.co_desk.specs.Views.{AreOf};
ghost use Rattle.co_timers.specs.Handles.{IsHandle};
ghost use Rattle.co_timers.specs.Posts.{back_with, both_leave, is_client, is_cpu, is_interrupt, is_posted, is_whole, actor_leaves};
ghost use Rattle.co_timers.specs.Turns.{first_cpu};

use crate::{Client, Cpu, Timers};
use co_life::Shown;
use co_sbt::{NoMemory, Room, Seq};
use co_service::{Name, Params, Passes};
use std::alloc::Global;
use std::marker::{Model, PhantomData};

/// The posts of a service: those of the clients, and those of the CPUs. Who takes a post leaves with a handle.
///
/// Contracts see the service's parameters, who is still here, and the passes that were brought back.
#[derive(Drop)]
pub struct Posts<N: Name> {
    params: Shown<Params>,
    /// By actor: its passes, until it leaves.
    seats: Vec<Option<Passes>>,
    back: Room<Passes>,
    of: PhantomData<N>,
}

impl<N: Name> Model for Posts<N> {
    ghost use Rattle.std.specs.Prelude.{is_some, map};
    ghost use Rattle.co_timers.specs.Posts.{PostsView, ArePosts};

    ghost Value = { PostsView };

    ghost view = { λ p. record { params = p.params.value; here = map is_some p.seats.items; back = p.back.items } };

    ghost invariant = { λ p. ArePosts N.name p.params.value p.seats.items p.back };
}

/// The passes of all actors, each in its seat: all are here. `NoMemory` where there is no room for the seats.
fn seated(alloc: Global, passes: Seq<Passes>) -> Result<Vec<Option<Passes>>, NoMemory>
    ensures { IfOk result (λ seats. seats.items ≡ map Some passes) }
{
    let mut seats = Seq::new(alloc);
    for one in passes.into_vec() {
        seats.push(Some(one))?;
    }
    Ok(seats.into_vec())
}

impl<N: Name> Posts<N> {
    /// The passes of an actor, if it is here.
    fn leave(&mut self, actor: u32) -> Option<Passes>
        ensures here { is_some result ≡ slice_index_or self.old.here actor false }
        ensures some { IfSome result (λ passes. passes ≡ booted N.name self.old.params actor) }
        ensures handle { IfSome result (IsHandle N.name self.old.params) }
        ensures stays { self.new ≡ record self.old { here = slice_set self.old.here actor false } }
    {
        if actor as usize >= self.seats.len() {
            return None;
        }
        self.seats[actor as usize].take()
    }

    /// Client `k` leaves with its handle. `None` where there is no such client, or it has left already.
    pub fn client<'a>(&mut self, timers: &'a Timers<N>, k: u32) -> Option<Client<'a, N>>
        requires { timers.now.params ≡ self.old.params }
        ensures here { is_some result ≡ is_client self.old k }
        ensures some { IfSome result (λ client. client ≡ record { passes = booted N.name self.old.params k; act = 0 }) }
        ensures stays { self.new ≡ actor_leaves self.old k (is_client self.old k) }
    {
        if k >= timers.params.clients {
            return None;
        }
        let passes = self.leave(k)?;
        Some(Client::new(timers, passes))
    }

    /// A client brings its handle back.
    pub fn client_back(&mut self, client: Client<'_, N>)
        requires { client.passes.params ≡ self.old.params }
        ensures { self.new ≡ back_with self.old client.entry.passes }
    {
        self.bring(client.passes);
    }

    /// CPU `k` leaves with its passes, for whoever serves it through the service. `None` where there is no such CPU, or it has left
    /// already.
    pub fn cpu(&mut self, timers: &Timers<N>, k: u32) -> Option<Passes>
        requires { timers.now.params ≡ self.old.params }
        ensures here { is_some result ≡ is_cpu self.old k }
        ensures some { IfSome result (λ passes. passes ≡ booted N.name self.old.params (cpu_actor (actors_of self.old.params) k)) }
        ensures stays { self.new ≡ actor_leaves self.old (cpu_actor (actors_of self.old.params) k) (is_cpu self.old k) }
    {
        if k >= timers.params.cpus {
            return None;
        }
        self.leave(timers.params.clients + k)
    }

    /// CPU `k`'s interrupt leaves with its passes, for whoever scans the CPU and serves its direct callouts through
    /// the service. `None` where there is no such CPU, or its interrupt has left already.
    pub fn interrupt(&mut self, timers: &Timers<N>, k: u32) -> Option<Passes>
        requires { timers.now.params ≡ self.old.params }
        ensures here { is_some result ≡ is_interrupt self.old k }
        ensures some { IfSome result (λ passes. passes ≡ booted N.name self.old.params (interrupt_actor (actors_of self.old.params) k)) }
        ensures stays { self.new ≡ actor_leaves self.old (interrupt_actor (actors_of self.old.params) k) (is_interrupt self.old k) }
    {
        if k >= timers.params.cpus {
            return None;
        }
        self.leave(timers.params.clients + timers.params.cpus + k)
    }

    /// Whether this actor is here.
    fn is_here(&self, actor: u32) -> bool
        ensures { result ≡ is_posted self.now actor }
    {
        match self.seats.get(actor as usize) {
            Some(seat) => seat.is_some(),
            None => false,
        }
    }

    /// Whether CPU `k` exists and both its actors are here.
    fn is_whole(&self, timers: &Timers<N>, k: u32) -> bool
        requires { timers.now.params ≡ self.now.params }
        ensures { result ≡ is_whole self.now k }
    {
        if k >= timers.params.cpus {
            return false;
        }
        let own = timers.params.clients + k;
        let interrupt = timers.params.clients + timers.params.cpus + k;
        self.is_here(own) && self.is_here(interrupt)
    }

    /// CPU `k` leaves with its handle, which has both its actors. `None` where there is no such CPU, or one of its actors has left already;
    /// then nobody leaves.
    pub fn cpu_handle<'a>(&mut self, timers: &'a Timers<N>, k: u32) -> Option<Cpu<'a, N>>
        requires { timers.now.params ≡ self.old.params }
        ensures here { is_some result ≡ is_whole self.old k }
        ensures some { IfSome result (λ cpu. cpu ≡ first_cpu N.name self.old.params k) }
        ensures stays { self.new ≡ both_leave self.old k (is_whole self.old k) }
    {
        if !self.is_whole(timers, k) {
            return None;
        }
        let Some(others) = self.leave(timers.params.clients + k) else {
            unreachable!()
        };
        let Some(direct) = self.leave(timers.params.clients + timers.params.cpus + k) else {
            unreachable!()
        };
        Some(Cpu::new(timers, k, direct, others))
    }

    /// A CPU brings its handle back.
    pub fn cpu_back(&mut self, cpu: Cpu<'_, N>)
        requires { cpu.others.passes.params ≡ self.old.params }
        ensures { self.new ≡ back_with (back_with self.old cpu.entry.direct.passes) cpu.entry.others.passes }
    {
        let Some(lanes) = cpu.lanes else {
            unreachable!()
        };
        self.bring(lanes.direct.passes);
        self.bring(lanes.others.passes);
    }

    /// Whether all actors are back.
    pub fn all_back(&self) -> bool
        ensures { result ≡ (length self.now.back == actor_count self.now.params) }
    {
        self.back.len() == self.seats.len()
    }

    /// An actor's passes are back. Those that were more than there are actors would be let go.
    pub fn bring(&mut self, passes: Passes)
        requires { AreOf N.name self.old.params passes }
        ensures { self.new ≡ back_with self.old passes }
    {
        if self.back.len() < self.seats.len() {
            self.back.push(passes);
        } else {
            drop(passes);
        }
    }

    /// The passes that are back.
    pub(crate) fn into_back(self) -> Seq<Passes>
        ensures back { result ≡ self.back }
        ensures of { All (AreOf N.name self.params) result }
    {
        self.back.into_seq()
    }
}

/// The posts of a service that is opened: all are here.
pub(crate) fn open_posts<N: Name>(
    alloc: Global,
    params: &Params,
    passes: Seq<Passes>,
) -> Result<Posts<N>, NoMemory>
    requires booted { AreBooted N.name params.now passes }
    requires named { AreNamed N.name params.now }
    ensures params { IfOk result (λ posts. posts.params ≡ params.now) }
    ensures here { IfOk result (λ posts. posts.here ≡ replicate (actor_count params.now) true) }
    ensures back { IfOk result (λ posts. posts.back ≡ []) }
{
    let seats = seated(alloc, passes)?;
    let mut back = Room::from_seq(Seq::new(alloc));
    back.reserve(seats.len())?;
    Ok(Posts {
        params: Shown::of(params),
        seats,
        back,
        of: PhantomData,
    })
}
