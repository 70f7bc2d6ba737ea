//! The places of a service, made one after the other.
ghost use Rattle.std.specs.Prelude.{◌≡◌, ◌≤◌, ◌+◌, ◌<◌, ◌^◌, ℕ, [], ◌∷◌, ◌++◌, IfOk, OnOk, vec_len};
ghost use Rattle.co_life.specs.Views.{AreFresh};
ghost use Rattle.co_service.specs.Booted.{ArePlaces, AreWaiting, IsOpened, IsPlaced, IsSigned, MaySign, seats_at as seats_in};
ghost use Rattle.co_desk.specs.Seats.{fresh_seats};

use co_desk::{Line, Lives, Params, Seats, push};
use co_life::{Keeper, Life, Pass, Shown, Story};
use co_sbt::NoMemory;
use std::alloc::Global;

/// An actor makes its opening entry of a place.
fn sign<E: Drop, S: Story<Entry = Line<E>>>(
    life: &Life<S>,
    keeper: &mut Keeper<S>,
    pass: Pass<S>,
    actor: u32,
    place: u32,
    params: &Params,
) -> Pass<S>
    requires keeper { keeper.old.life ≡ life.now }
    requires pass { (pass.life ≡ life.now) × (pass.actor ≡ actor) }
    requires opened { IsOpened params.now place actor keeper.old.history }
    requires may { MaySign params.now place S.legal S.actor }
    ensures { IsSigned params.now place actor pass keeper.old result keeper.new }
{
    let entry = Line::Opening {
        actor,
        place,
        params: Shown::of(params),
    };
    life.write(keeper, pass, entry).0
}

/// Gives each actor its pass of one place more, once it has made its opening entry there.
fn add_place<E: Drop, S: Story<Entry = Line<E>>>(
    lives: &Lives<S>,
    life: &Life<S>,
    keeper: &mut Keeper<S>,
    seats: &mut Vec<Seats<S>>,
    passes: Vec<Pass<S>>,
    place: u32,
    params: &Params,
) -> Result<(), NoMemory>
    requires keeper { (keeper.old.life ≡ life.now) × (keeper.old.history ≡ []) }
    requires few { vec_len seats.old < 2 ^ 32 }
    requires passes { AreFresh life.now (vec_len seats.old) passes.items }
    requires seats { AreWaiting params.now lives.now life.now place (vec_len seats.old) seats.old.items }
    requires may { MaySign params.now place S.legal S.actor }
    ensures { OnOk result (IsPlaced params.now lives.now life.now place (vec_len seats.old) keeper.old keeper.new seats.new.items) }
{
    let mut actor = 0;
    for pass in passes {
        let signed = sign(life, keeper, pass, actor, place, params);
        let one = &mut seats[actor as usize];
        one.add(signed)?;
        actor += 1;
    }
    Ok(())
}

/// The passes of each of the actors, which have no place yet, with room for `count` places. `NoMemory` where there is no room for them.
fn empty_seats<E: Drop, S: Story<Entry = Line<E>>>(
    alloc: Global,
    actors: u32,
    count: u32,
) -> Result<Vec<Seats<S>>, NoMemory>
    ensures count { IfOk result (λ all. vec_len all ≡ actors) }
    ensures each { IfOk result (λ all. (k : ℕ) → k < actors → seats_in all.items k ≡ fresh_seats [] k) }
{
    let mut all = Vec::new(alloc);
    for actor in 0..actors {
        let seats = Seats::with_room(alloc, actor, count)?;
        push(&mut all, seats)?;
    }
    Ok(all)
}

/// The places of a kind as they are made: their lives, their keepers, and each actor's passes of them, which have seen
/// the opening entries alone.
#[derive(Drop)]
pub(crate) struct SetUp<S: Story> {
    pub(crate) lives: Lives<S>,
    pub(crate) keepers: Vec<Keeper<S>>,
    pub(crate) seats: Vec<Seats<S>>,
}

impl<S: Story> SetUp<S> {
    /// Keeps the life and the keeper of one place more.
    fn keep(&mut self, life: Life<S>, keeper: Keeper<S>) -> Result<(), NoMemory>
        ensures { OnOk result ((self.new.lives ≡ self.old.lives ++ life ∷ []) × (self.new.keepers.items ≡ self.old.keepers.items ++ keeper ∷ []) × (self.new.seats ≡ self.old.seats)) }
    {
        self.lives.push(life)?;
        push(&mut self.keepers, keeper)
    }
}

/// Makes one place more.
fn make_place<E: Drop, S: Story<Entry = Line<E>>>(
    alloc: Global,
    params: &Params,
    actors: u32,
    place: u32,
    made: &mut SetUp<S>,
) -> Result<(), NoMemory>
    requires some { 1 ≤ actors }
    requires may { MaySign params.now place S.legal S.actor }
    requires places { ArePlaces params.now place actors made.old.lives made.old.keepers.items made.old.seats.items }
    ensures { OnOk result (ArePlaces params.now (place + 1) actors made.new.lives made.new.keepers.items made.new.seats.items) }
{
    let (life, mut keeper, passes) = Life::new(alloc, actors)?;
    let passes = passes.into_vec();
    let seats = &mut made.seats;
    add_place(
        &made.lives,
        &life,
        &mut keeper,
        seats,
        passes,
        place,
        params,
    )?;
    made.keep(life, keeper)
}

/// The places of a kind, made one after the other.
pub(crate) fn make_places<E: Drop, S: Story<Entry = Line<E>>>(
    alloc: Global,
    params: &Params,
    count: u32,
    actors: u32,
) -> Result<SetUp<S>, NoMemory>
    requires some { 1 ≤ actors }
    requires may { (i : ℕ) → MaySign params.now i S.legal S.actor }
    ensures { IfOk result (λ made. ArePlaces params.now count actors made.lives made.keepers.items made.seats.items) }
{
    let seats = empty_seats(alloc, actors, count)?;
    let lives = Lives::new(alloc);
    let keepers = Vec::new(alloc);
    let mut made = SetUp {
        lives,
        keepers,
        seats,
    };
    for place in 0..count {
        make_place(alloc, params, actors, place, &mut made)?;
    }
    Ok(made)
}
