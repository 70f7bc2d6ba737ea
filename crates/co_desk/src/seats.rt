//! One actor's passes of many places, and the lives of these places.
ghost use Rattle.std.specs.Prelude.{◌≡◌, ◌<◌, [], ◌∷◌, ◌++◌, length, Some, slice_get, IfOk, OnOk};
ghost use Rattle.std.specs.List.{All};
ghost use Rattle.co_life.specs.Views.{};
ghost use Rattle.co_desk.specs.Seats.{IsAt, IsCompared, IsWritten, fresh_seats};

use crate::lists::{apart, push};
use co_life::{Keeper, Life, Pass, Story};
use co_sbt::NoMemory;
use std::alloc::Global;
use std::marker::Model;

/// The lives of all places of a kind. Contracts see their identities.
#[derive(Drop)]
pub struct Lives<S: Story> {
    lives: Vec<Life<S>>,
}

impl<S: Story> Model for Lives<S> {
    ghost use Rattle.std.specs.Prelude.{List};
    ghost use Rattle.std.specs.Coded.{coded_list};
    ghost use Rattle.co_life.specs.Identity.{LifeId, life_coded};

    ghost Value = { List LifeId };

    ghost coded = { coded_list life_coded };

    ghost view = { λ l. l.lives.items };
}

impl<S: Story> Lives<S> {
    /// The lives of no place yet.
    pub fn new(alloc: Global) -> Lives<S>
        ensures { result ≡ [] }
    {
        Lives {
            lives: Vec::new(alloc),
        }
    }

    /// The life of one place more, behind the others. `NoMemory` where there is no room for it.
    pub fn push(&mut self, life: Life<S>) -> Result<(), NoMemory>
        ensures { OnOk result (self.new ≡ self.old ++ life ∷ []) }
    {
        push(&mut self.lives, life)
    }

    /// The lives, in the order of their places.
    pub fn into_vec(self) -> Vec<Life<S>>
        ensures { result.items ≡ self }
    {
        self.lives
    }

    /// The life of a place.
    #[inline(always)]
    pub(crate) fn get(&self, i: u32) -> &Life<S>
        requires { i < length self.now }
        ensures { slice_get self.now i ≡ Some result.now }
    {
        &self.lives[i as usize]
    }
}

/// One actor's passes of all places of a kind.
#[derive(Drop)]
pub struct Seats<S: Story> {
    actor: u32,
    passes: Vec<Option<Pass<S>>>,
}

impl<S: Story> Model for Seats<S> {
    ghost use Rattle.std.specs.List.{All};
    ghost use Rattle.co_desk.specs.Seats.{SeatsView, seats_coded, seats_of, IsOwn};

    ghost Value = { SeatsView S.Entry };

    ghost coded = { seats_coded S.Entry.code };

    ghost view = { λ s. seats_of s.actor s.passes.items };

    ghost invariant = { λ s. All (IsOwn s.actor) s.passes.items };
}

impl<S: Story> Seats<S> {
    /// An actor with no place yet.
    pub fn new(alloc: Global, actor: u32) -> Seats<S>
        ensures { result ≡ fresh_seats [] actor }
    {
        Seats {
            actor,
            passes: Vec::new(alloc),
        }
    }

    /// An actor with no place yet, and room for `count`. `NoMemory` where there is none. Each call of the actor stores bytes here.
    pub fn with_room(alloc: Global, actor: u32, count: u32) -> Result<Seats<S>, NoMemory>
        ensures { IfOk result (λ seats. seats ≡ fresh_seats [] actor) }
    {
        let passes = apart(alloc, count as usize)?;
        Ok(Seats { actor, passes })
    }

    /// Takes the actor's pass of one place more.
    pub fn add(&mut self, pass: Pass<S>) -> Result<(), NoMemory>
        requires { pass.actor ≡ self.old.actor }
        ensures { OnOk result (self.new ≡ record self.old { name = self.old.name ++ pass.life ∷ []; seen = self.old.seen ++ pass.seen ∷ [] }) }
    {
        push(&mut self.passes, Some(pass))
    }

    /// Writes an entry of the actor at a place, with its pass of that place. The other passes stay.
    #[inline(always)]
    pub(crate) fn write(
        &mut self,
        life: &Life<S>,
        keeper: &mut Keeper<S>,
        i: u32,
        entry: S::Entry,
    ) -> u64
        requires place { IsAt self.old.name i life.now keeper.old }
        requires legal { S.legal (keeper.old.history ++ entry ∷ []) }
        requires actor { S.actor entry ≡ self.old.actor }
        ensures { IsWritten S.actor self.old i entry keeper.old result keeper.new self.new }
    {
        let at = i as usize;
        let pass = self.passes[at].take().unwrap();
        let (pass, number) = life.write(keeper, pass, entry);
        self.passes[at] = Some(pass);
        number
    }

    /// Shows the history of a place to the actor's pass of it. Nothing changes.
    #[inline(always)]
    pub(crate) fn meet(&mut self, life: &Life<S>, keeper: &mut Keeper<S>, i: u32)
        requires { IsAt self.old.name i life.now keeper.old }
        ensures { IsCompared S.actor S.legal self.old i keeper.old keeper.new self.new }
    {
        let at = i as usize;
        let pass = self.passes[at].take().unwrap();
        let pass = life.meet(keeper, pass);
        self.passes[at] = Some(pass);
    }
}
