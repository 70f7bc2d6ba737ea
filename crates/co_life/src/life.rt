//! A life, its keeper, its passes, and what is left of them at the end.
ghost use Rattle.std.specs.Prelude.{◌≡◌, ◌+◌, ◌<◌, ◌≤◌, [], ◌∷◌, ◌++◌, length, Some, IfOk};
ghost use Rattle.std.specs.List.{All};
ghost use Rattle.co_life.specs.Rule.{capped, glance};
ghost use Rattle.co_life.specs.Seen.{own, StartsWith, Extends};
ghost use Rattle.co_life.specs.Steps.{Learns, MayAppend, let_in, with_entry};
ghost use Rattle.co_life.specs.declared.view.Glance.{Glance as GlanceOf};
ghost use Rattle.co_life.specs.Views.{AreFresh, pass_view, history_in, made_in, IsAlone};

use crate::rule::{Append, Deal, Enter, HistoryRule, Leave, Look, Says};
use crate::shown::Shown;
use crate::story::Story;
use crate::view::SeatView;
use atomic_table::{Seat, Table};
use co_sbt::{NoMemory, Seq};
use std::alloc::Global;
use std::marker::{Brand, Model};

/// One shared history, from its opening to its close. Our own decision.
///
/// Contracts see a life as its identity, which its keeper and its passes carry wherever they are moved, and no other life
/// has. Threads may share it. The entries stand in the proofs alone: what is stored is their number, with the keeper.
#[derive(Drop)]
pub struct Life<S: Story> {
    table: Table<S::Entry, SeatView<S::Entry>, (), HistoryRule<S>, Global>,
}

impl<S: Story> Model for Life<S> {
    ghost use Rattle.std.specs.Prelude.{◌≡◌};
    ghost use Rattle.co_life.specs.Identity.{LifeId, life_coded};

    ghost Value = { LifeId };

    ghost coded = { life_coded };

    ghost view = { λ l. l.table.shared.table_id };

    ghost invariant = { λ l. (l.table.shared.table_id.words ≡ 1) × (l.table.shared.table_id.slots ≡ 0) };
}

/// The right to add to a history. There is one for each life; who shares it puts it behind a lock.
///
/// Contracts see its life, the whole history, and the number of actors.
#[derive(Drop)]
pub struct Keeper<S: Story> {
    seat: Seat<S::Entry, SeatView<S::Entry>>,
    /// How many entries the history has. The count stands still at 2^64 - 1.
    count: u64,
}

impl<S: Story> Model for Keeper<S> {
    ghost use Rattle.co_life.specs.Views.{KeeperView, keeper_coded, keeper_view_of, IsKeeper};

    ghost Value = { KeeperView S.Entry };

    ghost coded = { keeper_coded S.Entry.code };

    ghost view = { λ k. keeper_view_of k.seat.table_id k.seat.me };

    ghost invariant = { λ k. IsKeeper k.seat.me k.count };
}

/// What one actor has seen of a history. There is one for each actor of a life, and it may go to another thread.
///
/// Contracts see its life, its actor's number from 0, and what it has seen.
#[derive(Drop)]
pub struct Pass<S: Story> {
    seat: Seat<S::Entry, SeatView<S::Entry>>,
}

impl<S: Story> Model for Pass<S> {
    ghost use Rattle.co_life.specs.Views.{PassView, pass_coded, pass_view_of, IsPass};

    ghost Value = { PassView S.Entry };

    ghost coded = { pass_coded S.Entry.code };

    ghost view = { λ p. pass_view_of p.seat.table_id p.seat.me };

    ghost invariant = { λ p. IsPass p.seat.me };
}

/// A history that has ended. Contracts see it as its entries.
#[derive(Drop)]
pub struct Closed<S: Story> {
    last: Shown<Keeper<S>>,
}

impl<S: Story> Model for Closed<S> {
    ghost use Rattle.std.specs.Prelude.{List};

    ghost Value = { List S.Entry };

    ghost view = { λ c. c.last.value.history };
}

impl<S: Story> Life<S> {
    /// A life with an empty history, its keeper, and a pass for each of at least one actor, in the order of their
    /// numbers. The passes have seen nothing.
    ///
    /// This alone takes memory: no later call does.
    pub fn new(alloc: Global, actors: u32) -> Result<(Life<S>, Keeper<S>, Seq<Pass<S>>), NoMemory>
        requires { 1 ≤ actors }
        ensures keeper { IfOk result (λ r. r.1 ≡ record { life = r.0; history = []; actors = actors }) }
        ensures passes { IfOk result (λ r. AreFresh r.0 actors r.2) }
    {
        let Ok((table, seat)) = Table::of_words(alloc, &[0], &()) else {
            return Err(NoMemory {});
        };
        let life = Life { table };
        let mut keeper = Keeper { seat, count: 0 };
        let passes = life.deal_all(alloc, &mut keeper, actors)?;
        Ok((life, keeper, passes))
    }

    // A pass for each actor, where no pass was made yet.
    fn deal_all(
        &self,
        alloc: Global,
        keeper: &mut Keeper<S>,
        actors: u32,
    ) -> Result<Seq<Pass<S>>, NoMemory>
        requires { keeper.old ≡ record { life = self.now; history = []; actors = 0 } }
        ensures keeper { IfOk result (λ _. keeper.new ≡ record keeper.old { actors = actors }) }
        ensures passes { IfOk result (AreFresh self.now actors) }
    {
        let mut passes = Seq::new(alloc);
        for _actor in 0..actors {
            passes.push(self.deal(keeper))?;
        }
        Ok(passes)
    }

    // One more pass, which has seen the history so far.
    fn deal(&self, keeper: &mut Keeper<S>) -> Pass<S>
        requires { keeper.old.life ≡ self.now }
        ensures pass { result ≡ pass_view self.now keeper.old.actors keeper.old.history }
        ensures keeper { keeper.new ≡ record keeper.old { actors = keeper.old.actors + 1 } }
    {
        let shared = &self.table.shared;
        let seat = shared.split_seat::<Deal>(&mut keeper.seat);
        Pass { seat }
    }

    // Takes a pass into the keeper's seat, and looks at what it has seen.
    #[inline(always)]
    fn let_in(&self, seat: &mut Seat<S::Entry, SeatView<S::Entry>>, pass: Pass<S>)
        requires seat { (seat.old.table_id ≡ self.now) × IsAlone seat.old.me }
        requires pass { pass.life ≡ self.now }
        ensures seat { (seat.new.table_id ≡ self.now) × (seat.new.me ≡ let_in (history_in seat.old.me.0) (made_in seat.old.me.0) (glance pass.actor pass.seen)) }
        ensures learns { Learns S.actor S.legal (history_in seat.old.me.0) (made_in seat.old.me.0) (glance pass.actor pass.seen) }
    {
        let shared = &self.table.shared;
        shared.join_seat::<Enter>(seat, pass.seat);
        shared.load::<Look<S>>(seat, 0);
    }

    // Appends what is said to the history, for the pass inside. It is a step of the proof: a load, which ignores what it finds.
    #[inline(always)]
    fn append<B: Says<S::Entry>>(
        &self,
        seat: &mut Seat<S::Entry, SeatView<S::Entry>>,
        entry: &S::Entry,
    )
        requires said { B.entry ≡ Some entry.now }
        requires seat { seat.old.table_id ≡ self.now }
        requires inside { (p : GlanceOf S.Entry) × MayAppend S.actor S.legal seat.old.me p entry.now }
        ensures seat { (seat.new.table_id ≡ self.now) × (seat.new.me ≡ (with_entry seat.old.me.0 (Some entry.now), [])) }
    {
        let _ = entry;
        self.table.shared.load::<Append<B>>(seat, 0);
    }

    /// Compares a pass with the keeper's history. Nothing changes, and it takes no memory.
    ///
    /// What the pass has seen begins the history, and the entries of its actor in the history are those that it has seen.
    #[inline(always)]
    pub fn meet(&self, keeper: &mut Keeper<S>, pass: Pass<S>) -> Pass<S>
        requires keeper { keeper.old.life ≡ self.now }
        requires pass { pass.life ≡ self.now }
        ensures keeper { keeper.new ≡ keeper.old }
        ensures pass { result ≡ pass }

        ensures seen { StartsWith keeper.old.history pass.seen }
        ensures own { own S.actor pass.actor keeper.old.history ≡ own S.actor pass.actor pass.seen }

        ensures actor { pass.actor < keeper.old.actors }
        ensures actors { All (λ e. S.actor e < keeper.old.actors) keeper.old.history }
        ensures legal { S.legal keeper.old.history }
    {
        self.let_in(&mut keeper.seat, pass);
        let shared = &self.table.shared;
        let seat = shared.split_seat::<Leave>(&mut keeper.seat);
        Pass { seat }
    }

    /// Adds an entry of the pass's actor to the keeper's history, all of which the pass has then seen. The number is the
    /// entry's position, from 0, or 2^64 - 1 where that is higher. It takes no memory.
    #[inline(always)]
    pub fn write(&self, keeper: &mut Keeper<S>, pass: Pass<S>, entry: S::Entry) -> (Pass<S>, u64)
        requires keeper { keeper.old.life ≡ self.now }
        requires pass { pass.life ≡ self.now }
        requires legal { S.legal (keeper.old.history ++ entry ∷ []) }
        requires actor { S.actor entry ≡ pass.actor }
        ensures keeper { keeper.new ≡ record keeper.old { history = keeper.old.history ++ entry ∷ [] } }
        ensures pass { result.0 ≡ record pass { seen = keeper.new.history } }
        ensures position { result.1 ≡ capped (length keeper.old.history) }

        // What the pass had seen begins the old history, and what followed it is of other actors.
        ensures seen { StartsWith keeper.old.history pass.seen }
        ensures extends { Extends S.actor pass.actor pass.seen entry result.0.seen }
        ensures actors { All (λ e. S.actor e < keeper.new.actors) keeper.new.history }
    {
        self.let_in(&mut keeper.seat, pass);
        self.append::<Brand>(&mut keeper.seat, &entry);
        let seat = self.table.shared.split_seat::<Leave>(&mut keeper.seat);
        let number = keeper.count;
        keeper.count = number.saturating_add(1);
        (Pass { seat }, number)
    }

    /// Ends the history, which is then the keeper's for ever. It takes no memory.
    ///
    /// Whoever lets a pass meet the keeper just before knows which entries of its actor the history has.
    pub fn close(self, keeper: Keeper<S>) -> Closed<S>
        requires { keeper.life ≡ self }
        ensures history { result ≡ keeper.history }
        ensures legal { S.legal result }
    {
        let last = Shown::of(&keeper);
        let Life { table } = self;
        let Keeper { seat, count: _ } = keeper;
        table.close_with(seat).free();
        Closed { last }
    }
}
