//! The histories that stand at a desk.
ghost use Rattle.std.specs.Prelude.{◌≡◌, ◌<◌, true, false, length, is_some};
ghost use Rattle.std.specs.declared.option.Option.TheVariants.{Some, None};
ghost use Rattle.co_desk.specs.Books.{IsTakenOut, is_kept, with_history};
ghost use Rattle.co_desk.specs.Lines.{made};
ghost use Rattle.co_desk.specs.May.{MayEnter, MayHappen};
ghost use Rattle.co_desk.specs.Stories.{IsHistory, IsJournal};
ghost use Rattle.co_desk.specs.Views.{IsKeeperOf};
ghost use Rattle.co_desk.specs.Written.{AreHere, AreTogether, HasMet, HasMetTimer, IsEntryWritten, IsTurnWritten};

use crate::kinds::Kind;
use crate::places::Places;
use crate::{CpuStory, Name, Params, Passes, TimerStory};
use co_life::{Keeper, Shown};
use co_object::{Entry, QEntry};
use std::marker::{Model, PhantomData};

/// The histories that stand at a desk: the journal of its CPU, and those of the callouts there.
///
/// Behind a lock only the type is known, so it says of which service's lives they are. Each history is legal, and all
/// are of one service's parameters.
#[derive(Drop)]
pub struct Books<N: Name> {
    pub(crate) cpu: u32,
    pub(crate) params: Shown<Params>,
    /// By number: the keeper of each callout that stands here.
    pub(crate) keepers: Vec<Option<Keeper<TimerStory>>>,
    pub(crate) journal: Keeper<CpuStory>,
    pub(crate) of: PhantomData<N>,
}

impl<N: Name> Model for Books<N> {
    ghost use Rattle.co_desk.specs.Books.{BooksView, books_of, AreBooks};

    ghost Value = { BooksView };

    ghost view = { λ b. books_of b.params.value b.cpu b.keepers.items b.journal };

    ghost invariant = { λ b. AreBooks N.name b.params.value b.cpu b.keepers.items b.journal };
}

impl<N: Name> Books<N> {
    /// The desk's CPU.
    #[inline(always)]
    pub(crate) fn cpu(&self) -> u32
        ensures { result ≡ self.now.cpu }
    {
        self.cpu
    }

    /// For how many callouts there is room.
    #[inline(always)]
    pub(crate) fn size(&self) -> usize
        ensures { result ≡ length self.now.timers }
    {
        self.keepers.len()
    }

    /// Whether a callout's history stands here.
    #[inline(always)]
    pub(crate) fn has(&self, i: u32) -> bool
        ensures { result ≡ is_kept self.now i }
    {
        match self.keepers.get(i as usize) {
            Some(keeper) => keeper.is_some(),
            None => false,
        }
    }

    /// Compares the actor's pass of the CPU with the journal. Nothing changes.
    #[inline(always)]
    pub(crate) fn meet(&mut self, places: &Places, passes: &mut Passes)
        requires { AreHere N.name places.now passes.old }
        ensures { HasMet passes.old self.old passes.new self.new }
    {
        CpuStory::meet_at(
            passes,
            places.cpus().get(self.cpu),
            &mut self.journal,
            self.cpu,
        );
    }

    /// Compares the actor's pass of callout `i` with its history. Nothing changes.
    #[inline(always)]
    pub(crate) fn meet_timer(&mut self, places: &Places, passes: &mut Passes, i: u32)
        requires service { AreHere N.name places.now passes.old }
        requires here { is_kept self.old i ≡ true }
        ensures { HasMetTimer passes.old self.old i passes.new self.new }
    {
        match &mut self.keepers[i as usize] {
            Some(keeper) => TimerStory::meet_at(passes, places.timers().get(i), keeper, i),
            None => unreachable!(),
        }
    }

    /// Writes an entry of the CPU's journal, and gives its position.
    #[inline(always)]
    pub(crate) fn write(&mut self, places: &Places, passes: &mut Passes, entry: &QEntry) -> u64
        requires together { AreTogether N.name places.now passes.old self.old }
        requires may { MayEnter self.old entry.now }
        requires own { entry.now.actor ≡ passes.old.actor }
        ensures { IsTurnWritten passes.old self.old entry.now result passes.new self.new }
    {
        CpuStory::write_at(passes, places.cpus(), &mut self.journal, self.cpu, *entry)
    }

    /// Writes an entry of the history of callout `i`, and gives its position.
    #[inline(always)]
    pub(crate) fn write_timer(
        &mut self,
        places: &Places,
        passes: &mut Passes,
        i: u32,
        entry: &Entry,
    ) -> u64
        requires together { AreTogether N.name places.now passes.old self.old }
        requires here { is_kept self.old i ≡ true }
        requires may { MayHappen self.old i entry.now }
        requires own { entry.now.actor ≡ passes.old.actor }
        ensures { IsEntryWritten passes.old self.old i entry.now result passes.new self.new }
    {
        match &mut self.keepers[i as usize] {
            Some(keeper) => TimerStory::write_at(passes, places.timers(), keeper, i, *entry),
            None => unreachable!(),
        }
    }

    /// Takes the keeper of callout `i` out.
    #[inline(always)]
    pub(crate) fn take(&mut self, i: u32) -> Keeper<TimerStory>
        requires { is_kept self.old i ≡ true }
        ensures { IsTakenOut N.name self.old i result self.new }
    {
        self.keepers[i as usize].take().unwrap()
    }

    /// Puts the keeper of callout `i` in, where none is.
    #[inline(always)]
    pub(crate) fn put(&mut self, i: u32, keeper: Keeper<TimerStory>)
        requires below { i < length self.old.timers }
        requires keeper { IsKeeperOf IsHistory N.name.timers self.old.params i keeper }
        ensures books { self.new ≡ with_history self.old i (Some (made keeper.history)) }
    {
        self.keepers[i as usize] = Some(keeper);
    }

    /// The keeper of the CPU's journal, where nothing else is wanted any more.
    pub(crate) fn into_journal(self) -> Keeper<CpuStory>
        ensures { IsKeeperOf IsJournal N.name.cpus self.params self.cpu result }
    {
        self.journal
    }
}
