//! What a service does with a place of either kind, a callout or a CPU.
use crate::books::Books;
use crate::seats::Lives;
use crate::{CpuStory, Line, Name, Passes, TimerStory};
use co_life::{Keeper, Life, Story};
use co_object::{Entry, QEntry};

/// A kind of places: their story, and where an actor's passes of them stand.
pub trait Kind<E: Drop>: Story<Entry = Line<E>> + Sized {
    ghost use Rattle.std.specs.Prelude.{◌≡◌, IfSome};
    ghost use Rattle.std.specs.declared.option.Option.TheVariants.{Some};
    ghost use Rattle.co_desk.specs.declared.params.Params.{Params};
    ghost use Rattle.co_desk.specs.Meeting.{IsMeeting, IsMet};
    ghost use Rattle.co_desk.specs.Kinds.{KindOf};
    ghost use Rattle.co_desk.specs.Lines.{made, opening_of};
    ghost use Rattle.co_desk.specs.Seats.{IsAt};
    ghost use Rattle.co_desk.specs.Views.{HasEntry, IsKeeperOf, TakesEntry};
    ghost use Rattle.co_desk.specs.Writes.{WritesEntry};

    ghost kind: { KindOf E };

    /// Writes an entry of the actor in the history of place `i`, and gives its position.
    fn write_at(
        passes: &mut Passes,
        lives: &Lives<Self>,
        keeper: &mut Keeper<Self>,
        i: u32,
        entry: E,
    ) -> u64
        requires name { kind.lives passes.old.name ≡ lives.now }
        requires may { TakesEntry kind.Legal lives.now passes.old.params i keeper.old entry }
        requires own { kind.made_by entry ≡ passes.old.actor }
        ensures kept { HasEntry kind.Legal lives.now passes.old.params i keeper.old entry keeper.new }
        ensures written { WritesEntry kind passes.old i entry result (made keeper.new.history) passes.new };

    /// Compares the actor's pass of place `i` with its history. Nothing changes.
    fn meet_at(passes: &mut Passes, life: &Life<Self>, keeper: &mut Keeper<Self>, i: u32)
        requires place { IsAt (kind.lives passes.old.name) i life.now keeper.old }
        requires opened { (params : Params) × (opening_of keeper.old.history ≡ Some (params, i)) }
        ensures { IsMeeting keeper.old keeper.new passes.old passes.new (IsMet kind i keeper.old passes.old) };

    /// Takes the keeper of place `i` from the books where it is. None where none has it.
    fn take_at<N: Name>(books: &mut Vec<Books<N>>, i: u32) -> Option<Keeper<Self>>
        ensures { IfSome result (λ keeper. (params : Params) × IsKeeperOf kind.Legal (kind.lives N.name) params i keeper) };
}

impl Kind<Entry> for TimerStory {
    ghost use Rattle.co_desk.specs.Kinds.{timer_kind};

    ghost kind = { timer_kind };

    #[inline(always)]
    fn write_at(
        passes: &mut Passes,
        lives: &Lives<TimerStory>,
        keeper: &mut Keeper<TimerStory>,
        i: u32,
        entry: Entry,
    ) -> u64 {
        let life = lives.get(i);
        let number = passes.timers.write(life, keeper, i, Line::Made(entry));
        number.saturating_sub(u64::from(passes.actors))
    }

    #[inline(always)]
    fn meet_at(
        passes: &mut Passes,
        life: &Life<TimerStory>,
        keeper: &mut Keeper<TimerStory>,
        i: u32,
    ) {
        passes.timers.meet(life, keeper, i);
    }

    fn take_at<N: Name>(books: &mut Vec<Books<N>>, i: u32) -> Option<Keeper<TimerStory>> {
        for at in 0..books.len() {
            let one = &mut books[at];
            if one.has(i) {
                return Some(one.take(i));
            }
        }
        None
    }
}

impl Kind<QEntry> for CpuStory {
    ghost use Rattle.co_desk.specs.Kinds.{cpu_kind};

    ghost kind = { cpu_kind };

    #[inline(always)]
    fn write_at(
        passes: &mut Passes,
        lives: &Lives<CpuStory>,
        keeper: &mut Keeper<CpuStory>,
        i: u32,
        entry: QEntry,
    ) -> u64 {
        let life = lives.get(i);
        let number = passes.cpus.write(life, keeper, i, Line::Made(entry));
        number.saturating_sub(u64::from(passes.actors))
    }

    #[inline(always)]
    fn meet_at(passes: &mut Passes, life: &Life<CpuStory>, keeper: &mut Keeper<CpuStory>, i: u32) {
        passes.cpus.meet(life, keeper, i);
    }

    fn take_at<N: Name>(books: &mut Vec<Books<N>>, i: u32) -> Option<Keeper<CpuStory>> {
        for at in 0..books.len() {
            if books[at].cpu() == i {
                return Some(books.swap_remove(at).into_journal());
            }
        }
        None
    }
}
