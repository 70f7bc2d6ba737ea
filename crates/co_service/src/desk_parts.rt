//! What a CPU has before the locks.
ghost use Rattle.std.specs.Prelude.{◌≡◌, ◌+◌, ◌<◌, [], ◌∷◌, ◌++◌, IfOk, OnOk, length, map, replicate};
ghost use Rattle.std.specs.declared.option.Option.TheVariants.{Some, None};
ghost use Rattle.co_desk.specs.Books.{books_of};
ghost use Rattle.co_service.specs.Booted.{AreAllBegun, AreFirstKeepers, IsDeskParts, IsNewKeeper};
ghost use Rattle.co_service.specs.Fresh.{AreDeskParts};
ghost use Rattle.co_desk.specs.Params.{AreParams, directs as directs_of};
ghost use Rattle.co_desk.specs.Stories.{IsHistory, IsJournal};
ghost use Rattle.co_service.specs.declared.desk_parts.DeskParts.{DeskParts as PartsOf};

use crate::wheels::first_wheel;
use co_bucket::WheelQueue;
use co_desk::{CpuStory, Desk, Name, Params, Places, TimerStory, apart, push};
use co_life::Keeper;
use co_object::Spec;
use co_sbt::NoMemory;
use co_wheel::Wheel;
use std::alloc::Global;
use std::mem;

/// What a CPU has before the locks: its wheel, the keepers of the callouts that begin there, and that of its journal.
#[derive(Drop)]
pub(crate) struct DeskParts {
    pub(crate) wheel: Wheel<WheelQueue>,
    pub(crate) keepers: Vec<Option<Keeper<TimerStory>>>,
    pub(crate) journal: Keeper<CpuStory>,
}

impl DeskParts {
    /// The desk of a CPU before the first call.
    pub(crate) fn into_desk<N: Name>(self, cpu: u32, params: &Params) -> Desk<N>
        requires { IsDeskParts N.name params.now cpu self.wheel self.keepers.items self.journal }
        ensures { result ≡ books_of params.now cpu self.keepers.items self.journal }
    {
        Desk::new(cpu, params, self.wheel, self.keepers, self.journal)
    }
}

/// All callouts are here.
fn all_here(
    alloc: Global,
    keepers: Vec<Keeper<TimerStory>>,
) -> Result<Vec<Option<Keeper<TimerStory>>>, NoMemory>
    ensures { IfOk result (λ here. here.items ≡ map Some keepers.items) }
{
    let mut here = apart(alloc, keepers.len())?;
    for keeper in keepers {
        push(&mut here, Some(keeper))?;
    }
    Ok(here)
}

/// None of so many callouts is here.
fn none_here(alloc: Global, count: usize) -> Result<Vec<Option<Keeper<TimerStory>>>, NoMemory>
    ensures { IfOk result (λ here. here.items ≡ replicate count None) }
{
    let mut here = apart(alloc, count)?;
    for _at in 0..count {
        push(&mut here, None)?;
    }
    Ok(here)
}

/// Puts what a CPU has before the locks behind what those before it have. It takes the keepers that are here, and none are left for the next CPU.
fn add_parts(
    alloc: Global,
    params: &Params,
    places: &Places,
    direct: &[bool],
    cpu: u32,
    here: &mut Vec<Option<Keeper<TimerStory>>>,
    journal: Keeper<CpuStory>,
    all_parts: &mut Vec<DeskParts>,
) -> Result<(), NoMemory>
    requires params { AreParams params.now }
    requires direct { direct.now ≡ directs_of params.now }
    requires here { AreFirstKeepers places.now.timers params.now cpu here.old.items }
    requires journal { IsNewKeeper IsJournal places.now.cpus params.now cpu journal }
    ensures parts { OnOk result ((parts : PartsOf) × (all_parts.new.items ≡ all_parts.old.items ++ parts ∷ []) × IsDeskParts places.now params.now cpu parts.wheel parts.keepers.items parts.journal) }
    ensures here { OnOk result (AreFirstKeepers places.now.timers params.now (cpu + 1) here.new.items) }
{
    let wheel = first_wheel(alloc, params, direct, cpu)?;
    let others = none_here(alloc, here.len())?;
    let keepers = mem::replace(here, others);
    let parts = DeskParts {
        wheel,
        keepers,
        journal,
    };
    push(all_parts, parts)
}

/// What each CPU has before the locks, in the order of their numbers.
pub(crate) fn make_all_parts(
    alloc: Global,
    params: &Params,
    places: &Places,
    timers: Vec<Keeper<TimerStory>>,
    journals: Vec<Keeper<CpuStory>>,
) -> Result<Vec<DeskParts>, NoMemory>
    requires params { AreParams params.now }
    requires timers { AreAllBegun IsHistory places.now.timers params.now (length params.now.specs) timers.items }
    requires journals { AreAllBegun IsJournal places.now.cpus params.now params.now.cpus journals.items }
    ensures { IfOk result (λ all_parts. AreDeskParts places.now params.now all_parts.items) }
{
    let direct = Spec::directs(alloc, params.specs.as_slice())?;
    let mut here = all_here(alloc, timers)?;
    let mut all_parts = Vec::new(alloc);
    let mut cpu = 0;
    for journal in journals {
        add_parts(
            alloc,
            params,
            places,
            direct.as_slice(),
            cpu,
            &mut here,
            journal,
            &mut all_parts,
        )?;
        cpu += 1;
    }
    Ok(all_parts)
}
