//! What a draft's lines add to its script.
ghost use Rattle.std.specs.Prelude.{◌≡◌, ◌++◌, ◌∷◌, [], OnOk};
ghost use Rattle.co_script.specs.Refusals.{most_acts};
ghost use Rattle.co_script.specs.Drafts.{time_after, padded, padded_script};

use co_program::{Act, Acts, Script, When};
use co_sbt::{NoMemory, Sbt, Seq};
use std::alloc::Global;
use std::slice;

/// Appends lists without acts, up to this number of lists.
pub(crate) fn pad(alloc: Global, lists: &mut Seq<Acts>, number: usize) -> Result<(), NoMemory>
    ensures { OnOk result (lists.new ≡ padded number lists.old) }
{
    for _ in lists.as_slice().len()..number {
        lists.push(Seq::new(alloc))?;
    }
    Ok(())
}

/// Appends lists without acts, up to one for each function and each CPU.
pub(crate) fn pad_script(alloc: Global, script: &mut Script, funcs: u32) -> Result<(), NoMemory>
    ensures { OnOk result (script.new ≡ padded_script funcs script.old) }
{
    let cpus = script.cpus as usize;
    pad(alloc, &mut script.funcs, funcs as usize)?;
    pad(alloc, &mut script.ticks, cpus)?;
    Ok(())
}

/// Appends an act.
#[inline(always)]
pub(crate) fn push_act(acts: &mut Acts, act: &Act) -> Result<(), NoMemory>
    ensures { OnOk result (acts.new ≡ acts.old ++ act.now ∷ []) }
{
    // Names the type that lies two deep in an act: the check needs it here.
    let _nested = When::At(Sbt::zero());
    // Copied once, to its place: what is pushed is copied on its way too.
    acts.extend_from_slice(slice::from_ref(act))
}

/// How many acts a section may have.
#[inline(always)]
pub(crate) fn most_acts(func: bool) -> usize
    ensures { result ≡ most_acts func }
{
    if func { 4096 } else { 65536 }
}

#[inline(always)]
pub(crate) fn time_after(time: Sbt, act: &Act) -> Sbt
    ensures { result ≡ time_after time act.now }
{
    match *act {
        Act::Now(now) | Act::Tick(now) => now,
        _ => time,
    }
}
