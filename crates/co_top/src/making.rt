//! The commands that make their text from a seed.
ghost use Rattle.std.specs.Prelude.{◌≡◌, List, IfOk};
ghost use Rattle.co_object.specs.declared.note.Note.{Note};
ghost use Rattle.co_program.specs.Scripts.{IsScript};
ghost use Rattle.co_script.specs.Canonical.{canonical};
ghost use Rattle.co_world.specs.Walk.{IsWalk};
ghost use Rattle.co_gen.specs.Generator.{generated};
ghost use Rattle.co_gen.specs.Soak.{counts_of};
ghost use Rattle.co_top.specs.Headline.{IsMadeOf, IsSoakOf};

use crate::command::Making;
use co_core::tell_walk;
use co_gen::{Counts, TallyOf, gen_script, print_soak};
use co_program::Script;
use co_report::Subject;
use co_sbt::{NoMemory, Seq};
use co_script::print_script;
use std::alloc::Global;
use std::marker::Brand;

/// The canonical text of the generated script.
fn generate(alloc: Global, seed: u64) -> Result<Seq<u8>, NoMemory>
    ensures { IfOk result (λ text. text ≡ canonical (generated seed)) }
{
    let script = gen_script(alloc, seed)?;
    print_script(alloc, &script)
}

/// The counts of a type's script, whose notes are counted as the walk makes them.
fn counts_told<S: Subject>(alloc: Global, script: &Script) -> Result<Counts, NoMemory>
    requires accepted { IsScript script.now }
    requires subject { script.now ≡ S.script }
    ensures { IfOk result (λ counts. (lists : List (List Note)) × IsWalk script.now lists × (counts ≡ counts_of script.now lists)) }
{
    let mut tally = TallyOf::<S>::new(alloc, script)?;
    tell_walk(alloc, script, &mut tally)?;
    Ok(tally.counts())
}

/// The counts of a script's walk.
fn counts_of_walk(alloc: Global, script: &Script) -> Result<Counts, NoMemory>
    requires { IsScript script.now }
    ensures { IfOk result (λ counts. (lists : List (List Note)) × IsWalk script.now lists × (counts ≡ counts_of script.now lists)) }
{
    counts_told::<Brand>(alloc, script)
}

/// The counts of a generated script's walk, in a line.
fn soak_of(alloc: Global, seed: u64, script: &Script) -> Result<Seq<u8>, NoMemory>
    requires { script.now ≡ generated seed }
    ensures { IfOk result (IsSoakOf seed) }
{
    let counts = counts_of_walk(alloc, script)?;
    print_soak(alloc, seed, &counts)
}

/// The line of a seed.
fn soak(alloc: Global, seed: u64) -> Result<Seq<u8>, NoMemory>
    ensures { IfOk result (IsSoakOf seed) }
{
    let script = gen_script(alloc, seed)?;
    soak_of(alloc, seed, &script)
}

/// The text that a command makes.
pub(crate) fn text_of(alloc: Global, making: Making) -> Result<Seq<u8>, NoMemory>
    ensures { IfOk result (IsMadeOf making) }
{
    match making {
        Making::Gen(seed) => generate(alloc, seed),
        Making::Soak(seed) => soak(alloc, seed),
    }
}
