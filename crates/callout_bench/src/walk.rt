//! A script's walk, as `callout steps` makes it, without a report.
ghost use Rattle.co_program.specs.Scripts.{IsScript};

use co_core::run_steps;
use co_object::Lists;
use co_program::Script;
use co_sbt::NoMemory;
use std::alloc::Global;

/// How many notes these lists have.
pub fn count_notes(lists: &Lists) -> u64 {
    let mut notes: u64 = 0;
    for list in lists.as_slice() {
        notes = notes.saturating_add(list.as_slice().len() as u64);
    }
    notes
}

/// Runs the script: how many notes that makes. `NoMemory` where there is no room for the world or a note.
pub fn walk(alloc: Global, script: &Script) -> Result<u64, NoMemory>
    requires { IsScript script.now }
{
    let lists = run_steps(alloc, script)?;
    Ok(count_notes(&lists))
}
