//! Worked values, each by what is public.
ghost use Rattle.co_program.specs.Scripts.{IsScript};

use co_program::Script;
use co_sbt::Seq;
use co_script::read_script;
use std::alloc::Global;
use std::process::Abort;

mod beside;
mod ends;
mod lines;
mod notes;
mod pages;
mod reports;
mod scripted;
mod scripts;
mod told;
mod verdicts;
mod words;

/// The script that a text stands for.
fn script_of<R: Abort>(rt: &R, alloc: Global, text: &[u8]) -> Script
    ensures { IsScript result }
{
    let Ok(script) = read_script(alloc, text) else {
        panic!(rt; "no script");
    };
    script
}

/// Stops where a row is not as it has to be, and names it.
fn is_right<R: Abort>(rt: &R, row: &str, right: bool) {
    assert!(rt; right, "{row}");
}

/// Stops where a text is not as it has to be.
fn is_text<R: Abort>(rt: &R, text: Seq<u8>, wanted: &[u8]) {
    let same = text.as_slice() == wanted;
    drop(text);
    assert!(rt; same);
}
