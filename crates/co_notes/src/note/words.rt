//! The words that carry the values of notes.
ghost use Rattle.std.specs.Prelude.{◌≡◌, ◌++◌, ◌∷◌, codes, OnOk};
ghost use Rattle.co_notes.specs.NoteTexts.{truth_word, cpu_or_dash, func_or_dash};

use co_sbt::NoMemory;
use co_text::Page;

/// A space, then `1` or `0`. `NoMemory` where the page finds no room.
pub fn print_truth(page: &mut Page, truth: bool) -> Result<(), NoMemory>
    ensures { OnOk result (page.new ≡ page.old ++ 32 ∷ truth_word truth) }
{
    if truth {
        page.text(b" 1".as_slice())
    } else {
        page.text(b" 0".as_slice())
    }
}

/// `off` and a queue's CPU, if there is one. `NoMemory` where the page finds no room.
pub fn print_off(page: &mut Page, place: Option<u32>) -> Result<(), NoMemory>
    ensures { OnOk result (page.new ≡ page.old ++ (codes " off " ++ cpu_or_dash place)) }
{
    match place {
        Some(cpu) => page.tagged(b" off p".as_slice(), cpu as u64),
        None => page.text(b" off -".as_slice()),
    }
}

/// `cpu` and the wanted CPU, if there is one. `NoMemory` where the page finds no room.
pub fn print_target(page: &mut Page, place: Option<u32>) -> Result<(), NoMemory>
    ensures { OnOk result (page.new ≡ page.old ++ (codes " cpu " ++ cpu_or_dash place)) }
{
    match place {
        Some(cpu) => page.tagged(b" cpu p".as_slice(), cpu as u64),
        None => page.text(b" cpu -".as_slice()),
    }
}

/// `drain` and its function, if there is one. `NoMemory` where the page finds no room.
pub fn print_drain(page: &mut Page, drain: Option<u32>) -> Result<(), NoMemory>
    ensures { OnOk result (page.new ≡ page.old ++ (codes " drain " ++ func_or_dash drain)) }
{
    match drain {
        Some(func) => page.tagged(b" drain f".as_slice(), func as u64),
        None => page.text(b" drain -".as_slice()),
    }
}

/// `woke` and whether it did. `NoMemory` where the page finds no room.
pub fn print_woke(page: &mut Page, woke: bool) -> Result<(), NoMemory>
    ensures { OnOk result (page.new ≡ page.old ++ (codes " woke " ++ truth_word woke)) }
{
    if woke {
        page.text(b" woke 1".as_slice())
    } else {
        page.text(b" woke 0".as_slice())
    }
}
