//! The texts that a report is made of: the script, and behind the line `histories` the notes.
ghost use Rattle.std.specs.Prelude.{◌≡◌, ◌≤◌, ◌<◌, true, None, Some, length, IfOk, IfSome, MatchOption};
ghost use Rattle.co_text.specs.Fallible.{GivesOrNoMemory};
ghost use Rattle.co_text.specs.declared.ScriptFault.TheVariants as fault;
ghost use Rattle.co_text.specs.Lines.{lines_of};
ghost use Rattle.co_report.specs.Reading.{none_cut, first_line, halves, same_lines};
ghost use Rattle.co_report.specs.ReadingViews.{halves_view, AreAtMost};

use co_sbt::NoMemory;
use co_text::{Cause, ScriptFault, is_word, next_line};

/// A report behind its first line, in two at the first line `histories`.
#[derive(Clone, Copy)]
pub struct Halves<'a> {
    /// The text before that line, which is to be a script.
    pub script: &'a [u8],
    /// How many lines that has.
    pub count: u64,
    /// The text behind that line.
    pub notes: &'a [u8],
}

/// A line is refused.
pub fn bad(line: u64, cause: Cause) -> ScriptFault
    ensures { result ≡ fault.Bad line cause }
{
    ScriptFault::Bad { line, cause }
}

/// Want of memory, as a fault of the text.
pub fn no_memory(_fault: NoMemory) -> ScriptFault
    ensures { result ≡ fault.NoMemory }
{
    ScriptFault::NoMemory
}

/// `Cut` at the last line where it has no line feed. Goes over all lines, whose last byte is not looked at beforehand.
fn none_cut_by_line(text: &[u8]) -> Result<(), ScriptFault>
    requires { length text.now ≤ 268435456 }
    ensures { GivesOrNoMemory (λ _. true) result (none_cut 1 (lines_of text.now)) }
{
    let mut rest = text;
    let mut number: u64 = 1;
    while let Some((_, ended, after)) = next_line(rest) {
        if !ended {
            return Err(bad(number, Cause::Cut));
        }
        rest = after;
        number += 1;
    }
    Ok(())
}

/// `Cut` at the last line where it has no line feed.
#[tactic(auto, using(crate::proofs::LinesEnded::none_cut_ended))]
pub fn none_cut(text: &[u8]) -> Result<(), ScriptFault>
    requires { length text.now ≤ 268435456 }
    ensures { GivesOrNoMemory (λ _. true) result (none_cut 1 (lines_of text.now)) }
{
    match text.split_last() {
        Some((last, _)) if *last == b'\n' => Ok(()),
        _ => none_cut_by_line(text),
    }
}

/// The text behind the first line, which is `callout-report 1`.
pub fn behind_first(text: &[u8]) -> Result<&[u8], ScriptFault>
    ensures value { GivesOrNoMemory (λ t. lines_of t.now) result (first_line (lines_of text.now)) }
    ensures shorter { IfOk result (λ t. length t.now < length text.now) }
{
    match next_line(text) {
        None => Err(bad(0, Cause::Version)),
        Some((line, _, after)) => {
            if is_word(line, b"callout-report 1".as_slice()) {
                Ok(after)
            } else {
                Err(bad(1, Cause::Version))
            }
        }
    }
}

/// The texts before and behind the first line `histories`, or None where no line is this.
pub fn split_at_histories(text: &[u8]) -> Option<Halves<'_>>
    requires { length text.now ≤ 268435456 }
    ensures value { MatchOption result (halves (lines_of text.now) ≡ None)
        (λ h. halves (lines_of text.now) ≡ Some (halves_view h)) }
    ensures small { IfSome result (AreAtMost (length text.now)) }
{
    let mut rest = text;
    let mut count: u64 = 0;
    while let Some((line, _, after)) = next_line(rest) {
        if is_word(line, b"histories".as_slice()) {
            let script = text.split_at(text.len() - rest.len()).0;
            return Some(Halves {
                script,
                count,
                notes: after,
            });
        }
        rest = after;
        count += 1;
    }
    None
}

/// The same, line by line.
fn same_line_by_line(text: &[u8], wanted: &[u8]) -> Result<(), ScriptFault>
    requires { length text.now ≤ 268435456 }
    ensures { GivesOrNoMemory (λ _. true) result (same_lines 2 (lines_of text.now) (lines_of wanted.now)) }
{
    let mut rest = text;
    let mut left = wanted;
    let mut number: u64 = 2;
    while let Some((line, _, after)) = next_line(rest) {
        let Some((want, _, behind)) = next_line(left) else {
            return Err(bad(number, Cause::Form));
        };
        if !is_word(line, want) {
            return Err(bad(number, Cause::Form));
        }
        rest = after;
        left = behind;
        number += 1;
    }
    match next_line(left) {
        None => Ok(()),
        Some(_) => Err(bad(number, Cause::Form)),
    }
}

/// `Form` at the first line of a text, counted from 2, that is not the wanted text's, or at the line behind the last.
pub fn same_lines(text: &[u8], wanted: &[u8]) -> Result<(), ScriptFault>
    requires { length text.now ≤ 268435456 }
    ensures { GivesOrNoMemory (λ _. true) result (same_lines 2 (lines_of text.now) (lines_of wanted.now)) }
{
    // A script that was printed is the wanted text.
    if text == wanted {
        return Ok(());
    }
    same_line_by_line(text, wanted)
}
