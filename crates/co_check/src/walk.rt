//! The notes of an actor beside its program.
ghost use Rattle.std.specs.Prelude.{◌≡◌, ℕ, ◌<◌, ◌≤◌, ◌-◌, Bool, true, drop, length, map, slice_get};
ghost use Rattle.co_program.specs.Actors.{acts_at, program_of, role_of};
ghost use Rattle.co_program.specs.Action.{action_for};
ghost use Rattle.co_program.specs.Follows.{at_next_note};
ghost use Rattle.co_program.specs.Indexed.{ActsAreCounted, IsCounted, cursor_of};
ghost use Rattle.co_program.specs.Scripts.{IsScript};
ghost use Rattle.co_report.specs.PackedLines.{line_of};
ghost use Rattle.co_check.specs.Asking.{is_nothing};
ghost use Rattle.co_check.specs.Astray.{is_next_note, seen_lines};
ghost use Rattle.co_check.specs.Lines.{lines_max};
ghost use Rattle.co_check.specs.Replayed.{fact_of};
ghost use Rattle.co_check.specs.Walked.{IsActionAt, IsNoteWalked, IsQuietStep, IsWalked, by_row};

use crate::asking::asks;
use crate::fact::PackedFact;
use crate::slot::Slot;
use co_object::Note;
use co_program::{
    Action, Acts, Cursor, Role, Script, action_for, advance, go, role_of, scans_first,
};
use co_report::PackedLines;
use co_sbt::Seq;

/// Where an actor's notes lead.
#[derive(Clone, Copy)]
pub(crate) enum Walked {
    /// The line of the first note that the program doesn't give.
    Astray(u64),
    /// All are of the program, and it has come so far.
    At(Cursor),
}

/// Goes along the program with the actor's notes. `row` has the line of each, by its number.
pub(crate) fn walk(
    script: &Script,
    actor: u32,
    row: &[Slot],
    lines: &PackedLines,
    facts: &[PackedFact],
) -> Walked
    requires script { IsScript script.now }
    requires row { (k i : ℕ) → slice_get row.now k ≡ Some (Some i) → i < length lines.now }
    requires few { length row.now ≤ lines_max }
    requires facts { facts.now ≡ map fact_of (seen_lines script.now lines.now) }
    ensures { IsWalked script.now actor (by_row (seen_lines script.now lines.now) row.now) result }
{
    let mut cursor = Cursor::start();
    for slot in row {
        let Some(i) = slot.line() else {
            continue;
        };
        let note = lines.note(i as usize);
        if !walk_note(script, actor, &mut cursor, &note, &facts[i as usize]) {
            return Walked::Astray(lines.number(i as usize));
        }
    }
    Walked::At(cursor)
}

/// Goes on past the actor's next note. False where the program doesn't give it.
fn walk_note(
    script: &Script,
    actor: u32,
    cursor: &mut Cursor,
    note: &Note,
    fact: &PackedFact,
) -> bool
    requires script { IsScript script.now }
    requires counted { IsCounted cursor.old lines_max }
    ensures note { (line : ℕ) → IsNoteWalked script.now actor cursor.old (record { line = line_of line note.now; listed = fact.now.listed; scans = fact.now.scans }) result cursor.new }
    ensures counted { result ≡ true → ActsAreCounted cursor.old cursor.new 1 }
{
    let mut action = Action::Nothing;
    settle(script, actor, cursor, &mut action);
    if !is_next(script, actor, cursor, &action, note, fact.scans()) {
        return false;
    }
    let _over = cursor.task;
    advance(script, cursor, fact.listed(), note.place, &note.entry);
    true
}

/// Whether the program ends there.
pub(crate) fn is_finished(script: &Script, actor: u32, cursor: &Cursor) -> bool
    requires script { IsScript script.now }
    requires counted { IsCounted cursor.now lines_max }
    ensures { let s = script.now in result ≡ is_nothing (action_for s actor (at_next_note s actor (cursor_of s actor cursor.now))) }
{
    let mut at = *cursor;
    let mut action = Action::Nothing;
    settle(script, actor, &mut at, &mut action);
    matches!(action, Action::Nothing)
}

/// Whether the note is the next one of the program, and stands below the Scans that it waits for. `action` is what the
/// program does there.
fn is_next(
    script: &Script,
    actor: u32,
    cursor: &Cursor,
    action: &Action,
    note: &Note,
    scans: u32,
) -> bool
    requires script { IsScript script.now }
    requires action { IsActionAt script.now actor cursor.now action.now }
    ensures { (line : ℕ) (listed : Bool) → let s = script.now in
        result ≡ is_next_note s actor (cursor_of s actor cursor.now) (record { line = line_of line note.now; listed = listed; scans = scans }) }
{
    asks(actor, cursor.removed, action, note.place, &note.entry)
        && scans_first(script, actor, cursor) <= scans
}

/// Past the steps without a note. What the program does then is put into `next`, since a return of so large a value would be a
/// copy.
fn settle(script: &Script, actor: u32, cursor: &mut Cursor, next: &mut Action)
    requires script { IsScript script.now }
    requires counted { IsCounted cursor.old lines_max }
    ensures cursor { let s = script.now in cursor_of s actor cursor.new ≡ at_next_note s actor (cursor_of s actor cursor.old) }
    ensures counted { ActsAreCounted cursor.old cursor.new 0 }
    ensures action { IsActionAt script.now actor cursor.new next.new }
{
    // Most often there is none, so it is looked at before the acts that are left are counted.
    let over = cursor.task;
    if !quiet_step(script, actor, cursor, next) {
        return;
    }
    let steps = u64::from(acts_left(script, actor, over)) + 1;
    for _ in 1..steps {
        if !quiet_step(script, actor, cursor, next) {
            return;
        }
    }
    let _over = cursor.task;
    action_for(script, actor, cursor, next);
}

/// Does a step without a note, if that is the next one, and says whether it is. What the actor does is put into `next`.
#[inline(always)]
fn quiet_step(script: &Script, actor: u32, cursor: &mut Cursor, next: &mut Action) -> bool
    requires script { IsScript script.now }
    requires counted { IsCounted cursor.old lines_max }
    ensures step { IsQuietStep script.now actor cursor.old result next.new cursor.new }
    ensures counted { ActsAreCounted cursor.old cursor.new 0 }
{
    let _over = cursor.task;
    action_for(script, actor, cursor, next);
    match next {
        Action::Silent(to) => go(script, cursor, to),
        Action::Take { to, .. } => go(script, cursor, to),
        Action::Nothing => return false,
        Action::Asks { .. } => return false,
    }
    true
}

/// How many acts of the actor's program are left once so many are over.
fn acts_left(script: &Script, actor: u32, over: u32) -> u32
    requires { IsScript script.now }
    ensures { let s = script.now in result ≡ length (drop over (program_of s (role_of s actor))) }
{
    match role_of(script, actor) {
        Role::Client(client) => count_of(&script.clients, client).saturating_sub(over),
        Role::Cpu(cpu) => count_of(&script.ticks, cpu).saturating_sub(over),
        Role::Interrupt(cpu) => count_of(&script.ticks, cpu).saturating_sub(over),
    }
}

/// How many acts the `i`-th list has.
fn count_of(lists: &Seq<Acts>, i: u32) -> u32
    requires { length (acts_at lists.now i) ≤ 65536 }
    ensures { result ≡ length (acts_at lists.now i) }
{
    match lists.as_slice().get(i as usize) {
        Some(acts) => acts.as_slice().len() as u32,
        None => 0,
    }
}
