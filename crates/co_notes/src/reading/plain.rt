//! What is read straight from the text of a line, where it stands in its usual spelling: in one pass, and with no slice of the
//! word. An answer tells what stands there; none tells nothing, and the part is then read as any other word.
ghost use Rattle.std.specs.Prelude.{◌≡◌, ◌∷◌, ◌++◌, ◌+◌, ◌≤◌, ◌<◌, ◌^◌, true, false, length, take, decimal, Some, None, IfSome, MatchBool, MatchOption};
ghost use Rattle.std.specs.List.{list_all};
ghost use Rattle.std.specs.Char.{is_ascii_digit};
ghost use Rattle.co_sbt.specs.Seconds.{number as spelled};
ghost use Rattle.co_notes.specs.Parts.{parts, parts_left, is_space};
ghost use Rattle.co_notes.specs.Plain.{behind_end, behind_word, by_word, is_actor_letter};

use co_text::{digit_value, is_shortest};

/// The number that the digits at the front spell, and how many these are. Of more than 19 it is the lowest 64 bits.
#[inline(always)]
fn digits_at_front(text: &[u8]) -> (u64, usize)
    ensures value { result.1 ≤ 19 → result.0 ≡ spelled (take result.1 text.now) }
    ensures digits { list_all is_ascii_digit (take result.1 text.now) ≡ true }
    ensures small { result.0 < 2 ^ 64 }
    ensures bound { result.1 ≤ length text.now }
{
    let mut value = 0_u64;
    let mut count = 0_usize;
    for c in text {
        let digit = digit_value(*c);
        if digit > 9 {
            break;
        }
        value = value.wrapping_mul(10).wrapping_add(digit);
        count += 1;
    }
    (value, count)
}

/// A number at the front in its shortest spelling, and the text behind it.
#[inline(always)]
fn number_at_front(text: &[u8]) -> Option<(u64, &[u8])>
    ensures { IfSome result (λ r. (r.0 < 2 ^ 64) × (text.now ≡ decimal r.0 ++ r.1.now)) }
{
    let (value, count) = digits_at_front(text);
    let (digits, rest) = text.split_at(count);
    if count == 0 || count > 19 || !is_shortest(digits) {
        return None;
    }
    Some((value, rest))
}

/// Whether a part ends before this text.
#[tactic(auto, using(crate::proofs::PlainParts::ended_none, crate::proofs::PlainParts::ended_here))]
#[inline(always)]
fn ends_part(text: &[u8]) -> bool
    ensures { MatchBool result (behind_end text.now ≡ Some (parts_left text.now)) (behind_end text.now ≡ None) }
{
    match text {
        [] => true,
        [first, ..] => *first == b' ',
    }
}

/// A number that is the first part, and what is left behind it.
#[tactic(auto, using(crate::proofs::PlainParts::number_first))]
#[inline(always)]
pub fn number_part(text: &[u8]) -> Option<(u64, &[u8])>
    ensures { IfSome result (λ r. parts text.now ≡ decimal r.0 ∷ parts_left r.1.now) }
{
    let (number, rest) = number_at_front(text)?;
    if !ends_part(rest) {
        return None;
    }
    Some((number, rest))
}

/// A letter and a number that are the first part, and what is left behind it.
#[inline(always)]
pub fn lettered_part(letter: u8, text: &[u8]) -> Option<(u64, &[u8])>
    requires { is_space letter ≡ false }
    ensures { IfSome result (λ r. parts text.now ≡ (letter ∷ decimal r.0) ∷ parts_left r.1.now) }
{
    match text {
        [first, digits @ ..] if *first == letter => number_part(digits),
        _ => None,
    }
}

/// Who made a note: the letter and the number of an actor, and the number of an act.
#[derive(Clone, Copy)]
pub struct ActorAct {
    /// `c`, `p` or `h`.
    pub letter: u8,
    /// The number behind the letter.
    pub number: u64,
    /// The number behind the slash.
    pub act: u64,
}

fn is_actor_letter(letter: u8) -> bool
    ensures { result ≡ is_actor_letter letter }
{
    matches!(letter, b'c' | b'p' | b'h')
}

/// `A/M` as the first part, and what is left behind it.
#[inline(always)]
pub fn maker_part(text: &[u8]) -> Option<(ActorAct, &[u8])>
    ensures { IfSome result (λ r. (is_actor_letter r.0.letter ≡ true) × (parts text.now ≡ by_word r.0 ∷ parts_left r.1.now)) }
{
    let [letter, digits @ ..] = text else {
        return None;
    };
    if !is_actor_letter(*letter) {
        return None;
    }
    let (number, behind) = number_at_front(digits)?;
    let (act, rest) = lettered_part(b'/', behind)?;
    let by = ActorAct {
        letter: *letter,
        number,
        act,
    };
    Some((by, rest))
}

/// What is left behind the first part, where that is this word.
#[inline(always)]
pub fn behind_word<'a>(wanted: &[u8], text: &'a [u8]) -> Option<&'a [u8]>
    ensures { MatchOption result (behind_word wanted.now text.now ≡ None)
        (λ rest. behind_word wanted.now text.now ≡ Some (parts_left rest.now)) }
{
    if text.len() < wanted.len() {
        return None;
    }
    for i in 0..wanted.len() {
        if wanted[i] == b' ' || text[i] != wanted[i] {
            return None;
        }
    }
    let rest = text.split_at(wanted.len()).1;
    if !ends_part(rest) {
        return None;
    }
    Some(rest)
}
