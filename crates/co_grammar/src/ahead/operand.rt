//! Operands at the front of a text, each behind a space.
ghost use Rattle.std.specs.Prelude.{◌≡◌, ◌≤◌, ◌∷◌, ◌++◌, take, length, IfSome};
ghost use Rattle.co_text.specs.Values.{number, time, func, argument};
ghost use Rattle.co_grammar.specs.Operands.{moment};
ghost use Rattle.co_grammar.specs.Ahead.{SpellsFew, IsNumber, IsAhead, IsNext, EndsCpu};

use co_program::{When, Where};
use co_sbt::Sbt;
use co_text::{digit_value, is_word};

/// What stands behind these bytes, where a text begins with them.
#[inline(always)]
pub(crate) fn behind<'a>(text: &'a [u8], bytes: &[u8]) -> Option<&'a [u8]>
    ensures { IfSome result (λ rest. text.now ≡ bytes.now ++ rest.now) }
{
    if text.len() < bytes.len() {
        return None;
    }
    let (front, rest) = text.split_at(bytes.len());
    if is_word(front, bytes) {
        Some(rest)
    } else {
        None
    }
}

/// What stands behind a line feed, where a text begins with one.
#[inline(always)]
pub(crate) fn line_end(rest: &[u8]) -> Option<&[u8]>
    ensures { IfSome result (λ after. rest.now ≡ 10 ∷ after.now) }
{
    behind(rest, b"\n".as_slice())
}

/// What digits at the front of a text spell, up to 18 of them, and how many they are.
#[inline(always)]
fn digits_ahead(text: &[u8]) -> (u64, usize)
    ensures spells { SpellsFew (take result.1 text.now) result.0 }
    ensures within { result.1 ≤ length text.now }
{
    let mut value = 0_u64;
    let mut count = 0_usize;
    for c in text {
        let digit = digit_value(*c);
        if digit > 9 {
            break;
        }
        if count == 18 {
            break;
        }
        value = value * 10 + digit;
        count += 1;
    }
    (value, count)
}

/// The number at the front of a text, and what stands behind its digits.
#[inline(always)]
fn number_ahead(text: &[u8]) -> Option<(u64, &[u8])>
    ensures { IfSome result (λ x. IsNumber text.now x.0 x.1.now) }
{
    let (number, count) = digits_ahead(text);
    if count == 0 {
        return None;
    }
    Some((number, text.split_at(count).1))
}

/// The same where the number has 32 bits.
#[inline(always)]
fn small_ahead(text: &[u8]) -> Option<(u32, &[u8])>
    ensures { IfSome result (λ x. IsNumber text.now x.0 x.1.now) }
{
    let (number, rest) = number_ahead(text)?;
    if number < 0x1_0000_0000 {
        Some((number as u32, rest))
    } else {
        None
    }
}

/// The number of units behind a `u`, and what stands behind it.
#[inline(always)]
fn units_ahead(text: &[u8]) -> Option<(u64, &[u8])>
    ensures { IfSome result (λ x. IsAhead time text.now x.0 x.1.now) }
{
    let [b'u', digits @ ..] = text else {
        return None;
    };
    let (number, rest) = number_ahead(digits)?;
    if number >= 0x8000_0000_0000_0000 {
        return None;
    }
    Some((number, rest))
}

/// The units of the whole seconds at the front of a text, and what stands behind them.
#[inline(always)]
fn seconds_ahead(text: &[u8]) -> Option<(u64, &[u8])>
    ensures { IfSome result (λ x. IsAhead time text.now x.0 x.1.now) }
{
    let (number, rest) = number_ahead(text)?;
    if number >= 0x8000_0000 || text.len() - rest.len() > 10 {
        return None;
    }
    Some((number * 0x1_0000_0000, rest))
}

/// The units of the time at the front of a text, where it is `uN` or whole seconds, and what stands behind it.
#[inline(always)]
fn time_ahead(text: &[u8]) -> Option<(u64, &[u8])>
    ensures { IfSome result (λ x. IsAhead time text.now x.0 x.1.now) }
{
    match text {
        [b'u', ..] => units_ahead(text),
        _ => seconds_ahead(text),
    }
}

// Each operand below stands behind a space. With it comes what stands behind it.

/// A time, in units of 2^-32 s.
#[inline(always)]
pub(crate) fn next_time(rest: &[u8]) -> Option<(u64, &[u8])>
    ensures { IfSome result (λ x. IsNext time rest.now x.0 x.1.now) }
{
    match rest {
        [b' ', text @ ..] => time_ahead(text),
        _ => None,
    }
}

/// `+T`.
#[inline(always)]
fn next_after(rest: &[u8]) -> Option<(When, &[u8])>
    ensures { IfSome result (λ x. IsNext moment rest.now x.0 x.1.now) }
{
    let [b' ', b'+', text @ ..] = rest else {
        return None;
    };
    let (units, rest) = time_ahead(text)?;
    let time = Sbt::new(units)?;
    Some((When::After(time), rest))
}

/// `=T`.
#[inline(always)]
fn next_at(rest: &[u8]) -> Option<(When, &[u8])>
    ensures { IfSome result (λ x. IsNext moment rest.now x.0 x.1.now) }
{
    let [b' ', b'=', text @ ..] = rest else {
        return None;
    };
    let (units, rest) = time_ahead(text)?;
    let time = Sbt::new(units)?;
    Some((When::At(time), rest))
}

/// `+T` or `=T`.
#[inline(always)]
pub(crate) fn next_moment(rest: &[u8]) -> Option<(When, &[u8])>
    ensures { IfSome result (λ x. IsNext moment rest.now x.0 x.1.now) }
{
    match rest {
        [_, b'+', ..] => next_after(rest),
        _ => next_at(rest),
    }
}

/// A number of 32 bits.
#[inline(always)]
pub(crate) fn next_number(rest: &[u8]) -> Option<(u32, &[u8])>
    ensures { IfSome result (λ x. IsNext number rest.now x.0 x.1.now) }
{
    match rest {
        [b' ', text @ ..] => small_ahead(text),
        _ => None,
    }
}

/// `fN`.
#[inline(always)]
pub(crate) fn next_func(rest: &[u8]) -> Option<(u32, &[u8])>
    ensures { IfSome result (λ x. IsNext func rest.now x.0 x.1.now) }
{
    match rest {
        [b' ', b'f', text @ ..] => small_ahead(text),
        _ => None,
    }
}

/// `aN`.
#[inline(always)]
pub(crate) fn next_argument(rest: &[u8]) -> Option<(u64, &[u8])>
    ensures { IfSome result (λ x. IsNext argument rest.now x.0 x.1.now) }
{
    match rest {
        [b' ', b'a', text @ ..] => number_ahead(text),
        _ => None,
    }
}

/// `cpu C` at the end of a line, and what stands behind the line.
#[inline(always)]
fn cpu_at_end(rest: &[u8]) -> Option<(Where, &[u8])>
    ensures { IfSome result (λ x. EndsCpu rest.now x.0 x.1.now) }
{
    let (cpu, rest) = next_number(behind(rest, b" cpu".as_slice())?)?;
    let after = line_end(rest)?;
    Some((Where::Cpu(cpu), after))
}

/// `cpu C` or nothing at the end of a line, and what stands behind the line.
#[inline(always)]
pub(crate) fn last_cpu(rest: &[u8]) -> Option<(Where, &[u8])>
    ensures { IfSome result (λ x. EndsCpu rest.now x.0 x.1.now) }
{
    match rest {
        [b'\n', after @ ..] => Some((Where::Home, after)),
        _ => cpu_at_end(rest),
    }
}
