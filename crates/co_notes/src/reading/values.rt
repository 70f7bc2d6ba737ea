//! The values that words of a note carry, each in its one spelling: no zero stands before another digit. Each function takes
//! the next part of a line; it answers `Form` where there is none, or where it is not spelled so.
ghost use Rattle.std.specs.Prelude.{◌≡◌, ◌==◌, ◌∷◌, ◌++◌, ◌+◌, ◌<◌, ◌^◌, true, false, decimal, IfOk};
ghost use Rattle.co_text.specs.Fallible.{Gives};
ghost use Rattle.co_text.specs.Values.{behind};
ghost use Rattle.co_text.specs.Taking.{next};
ghost use Rattle.co_notes.specs.NoteValues.{below, lettered, count64, count32, time_in_units, arming, given, callout_value, func_of, cpu_in, or_dash, truth, actor_in, maker, maker_is, own_kind, HasFewActors};
ghost use Rattle.co_notes.specs.NoteForms.{literal};
ghost use Rattle.co_notes.specs.Parts.{parts, is_space};
ghost use Rattle.co_notes.specs.Plain.{is_actor_letter};

use crate::reading::names::Names;
use crate::reading::parts::{Parts, length_before};
use co_object::OwnKind;
use co_sbt::Sbt;
use co_text::{Cause, is_shortest, is_word, number};

/// A number below a bound.
#[inline(always)]
pub fn below(bound: u128, word: &[u8]) -> Result<u128, Cause>
    ensures bounded { IfOk result (λ n. n < bound) }
    ensures value { Gives (λ n. n) result (below bound word.now) }
{
    if !is_shortest(word) {
        return Err(Cause::Form);
    }
    let number = number(word)?;
    if number < bound {
        Ok(number)
    } else {
        Err(Cause::Form)
    }
}

/// The rest of a word that begins with this letter.
fn behind(letter: u8, word: &[u8]) -> Result<&[u8], Cause>
    ensures { Gives (λ w. w.now) result (behind letter word.now) }
{
    match word {
        [first, rest @ ..] if *first == letter => Ok(rest),
        _ => Err(Cause::Form),
    }
}

/// A letter and a number below a bound.
#[inline(always)]
fn lettered(letter: u8, bound: u128, word: &[u8]) -> Result<u128, Cause>
    ensures bounded { IfOk result (λ n. n < bound) }
    ensures value { Gives (λ n. n) result (lettered letter bound word.now) }
{
    below(bound, behind(letter, word)?)
}

/// A letter and a number of 64 bits.
#[inline(never)]
fn lettered64(letter: u8, word: &[u8]) -> Result<u64, Cause>
    ensures { Gives (λ n. n) result (lettered letter (2 ^ 64) word.now) }
{
    Ok(lettered(letter, 0x1_0000_0000_0000_0000, word)? as u64)
}

/// A letter and a number below a bound of 32 bits.
#[inline(never)]
fn lettered32(letter: u8, bound: u32, word: &[u8]) -> Result<u32, Cause>
    ensures { Gives (λ n. n) result (lettered letter bound word.now) }
{
    Ok(lettered(letter, u128::from(bound), word)? as u32)
}

#[inline(never)]
fn count64(word: &[u8]) -> Result<u64, Cause>
    ensures { Gives (λ n. n) result (count64 word.now) }
{
    Ok(below(0x1_0000_0000_0000_0000, word)? as u64)
}

fn count32(word: &[u8]) -> Result<u32, Cause>
    ensures { Gives (λ n. n) result (count32 word.now) }
{
    Ok(below(0x1_0000_0000, word)? as u32)
}

#[inline(never)]
fn time_in_units(word: &[u8]) -> Result<Sbt, Cause>
    ensures { Gives (λ t. t) result (time_in_units word.now) }
{
    let units = lettered(b'u', 0x8000_0000_0000_0000, word)? as u64;
    match Sbt::new(units) {
        Some(time) => Ok(time),
        None => Err(Cause::Form),
    }
}

/// A number below a bound of 32 bits.
#[inline(always)]
fn index(bound: u32, word: &[u8]) -> Result<u32, Cause>
    ensures bounded { IfOk result (λ n. n < bound) }
    ensures value { Gives (λ n. n) result (below bound word.now) }
{
    Ok(below(u128::from(bound), word)? as u32)
}

/// The number of a CPU's actor, by the digits behind its letter.
fn cpu_actor(names: &Names, digits: &[u8]) -> Result<u32, Cause>
    requires { HasFewActors names.now }
    ensures { Gives (λ a. a) result (actor_in names.now (112 ∷ digits.now)) }
{
    Ok(names.clients + index(names.cpus, digits)?)
}

/// The number of an interrupt's actor, by the digits behind its letter.
fn interrupt_actor(names: &Names, digits: &[u8]) -> Result<u32, Cause>
    requires few { HasFewActors names.now }
    requires version { names.now.version ≡ 2 }
    ensures { Gives (λ a. a) result (actor_in names.now (104 ∷ digits.now)) }
{
    Ok(names.clients + names.cpus + index(names.cpus, digits)?)
}

/// The number of an actor, by its word.
fn actor_in(names: &Names, word: &[u8]) -> Result<u32, Cause>
    requires { HasFewActors names.now }
    ensures { Gives (λ a. a) result (actor_in names.now word.now) }
{
    match word {
        [b'c', digits @ ..] => index(names.clients, digits),
        [b'p', digits @ ..] => cpu_actor(names, digits),
        [b'h', digits @ ..] if names.version == 2 => interrupt_actor(names, digits),
        _ => Err(Cause::Form),
    }
}

/// Who made a note: `A/M`.
#[derive(Clone, Copy)]
pub struct Maker {
    /// The actor's number.
    pub actor: u32,
    /// The number of its act, from 0.
    pub act: u64,
}

#[inline(never)]
fn maker_of(names: &Names, word: &[u8]) -> Result<Maker, Cause>
    requires { HasFewActors names.now }
    ensures { Gives (λ m. m) result (maker names.now word.now) }
{
    let (name, rest) = word.split_at(length_before(b'/', word));
    let actor = actor_in(names, name)?;
    let act = lettered64(b'/', rest)?;
    Ok(Maker { actor, act })
}

fn is_by(maker: &Maker, actor: u32) -> bool
    ensures { result ≡ (maker.now.actor == actor) }
{
    maker.actor == actor
}

fn own_maker(names: &Names, actor: u32, word: &[u8]) -> Result<Maker, Cause>
    requires { HasFewActors names.now }
    ensures { Gives (λ m. m) result (maker_is names.now actor word.now) }
{
    let maker = maker_of(names, word)?;
    if is_by(&maker, actor) {
        Ok(maker)
    } else {
        Err(Cause::Form)
    }
}

fn own_kind_of(word: &[u8]) -> Result<OwnKind, Cause>
    ensures { Gives (λ k. k) result (own_kind word.now) }
{
    if is_word(word, b"notheld".as_slice()) {
        Ok(OwnKind::NotHeld)
    } else if is_word(word, b"holdslock".as_slice()) {
        Ok(OwnKind::HoldsLock)
    } else if is_word(word, b"holding".as_slice()) {
        Ok(OwnKind::Holding)
    } else if is_word(word, b"notholding".as_slice()) {
        Ok(OwnKind::NotHolding)
    } else {
        Err(Cause::Form)
    }
}

/// A number that is to be below a bound.
#[tactic(auto, using(crate::proofs::PlainParts::below_bound, crate::proofs::PlainParts::not_below))]
#[inline(always)]
fn small(bound: u32, number: u64) -> Result<u32, Cause>
    ensures { Gives (λ n. n) result (below bound (decimal number)) }
{
    if number < u64::from(bound) {
        Ok(number as u32)
    } else {
        Err(Cause::Form)
    }
}

/// A number of 64 bits, which every one is.
#[tactic(auto, using(crate::proofs::PlainParts::below_bound))]
#[inline(always)]
fn whole(number: u64) -> Result<u64, Cause>
    ensures { Gives (λ n. n) result (below (2 ^ 64) (decimal number)) }
{
    Ok(number)
}

/// A number that is to have 32 bits.
#[tactic(auto, using(crate::proofs::PlainParts::below_bound, crate::proofs::PlainParts::not_below))]
#[inline(always)]
fn half(number: u64) -> Result<u32, Cause>
    ensures { Gives (λ n. n) result (below (2 ^ 32) (decimal number)) }
{
    if number < 0x1_0000_0000 {
        Ok(number as u32)
    } else {
        Err(Cause::Form)
    }
}

/// The time of so many units.
#[inline(always)]
fn units_of(units: u64) -> Result<Sbt, Cause>
    ensures { Gives (λ t. t) result (below (2 ^ 63) (decimal units)) }
{
    match Sbt::new(units) {
        Some(time) => Ok(time),
        None => Err(Cause::Form),
    }
}

/// The number of an actor, by its letter and the number behind it.
#[inline(always)]
fn plain_actor(names: &Names, letter: u8, number: u64) -> Result<u32, Cause>
    requires { HasFewActors names.now }
    ensures { Gives (λ a. a) result (actor_in names.now (letter ∷ decimal number)) }
{
    match letter {
        b'c' => small(names.clients, number),
        b'p' => Ok(names.clients + small(names.cpus, number)?),
        b'h' if names.version == 2 => {
            Ok(names.clients + names.cpus + small(names.cpus, number)?)
        }
        _ => Err(Cause::Form),
    }
}

/// Who made a note, by what was read of it.
#[tactic(auto, using(crate::proofs::PlainParts::maker_ok, crate::proofs::PlainParts::maker_failed))]
#[inline(always)]
fn plain_maker(names: &Names, letter: u8, number: u64, act: u64) -> Result<Maker, Cause>
    requires few { HasFewActors names.now }
    requires letter { is_actor_letter letter ≡ true }
    ensures { Gives (λ m. m) result (maker names.now (letter ∷ (decimal number ++ 47 ∷ decimal act))) }
{
    let actor = plain_actor(names, letter, number)?;
    Ok(Maker { actor, act })
}

/// A letter and a number of 64 bits.
#[inline(always)]
fn next_lettered64(letter: u8, parts: &mut Parts) -> Result<u64, Cause>
    requires { is_space letter ≡ false }
    ensures { Gives (λ x. (x, parts.new)) result (next (lettered letter (2 ^ 64)) parts.old) }
{
    match parts.lettered(letter) {
        Some(number) => whole(number),
        None => lettered64(letter, parts.word()?),
    }
}

/// A letter and a number below a bound of 32 bits.
#[inline(always)]
fn next_lettered32(letter: u8, bound: u32, parts: &mut Parts) -> Result<u32, Cause>
    requires { is_space letter ≡ false }
    ensures { Gives (λ x. (x, parts.new)) result (next (lettered letter bound) parts.old) }
{
    match parts.lettered(letter) {
        Some(number) => small(bound, number),
        None => lettered32(letter, bound, parts.word()?),
    }
}

/// The number of 64 bits that a line begins with, and the parts behind it. `Form` where its first word is none.
#[tactic(auto, using(crate::proofs::PlainParts::count_carried))]
#[inline(always)]
pub fn first_number64(line: &[u8]) -> Result<(u64, Parts<'_>), Cause>
    ensures { Gives (λ x. x) result (next count64 (parts line.now)) }
{
    if let Some((number, parts)) = Parts::behind_number(line) {
        return Ok((whole(number)?, parts));
    }
    let (word, parts) = Parts::behind_word(line);
    Ok((count64(word)?, parts))
}

/// A number of 32 bits. `Form` where the next word is none.
pub fn number32(parts: &mut Parts) -> Result<u32, Cause>
    ensures { Gives (λ x. (x, parts.new)) result (next count32 parts.old) }
{
    match parts.number() {
        Some(number) => half(number),
        None => count32(parts.word()?),
    }
}

/// `uN`: a time in units of 2^-32 s, below 2^63. `Form` where the next word is none.
#[tactic(auto, using(crate::proofs::PlainParts::lettered_carried))]
pub fn time(parts: &mut Parts) -> Result<Sbt, Cause>
    ensures { Gives (λ x. (x, parts.new)) result (next time_in_units parts.old) }
{
    match parts.lettered(b'u') {
        Some(units) => units_of(units),
        None => time_in_units(parts.word()?),
    }
}

/// `#N`: the number of an arming, below 2^64. `Form` where the next word is none.
pub fn arming(parts: &mut Parts) -> Result<u64, Cause>
    ensures { Gives (λ x. (x, parts.new)) result (next arming parts.old) }
{
    next_lettered64(b'#', parts)
}

/// `aN`: a function's argument, below 2^64. `Form` where the next word is none.
pub fn argument(parts: &mut Parts) -> Result<u64, Cause>
    ensures { Gives (λ x. (x, parts.new)) result (next given parts.old) }
{
    next_lettered64(b'a', parts)
}

/// `iN`, a callout of the script.
pub fn callout(names: &Names, parts: &mut Parts) -> Result<u32, Cause>
    ensures { Gives (λ x. (x, parts.new)) result (next (callout_value names.now) parts.old) }
{
    next_lettered32(b'i', names.timers, parts)
}

/// `fN`, a function of the script.
pub fn func(names: &Names, parts: &mut Parts) -> Result<u32, Cause>
    ensures { Gives (λ x. (x, parts.new)) result (next (func_of names.now) parts.old) }
{
    next_lettered32(b'f', names.funcs, parts)
}

/// `pN`, a CPU of the script.
pub fn cpu(names: &Names, parts: &mut Parts) -> Result<u32, Cause>
    ensures { Gives (λ x. (x, parts.new)) result (next (cpu_in names.now) parts.old) }
{
    next_lettered32(b'p', names.cpus, parts)
}

/// A CPU, or `-`.
#[tactic(auto, using(crate::proofs::PlainParts::dash_taken, crate::proofs::PlainParts::dash_some))]
pub fn cpu_or_none(names: &Names, parts: &mut Parts) -> Result<Option<u32>, Cause>
    ensures { Gives (λ x. (x, parts.new)) result (next (or_dash (cpu_in names.now)) parts.old) }
{
    if parts.option(b"-".as_slice()) {
        Ok(None)
    } else {
        match cpu(names, parts) {
            Ok(cpu) => Ok(Some(cpu)),
            Err(cause) => Err(cause),
        }
    }
}

/// A function, or `-`.
#[tactic(auto, using(crate::proofs::PlainParts::dash_taken, crate::proofs::PlainParts::dash_some))]
pub fn func_or_none(names: &Names, parts: &mut Parts) -> Result<Option<u32>, Cause>
    ensures { Gives (λ x. (x, parts.new)) result (next (or_dash (func_of names.now)) parts.old) }
{
    if parts.option(b"-".as_slice()) {
        Ok(None)
    } else {
        match func(names, parts) {
            Ok(func) => Ok(Some(func)),
            Err(cause) => Err(cause),
        }
    }
}

/// `1` for true, `0` for false. `Form` where the next word is neither.
#[tactic(auto, using(crate::proofs::PlainParts::one_taken, crate::proofs::PlainParts::zero_taken, crate::proofs::PlainParts::neither_taken))]
pub fn truth(parts: &mut Parts) -> Result<bool, Cause>
    ensures { Gives (λ x. (x, parts.new)) result (next truth parts.old) }
{
    if parts.option(b"1".as_slice()) {
        Ok(true)
    } else if parts.option(b"0".as_slice()) {
        Ok(false)
    } else {
        Err(Cause::Form)
    }
}

/// `A/M`: an actor of the script, and the number of its act. `Form` where the next word is none.
#[tactic(auto, using(crate::proofs::PlainParts::carried))]
#[inline(always)]
pub fn made_by(names: &Names, parts: &mut Parts) -> Result<Maker, Cause>
    requires { HasFewActors names.now }
    ensures { Gives (λ x. (x, parts.new)) result (next (maker names.now) parts.old) }
{
    match parts.maker() {
        Some(by) => plain_maker(names, by.letter, by.number, by.act),
        None => maker_of(names, parts.word()?),
    }
}

/// `A/M`, where A is this actor.
pub fn made_by_actor(names: &Names, actor: u32, parts: &mut Parts) -> Result<Maker, Cause>
    requires { HasFewActors names.now }
    ensures { Gives (λ x. (x, parts.new)) result (next (maker_is names.now actor) parts.old) }
{
    own_maker(names, actor, parts.word()?)
}

/// What an own note says. `Form` where the next word is none.
pub fn own_kind(parts: &mut Parts) -> Result<OwnKind, Cause>
    ensures { Gives (λ x. (x, parts.new)) result (next own_kind parts.old) }
{
    own_kind_of(parts.word()?)
}

/// This very word. `Form` where the next word is another.
#[tactic(auto, using(crate::proofs::PlainParts::literal_taken, crate::proofs::PlainParts::literal_left))]
#[inline(always)]
pub fn literal(wanted: &[u8], parts: &mut Parts) -> Result<(), Cause>
    ensures { Gives (λ _. (true, parts.new)) result (literal wanted.now parts.old) }
{
    if parts.option(wanted) {
        Ok(())
    } else {
        Err(Cause::Form)
    }
}
