//! Parts of acts and specs, in their own types.
ghost use Rattle.std.specs.Prelude.{◌≡◌, ◌<◌, ◌≤◌, ◌^◌, true, length};
ghost use Rattle.co_text.specs.Fallible.{Gives};
ghost use Rattle.co_text.specs.Values.{signed_value};
ghost use Rattle.co_grammar.specs.Views.{who_view, where_view, lock_view, spec_view};
ghost use Rattle.co_grammar.specs.Checks.{spec_exists, is_i32, number_typed, argument_typed, ticks_typed, who_typed, where_typed};

use crate::raw::{RawLock, RawSpec, RawWhere, RawWho};
use co_object::{LockUse, Spec};
use co_program::{Script, Where, Who};
use co_text::{Cause, Integer};

/// The number of a callout, a lock, a function or a CPU; `Number` from 2^32 on.
pub fn number_of(number: u128) -> Result<u32, Cause>
    ensures { Gives (λ n. n) result (number_typed number) }
{
    match u32::try_from(number) {
        Ok(number) => Ok(number),
        Err(_) => Err(Cause::Number),
    }
}

/// The argument of a function; `Number` from 2^64 on.
pub fn argument_of(number: u128) -> Result<u64, Cause>
    ensures { Gives (λ n. n) result (argument_typed number) }
{
    match u64::try_from(number) {
        Ok(number) => Ok(number),
        Err(_) => Err(Cause::Number),
    }
}

fn is_i32(number: Integer) -> bool
    ensures { result ≡ is_i32 (signed_value number) }
{
    if number.negative {
        number.size <= 2_147_483_648
    } else {
        number.size <= 2_147_483_647
    }
}

fn i32_of(number: Integer) -> i32
    requires { is_i32 (signed_value number) ≡ true }
    ensures { result ≡ signed_value number }
{
    if number.negative {
        (-(number.size as i64)) as i32
    } else {
        number.size as i32
    }
}

/// A number of ticks; `Number` where it is none of 32 bits.
pub fn ticks_of(number: Integer) -> Result<i32, Cause>
    ensures { Gives (λ k. k) result (ticks_typed (signed_value number)) }
{
    if is_i32(number) {
        Ok(i32_of(number))
    } else {
        Err(Cause::Number)
    }
}

/// The callout of an act; `Number` from timer 2^32 on.
pub fn who_of(who: RawWho) -> Result<Who, Cause>
    ensures { Gives (λ w. w) result (who_typed (who_view who)) }
{
    match who {
        RawWho::Timer(timer) => Ok(Who::Timer(number_of(timer)?)),
        RawWho::Me => Ok(Who::Me),
    }
}

/// The CPU of an arming; `Number` from CPU 2^32 on.
pub fn where_of(place: RawWhere) -> Result<Where, Cause>
    ensures { Gives (λ p. p) result (where_typed (where_view place)) }
{
    match place {
        RawWhere::Home => Ok(Where::Home),
        RawWhere::Cpu(cpu) => Ok(Where::Cpu(number_of(cpu)?)),
        RawWhere::Here => Ok(Where::Here),
    }
}

fn small_of(number: u128) -> u32
    requires { number < 2 ^ 32 }
    ensures { result ≡ number }
{
    number as u32
}

/// The spec that a timer line states, where its lock is known to exist.
pub fn spec_of(script: &Script, spec: &RawSpec) -> Spec
    requires small { length script.now.locks ≤ 256 }
    requires exists { spec_exists script.now (lock_view spec.now.lock) ≡ true }
    ensures { result ≡ spec_view spec.now }
{
    let lock = match spec.lock {
        RawLock::Free => LockUse::Free,
        RawLock::Mtx(lock) => LockUse::Mtx(small_of(lock)),
        RawLock::Rw(lock) => LockUse::Rw(small_of(lock)),
        RawLock::RwShared(lock) => LockUse::RwShared(small_of(lock)),
    };
    Spec {
        lock,
        returns_unlocked: spec.returns_unlocked,
        direct: spec.direct,
    }
}
