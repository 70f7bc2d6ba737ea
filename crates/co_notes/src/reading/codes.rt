//! Codes of replies: numbers of 32 bits with a sign, each in its one spelling.
ghost use Rattle.std.specs.Prelude.{◌∷◌, ◌+◌, ◌<◌, ◌^◌, decimal};
ghost use Rattle.co_text.specs.Fallible.{Gives};
ghost use Rattle.co_text.specs.Taking.{next};
ghost use Rattle.co_notes.specs.NoteValues.{negative, positive, code};

use crate::reading::parts::Parts;
use crate::reading::values::below;
use co_text::Cause;

/// A number below 0, by its size.
fn negative(size: u128) -> Result<i32, Cause>
    requires { size < 2 ^ 31 + 1 }
    ensures { Gives (λ z. z) result (negative size) }
{
    if size == 0 {
        return Err(Cause::Form);
    }
    Ok((-(size as i64)) as i32)
}

/// A code below 0, by the digits behind its sign.
fn negative_code(digits: &[u8]) -> Result<i32, Cause>
    ensures { Gives (λ z. z) result (code (45 ∷ digits.now)) }
{
    negative(below(0x8000_0001, digits)?)
}

/// A code without a sign.
fn positive_code(word: &[u8]) -> Result<i32, Cause>
    ensures { Gives (λ z. z) result (positive word.now) }
{
    Ok(below(0x8000_0000, word)? as i32)
}

fn code_of(word: &[u8]) -> Result<i32, Cause>
    ensures { Gives (λ z. z) result (code word.now) }
{
    match word {
        [] => Err(Cause::Form),
        [b'-', digits @ ..] => negative_code(digits),
        [_, ..] => positive_code(word),
    }
}

/// A code from 0 on.
#[tactic(auto, using(crate::proofs::PlainParts::code_below, crate::proofs::PlainParts::code_above))]
#[inline(always)]
fn plain_code(number: u64) -> Result<i32, Cause>
    ensures { Gives (λ z. z) result (code (decimal number)) }
{
    if number < 0x8000_0000 {
        Ok(number as i32)
    } else {
        Err(Cause::Form)
    }
}

/// A code below 0, by the number behind its sign.
#[inline(always)]
fn plain_negative(size: u64) -> Result<i32, Cause>
    ensures { Gives (λ z. z) result (code (45 ∷ decimal size)) }
{
    if size < 0x8000_0001 {
        negative(u128::from(size))
    } else {
        Err(Cause::Form)
    }
}

/// A code, taken as a word.
fn code_by_word(parts: &mut Parts) -> Result<i32, Cause>
    ensures { Gives (λ x. (x, parts.new)) result (next code parts.old) }
{
    code_of(parts.word()?)
}

/// A code that is no number in its shortest spelling.
#[tactic(auto, using(crate::proofs::PlainParts::code_carried))]
#[inline(always)]
fn signed_code(parts: &mut Parts) -> Result<i32, Cause>
    ensures { Gives (λ x. (x, parts.new)) result (next code parts.old) }
{
    match parts.lettered(b'-') {
        Some(size) => plain_negative(size),
        None => code_by_word(parts),
    }
}

/// A number of 32 bits with a sign. `Form` where the next word is none.
#[tactic(auto, using(crate::proofs::PlainParts::code_carried))]
pub fn code(parts: &mut Parts) -> Result<i32, Cause>
    ensures { Gives (λ x. (x, parts.new)) result (next code parts.old) }
{
    match parts.number() {
        Some(number) => plain_code(number),
        None => signed_code(parts),
    }
}
