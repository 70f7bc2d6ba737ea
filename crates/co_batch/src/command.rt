//! The commands of one language.
ghost use Rattle.std.specs.Prelude.{◌≡◌, true, false, nat_lt, MatchResult};
ghost use Rattle.co_text.specs.declared.Cause.TheVariants.{Number};
ghost use Rattle.co_text.specs.Fallible.{Gives};
ghost use Rattle.co_text.specs.Taking.{lone};
ghost use Rattle.co_text.specs.Values.{number};
ghost use Rattle.co_batch.specs.Language.{Language};
ghost use Rattle.co_batch.specs.Reading.{statement};
ghost use Rattle.co_batch.specs.Stated.{stated};

use co_sbt::Sbt;
use co_text::{Cause, Words};

/// A command of a language, which `language` defines.
pub trait Command: Copy + Drop {
    ghost language: { Language Self };

    /// The word of the version line.
    fn name() -> &'static [u8]
        ensures { result.now ≡ language.name };

    /// The word of the count line.
    fn counted() -> &'static [u8]
        ensures { result.now ≡ language.counted };

    /// The command of a line, by its first word and the words after it. `Form` where it isn't of a form of the language,
    /// else `Number` where a number is out of its range or names what doesn't exist.
    fn read(count: u32, first: &[u8], words: &mut Words) -> Result<Self, Cause>
        ensures { Gives (λ c. c) result (statement language count first.now words.old) };

    /// The time to which it brings the clock, if it does.
    fn moment(&self) -> Option<Sbt>
        ensures { result ≡ language.moment self.now };
}

/// The number of an object, below the count, else `Number`.
pub fn object(count: u32, number: u128) -> Result<u32, Cause>
    ensures { MatchResult result (λ i. (i ≡ number) × (nat_lt number count ≡ true)) (λ c. (c ≡ Number) × (nat_lt number count ≡ false)) }
{
    if number < count as u128 {
        Ok(number as u32)
    } else {
        Err(Cause::Number)
    }
}

/// The number of an object, behind which no word follows, below the count. `Form`, or else `Number`.
pub fn lone_object(count: u32, words: &mut Words) -> Result<u32, Cause>
    ensures { Gives (λ i. i) result (stated (λ i. nat_lt i count) (lone number words.old)) }
{
    object(count, words.lone_number()?)
}
