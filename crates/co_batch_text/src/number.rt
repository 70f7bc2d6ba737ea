//! Numbers in their ranges.
ghost use Rattle.std.specs.Prelude.{◌≡◌, ◌^◌, true, false, nat_lt, MatchResult};
ghost use Rattle.co_text.specs.Fallible.{Gives};
ghost use Rattle.co_text.specs.Taking.{lone};
ghost use Rattle.co_text.specs.Values.{number};
ghost use Rattle.co_text.specs.declared.Cause.TheVariants.{Number};
ghost use Rattle.co_batch.specs.Stated.{stated};

use co_text::{Cause, Words};

/// A number of 64 bits, else `Number`.
pub(crate) fn narrow(number: u128) -> Result<u64, Cause>
    ensures { MatchResult result (λ n. (n ≡ number) × (nat_lt number (2 ^ 64) ≡ true)) (λ c. (c ≡ Number) × (nat_lt number (2 ^ 64) ≡ false)) }
{
    if number < 0x1_0000_0000_0000_0000 {
        Ok(number as u64)
    } else {
        Err(Cause::Number)
    }
}

/// A number of 64 bits, behind which no word follows. `Form`, or else `Number`.
pub(crate) fn lone_narrow(words: &mut Words) -> Result<u64, Cause>
    ensures { Gives (λ n. n) result (stated (λ n. nat_lt n (2 ^ 64)) (lone number words.old)) }
{
    narrow(words.lone_number()?)
}
