//! The parts of a line between its spaces, taken one by one.
ghost use Rattle.std.specs.Prelude.{◌≡◌, ◌==◌, ◌≤◌, ◌∷◌, [], Ok, true, false, length, decimal, IfSome, MatchOption};
ghost use Rattle.std.specs.List.{position_or_len};
ghost use Rattle.co_text.specs.Fallible.{Gives};
ghost use Rattle.co_text.specs.Taking.{next, ended, option};
ghost use Rattle.co_notes.specs.Parts.{parts, parts_left, is_space};
ghost use Rattle.co_notes.specs.Plain.{by_word, is_actor_letter};

use crate::reading::plain::{ActorAct, behind_word, lettered_part, maker_part, number_part};
use co_text::Cause;
use std::marker::Model;

/// The number of bytes before the first one that is `end`; of all where none is.
#[tactic(auto, using(crate::proofs::PartSplits::place_here, crate::proofs::PartSplits::place_none))]
pub fn length_before(end: u8, text: &[u8]) -> usize
    ensures value { result ≡ position_or_len (λ c. c == end) text.now }
    ensures bound { result ≤ length text.now }
{
    for i in 0..text.len() {
        if text[i] == end {
            return i;
        }
    }
    text.len()
}

/// The first part of a text, and the text from the space on that ends it, if a space does.
fn split(text: &[u8]) -> (&[u8], &[u8])
    ensures { parts text.now ≡ result.0.now ∷ parts_left result.1.now }
{
    text.split_at(length_before(b' ', text))
}

/// What is left of a line behind a part: the space that ended it and all behind that, or nothing. Contracts see the list of the
/// parts that follow.
#[derive(Drop)]
pub struct Parts<'a> {
    rest: &'a [u8],
}

impl<'a> Model for Parts<'a> {
    ghost use Rattle.std.specs.Prelude.{ℕ, List};
    ghost use Rattle.co_notes.specs.Parts.{parts_left};

    ghost Value = { List (List ℕ) };

    ghost view = { λ p. parts_left p.rest.now };
}

impl<'a> Parts<'a> {
    /// The number that is the first part of a line in its shortest spelling, and the parts behind it.
    #[inline(always)]
    pub fn behind_number(line: &'a [u8]) -> Option<(u64, Parts<'a>)>
        ensures { IfSome result (λ r. parts line.now ≡ decimal r.0 ∷ r.1) }
    {
        let (number, rest) = number_part(line)?;
        Some((number, Parts { rest }))
    }

    /// The first part of a line, and the parts behind it.
    pub fn behind_word(line: &'a [u8]) -> (&'a [u8], Parts<'a>)
        ensures { parts line.now ≡ result.0.now ∷ result.1 }
    {
        let (part, rest) = split(line);
        (part, Parts { rest })
    }

    /// The text of the next part and of all behind it.
    #[tactic(auto, using(crate::proofs::PlainParts::left_none, crate::proofs::PlainParts::left_text))]
    #[inline(always)]
    fn text(&self) -> Option<&'a [u8]>
        ensures { MatchOption result (self.now ≡ []) (λ text. self.now ≡ parts text.now) }
    {
        match self.rest {
            [] => None,
            [_, text @ ..] => Some(text),
        }
    }

    /// The next part; `Form` where there is none.
    pub fn word(&mut self) -> Result<&'a [u8], Cause>
        ensures { Gives (λ word. (word.now, self.new)) result (next Ok self.old) }
    {
        match self.text() {
            None => Err(Cause::Form),
            Some(text) => {
                let (part, rest) = split(text);
                self.rest = rest;
                Ok(part)
            }
        }
    }

    /// A number of up to 19 digits that is next in its shortest spelling. Then it is taken.
    #[inline(always)]
    pub fn number(&mut self) -> Option<u64>
        ensures { MatchOption result (self.new ≡ self.old) (λ n. self.old ≡ decimal n ∷ self.new) }
    {
        let (number, rest) = number_part(self.text()?)?;
        self.rest = rest;
        Some(number)
    }

    /// The same of a number behind a letter.
    #[inline(always)]
    pub fn lettered(&mut self, letter: u8) -> Option<u64>
        requires { is_space letter ≡ false }
        ensures { MatchOption result (self.new ≡ self.old) (λ n. self.old ≡ (letter ∷ decimal n) ∷ self.new) }
    {
        let (number, rest) = lettered_part(letter, self.text()?)?;
        self.rest = rest;
        Some(number)
    }

    /// The same of the numbers of `A/M`.
    #[inline(always)]
    pub fn maker(&mut self) -> Option<ActorAct>
        ensures { MatchOption result (self.new ≡ self.old) (λ by. (is_actor_letter by.letter ≡ true) × (self.old ≡ by_word by ∷ self.new)) }
    {
        let (by, rest) = maker_part(self.text()?)?;
        self.rest = rest;
        Some(by)
    }

    /// Whether this word is next. Then it is taken.
    #[tactic(auto, using(crate::proofs::PlainParts::is_taken, crate::proofs::PlainParts::not_next))]
    #[inline(always)]
    pub fn option(&mut self, wanted: &[u8]) -> bool
        ensures { option wanted.now self.old ≡ Ok (result, self.new) }
    {
        let Some(text) = self.text() else {
            return false;
        };
        match behind_word(wanted, text) {
            Some(rest) => {
                self.rest = rest;
                true
            }
            None => false,
        }
    }

    /// Ok where no part follows, else `Form`.
    #[tactic(auto, using(crate::proofs::PartSplits::parts_not_ended))]
    pub fn end(&mut self) -> Result<(), Cause>
        ensures { Gives (λ _. true) result (ended self.old) }
    {
        match self.text() {
            None => Ok(()),
            Some(_) => Err(Cause::Form),
        }
    }
}
