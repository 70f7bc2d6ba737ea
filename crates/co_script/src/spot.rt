//! Places in a text.
ghost use Rattle.std.specs.Prelude.{◌≡◌, ◌∷◌, ◌≤◌, ◌<◌, length, drop, IfSome, MatchOption};
ghost use Rattle.co_text.specs.Fallible.{Gives};
ghost use Rattle.co_text.specs.Lines.{Line, lines_of, content};

use co_text::{Cause, next_content, next_line};

/// A place in a text, where a line begins, or its end.
#[derive(Clone, Copy)]
pub(crate) struct Spot {
    /// How many lines stand before it.
    pub number: u64,
    /// How many bytes stand before it.
    pub at: usize,
}

impl Spot {
    /// The start of a text.
    pub fn start() -> Spot
        ensures { result ≡ record { number = 0; at = 0 } }
    {
        Spot { number: 0, at: 0 }
    }
}

/// The line of a text that begins at this byte without its line feed, whether it has one, and the byte behind it. None at
/// the end of the text.
pub(crate) fn line_at(text: &[u8], at: usize) -> Option<(&[u8], bool, usize)>
    requires { at ≤ length text.now }
    ensures line { MatchOption result (at ≡ length text.now)
        (λ x. lines_of (drop at text.now) ≡ record { bytes = x.0.now; ended = x.1 } ∷ lines_of (drop x.2 text.now)) }
    ensures further { IfSome result (λ x. (at < x.2) × (x.2 ≤ length text.now)) }
{
    let Some((line, ended, after)) = next_line(text.split_at(at).1) else {
        return None;
    };
    Some((line, ended, text.len() - after.len()))
}

/// The part before its comment of the line that begins at this byte, as `content` gives it, and the byte behind the line.
/// None at the end of the text.
#[inline(always)]
pub(crate) fn content_at(text: &[u8], at: usize) -> Option<(Result<&[u8], Cause>, usize)>
    requires { at ≤ length text.now }
    ensures line { MatchOption result (at ≡ length text.now)
        (λ x. (line : Line) × (lines_of (drop at text.now) ≡ line ∷ lines_of (drop x.1 text.now)) × Gives (λ part. part.now) x.0 (content line)) }
    ensures further { IfSome result (λ x. (at < x.1) × (x.1 ≤ length text.now)) }
{
    let Some((part, after)) = next_content(text.split_at(at).1) else {
        return None;
    };
    Some((part, text.len() - after.len()))
}
