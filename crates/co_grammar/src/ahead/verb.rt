//! The verb at the front of a text.
ghost use Rattle.std.specs.Prelude.{◌≡◌, true, IfSome};
ghost use Rattle.co_grammar.specs.Ahead.{verb_word, is_old, BeginsWith};

use super::operand::behind;
use crate::keyword::Verb;

/// This verb, and what stands behind its word, where a text begins with that.
#[inline(always)]
fn named<'a>(text: &'a [u8], word: &[u8], verb: Verb) -> Option<(Verb, &'a [u8])>
    requires word { word.now ≡ verb_word verb }
    requires old { is_old verb ≡ true }
    ensures { IfSome result (λ x. BeginsWith text.now x.0 x.1.now) }
{
    match behind(text, word) {
        Some(rest) => Some((verb, rest)),
        None => None,
    }
}

/// The verb whose word begins a text, and what stands behind the word. `init` and `retire` are not looked for.
#[inline(always)]
pub(crate) fn verb_ahead(text: &[u8]) -> Option<(Verb, &[u8])>
    ensures { IfSome result (λ x. BeginsWith text.now x.0 x.1.now) }
{
    // The first byte decides which words are compared.
    match text {
        [b'a', ..] => verb_ahead_a(text),
        [b'd', ..] => verb_ahead_d(text),
        [b'l', ..] => named(text, b"lock".as_slice(), Verb::Lock),
        [b'n', ..] => named(text, b"now".as_slice(), Verb::Now),
        [b'p', ..] => named(text, b"pending".as_slice(), Verb::Pending),
        [b'r', ..] => verb_ahead_r(text),
        [b's', ..] => verb_ahead_s(text),
        [b't', ..] => verb_ahead_t(text),
        [b'u', ..] => named(text, b"unlock".as_slice(), Verb::Unlock),
        _ => None,
    }
}

/// The same of a text that begins with an `a`.
#[inline(always)]
fn verb_ahead_a(text: &[u8]) -> Option<(Verb, &[u8])>
    ensures { IfSome result (λ x. BeginsWith text.now x.0 x.1.now) }
{
    match named(text, b"adrain".as_slice(), Verb::AsyncDrain) {
        Some(found) => Some(found),
        None => named(text, b"active".as_slice(), Verb::Active),
    }
}

/// The same of a text that begins with a `d`.
#[inline(always)]
fn verb_ahead_d(text: &[u8]) -> Option<(Verb, &[u8])>
    ensures { IfSome result (λ x. BeginsWith text.now x.0 x.1.now) }
{
    match named(text, b"drain".as_slice(), Verb::Drain) {
        Some(found) => Some(found),
        None => named(text, b"deactivate".as_slice(), Verb::Deactivate),
    }
}

/// The same of a text that begins with an `r`.
#[inline(always)]
fn verb_ahead_r(text: &[u8]) -> Option<(Verb, &[u8])>
    ensures { IfSome result (λ x. BeginsWith text.now x.0 x.1.now) }
{
    match named(text, b"reset".as_slice(), Verb::Reset) {
        Some(found) => Some(found),
        None => named(text, b"rlock".as_slice(), Verb::ReadLock),
    }
}

/// The same of a text that begins with an `s`.
#[inline(always)]
fn verb_ahead_s(text: &[u8]) -> Option<(Verb, &[u8])>
    ensures { IfSome result (λ x. BeginsWith text.now x.0 x.1.now) }
{
    match named(text, b"stop".as_slice(), Verb::Stop) {
        Some(found) => Some(found),
        None => named(text, b"schedule".as_slice(), Verb::Schedule),
    }
}

/// The same of a text that begins with a `t`.
#[inline(always)]
fn verb_ahead_t(text: &[u8]) -> Option<(Verb, &[u8])>
    ensures { IfSome result (λ x. BeginsWith text.now x.0 x.1.now) }
{
    match named(text, b"ticks".as_slice(), Verb::Ticks) {
        Some(found) => Some(found),
        None => named(text, b"tick".as_slice(), Verb::Tick),
    }
}
