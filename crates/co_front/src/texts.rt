//! What the programs say of an input that they refuse.
ghost use Rattle.std.specs.Prelude.{◌≡◌, IfOk};
ghost use Rattle.co_front.specs.Texts.{cause_word, fault_text, refusal_text};

use co_sbt::{NoMemory, Seq};
use co_text::Cause;
use itoa::Buffer;
use std::alloc::Global;

/// A cause as a word.
pub fn cause_word(cause: Cause) -> &'static [u8]
    ensures { result.now ≡ cause_word cause }
{
    match cause {
        Cause::Size => b"size".as_slice(),
        Cause::Cut => b"cut".as_slice(),
        Cause::Byte => b"byte".as_slice(),
        Cause::Version => b"version".as_slice(),
        Cause::Word => b"word".as_slice(),
        Cause::Order => b"order".as_slice(),
        Cause::Form => b"form".as_slice(),
        Cause::Number => b"number".as_slice(),
        Cause::Kind => b"kind".as_slice(),
        Cause::Falls => b"falls".as_slice(),
        Cause::Many => b"many".as_slice(),
        Cause::Timer => b"timer".as_slice(),
        Cause::Note => b"note".as_slice(),
    }
}

/// The line `line N: cause`. NoMemory is its only error.
pub fn fault_text(alloc: Global, line: u64, cause: &[u8]) -> Result<Seq<u8>, NoMemory>
    ensures { IfOk result (λ text. text ≡ fault_text line cause.now) }
{
    let mut text = Seq::copy_of(alloc, b"line ".as_slice())?;
    let mut digits = Buffer::new();
    text.extend_from_slice(digits.format(line).as_bytes())?;
    text.extend_from_slice(b": ".as_slice())?;
    text.extend_from_slice(cause)?;
    text.push(b'\n')?;
    Ok(text)
}

/// The text of a refusal: the first bad line and its cause. NoMemory is its only error.
pub fn refusal_text(alloc: Global, line: u64, cause: Cause) -> Result<Seq<u8>, NoMemory>
    ensures { IfOk result (λ text. text ≡ refusal_text (record { line = line; cause = cause })) }
{
    fault_text(alloc, line, cause_word(cause))
}
