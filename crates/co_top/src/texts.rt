//! The texts that the program itself writes.
ghost use Rattle.std.specs.Prelude.{◌≡◌};
ghost use Rattle.co_top.specs.Commands.{legal_text, unfit_word, usage_text};

use co_check::Unfit;

/// The line that is written where the words are no command.
pub(crate) fn usage_text() -> &'static [u8]
    ensures { result.now ≡ usage_text }
{
    b"usage: callout steps | run | check | gen N | soak N | kq | sleep | itimer | event\n".as_slice()
}

/// What is wrong with a report, as a word.
pub(crate) fn unfit_word(cause: Unfit) -> &'static [u8]
    ensures { result.now ≡ unfit_word cause }
{
    match cause {
        Unfit::Actor => b"actor".as_slice(),
        Unfit::Illegal => b"illegal".as_slice(),
        Unfit::Number => b"number".as_slice(),
        Unfit::Follows => b"follows".as_slice(),
        Unfit::Missing => b"missing".as_slice(),
    }
}

/// The line of a report whose verdict is Legal.
pub(crate) fn legal_text() -> &'static [u8]
    ensures { result.now ≡ legal_text }
{
    b"legal\n".as_slice()
}
