//! The texts that the program itself writes.
ghost use Rattle.std.specs.Prelude.{◌≡◌};
ghost use Rattle.co_view_top.specs.Texts.{usage_text};

/// The line that is written where the words are no view.
pub(crate) fn usage_text() -> &'static [u8]
    ensures { result.now ≡ usage_text }
{
    b"usage: callout_view [lanes] | timer N | cpu N | summary | trace | svg\n".as_slice()
}
