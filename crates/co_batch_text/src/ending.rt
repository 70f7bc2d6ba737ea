//! The end of an answer.
ghost use Rattle.std.specs.Prelude.{◌≡◌, Ok, IfOk};

use co_sbt::{NoMemory, Seq};
use co_service::Closing;

/// A text, and what is left of the service that answered it. `NoMemory` where there was no room for the text.
pub(crate) fn with_closing(
    text: Result<Seq<u8>, NoMemory>,
    closing: Closing,
) -> Result<(Seq<u8>, Closing), NoMemory>
    ensures { IfOk result (λ out. (text ≡ Ok out.0) × (out.1 ≡ closing)) }
{
    Ok((text?, closing))
}
