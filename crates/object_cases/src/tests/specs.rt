//! What is fixed of the callouts of a case.
ghost use Rattle.std.specs.Prelude.{◌≡◌, false};
ghost use Rattle.co_object.specs.declared.LockUse.TheVariants.{Free};

use co_object::{LockUse, Spec};

/// A callout without a lock, which the interrupt of its CPU services where it is direct.
pub(crate) const fn spec(direct: bool) -> Spec
    ensures { result ≡ record { lock = Free; returns_unlocked = false; direct = direct } }
{
    Spec {
        lock: LockUse::Free,
        returns_unlocked: false,
        direct,
    }
}
