//! The client lock that a service takes before it calls a callout's function.
ghost use Rattle.std.specs.Prelude.{◌≡◌};
ghost use Rattle.co_lock.specs.Service.{hold_of};

use crate::Held;
use co_object::LockUse;

/// The hold under which a callout's function begins: of its lock, and exclusive but where the callout shares it. None
/// where the callout has no lock. As in callout(9), it shares the lock for `CALLOUT_SHAREDLOCK` alone.
pub fn hold_of(lock: LockUse) -> Option<Held>
    ensures { result ≡ hold_of lock }
{
    let (id, exclusive) = match lock {
        LockUse::Free => return None,
        LockUse::Mtx(id) => (id, true),
        LockUse::Rw(id) => (id, true),
        LockUse::RwShared(id) => (id, false),
    };
    Some(Held { id, exclusive })
}
