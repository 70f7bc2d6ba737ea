//! What all actors of a run share.
ghost use Rattle.std.specs.Prelude.{◌≡◌, ◌≤◌, ◌^◌};
ghost use Rattle.co_program.specs.Scripts.{IsScript};
ghost use Rattle.co_service.specs.Fresh.{AreNamed};
ghost use Rattle.co_run.specs.Acting.{HasLocks, params_of};
ghost use Rattle.co_run.specs.Once.{HasLocks-prop, IsScript-prop};
ghost use Rattle.co_run.specs.Roomy.{AreShort};

use co_hand::Gate;
use co_lock::ClientLocks;
use co_program::Script;
use co_service::{Name, Service};

/// What all actors of a run share, and what they all rely on.
#[derive(Drop)]
pub(crate) struct Shared<'a, N: Name, G: Gate> {
    /// The script that is played.
    pub(crate) script: &'a Script,
    /// The running service, on which all calls are made.
    pub(crate) service: &'a Service<N>,
    /// The client locks that the script declares.
    pub(crate) locks: &'a ClientLocks,
    /// Through which an actor goes before each of its acts.
    pub(crate) gate: &'a G,
    /// No function of the script has more acts.
    pub(crate) longest: u32,
    ghost valid: { IsScript script.now } by { IsScript-prop script.now },
    ghost lockable: { HasLocks script.now } by { HasLocks-prop script.now },
    ghost kinds: { locks.now ≡ script.now.locks },
    ghost params: { service.now ≡ params_of script.now },
    ghost named: { AreNamed N.name (params_of script.now) },
    ghost short: { AreShort script.now longest },
    ghost few: { longest ≤ 2 ^ 16 },
}
