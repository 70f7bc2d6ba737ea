//! What the ledger says of who holds a lock, and how many Scans a CPU has made.
ghost use Rattle.std.specs.Prelude.{◌≡◌, ◌<◌, get_or, length};
ghost use Rattle.std.specs.List.{list_any};
ghost use Rattle.co_world.specs.Blocked.{holds_exclude, is_excluded_by};

use super::Ledger;
use co_lock::Held;

/// The two may not hold at once.
fn excludes(held: &Held, other: &Held) -> bool
    ensures { result ≡ holds_exclude held.now other.now }
{
    held.id == other.id && (held.exclusive || other.exclusive)
}

fn is_excluded_by(held: &Held, other: Option<Held>) -> bool
    ensures { result ≡ is_excluded_by held.now other }
{
    match other {
        None => false,
        Some(other) => excludes(held, &other),
    }
}

impl Ledger {
    /// Whether an actor has a hold that excludes this one.
    pub(crate) fn is_locked(&self, held: &Held) -> bool
        ensures { result ≡ list_any (λ cursor. is_excluded_by held.now cursor.hold) self.now.cursors }
    {
        match self.holders.get(held.id as usize) {
            Some(holders) => holders.exclude(held.exclusive),
            // No lock that a script declares is beyond the table.
            None => self.is_held(held),
        }
    }

    /// Whether an actor has a hold that excludes this one, by the cursors of all actors in their programs.
    fn is_held(&self, held: &Held) -> bool
        ensures { result ≡ list_any (λ cursor. is_excluded_by held.now cursor.hold) self.now.cursors }
    {
        self.cursors
            .iter()
            .any(|cursor| is_excluded_by(held, cursor.hold))
    }

    /// How many Scans the CPU's journal has.
    pub(crate) fn scans(&self, cpu: u32) -> u64
        requires { cpu < length self.now.scans }
        ensures { result ≡ get_or self.now.scans cpu 0 }
    {
        self.scans[cpu as usize]
    }
}
