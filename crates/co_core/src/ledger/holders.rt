//! How many actors hold each lock.
ghost use Rattle.std.specs.Prelude.{◌≡◌};
ghost use Rattle.co_core.specs.Holders.{MayHoldOneMore, HaveRoom, excludes_any, fewer, one_more_hold, no_holders, released, hold_taken};

use co_lock::Held;

/// How many actors hold a lock.
#[derive(Clone, Copy)]
pub(crate) struct Holders {
    /// How many hold it in read mode.
    pub shared: u64,
    /// How many hold it so that it excludes all others: a mutex, or in write mode.
    pub exclusive: u64,
}

impl Holders {
    /// Nobody.
    pub(crate) fn none() -> Holders
        ensures { result ≡ no_holders }
    {
        Holders {
            shared: 0,
            exclusive: 0,
        }
    }

    /// Whether some of them shut out a hold, which is exclusive or shared.
    pub(crate) fn exclude(&self, exclusive: bool) -> bool
        ensures { result ≡ excludes_any exclusive self.now }
    {
        self.exclusive > 0 || (exclusive && self.shared > 0)
    }

    fn more(self, exclusive: bool) -> Holders
        requires { MayHoldOneMore self }
        ensures { result ≡ one_more_hold exclusive self }
    {
        if exclusive {
            Holders {
                exclusive: self.exclusive + 1,
                ..self
            }
        } else {
            Holders {
                shared: self.shared + 1,
                ..self
            }
        }
    }

    fn fewer(self, exclusive: bool) -> Holders
        ensures { result ≡ fewer exclusive self }
    {
        if exclusive {
            Holders {
                exclusive: self.exclusive.saturating_sub(1),
                ..self
            }
        } else {
            Holders {
                shared: self.shared.saturating_sub(1),
                ..self
            }
        }
    }
}

fn take(holders: &mut Vec<Holders>, hold: Option<Held>)
    requires { HaveRoom holders.old.items }
    ensures { holders.new.items ≡ hold_taken hold holders.old.items }
{
    let Some(held) = hold else {
        return;
    };
    let lock = held.id as usize;
    if lock < holders.len() {
        holders[lock] = holders[lock].more(held.exclusive);
    }
}

fn release(holders: &mut Vec<Holders>, hold: Option<Held>)
    ensures { holders.new.items ≡ released hold holders.old.items }
{
    let Some(held) = hold else {
        return;
    };
    let lock = held.id as usize;
    if lock < holders.len() {
        holders[lock] = holders[lock].fewer(held.exclusive);
    }
}

/// An actor that had one hold, if any, has another now.
pub(crate) fn rehold(holders: &mut Vec<Holders>, from: Option<Held>, to: Option<Held>)
    requires { HaveRoom (released from holders.old.items) }
    ensures { holders.new.items ≡ hold_taken to (released from holders.old.items) }
{
    release(holders, from);
    take(holders, to);
}
