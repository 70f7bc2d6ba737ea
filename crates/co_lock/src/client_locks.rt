//! The locks of clients.
ghost use Rattle.std.specs.Prelude.{◌≡◌, ◌<◌, IfOk, Some, length, slice_get, true, false};

use crate::client_lock::ClientLock;
use crate::{Hold, LockKind};
use co_sbt::{NoMemory, Seq};
use std::alloc::Global;
use std::marker::Model;
use std::sync::Wait;

/// The locks of clients, numbered from 0, which contracts see as the list of their kinds.
#[derive(Drop)]
pub struct ClientLocks {
    locks: Vec<ClientLock>,
}

impl Model for ClientLocks {
    ghost use Rattle.std.specs.Prelude.{List, map};
    ghost use Rattle.co_lock.specs.declared.lock_kind.LockKind.{LockKind};
    ghost use Rattle.co_lock.specs.Locks.{kind_of, AreNumbered};

    ghost Value = { List LockKind };

    ghost view = { λ l. map kind_of l.locks.items };

    ghost invariant = { λ l. AreNumbered 0 l.locks.items };
}

impl ClientLocks {
    /// Locks of these kinds, in this order, which nobody holds. `NoMemory` where there is no room for them.
    pub fn new(alloc: Global, kinds: &[LockKind]) -> Result<ClientLocks, NoMemory>
        ensures { IfOk result (λ locks. locks ≡ kinds.now) }
    {
        let mut locks = Seq::new(alloc);
        for kind in kinds {
            let number = locks.as_slice().len();
            locks.push(ClientLock::new(number, *kind))?;
        }
        Ok(ClientLocks {
            locks: locks.into_vec(),
        })
    }

    /// Takes lock `id`, which excludes all others; a reader-writer lock is taken in write mode, as by `rw_wlock`. It waits
    /// while another holds the lock.
    pub fn lock<R: Wait + Sync>(&self, rt: &R, id: u32) -> Hold<'_>
        requires { id < length self.now }
        ensures { result ≡ record { id = id; exclusive = true } }
    {
        let lock = &self.locks[id as usize];
        lock.lock(rt)
    }

    /// Takes the reader-writer lock `id` in read mode, as by `rw_rlock`. It waits while another holds the lock in write
    /// mode.
    pub fn read<R: Wait + Sync>(&self, rt: &R, id: u32) -> Hold<'_>
        requires { slice_get self.now id ≡ Some LockKind.Rw }
        ensures { result ≡ record { id = id; exclusive = false } }
    {
        let shared = &self.locks[id as usize];
        shared.read(rt)
    }
}
