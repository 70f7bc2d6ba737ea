//! One lock of clients and the hold of it, which is made here alone.
ghost use Rattle.std.specs.Prelude.{◌≡◌, ◌<◌, ◌^◌, true, false};
ghost use Rattle.co_lock.specs.Locks.{excludes, kind_of};

use crate::{Held, LockKind};
use std::marker::Model;
use std::sync::{Mutex, MutexGuard, RwLock, RwLockReadGuard, RwLockWriteGuard, Wait};

/// What keeps others out, by the lock's kind. It guards no data of its own: who holds it may make calls.
#[derive(Drop)]
enum Latch {
    Mtx(Mutex<()>),
    Rw(RwLock<()>),
}

/// One lock, which knows its number. Its latch is in reach of its own methods alone, so that whoever takes another lock
/// gets a hold of another number.
#[derive(Drop)]
pub(crate) struct ClientLock {
    number: usize,
    latch: Latch,
}

/// The guard of a latch, by the mode in which the lock was taken.
#[derive(Drop)]
enum Guard<'a> {
    Mtx(MutexGuard<'a, ()>),
    Write(RwLockWriteGuard<'a, ()>),
    Read(RwLockReadGuard<'a, ()>),
}

/// A client lock that was taken and is not yet released. Its drop releases the lock.
///
/// Contracts see a hold as its `Held`. It borrows the `ClientLocks` of which it holds a lock, so these outlive it.
#[derive(Drop)]
pub struct Hold<'a> {
    id: u32,
    guard: Guard<'a>,
}

impl<'a> Model for Hold<'a> {
    ghost use Rattle.co_lock.specs.declared.held.Held.{Held};
    ghost use Rattle.co_lock.specs.Locks.{excludes};

    ghost Value = { Held };

    ghost view = { λ h. record { id = h.id; exclusive = excludes h.guard } };
}

impl ClientLock {
    /// The lock of this number and kind, which nobody holds.
    pub(crate) fn new(number: usize, kind: LockKind) -> ClientLock
        ensures number { result.number ≡ number }
        ensures kind { kind_of result ≡ kind }
    {
        let latch = match kind {
            LockKind::Mtx => Latch::Mtx(Mutex::new(())),
            LockKind::Rw => Latch::Rw(RwLock::new(())),
        };
        ClientLock { number, latch }
    }

    /// Takes this lock so that it excludes all others. It waits while another holds it.
    pub(crate) fn lock<R: Wait + Sync>(&self, rt: &R) -> Hold<'_>
        requires { self.now.number < 2 ^ 32 }
        ensures { result ≡ record { id = self.now.number; exclusive = true } }
    {
        let guard = match &self.latch {
            Latch::Mtx(mutex) => Guard::Mtx(mutex.lock(rt)),
            Latch::Rw(lock) => Guard::Write(lock.write(rt)),
        };
        Hold {
            id: self.number as u32,
            guard,
        }
    }

    /// Takes this reader-writer lock in read mode. It waits while another holds it in write mode.
    pub(crate) fn read<R: Wait + Sync>(&self, rt: &R) -> Hold<'_>
        requires number { self.now.number < 2 ^ 32 }
        requires kind { kind_of self.now ≡ LockKind.Rw }
        ensures { result ≡ record { id = self.now.number; exclusive = false } }
    {
        match &self.latch {
            Latch::Rw(lock) => Hold {
                id: self.number as u32,
                guard: Guard::Read(lock.read(rt)),
            },
            Latch::Mtx(_) => unreachable!(),
        }
    }
}

impl<'a> Hold<'a> {
    /// The lock's number.
    pub fn id(&self) -> u32
        ensures { result ≡ self.now.id }
    {
        self.id
    }

    /// The hold excludes all others: it is of a mutex, or of a reader-writer lock in write mode.
    pub fn exclusive(&self) -> bool
        ensures { result ≡ self.now.exclusive }
    {
        match &self.guard {
            Guard::Mtx(_) | Guard::Write(_) => true,
            Guard::Read(_) => false,
        }
    }

    /// What is held, as plain data.
    pub fn held(&self) -> Held
        ensures { result ≡ self.now }
    {
        Held {
            id: self.id(),
            exclusive: self.exclusive(),
        }
    }
}
