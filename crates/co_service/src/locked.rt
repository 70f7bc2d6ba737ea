//! The desks of a running service behind their locks, and what it has beside them.
ghost use Rattle.std.specs.Prelude.{◌≡◌, ◌<◌, ◌≤◌, ◌^◌, IfOk, vec_len};
ghost use Rattle.co_service.specs.Fresh.{AreDeskParts};

use crate::closing::Ending;
use crate::desk_parts::DeskParts;
use co_desk::{Books, Desk, Name, Params, push};
use co_sbt::{NoMemory, Room};
use std::alloc::Global;
use std::marker::Model;
use std::sync::atomic::AtomicU32;
use std::sync::{Condvar, Mutex, MutexGuard};

/// A desk behind its lock, with what is told of its changes.
#[derive(Drop)]
pub(crate) struct Locked<N: Name> {
    pub(crate) desk: Mutex<Desk<N>>,
    pub(crate) changed: Condvar,
    /// Two cache lines, so that a thread at the next CPU doesn't wait for what is stored here.
    gap: [u64; 16],
}

/// A desk's lock. It lends nothing. Contracts see the CPU of the desk that it locks.
#[derive(Drop)]
pub struct DeskHold<'a, N: Name> {
    pub(crate) desk: MutexGuard<'a, Desk<N>>,
}

impl<'a, N: Name> Model for DeskHold<'a, N> {
    ghost use Rattle.std.specs.Prelude.{ℕ};

    ghost Value = { ℕ };

    ghost view = { λ h. h.desk.value.cpu };
}

impl<N: Name> DeskHold<'_, N> {
    /// The CPU whose desk is locked.
    pub fn cpu(&self) -> u32
        ensures { result ≡ self.now }
    {
        self.desk.cpu()
    }
}

/// The desks behind their locks.
fn lock_all<N: Name>(
    alloc: Global,
    params: &Params,
    all_parts: Vec<DeskParts>,
) -> Result<Vec<Locked<N>>, NoMemory>
    requires few { params.now.cpus < 2 ^ 32 }
    requires all_parts { AreDeskParts N.name params.now all_parts.items }
    ensures { IfOk result (λ desks. vec_len desks ≡ params.now.cpus) }
{
    let mut desks = Vec::new(alloc);
    let mut cpu = 0;
    for parts in all_parts {
        let locked = Locked {
            desk: Mutex::new(parts.into_desk(cpu, params)),
            changed: Condvar::new(),
            gap: [0; 16],
        };
        push(&mut desks, locked)?;
        cpu += 1;
    }
    Ok(desks)
}

/// The books of the desks, which nothing locks any more.
pub(crate) fn open_desks<N: Name>(desks: Vec<Locked<N>>, room: Room<Books<N>>) -> Vec<Books<N>>
    requires { vec_len desks ≤ room.spare }
{
    let mut room = room;
    for locked in desks {
        let Locked {
            desk,
            changed: _,
            gap: _,
        } = locked;
        room.push(desk.into_inner().into_books());
    }
    room.into_seq().into_vec()
}

/// The hints of `callouts` callouts, all of which begin at CPU 0. `NoMemory` where there is no room for them.
fn first_hints(alloc: Global, callouts: usize) -> Result<Vec<AtomicU32>, NoMemory> {
    let mut hints = Vec::new(alloc);
    for _ in 0..callouts {
        push(&mut hints, AtomicU32::new(0))?;
    }
    Ok(hints)
}

/// What a service has beside its places and parameters.
#[derive(Drop)]
pub(crate) struct Inside<N: Name> {
    pub(crate) desks: Vec<Locked<N>>,
    pub(crate) hints: Vec<AtomicU32>,
    pub(crate) ending: Mutex<Ending<N>>,
}

/// The desks behind their locks, the hints, and what the end needs.
pub(crate) fn make_inside<N: Name>(
    alloc: Global,
    params: &Params,
    all_parts: Vec<DeskParts>,
) -> Result<Inside<N>, NoMemory>
    requires few { params.now.cpus < 2 ^ 32 }
    requires all_parts { AreDeskParts N.name params.now all_parts.items }
    ensures { IfOk result (λ inside. vec_len inside.desks ≡ params.now.cpus) }
{
    let desks = lock_all(alloc, params, all_parts)?;
    let hints = first_hints(alloc, params.specs.as_slice().len())?;
    let ending = Mutex::new(Ending::new(alloc)?);
    Ok(Inside {
        desks,
        hints,
        ending,
    })
}
