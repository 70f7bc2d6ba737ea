//! A callout on its way, as plain numbers.
ghost use Rattle.std.specs.Prelude.{◌≡◌, ◌≤◌, IfSome, get_or};
ghost use Rattle.co_embed.specs.Calls.{IsSent};
ghost use Rattle.co_embed.specs.Carrying.{kind_of, lock_of, number_of, packed, unpacked, IsParcelOf};

use crate::words::word_at;
use co_object::{LockUse, Spec};
use co_record::Carried;
use co_sbt::Sbt;
use co_wheel::Parcel;

/// A callout on its way to the CPU at which it is armed, as plain numbers. One that is landed as it was answered is the
/// callout that left.
#[repr(C)]
#[derive(Clone, Copy, Debug, PartialEq, Eq)]
pub struct CalloutParcel {
    pub due: u64,
    pub prec: u64,
    pub func: u64,
    pub arg: u64,
    /// How many armings it has had.
    pub made: u64,
    pub id: u32,
    /// The CPU to which it goes.
    pub cpu: u32,
    pub lock_kind: u32,
    pub lock: u32,
    pub returns_unlocked: u8,
    pub direct: u8,
    pub active: u8,
    pub known: u8,
}

/// The kind of a lock: 0 none, 1 a mutex, 2 a reader-writer lock, 3 one that is taken to read.
fn kind_of(lock: &LockUse) -> u32
    ensures { result ≡ kind_of lock.now }
{
    match lock {
        LockUse::Free => 0,
        LockUse::Mtx(_) => 1,
        LockUse::Rw(_) => 2,
        LockUse::RwShared(_) => 3,
    }
}

/// A lock's number, or 0 where there is none.
fn number_of(lock: &LockUse) -> u32
    ensures { result ≡ number_of lock.now }
{
    match *lock {
        LockUse::Free => 0,
        LockUse::Mtx(number) => number,
        LockUse::Rw(number) => number,
        LockUse::RwShared(number) => number,
    }
}

/// The lock of a kind and a number, where that is a kind. Without a lock the number says nothing.
pub(crate) fn lock_of(kind: u32, number: u32) -> Option<LockUse>
    ensures { result ≡ lock_of kind number }
{
    match kind {
        0 => Some(LockUse::Free),
        1 => Some(LockUse::Mtx(number)),
        2 => Some(LockUse::Rw(number)),
        3 => Some(LockUse::RwShared(number)),
        _ => None,
    }
}

/// What a parcel carries, with its function's word, as plain numbers.
fn pack(carried: &Carried, func: u64) -> CalloutParcel
    ensures { result ≡ packed carried.now func }
{
    CalloutParcel {
        due: carried.due.raw(),
        prec: carried.prec.raw(),
        func,
        arg: carried.arg,
        made: carried.made,
        id: carried.i,
        cpu: carried.cpu,
        lock_kind: kind_of(&carried.spec.lock),
        lock: number_of(&carried.spec.lock),
        returns_unlocked: u8::from(carried.spec.returns_unlocked),
        direct: u8::from(carried.spec.direct),
        active: u8::from(carried.active),
        known: u8::from(carried.known),
    }
}

/// A parcel as plain numbers, with its callout's function.
fn send(parcel: &Parcel, func: u64) -> CalloutParcel
    ensures { IsParcelOf parcel.now func result }
{
    pack(&parcel.carried(), func)
}

/// Callout `i` is in the parcel then, where it leaves, with its function of all these.
#[inline(always)]
pub(crate) fn send_if(leaves: &Option<Parcel>, funcs: &[u64], i: u32, parcel: &mut CalloutParcel)
    ensures { IsSent leaves.now (get_or funcs.now i 0) parcel.old parcel.new }
{
    if let Some(leaves) = leaves {
        *parcel = send(leaves, word_at(funcs, i));
    }
}

/// What these numbers carry, if anything.
pub(crate) fn unpack(parcel: &CalloutParcel) -> Option<Carried>
    ensures carried { result ≡ unpacked parcel.now }
    ensures armed { IfSome result (λ carried. 1 ≤ carried.made) }
{
    let due = Sbt::new(parcel.due)?;
    let prec = Sbt::new(parcel.prec)?;
    let lock = lock_of(parcel.lock_kind, parcel.lock)?;
    if parcel.made == 0 {
        return None;
    }
    Some(Carried {
        i: parcel.id,
        spec: Spec {
            lock,
            returns_unlocked: parcel.returns_unlocked != 0,
            direct: parcel.direct != 0,
        },
        active: parcel.active != 0,
        known: parcel.known != 0,
        due,
        prec,
        func: 0,
        arg: parcel.arg,
        cpu: parcel.cpu,
        made: parcel.made,
    })
}
