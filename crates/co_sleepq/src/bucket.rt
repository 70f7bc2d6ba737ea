//! The sleeps on channels that share a bucket.
ghost use Rattle.std.specs.Prelude.{◌≡◌, ◌+◌, ◌<◌, ◌≤◌, [], ◌∷◌, ◌++◌, ◌==◌, length, IfOk};
ghost use Rattle.std.specs.List.{find};
ghost use Rattle.co_sleepq.specs.Sleepers.{elsewhere, without};
ghost use Rattle.co_sleepq.specs.Slots.{channel_bucket, BucketView};

use crate::Sleep;
use co_sbt::NoMemory;
use std::alloc::Global;
use std::marker::Model;

/// How many buckets there are.
pub const BUCKETS: usize = 256;

/// The bucket of a channel, as of an address whose low bits say little.
pub fn bucket_of(chan: u64) -> usize
    ensures value { result ≡ channel_bucket chan }
    ensures below { result < 256 }
{
    ((chan / 256 % 256 + chan % 256) % 256) as usize
}

/// Sleeps in the order in which they began, with room that is taken once.
#[derive(Drop)]
pub struct Bucket {
    sleeps: Vec<Sleep>,
}

impl Model for Bucket {
    ghost use Rattle.std.specs.Prelude.{vec_capacity};
    ghost use Rattle.co_sleepq.specs.Slots.{BucketView};

    ghost Value = { BucketView };

    ghost view = { λ b. record { sleeps = b.sleeps.items; room = vec_capacity b.sleeps } };
}

impl Bucket {
    /// No sleeps, with room for `room` of them. `NoMemory` where there is none for these.
    pub fn new(alloc: Global, room: u32) -> Result<Bucket, NoMemory>
        ensures empty { IfOk result (λ bucket. bucket.sleeps ≡ []) }
        ensures room { IfOk result (λ bucket. room ≤ bucket.room) }
    {
        let sleeps = Vec::with_capacity(alloc, room as usize)?;
        Ok(Bucket { sleeps })
    }

    /// The sleeps of the bucket, in the order in which they began.
    pub fn as_slice(&self) -> &[Sleep]
        ensures { result.now ≡ self.now.sleeps }
    {
        self.sleeps.as_slice()
    }

    /// The first sleep on a channel. None exactly where there is none.
    pub fn first_on(&self, chan: u64) -> Option<Sleep>
        ensures { result ≡ find (λ x. x.chan == chan) self.now.sleeps }
    {
        self.sleeps.iter().find(|x| x.chan == chan).copied()
    }

    /// A new sleep at the end, for which there is room.
    pub fn push(&mut self, x: Sleep)
        requires { length self.old.sleeps < self.old.room }
        ensures { self.new ≡ record self.old { sleeps = self.old.sleeps ++ x ∷ [] } }
    {
        self.sleeps.push_reserved(x);
    }

    /// Takes out all on a channel.
    pub fn leave(&mut self, chan: u64)
        ensures { self.new ≡ record self.old { sleeps = elsewhere chan self.old.sleeps } }
    {
        self.sleeps.retain(|x| x.chan != chan);
    }

    /// Takes out the sleep of a number.
    pub fn end(&mut self, s: u64)
        ensures { self.new ≡ record self.old { sleeps = without s self.old.sleeps } }
    {
        self.sleeps.retain(|x| x.s != s);
    }
}
