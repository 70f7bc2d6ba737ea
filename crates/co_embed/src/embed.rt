//! A CPU's callouts.
ghost use Rattle.std.specs.Prelude.{◌≡◌, IfOk, replicate};
ghost use Rattle.co_embed.specs.Embedded.{IsMade, new_embedded};
ghost use Rattle.co_queue.specs.Timers.{IsSize, IsWheel};

use crate::Refusal;
use crate::sizes::{are_sizes, directs};
use co_bucket::WheelQueue;
use co_sbt::NoMemory;
use co_wheel::Wheel;
use std::alloc::Global;
use std::marker::Model;

/// A CPU's callouts: its wheel, and for each callout the words of its function and of its drain function.
///
/// The wheel knows each function by the number 0 alone. The word of a callout's function is that of its last reset that was
/// accepted, which is the one that is armed or waits for its lock, if any: a reset of a callout that waits for its lock
/// cancels that call.
#[derive(Drop)]
pub struct Embed {
    pub(crate) wheel: Wheel<WheelQueue>,
    pub(crate) funcs: Vec<u64>,
    pub(crate) drains: Vec<u64>,
}

impl Model for Embed {
    ghost use Rattle.co_embed.specs.Embedded.{Embedded, embedded_of, IsEmbed};

    ghost Value = { Embedded };

    ghost view = { embedded_of };

    ghost invariant = { IsEmbed };
}

impl Embed {
    /// The callouts of CPU `cpu`, none yet, for the ids below `callouts`, of which the last `direct` are for those that the
    /// CPU's interrupt services.
    ///
    /// `Invalid` where `callouts` is not from 1 to 2^20, `buckets` no power of two from 16 to 65536, `direct` more than
    /// `callouts`, or `cpu` 2^32 - 2 or more. `NoMemory` for want of memory alone. No other call takes any.
    pub fn new(
        alloc: Global,
        cpu: u32,
        buckets: u32,
        callouts: u32,
        direct: u32,
    ) -> Result<Embed, Refusal>
        ensures { IsMade result cpu buckets callouts direct }
    {
        if !are_sizes(cpu, buckets, callouts, direct) {
            return Err(Refusal::Invalid);
        }
        match build(alloc, cpu, buckets, callouts, callouts - direct) {
            Ok(embed) => Ok(embed),
            Err(NoMemory {}) => Err(Refusal::NoMemory),
        }
    }

    /// The CPU.
    pub fn cpu(&self) -> u32
        ensures { result ≡ self.now.cpu.callouts.cpu }
    {
        self.wheel.cpu()
    }
}

/// The wheel of a CPU with no callout yet, for sizes that may be.
fn empty_wheel(
    alloc: Global,
    cpu: u32,
    buckets: u32,
    callouts: u32,
    first: u32,
) -> Result<Wheel<WheelQueue>, NoMemory>
    requires size { IsSize callouts }
    requires buckets { IsWheel buckets }
    ensures { IfOk result (λ wheel. wheel ≡ (new_embedded cpu buckets callouts first).cpu) }
{
    let direct = directs(alloc, callouts, first)?;
    let queue = WheelQueue::new(alloc, callouts, buckets, direct.as_slice())?;
    Wheel::new(alloc, cpu, callouts, queue)
}

/// The word 0 for each callout. `NoMemory` where there is no room for them.
fn no_words(alloc: Global, callouts: u32) -> Result<Vec<u64>, NoMemory>
    ensures { IfOk result (λ words. words.items ≡ replicate callouts 0) }
{
    Ok(vec![in alloc; 0; callouts as usize]?)
}

/// What a CPU is made of, for sizes that may be.
fn build(
    alloc: Global,
    cpu: u32,
    buckets: u32,
    callouts: u32,
    first: u32,
) -> Result<Embed, NoMemory>
    requires size { IsSize callouts }
    requires buckets { IsWheel buckets }
    ensures { IfOk result (λ e. e ≡ new_embedded cpu buckets callouts first) }
{
    let funcs = no_words(alloc, callouts)?;
    let drains = no_words(alloc, callouts)?;
    let wheel = empty_wheel(alloc, cpu, buckets, callouts, first)?;
    Ok(Embed {
        wheel,
        funcs,
        drains,
    })
}
