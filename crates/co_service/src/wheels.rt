//! The wheels of a service before the first call.
ghost use Rattle.std.specs.Prelude.{◌≡◌, IfOk};
ghost use Rattle.co_wheel.specs.Cpu.{first_wheel};
ghost use Rattle.co_desk.specs.Params.{AreParams, directs};

use co_bucket::WheelQueue;
use co_desk::Params;
use co_sbt::NoMemory;
use co_wheel::Wheel;
use std::alloc::Global;

/// The wheel of a CPU before the first call.
pub(crate) fn first_wheel(
    alloc: Global,
    params: &Params,
    direct: &[bool],
    cpu: u32,
) -> Result<Wheel<WheelQueue>, NoMemory>
    requires params { AreParams params.now }
    requires direct { direct.now ≡ directs params.now }
    ensures { IfOk result (λ wheel. wheel ≡ first_wheel params.now.specs params.now.buckets cpu) }
{
    let specs = params.specs.as_slice();
    let queue = WheelQueue::new(alloc, specs.len() as u32, params.buckets, direct)?;
    Wheel::boot(alloc, cpu, specs, queue)
}
