//! The depot before the first step.
ghost use Rattle.std.specs.Prelude.{◌≡◌, None, replicate, IfOk};
ghost use Rattle.co_program.specs.Actors.{actor_count};
ghost use Rattle.co_program.specs.Scripts.{IsScript};
ghost use Rattle.co_core.specs.Booted.{MayBoot};
ghost use Rattle.co_core.specs.Stands.{ShowsStored};
ghost use Rattle.co_core.specs.Table.{table};
ghost use Rattle.co_wheel.specs.Cpu.{first_wheel};
ghost use Rattle.co_world.specs.World.{open_world};

use super::Depot;
use crate::copies::copies;
use co_bucket::WheelQueue;
use co_object::Spec;
use co_program::{Script, actor_count};
use co_sbt::{NoMemory, Seq};
use co_wheel::{Parcel, Wheel};
use std::alloc::Global;

/// The wheel of a CPU before the first step.
fn first_wheel(
    alloc: Global,
    script: &Script,
    direct: &[bool],
    cpu: u32,
) -> Result<Wheel<WheelQueue>, NoMemory>
    requires { MayBoot script.now direct.now }
    ensures { IfOk result (λ wheel. wheel ≡ first_wheel script.now.timers script.now.buckets cpu) }
{
    let specs = script.timers.as_slice();
    let queue = WheelQueue::new(alloc, specs.len() as u32, script.buckets, direct)?;
    Wheel::boot(alloc, cpu, specs, queue)
}

/// The wheels of all CPUs before the first step.
fn first_wheels(
    alloc: Global,
    script: &Script,
    direct: &[bool],
) -> Result<Vec<Wheel<WheelQueue>>, NoMemory>
    requires { MayBoot script.now direct.now }
    ensures { IfOk result (λ wheels. wheels.items ≡ table script.now.cpus (first_wheel script.now.timers script.now.buckets)) }
{
    let mut wheels = Seq::new(alloc);
    for cpu in 0..script.cpus {
        let wheel = first_wheel(alloc, script, direct, cpu)?;
        wheels.push(wheel)?;
    }
    Ok(wheels.into_vec())
}

/// `count` bags with nothing in them, one for each actor. `NoMemory` where there is no room for them.
fn empty_bags(alloc: Global, count: usize) -> Result<Vec<Option<Parcel>>, NoMemory>
    ensures { IfOk result (λ bags. bags.items ≡ replicate count None) }
{
    let mut bags = Seq::new(alloc);
    while bags.as_slice().len() < count {
        bags.push(None)?;
    }
    Ok(bags.into_vec())
}

impl Depot {
    /// The depot before the first step: every record is at CPU 0.
    pub(crate) fn boot(alloc: Global, script: &Script) -> Result<Depot, NoMemory>
        requires { IsScript script.now }
        ensures { IfOk result (λ depot. ShowsStored script.now depot (open_world script.now)) }
    {
        let direct = Spec::directs(alloc, script.timers.as_slice())?;
        let stands = copies(alloc, script.timers.as_slice().len(), 0)?;
        let bags = empty_bags(alloc, actor_count(script) as usize)?;
        let wheels = first_wheels(alloc, script, direct.as_slice())?;
        Ok(Depot {
            wheels,
            stands,
            bags,
        })
    }
}
