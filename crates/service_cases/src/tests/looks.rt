//! A scan looks at what stands in the buckets that it visits.
ghost use Rattle.std.specs.Prelude.{◌≡◌, ◌<◌};
ghost use Rattle.co_service.specs.Booted.{AreBooted};
ghost use Rattle.co_desk.specs.Views.{AreOf};
ghost use Rattle.service_cases.specs.Scenes.{IsScene};

use super::cast::{close_two, leave_two};
use super::stage::{arm, boot};
use co_sbt::{Sbt, Seq};
use co_service::{Fresh, Name, Passes, Service};
use std::alloc::Global;
use std::marker::Brand;
use std::process::Abort;
use std::sync::Wait;

/// The beginning of a bucket's time, as many buckets after the first.
fn bucket(number: u32) -> Sbt
    requires { number < 64 }
{
    if number == 0 {
        return Sbt::zero();
    }
    Sbt::from_ticks(number as i32, 256)
}

/// Each of 64 callouts is due at the beginning of a bucket of its own number.
fn arm_all<N: Name, R: Wait + Abort>(
    rt: &R,
    alloc: Global,
    service: &Service<N>,
    client: &mut Passes,
)
    requires scene { IsScene 1 1 64 2 service.now }
    requires client { AreOf N.name service.now client.old }
    ensures { AreOf N.name service.now client.new }
{
    let mut log = Vec::new(alloc);
    for i in 0u32..64 {
        arm(
            rt,
            service,
            &mut log,
            client,
            u64::from(i),
            i,
            bucket(i),
            0,
            None,
        );
    }
}

/// The count and the looks of a scan of the third bucket, with a callout in each of the first 64.
fn play<N: Name, R: Wait + Abort>(
    rt: &R,
    alloc: Global,
    fresh: Fresh,
    passes: Seq<Passes>,
) -> (u32, u64)
    requires name { fresh.name ≡ N.name }
    requires scene { IsScene 1 1 64 2 fresh.params }
    requires passes { AreBooted fresh.name fresh.params passes }
{
    let service = Service::<N>::open(alloc, fresh).expect(rt, "no memory");
    let (mut client, mut cpu) = leave_two(&service, passes);
    arm_all(rt, alloc, &service, &mut client);
    let scan = service.scan(rt, &mut cpu, 0, 0, bucket(2));
    close_two(rt, alloc, service, client, cpu);
    (scan.count, scan.looks)
}

#[test]
fn visited_buckets(rt: HostRuntime) {
    let begins = bucket(1).raw() == 16777216 && bucket(2).raw() == 33554432;
    let (fresh, passes) = boot(rt.alloc(), 1, 1, 64, false).expect(&rt, "no memory");
    let scanned = play::<Brand, _>(&rt, rt.alloc(), fresh, passes);
    assert!(rt; begins && scanned == (3, 12));
}
