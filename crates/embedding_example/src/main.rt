//! A program with timers in it: a client arms a callout, and its CPU calls the callout's function, which arms it again.
//!
//! One thread plays both parts here. In a program with threads each handle goes into a thread of its own, and all threads
//! share the timers.
#![tactic(auto)]

mod parts;

ghost use Rattle.std.specs.Prelude.{◌≡◌};
ghost use Rattle.embedding_example.specs.Example.{AreAllBeats, example};

use crate::parts::{Heart, boot};
use co_sbt::{NoMemory, Sbt};
use co_service::Name;
use co_timers::{Client, Cpu, Drained, Refused, Reset, Timers, TimersFresh, Turned};
use std::alloc::Global;
use std::marker::Brand;
use std::process::ExitCode;
use std::sync::Wait;

/// What became of the callout: the answer to the client that armed it, what each turn of the CPU did, and the answer to the drain.
#[derive(Drop)]
struct Story {
    armed: Result<Reset, Refused>,
    turns: [Turned; 3],
    drained: Result<Drained, Refused>,
    beats: u64,
}

/// The client arms its callout for 1.5 seconds. The CPU turns at 1.5, 2 and 2.5 seconds, and then the client drains the callout.
/// The heart has beaten as often as the turns say that functions were called.
fn play<N: Name, R: Wait + Sync>(rt: &R, client: &mut Client<'_, N>, cpu: &mut Cpu<'_, N>) -> Story
    requires example { cpu.old.others.passes.params ≡ example }
    ensures beats { AreAllBeats result.beats result.turns }
    ensures client { client.new.passes.params ≡ client.old.passes.params }
    ensures cpu { cpu.new.others.passes.params ≡ cpu.old.others.passes.params }
{
    let mut heart = Heart { beats: 0, arg: 0 };
    let armed = client.reset(rt, 0, Sbt::from_ticks(3, 2), Sbt::zero(), 0, 7, None, None);
    let first = cpu.turn(rt, Sbt::from_ticks(3, 2), &mut heart);
    let second = cpu.turn(rt, Sbt::from_ticks(4, 2), &mut heart);
    let third = cpu.turn(rt, Sbt::from_ticks(5, 2), &mut heart);
    let drained = client.drain(rt, 0, None);
    Story {
        armed,
        turns: [first, second, third],
        drained,
        beats: heart.beats,
    }
}

/// The timers from their opening to their end. Their name is that of `N`. Both handles are there, since nobody has left before.
fn run<N: Name, R: Wait + Sync>(
    rt: &R,
    alloc: Global,
    fresh: TimersFresh,
) -> Result<Story, NoMemory>
    requires name { fresh.name ≡ N.name }
    requires example { fresh.params ≡ example }
{
    let (timers, mut posts) = Timers::<N>::open(alloc, fresh)?;
    let mut client = posts.client(&timers, 0).unwrap();
    let mut cpu = posts.cpu_handle(&timers, 0).unwrap();
    let story = play(rt, &mut client, &mut cpu);
    posts.client_back(client);
    posts.cpu_back(cpu);
    drop(timers.close(rt, posts));
    Ok(story)
}

/// How many functions each turn called.
fn called(story: &Story) -> [u64; 3] {
    let [first, second, third] = story.turns;
    [
        first.others.called,
        second.others.called,
        third.others.called,
    ]
}

fn main(rt: HostRuntime) -> ExitCode {
    let Ok(fresh) = boot(rt.alloc()) else {
        return ExitCode::FAILURE;
    };
    let Ok(story) = run::<Brand, _>(&rt, rt.alloc(), fresh) else {
        return ExitCode::FAILURE;
    };
    let [first, second, third] = called(&story);
    let Story {
        armed,
        drained,
        beats,
        ..
    } = story;
    match println!(&rt;
        "armed: {armed:?}\ncalled: {first} at 1.5 s, {second} at 2 s, {third} at 2.5 s\ndrained: {drained:?}\nbeats: {beats}"
    ) {
        Ok(()) => ExitCode::SUCCESS,
        Err(_) => ExitCode::FAILURE,
    }
}
