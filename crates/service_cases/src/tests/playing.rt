//! What the actors of a service do with it from its opening on, scene by scene, and the notes of that.
ghost use Rattle.std.specs.Prelude.{◌≡◌, IfOk};
ghost use Rattle.co_service.specs.Booted.{AreBooted};
ghost use Rattle.service_cases.specs.Scenes.{PlaysOn};

use super::held::boot_locked;
use super::notes::{Row, are};
use super::stage::boot;
use super::{alone, direct, held, moving, words};
use crate::Scene;
use co_object::Note;
use co_sbt::{NoMemory, Seq};
use co_service::{Fresh, Name, Passes, Service};
use std::alloc::Global;
use std::marker::Brand;
use std::process::Abort;
use std::sync::Wait;

/// The actors take their passes and act, and what they do is noted in the log.
fn play<N: Name, R: Wait + Abort + Sync>(
    rt: &R,
    alloc: Global,
    scene: Scene,
    service: &mut Service<N>,
    log: &mut Vec<Note>,
    passes: Seq<Passes>,
)
    requires scene { PlaysOn scene service.old }
    requires passes { AreBooted N.name service.old passes }
{
    match scene {
        Scene::Alone => alone::play(rt, service, log, passes),
        Scene::Direct => direct::play(rt, service, log, passes),
        Scene::Moved => moving::play(rt, service, log, passes),
        Scene::Waiting => held::play(rt, alloc, service, log, passes),
        Scene::InWords => words::play(rt, service, log, passes),
    }
}

/// The notes of a scene, on a service that is opened for it.
fn notes_of<N: Name, R: Wait + Abort + Sync>(
    rt: &R,
    alloc: Global,
    scene: Scene,
    fresh: Fresh,
    passes: Seq<Passes>,
) -> Vec<Note>
    requires name { fresh.name ≡ N.name }
    requires scene { PlaysOn scene fresh.params }
    requires passes { AreBooted fresh.name fresh.params passes }
{
    let mut service = Service::<N>::open(alloc, fresh).expect(rt, "no memory");
    let mut log = Vec::new(alloc);
    play(rt, alloc, scene, &mut service, &mut log, passes);
    drop(service);
    log
}

/// Stops where the notes of a scene, on what was booted for it, are not as the rows tell, and names it.
fn is_played<R: Wait + Abort + Sync>(
    rt: &R,
    alloc: Global,
    name: &str,
    scene: Scene,
    booted: Result<(Fresh, Seq<Passes>), NoMemory>,
    rows: &[Row],
)
    requires scene { IfOk booted (λ made. PlaysOn scene made.0.params) }
    requires passes { IfOk booted (λ made. AreBooted made.0.name made.0.params made.1) }
{
    let (fresh, passes) = booted.expect(rt, "no memory");
    let notes = notes_of::<Brand, _>(rt, alloc, scene, fresh, passes);
    let right = are(notes.as_slice(), rows);
    drop(notes);
    assert!(rt; right, "{name}");
}

#[test]
fn scenes_are_played(rt: HostRuntime) {
    let alloc = rt.alloc();
    let booted = boot(alloc, 1, 2, 1, false);
    is_played(&rt, alloc, "alone", Scene::Alone, booted, &alone::NOTES);
    let booted = boot(alloc, 2, 1, 1, true);
    is_played(&rt, alloc, "direct", Scene::Direct, booted, &direct::NOTES);
    let booted = boot(alloc, 1, 2, 1, false);
    is_played(&rt, alloc, "moved", Scene::Moved, booted, &moving::NOTES);
    let booted = boot_locked(alloc);
    is_played(&rt, alloc, "waiting", Scene::Waiting, booted, &held::NOTES);
    let booted = boot(alloc, 1, 1, 1, false);
    is_played(
        &rt,
        alloc,
        "in words",
        Scene::InWords,
        booted,
        &words::NOTES,
    );
}
