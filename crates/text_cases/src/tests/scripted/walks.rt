//! A worked script's walk, as lists and note by note.
ghost use Rattle.std.specs.Prelude.{◌^◌};

use super::IN_TRANSIT;
use crate::tests::script_of;
use co_core::{run_steps, tell_walk};
use co_listener::Listener;
use co_object::Note;
use co_sbt::{NoMemory, Seq};
use std::alloc::Global;
use std::process::Abort;

/// Keeps who makes each note, and at which position of its place.
#[derive(Drop)]
struct Told {
    notes: Seq<(u32, u64)>,
}

impl Listener for Told {
    ghost actors = { λ x. 2 ^ 32 };

    ghost has = { λ x made. Unit {0} };

    ghost room = { λ x. 0 };

    fn write(&mut self, actor: u32, note: &Note) -> Result<(), NoMemory> {
        self.notes.push((actor, note.pos))
    }
}

/// Whether the lists have so many notes each.
fn have(lists: &[Seq<Note>], counts: &[usize]) -> bool {
    for (list, count) in lists.iter().zip(counts) {
        if list.as_slice().len() != *count {
            return false;
        }
    }
    lists.len() == counts.len()
}

/// Whether the walk of a text's script makes lists of so many notes, and tells these notes, of an actor and at a position each.
fn walks<R: Abort>(
    rt: &R,
    alloc: Global,
    text: &str,
    counts: &[usize],
    notes: &[(u32, u64)],
) -> bool {
    let script = script_of(rt, alloc, text.as_bytes());
    let made = run_steps(alloc, &script).expect(rt, "no memory");
    let has = have(made.as_slice(), counts);
    drop(made);
    let mut told = Told {
        notes: Seq::new(alloc),
    };
    tell_walk(alloc, &script, &mut told).expect(rt, "no memory");
    drop(script);
    has && told.notes.as_slice() == notes
}

#[test]
fn keeps_a_list_for_each_actor_and_tells_as_it_walks(rt: HostRuntime) {
    let notes = [(0, 0), (0, 0), (1, 1), (1, 1)];
    assert!(rt; walks(&rt, rt.alloc(), IN_TRANSIT, &[2, 2, 0, 0], &notes));
}
