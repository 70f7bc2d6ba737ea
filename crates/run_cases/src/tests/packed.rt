//! Runs whose notes are packed, and their reports, which threads print.
ghost use Rattle.run_cases.specs.Scenes.{CanRun};

use super::running::{is_legal, run_text, script_of};
use co_hand::OpenGate;
use co_object::Note;
use co_packed::PackedNote;
use co_program::Script;
use co_report::print_by_threads;
use co_run::run_packed;
use co_sbt::Seq;
use std::alloc::Global;
use std::process::Abort;
use std::sync::Wait;
use std::thread::Threads;

/// Two clients, two CPUs and a function that arms its callout again: most of the notes are of its services.
const TICKING: &str = "callout 1
cpus 2
funcs 2
lock 0 mtx
timer 0 mtx 0
timer 1 mpsafe
func 0
schedule me +0.01
func 1
pending me
client 0
lock 0
reset 0 +0.01 f0 a7 cpu 1 pr u3
stop 1
unlock
drain 1
client 1
reset 1 =1 f1 a1 cpu 1
adrain 1 f1
stop 0
cpu 0
tick 0.01
tick 1
cpu 1
tick 0.02
tick 0.03
tick 1
";

/// The bytes of these pieces, one behind the other.
fn joined(rt: &impl Abort, alloc: Global, pieces: &[Seq<u8>]) -> Seq<u8> {
    let mut text = Seq::new(alloc);
    for piece in pieces {
        text.extend_from_slice(piece.as_slice())
            .expect(rt, "no memory");
    }
    text
}

/// The report of a run with packed notes, in pieces.
fn packed_report<R: Threads + Wait + Sync + Abort>(
    rt: &R,
    alloc: Global,
    script: &Script,
) -> Seq<Seq<u8>>
    requires { CanRun script.now }
{
    let ran = run_packed(rt, alloc, script, &OpenGate {}).expect(rt, "no memory");
    let pieces = print_by_threads(rt, alloc, script, &ran.lists).expect(rt, "no memory");
    pieces
}

/// Whether a note is the same once it was packed.
fn comes_back(note: &Note) -> bool {
    let packed = PackedNote::of(note);
    packed.place() == note.place && packed.pos() == note.pos && packed.note() == *note
}

/// Each of these notes is the same once it was packed.
fn come_back(rt: &impl Abort, notes: &[Note]) {
    for note in notes {
        assert!(rt; comes_back(note));
    }
}

#[test]
fn a_report_that_threads_print_is_legal(rt: HostRuntime) {
    let alloc = rt.alloc();
    let script = script_of(&rt, alloc, TICKING.as_bytes());
    let pieces = packed_report(&rt, alloc, &script);
    drop(script);
    let text = joined(&rt, alloc, pieces.as_slice());
    assert!(rt; is_legal(alloc, text.as_slice()));
}

#[test]
fn a_packed_note_is_the_note(rt: HostRuntime) {
    let lists = run_text(&rt, rt.alloc(), TICKING.as_bytes(), &OpenGate {});
    for notes in lists.as_slice() {
        come_back(&rt, notes.as_slice());
    }
    drop(lists);
}
