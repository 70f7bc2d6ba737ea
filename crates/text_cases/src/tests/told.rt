//! Notes that are told one by one, as a worked report prints them.
ghost use Rattle.std.specs.Prelude.{◌≡◌};
ghost use Rattle.co_program.specs.Scripts.{IsScript};

use super::notes::{Callout, Queue, Row, Said, note_of};
use super::script_of;
use co_listener::Listener;
use co_program::{Script, actor_count};
use co_report::{SectionsOf, Subject};
use co_sbt::Seq;
use std::alloc::Global;
use std::marker::Brand;
use std::process::Abort;

/// Tells these notes, each of its actor.
pub(super) fn tell<L: Listener, R: Abort>(rt: &R, listener: &mut L, actors: u32, rows: &[Row])
    requires { actors ≡ L.actors listener.old }
{
    for row in rows {
        let actor = row.1;
        if actor < actors {
            listener.write(actor, &note_of(row)).expect(rt, "no memory");
        }
    }
}

/// Whether a text is these pieces, one behind the other.
fn is_joined(pieces: &[Seq<u8>], text: &[u8]) -> bool {
    let mut rest = text;
    for piece in pieces {
        match rest.strip_prefix(piece.as_slice()) {
            Some(behind) => rest = behind,
            None => return false,
        }
    }
    rest.is_empty()
}

/// Whether this is the report of a script after these notes.
fn is_report<S: Subject, R: Abort>(
    rt: &R,
    alloc: Global,
    script: &Script,
    rows: &[Row],
    wanted: &[u8],
) -> bool
    requires sound { IsScript script.now }
    requires subject { script.now ≡ S.script }
{
    let mut sections = SectionsOf::<S>::new(alloc, script).expect(rt, "no memory");
    tell(rt, &mut sections, actor_count(script), rows);
    let pieces = sections.pieces(alloc).expect(rt, "no memory");
    let right = is_joined(pieces.as_slice(), wanted);
    drop(pieces);
    right
}

/// Whether this is the report of a text's script of which these notes were told.
fn is_told<R: Abort>(rt: &R, alloc: Global, text: &[u8], rows: &[Row], wanted: &[u8]) -> bool {
    let script = script_of(rt, alloc, text);
    let right = is_report::<Brand, _>(rt, alloc, &script, rows, wanted);
    drop(script);
    right
}

/// What is told of the first firing of callout 0, due at one second.
static FIRING: [Row; 6] = [
    (0, 0, 0, Said::Of(Callout::Armed(1, true, 7, 0, 0, None))),
    (0, 0, 0, Said::At(0, Queue::Inserted(1))),
    (1, 1, 0, Said::At(0, Queue::Scanned(1))),
    (2, 1, 0, Said::At(0, Queue::Popped(1))),
    (1, 1, 0, Said::Of(Callout::Picked(0, 1, Some(7)))),
    (3, 1, 0, Said::At(0, Queue::Freed)),
];

#[test]
fn notes_are_printed_as_they_are_told(rt: HostRuntime) {
    let script =
        b"callout 1\nfuncs 1\ntimer 0 mpsafe\nfunc 0\nclient 0\nreset 0 =u4294967296 f0 a7\ncpu 0\ntick u4294967296\n";
    let wanted =
        b"callout-report 1\ncallout 1\nhz 1000\ncpus 1\nwheel 256\nfuncs 1\ntimer 0 mpsafe\nfunc 0\nclient 0\n\
        reset 0 =u4294967296 f0 a7\ncpu 0\ntick u4294967296\nhistories\ntimer 0\n0 c0/0 reset u4294967296 pr u4294967296 f0 a7 cpu - = armed 0 #0 p0 off -\n\
        2 p0/0 pick #0 p0 u4294967296 = go f0 a7\nwheel 0\n1 c0/0 insert i0 #0 u4294967296 = at u4294967296\n0 p0/0 scan u4294967296 = count 1\n\
        1 p0/0 pop = got i0 #0 u4294967296\n3 p0/0 free = freed\nactor c0\nactor p0\nend\n";
    assert!(rt;
        is_told(
            &rt,
            rt.alloc(),
            script.as_slice(),
            &FIRING,
            wanted.as_slice()
        )
    );
}
