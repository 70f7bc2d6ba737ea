//! What an actor asks in its acts, with the room for its notes.
ghost use Rattle.std.specs.Prelude.{◌≡◌, ◌<◌, ◌≤◌, ◌+◌, ◌^◌, OnErr, OnOk, false, length, true};
ghost use Rattle.co_object.specs.declared.Op.TheVariants.{Run};
ghost use Rattle.co_program.specs.declared.Script.{Script};
ghost use Rattle.co_program.specs.Action.{Asks};
ghost use Rattle.co_program.specs.Indexed.{stage_of};
ghost use Rattle.co_program.specs.declared.Asked.TheVariants.{Callout, Queue};
ghost use Rattle.co_run.specs.Ready.{HasGoneOn, HasRoomFor, HasTried, IsDue};
ghost use Rattle.co_run.specs.Roomy.{is_serving, room_for};

use crate::actor::Actor;
use crate::book::Book;
use crate::shared::Shared;
use co_hand::Gate;
use co_object::{Op, QOp, RunOp};
use co_program::{Asked, Role, Stage, role_of};
use co_sbt::NoMemory;
use co_service::Name;
use std::sync::Wait;

/// The room for the notes of what is asked. A step of a service has it already.
fn room_for(longest: u32, asked: &Asked) -> u32
    requires { longest ≤ 2 ^ 16 }
    ensures { result ≡ room_for longest asked.now }
{
    match asked {
        Asked::Itself(_) => 1,
        Asked::Callout {
            op: Op::Call(_),
            ..
        } => 3,
        Asked::Callout { op: Op::Run(_), .. } => 0,
        Asked::Queue {
            op: QOp::Scan { .. },
            ..
        } => 1,
        Asked::Queue { .. } => 8 + 6 * longest,
    }
}

/// Makes room for `count` notes. Within a function there is room already, and none is asked for. After `NoMemory` the
/// room is as before.
fn make_room<B: Book>(stage: &Stage, book: &mut B, count: u32) -> Result<(), NoMemory>
    ensures free { (s : Script) → is_serving (stage_of s stage.now) ≡ false → OnOk result (count ≤ B.spare book.new) }
    ensures serving { (s : Script) → is_serving (stage_of s stage.now) ≡ true → B.spare book.new ≡ B.spare book.old }
    ensures none { count ≡ 0 → B.spare book.new ≡ B.spare book.old }
    ensures err { OnErr result (B.spare book.new ≡ B.spare book.old) }
    ensures rests { OnErr result ((s : Script) → is_serving (stage_of s stage.now) ≡ false) }
    ensures some { OnErr result (1 ≤ count) }
    ensures few { length (B.notes book.old) + B.spare book.old < 2 ^ 56 → length (B.notes book.new) + B.spare book.new < 2 ^ 56 }
    ensures notes { B.notes book.new ≡ B.notes book.old }
{
    if count == 0 {
        return Ok(());
    }
    match *stage {
        Stage::Firing(_, _) | Stage::Drained(_, _) => Ok(()),
        _ => book.reserve(count),
    }
}

impl<'a, B: Book> Actor<'a, B> {
    /// Makes room for the notes of what is asked, which is due in the program. After `NoMemory` the room is as before, and the
    /// actor is between two services.
    pub(crate) fn make_ready<N: Name, G: Gate>(
        &mut self,
        shared: &Shared<'_, N, G>,
        act: u64,
        asked: &Asked,
    ) -> Result<(), NoMemory>
        requires due { IsDue B.notes B.spare shared.now.script.now shared.now.longest N.name self.old (Asks act asked.now) }
        ensures tried { HasTried B.notes B.spare shared.now.script.now shared.now.longest N.name self.old self.new result }
        ensures room { OnOk result (HasRoomFor B.notes B.spare shared.now.script.now shared.now.longest N.name (room_for shared.now.longest asked.now) self.new (Asks act asked.now)) }
    {
        let _ = act;
        let count = room_for(shared.longest, asked);
        make_room(&self.cursor.stage, &mut self.book, count)
    }

    /// A step on its CPU's queue, which is due in the program. There is room for its notes.
    pub(crate) fn ask_queue<N: Name, G: Gate, R: Wait>(
        &mut self,
        rt: &R,
        shared: &Shared<'_, N, G>,
        act: u64,
        cpu: u32,
        op: &QOp,
    )
        requires can { HasRoomFor B.notes B.spare shared.now.script.now shared.now.longest N.name (room_for shared.now.longest (Queue cpu op.now)) self.old (Asks act (Queue cpu op.now)) }
        ensures { HasGoneOn B.notes B.spare shared.now.script.now shared.now.longest N.name self.old self.new }
    {
        match *op {
            QOp::Scan { now } => self.scan(rt, shared, act, cpu, now),
            QOp::Pop => self.pop(rt, shared, act, cpu, false),
            QOp::PopDirect => self.pop(rt, shared, act, cpu, true),
            _ => unreachable!(),
        }
    }

    /// A step of its service, which is due in the program. There is room for its notes already.
    pub(crate) fn ask_run<N: Name, G: Gate, R: Wait>(
        &mut self,
        rt: &R,
        shared: &Shared<'_, N, G>,
        act: u64,
        i: u32,
        op: &RunOp,
    )
        requires due { IsDue B.notes B.spare shared.now.script.now shared.now.longest N.name self.old (Asks act (Callout i (Run op.now))) }
        ensures { HasGoneOn B.notes B.spare shared.now.script.now shared.now.longest N.name self.old self.new }
    {
        match *op {
            RunOp::Begin { n, cpu } => self.begin(rt, shared, act, i, n, cpu),
            RunOp::End { n, cpu } => {
                let direct = matches!(role_of(shared.script, self.number), Role::Interrupt(_));
                self.end(rt, shared, act, i, n, cpu, direct);
            }
            RunOp::Pick { .. } => unreachable!(),
        }
    }
}
