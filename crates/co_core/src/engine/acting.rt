//! What an actor does in a step.
ghost use Rattle.co_object.specs.declared.op.Op.{Op};
ghost use Rattle.co_program.specs.Action.{Asks};
ghost use Rattle.co_program.specs.Indexed.{ActionCounts, action_of};
ghost use Rattle.co_core.specs.Acting.{HasDone, MayDo};
ghost use Rattle.co_core.specs.Written.{booked_at};

use super::Engine;
use crate::ledger::Author;
use co_listener::Listener;
use co_object::{Op, QOp, RunOp};
use co_program::{Action, Asked, PendingInsert, Script};
use co_sbt::NoMemory;

impl Engine {
    /// An action that nothing blocks, other than that of an actor that has finished. The answer is how many notes it makes.
    #[inline(always)]
    pub(crate) fn act<N: Listener>(
        &mut self,
        script: &Script,
        actor: u32,
        listener: &mut N,
        action: &Action,
    ) -> Result<u32, NoMemory>
        requires may { MayDo script.now N.actors self.old listener.old actor (action_of script.now actor (booked_at self.old.ledger actor) action.now) }
        requires counted { ActionCounts (booked_at self.old.ledger actor) action.now }
        ensures { HasDone script.now N.has N.actors N.room actor (action_of script.now actor (booked_at self.old.ledger actor) action.now) self.old self.new listener.old listener.new result }
    {
        match action {
            Action::Nothing => Ok(0),
            Action::Silent(to) => {
                self.go(script, actor, to);
                Ok(0)
            }
            Action::Take { to, .. } => {
                self.go(script, actor, to);
                Ok(0)
            }
            Action::Asks { act, asked } => {
                let author = Author { actor, act: *act };
                self.ask(script, author, listener, asked)
            }
        }
    }

    /// What is asked is done, and noted. Not inlined, since a step that notes nothing would pay for its locals too.
    #[inline(never)]
    fn ask<N: Listener>(
        &mut self,
        script: &Script,
        author: Author,
        listener: &mut N,
        asked: &Asked,
    ) -> Result<u32, NoMemory>
        requires { MayDo script.now N.actors self.old listener.old author.actor (Asks author.act asked.now) }
        ensures { HasDone script.now N.has N.actors N.room author.actor (Asks author.act asked.now) self.old self.new listener.old listener.new result }
    {
        match asked {
            Asked::Callout { i, op } => match op {
                Op::Call(call) => self.call(script, author, listener, *i, call, op),
                Op::Run(run) => self.serve(script, author, listener, *i, run),
            },
            Asked::Queue { cpu, op } => self.queue(script, author, listener, *cpu, op),
            Asked::Itself(kind) => self.own(script, author, listener, *kind),
        }
    }

    /// The start or the end of a service. A Pick is never due: it is made with its Pop.
    fn serve<N: Listener>(
        &mut self,
        script: &Script,
        author: Author,
        listener: &mut N,
        i: u32,
        run: &RunOp,
    ) -> Result<u32, NoMemory>
        requires { MayDo script.now N.actors self.old listener.old author.actor (Asks author.act (Asked.Callout i (Op.Run run.now))) }
        ensures { HasDone script.now N.has N.actors N.room author.actor (Asks author.act (Asked.Callout i (Op.Run run.now))) self.old self.new listener.old listener.new result }
    {
        match run {
            RunOp::Begin { n, cpu } => self.begin(script, author, listener, i, *n, *cpu),
            RunOp::End { n, cpu } => self.end(script, author, listener, i, *n, *cpu),
            RunOp::Pick { .. } => unreachable!(),
        }
    }

    /// What a CPU's queue is asked. A Remove is never due, since its call makes it, and a Free is made with its End.
    fn queue<N: Listener>(
        &mut self,
        script: &Script,
        author: Author,
        listener: &mut N,
        cpu: u32,
        op: &QOp,
    ) -> Result<u32, NoMemory>
        requires { MayDo script.now N.actors self.old listener.old author.actor (Asks author.act (Asked.Queue cpu op.now)) }
        ensures { HasDone script.now N.has N.actors N.room author.actor (Asks author.act (Asked.Queue cpu op.now)) self.old self.new listener.old listener.new result }
    {
        match op {
            QOp::Insert { i, n, t } => {
                let parcel = PendingInsert {
                    act: author.act,
                    i: *i,
                    n: *n,
                    due: *t,
                    cpu,
                };
                self.land(script, author.actor, listener, &parcel)
            }
            QOp::Scan { now } => self.scan(script, author, listener, cpu, *now),
            QOp::Pop => self.next(script, author, listener, cpu, false),
            QOp::PopDirect => self.next(script, author, listener, cpu, true),
            QOp::Remove { .. } => unreachable!(),
            QOp::Free => unreachable!(),
            QOp::FreeDirect => unreachable!(),
        }
    }
}
