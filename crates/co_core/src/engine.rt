//! One step after another: the ledger and the depot of a world.
ghost use Rattle.std.specs.Prelude.{◌≡◌};
ghost use Rattle.co_lock.specs.declared.held.Held.{Held};
ghost use Rattle.co_program.specs.Action.{Asks, Silent, Take};
ghost use Rattle.co_program.specs.Indexed.{cursor_of, after_silent};
ghost use Rattle.co_wheel.specs.Turns.{pop_of, free_of};
ghost use Rattle.co_core.specs.Acting.{GoesSilently, HasDone, MayDo};
ghost use Rattle.co_core.specs.Written.{MayMove, booked_at};

mod acting;

use crate::depot::Depot;
use crate::ledger::{Author, Ledger};
use co_listener::Listener;
use co_object::{CallOp, Op, OwnKind, QOp, QReply, RunOp};
use co_program::{Asked, PendingInsert, Script, SilentStep};
use co_sbt::{NoMemory, Sbt};
use co_wheel::{CallOut, Started};

/// What is written, and where the records are.
#[derive(Drop)]
pub(crate) struct Engine {
    pub ledger: Ledger,
    pub depot: Depot,
    /// What the last call on a callout answered. Each call overwrites it: to make a place anew takes some stores each time.
    pub out: CallOut,
}

impl Engine {
    /// A step without a note.
    #[inline(always)]
    fn go(&mut self, script: &Script, actor: u32, to: &SilentStep)
        requires { MayMove script.now self.old.ledger actor to.now }
        ensures silent { GoesSilently script.now actor (Silent (after_silent (cursor_of script.now actor (booked_at self.old.ledger actor)) to.now)) self.old self.new }
        ensures take { (held : Held) → GoesSilently script.now actor (Take held (after_silent (cursor_of script.now actor (booked_at self.old.ledger actor)) to.now)) self.old self.new }
    {
        self.ledger.go(script, actor, to);
    }

    /// An act that comes to no callout. The answer is how many notes it makes, as it is of all that follow.
    fn own<N: Listener>(
        &mut self,
        script: &Script,
        author: Author,
        listener: &mut N,
        kind: OwnKind,
    ) -> Result<u32, NoMemory>
        requires { MayDo script.now N.actors self.old listener.old author.actor (Asks author.act (Asked.Itself kind)) }
        ensures { HasDone script.now N.has N.actors N.room author.actor (Asks author.act (Asked.Itself kind)) self.old self.new listener.old listener.new result }
    {
        self.ledger.write_own(script, author, listener, kind)?;
        Ok(1)
    }

    /// A covered call on a callout that stands still. `whole` is the call as an operation: it is noted as it stands, since to put
    /// it together anew takes longer.
    fn call<N: Listener>(
        &mut self,
        script: &Script,
        author: Author,
        listener: &mut N,
        i: u32,
        op: &CallOp,
        whole: &Op,
    ) -> Result<u32, NoMemory>
        requires may { MayDo script.now N.actors self.old listener.old author.actor (Asks author.act (Asked.Callout i (Op.Call op.now))) }
        requires whole { whole.now ≡ Op.Call op.now }
        ensures { HasDone script.now N.has N.actors N.room author.actor (Asks author.act (Asked.Callout i (Op.Call op.now))) self.old self.new listener.old listener.new result }
    {
        let cpu = self.depot.stand(i);
        let listed = self.depot.call(cpu, i, op, author.actor, &mut self.out);
        let removed = self
            .ledger
            .write_removal(script, author, listener, cpu, i, self.out.removed)?;
        self.ledger.write_callout(script, author, listener, i, whole, &self.out.reply, listed)?;
        let inserted = self
            .ledger
            .write_insertion(script, author.actor, listener, self.out.inserted)?;
        Ok(removed + 1 + inserted)
    }

    /// A callout that was on its way comes to the CPU at which it is armed: one note.
    fn land<N: Listener>(
        &mut self,
        script: &Script,
        actor: u32,
        listener: &mut N,
        parcel: &PendingInsert,
    ) -> Result<u32, NoMemory>
        requires { MayDo script.now N.actors self.old listener.old actor (Asks parcel.now.act (Asked.Queue parcel.now.cpu (QOp.Insert parcel.now.i parcel.now.n parcel.now.due))) }
        ensures { HasDone script.now N.has N.actors N.room actor (Asks parcel.now.act (Asked.Queue parcel.now.cpu (QOp.Insert parcel.now.i parcel.now.n parcel.now.due))) self.old self.new listener.old listener.new result }
    {
        let at = self.depot.land(parcel.cpu, actor);
        self.ledger
            .write_landing(script, actor, listener, parcel, at)?;
        Ok(1)
    }

    /// A tick of a CPU: one note.
    fn scan<N: Listener>(
        &mut self,
        script: &Script,
        author: Author,
        listener: &mut N,
        cpu: u32,
        now: Sbt,
    ) -> Result<u32, NoMemory>
        requires { MayDo script.now N.actors self.old listener.old author.actor (Asks author.act (Asked.Queue cpu (QOp.Scan now))) }
        ensures { HasDone script.now N.has N.actors N.room author.actor (Asks author.act (Asked.Queue cpu (QOp.Scan now))) self.old self.new listener.old listener.new result }
    {
        let count = self.depot.scan(cpu, now);
        let op = QOp::Scan { now };
        self.ledger
            .write_queue(script, author, listener, cpu, op, QReply::Count(count))?;
        Ok(1)
    }

    /// The first callout that has come due goes into service: of a CPU, or of its interrupt where `direct`.
    fn next<N: Listener>(
        &mut self,
        script: &Script,
        author: Author,
        listener: &mut N,
        cpu: u32,
        direct: bool,
    ) -> Result<u32, NoMemory>
        requires { MayDo script.now N.actors self.old listener.old author.actor (Asks author.act (Asked.Queue cpu (pop_of direct))) }
        ensures { HasDone script.now N.has N.actors N.room author.actor (Asks author.act (Asked.Queue cpu (pop_of direct))) self.old self.new listener.old listener.new result }
    {
        let op = pop_of(direct);
        match self.depot.next(cpu, direct) {
            None => {
                self.ledger
                    .write_queue(script, author, listener, cpu, op, QReply::Empty)?;
                Ok(1)
            }
            Some(started) => {
                let (i, n, at) = (started.i, started.n, started.at);
                let got = QReply::Got { i, n, at };
                self.ledger
                    .write_queue(script, author, listener, cpu, op, got)?;
                let pick = Op::Run(RunOp::Pick { n, cpu, at });
                let reply = started.reply.reply();
                self.ledger
                    .write_callout(script, author, listener, i, &pick, &reply, false)?;
                Ok(2)
            }
        }
    }

    /// The lock of a service is held: its function runs, or it was cancelled meanwhile. One note.
    fn begin<N: Listener>(
        &mut self,
        script: &Script,
        author: Author,
        listener: &mut N,
        i: u32,
        n: u64,
        cpu: u32,
    ) -> Result<u32, NoMemory>
        requires { MayDo script.now N.actors self.old listener.old author.actor (Asks author.act (Asked.Callout i (Op.Run (RunOp.Begin n cpu)))) }
        ensures { HasDone script.now N.has N.actors N.room author.actor (Asks author.act (Asked.Callout i (Op.Run (RunOp.Begin n cpu)))) self.old self.new listener.old listener.new result }
    {
        let reply = self.depot.begin(cpu);
        let begin = Op::Run(RunOp::Begin { n, cpu });
        self.ledger
            .write_callout(script, author, listener, i, &begin, &reply, false)?;
        Ok(1)
    }

    /// A service is over. Its callout leaves where it is armed for another CPU.
    fn end<N: Listener>(
        &mut self,
        script: &Script,
        author: Author,
        listener: &mut N,
        i: u32,
        n: u64,
        cpu: u32,
    ) -> Result<u32, NoMemory>
        requires { MayDo script.now N.actors self.old listener.old author.actor (Asks author.act (Asked.Callout i (Op.Run (RunOp.End n cpu)))) }
        ensures { HasDone script.now N.has N.actors N.room author.actor (Asks author.act (Asked.Callout i (Op.Run (RunOp.End n cpu)))) self.old self.new listener.old listener.new result }
    {
        let direct = script.timers.as_slice()[i as usize].direct;
        let reply = self.depot.end(cpu, direct, author.actor);
        let end = Op::Run(RunOp::End { n, cpu });
        self.ledger
            .write_callout(script, author, listener, i, &end, &reply, false)?;
        self.ledger.write_queue(
            script,
            author,
            listener,
            cpu,
            free_of(direct),
            QReply::Freed,
        )?;
        Ok(2)
    }
}

/// The Pop of a CPU, or of its interrupt where `direct`.
fn pop_of(direct: bool) -> QOp
    ensures { result ≡ pop_of direct }
{
    if direct { QOp::PopDirect } else { QOp::Pop }
}

/// The Free of a CPU, or of its interrupt where `direct`.
fn free_of(direct: bool) -> QOp
    ensures { result ≡ free_of direct }
{
    if direct { QOp::FreeDirect } else { QOp::Free }
}
