//! A CPU's timer queue alone, as a value that answers operations.
ghost use Rattle.std.specs.Prelude.{◌≡◌, ◌<◌, false, length, IfOk, Some};
ghost use Rattle.co_object.specs.declared.QOp.TheVariants as ops;
ghost use Rattle.co_object.specs.declared.QReply.TheVariants as replies;
ghost use Rattle.co_queue.specs.Timers.{IsSize, IsWheel};
ghost use Rattle.co_queue.specs.StandsFor.{taken};
ghost use Rattle.co_check.specs.Cpu.{Answers, NamesCallout, empty_cpu};

use co_bucket::WheelQueue;
use co_object::{QOp, QReply};
use co_queue::{Looks, TimerQueue};
use co_sbt::{NoMemory, Sbt};
use std::alloc::Global;

/// A CPU's timer queue alone.
#[derive(Drop)]
pub(crate) struct CpuQueue {
    queue: WheelQueue,
    /// The CPU has a callout in service.
    serving: bool,
    /// Its interrupt has one.
    directing: bool,
}

impl CpuQueue {
    /// A queue in which nothing stands.
    pub(crate) fn open(
        alloc: Global,
        callouts: u32,
        buckets: u32,
        direct: &[bool],
    ) -> Result<CpuQueue, NoMemory>
        requires size { IsSize callouts }
        requires buckets { IsWheel buckets }
        requires direct { length direct.now ≡ callouts }
        ensures { IfOk result (λ cpu. cpu ≡ empty_cpu callouts buckets direct.now) }
    {
        let queue = WheelQueue::new(alloc, callouts, buckets, direct)?;
        Ok(CpuQueue {
            queue,
            serving: false,
            directing: false,
        })
    }

    /// Answers an operation. None exactly where it is not possible; then the queue is of no more use.
    pub(crate) fn step(&mut self, op: &QOp) -> Option<QReply>
        requires { NamesCallout self.old.queue.size op.now }
        ensures { Answers self.old op.now result self.new }
    {
        match *op {
            QOp::Insert { i, n, t } => self.insert(i, n, t),
            QOp::Remove { i } => Some(self.remove(i)),
            QOp::Scan { now } => Some(self.scan(now)),
            QOp::Pop => self.pop(),
            QOp::Free => self.free(),
            QOp::PopDirect => self.pop_direct(),
            QOp::FreeDirect => self.free_direct(),
        }
    }

    fn insert(&mut self, i: u32, n: u64, t: Sbt) -> Option<QReply>
        requires { i < self.old.queue.size }
        ensures { Answers self.old (ops.Insert i n t) result self.new }
    {
        // A callout that stands in the queue is not inserted.
        let found = self.queue.remove(i);
        if found {
            return None;
        }
        let at = self.queue.insert(i, n, t);
        Some(QReply::At(at))
    }

    fn remove(&mut self, i: u32) -> QReply
        ensures { Answers self.old (ops.Remove i) (Some result) self.new }
    {
        if self.queue.remove(i) {
            QReply::Off
        } else {
            QReply::Missing
        }
    }

    fn scan(&mut self, now: Sbt) -> QReply
        ensures { Answers self.old (ops.Scan now) (Some result) self.new }
    {
        let mut looks = Looks::new();
        QReply::Count(self.queue.scan(now, &mut looks))
    }

    fn pop(&mut self) -> Option<QReply>
        ensures { Answers self.old ops.Pop result self.new }
    {
        if self.serving {
            return None;
        }
        let at = self.queue.last();
        let first = self.queue.pop();
        self.serving = first.is_some();
        Some(popped(first, at))
    }

    fn pop_direct(&mut self) -> Option<QReply>
        ensures { Answers self.old ops.PopDirect result self.new }
    {
        if self.directing {
            return None;
        }
        let at = self.queue.last();
        let first = self.queue.pop_direct();
        self.directing = first.is_some();
        Some(popped(first, at))
    }

    fn free(&mut self) -> Option<QReply>
        ensures { Answers self.old ops.Free result self.new }
    {
        if !self.serving {
            return None;
        }
        self.serving = false;
        Some(QReply::Freed)
    }

    fn free_direct(&mut self) -> Option<QReply>
        ensures { Answers self.old ops.FreeDirect result self.new }
    {
        if !self.directing {
            return None;
        }
        self.directing = false;
        Some(QReply::Freed)
    }
}

/// What a pop that took this is answered, after a scan at this time.
fn popped(first: Option<(u32, u64)>, at: Sbt) -> QReply
    ensures { result ≡ taken at first }
{
    match first {
        Some((i, n)) => QReply::Got { i, n, at },
        None => QReply::Empty,
    }
}
