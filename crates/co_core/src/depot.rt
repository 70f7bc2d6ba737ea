//! Where the callouts' records are: at the wheels of the CPUs, or on their way.
ghost use Rattle.std.specs.Prelude.{◌≡◌, ◌<◌, true, length, is_some};
ghost use Rattle.std.specs.declared.option.Option.{Option};
ghost use Rattle.std.specs.declared.option.Option.TheVariants.{Some, None};
ghost use Rattle.co_wheel.specs.Callouts.{is_here, is_serviced, in_service};
ghost use Rattle.co_wheel.specs.Cpu.{Cpu};
ghost use Rattle.co_wheel.specs.Parcel.{Parcel as Travelling};
ghost use Rattle.co_wheel.specs.Service.{begin_here, end_here};
ghost use Rattle.co_wheel.specs.Next.{next_out};
ghost use Rattle.co_core.specs.Stored.{IsBegun, IsCalled, IsEnded, IsLanded, IsNext, IsScanned, MayCarry, MayLand, bag_at, stand_at, wheel_at, with_bag, with_stand, with_wheel};

mod boot;

use co_bucket::WheelQueue;
use co_object::{CallOp, Reply};
use co_queue::Looks;
use co_sbt::Sbt;
use co_wheel::{CallOut, EndOut, Parcel, Started, Wheel};
use std::marker::Model;

/// Where the callouts' records are: at the wheels of the CPUs, or on their way.
#[derive(Drop)]
pub(crate) struct Depot {
    wheels: Vec<Wheel<WheelQueue>>,
    /// By callout: the CPU where its record stands, or which it is leaving.
    stands: Vec<u32>,
    /// By actor: the record that it is moving.
    bags: Vec<Option<Parcel>>,
}

impl Model for Depot {
    ghost use Rattle.co_core.specs.Stored.{Stored};

    ghost Value = { Stored };

    ghost view = { λ d. record { wheels = d.wheels.items; stands = d.stands.items; bags = d.bags.items } };
}

impl Depot {
    /// The CPU where the callout's record stands, or which it is leaving.
    pub(crate) fn stand(&self, i: u32) -> u32
        requires { i < length self.now.stands }
        ensures { result ≡ stand_at self.now i }
    {
        self.stands[i as usize]
    }

    /// Whether the callout's record is at the wheel of this CPU.
    pub(crate) fn holds(&self, cpu: u32, i: u32) -> bool
        requires { cpu < length self.now.wheels }
        ensures { result ≡ is_here (wheel_at self.now cpu).callouts i }
    {
        let wheel = &self.wheels[cpu as usize];
        wheel.holds(i)
    }

    /// Whether this CPU or its interrupt has the callout in service, for this arming.
    pub(crate) fn services(&self, cpu: u32, i: u32, n: u64) -> bool
        requires { cpu < length self.now.wheels }
        ensures { result ≡ is_serviced (wheel_at self.now cpu).callouts.serving (wheel_at self.now cpu).callouts.directing i n }
    {
        let wheel = &self.wheels[cpu as usize];
        wheel.services(i, n)
    }

    /// A caller's operation on a callout that is at this CPU, answered in `out`. Where its record leaves it goes into the
    /// actor's bag, which is empty. The result is whether an accepted arming stands in the queue, or is on its way into
    /// another one.
    #[inline(always)]
    pub(crate) fn call(
        &mut self,
        cpu: u32,
        i: u32,
        op: &CallOp,
        actor: u32,
        out: &mut CallOut,
    ) -> bool
        requires may { MayCarry self.old actor cpu }
        requires here { is_here (wheel_at self.old cpu).callouts i ≡ true }
        ensures { (after : Cpu) × (leaves : Option Travelling) × IsCalled (wheel_at self.old cpu) i op.now out.new.reply out.new.removed result out.new.inserted leaves after × (self.new ≡ with_bag (with_wheel self.old cpu after) actor leaves) }
    {
        let wheel = &mut self.wheels[cpu as usize];
        let bag = &mut self.bags[actor as usize];
        call(wheel, i, op, bag, out)
    }

    /// The lock of the callout that this CPU services is held.
    pub(crate) fn begin(&mut self, cpu: u32) -> Reply
        requires cpu { cpu < length self.old.wheels }
        requires possible { is_some (begin_here (wheel_at self.old cpu).callouts) ≡ true }
        ensures { (after : Cpu) × IsBegun (wheel_at self.old cpu) result after × (self.new ≡ with_wheel self.old cpu after) }
    {
        let wheel = &mut self.wheels[cpu as usize];
        wheel.begin()
    }

    /// The service of this CPU is over, or of its interrupt where `direct`. Where a record leaves it goes into the actor's
    /// bag, which is empty.
    pub(crate) fn end(&mut self, cpu: u32, direct: bool, actor: u32) -> Reply
        requires may { MayCarry self.old actor cpu }
        requires possible { is_some (end_here direct (wheel_at self.old cpu).callouts) ≡ true }
        ensures { (after : Cpu) × (leaves : Option Travelling) × IsEnded direct (wheel_at self.old cpu) result leaves after × (self.new ≡ with_bag (with_wheel self.old cpu after) actor leaves) }
    {
        let wheel = &mut self.wheels[cpu as usize];
        let bag = &mut self.bags[actor as usize];
        end(wheel, direct, bag)
    }

    /// The first callout that has come due goes into service: of this CPU, or of its interrupt where `direct`.
    #[inline(always)]
    pub(crate) fn next(&mut self, cpu: u32, direct: bool) -> Option<Started>
        requires cpu { cpu < length self.old.wheels }
        requires free { in_service direct (wheel_at self.old cpu).callouts ≡ None }
        ensures { (after : Cpu) × IsNext direct (wheel_at self.old cpu) (next_out result) after × (self.new ≡ with_wheel self.old cpu after) }
    {
        let wheel = &mut self.wheels[cpu as usize];
        wheel.start(direct)
    }

    /// What is due at this CPU by this time has come due. The answer is how many entries that were.
    pub(crate) fn scan(&mut self, cpu: u32, now: Sbt) -> u32
        requires { cpu < length self.old.wheels }
        ensures { (after : Cpu) × IsScanned (wheel_at self.old cpu) now result after × (self.new ≡ with_wheel self.old cpu after) }
    {
        let wheel = &mut self.wheels[cpu as usize];
        scan(wheel, now)
    }

    /// The record in the actor's bag comes to this CPU, and enters its queue. The answer is the time at which it stands.
    pub(crate) fn land(&mut self, cpu: u32, actor: u32) -> Sbt
        requires cpu { cpu < length self.old.wheels }
        requires may { MayLand self.old actor cpu }
        ensures { (parcel : Travelling) × (after : Cpu) × (bag_at self.old actor ≡ Some parcel) × IsLanded (wheel_at self.old cpu) parcel result after × (self.new ≡ with_stand (with_bag (with_wheel self.old cpu after) actor None) parcel.i cpu) }
    {
        let bag = std::mem::replace(&mut self.bags[actor as usize], None);
        let Some(parcel) = bag else {
            return Sbt::zero();
        };
        self.stands[parcel.callout() as usize] = cpu;
        let wheel = &mut self.wheels[cpu as usize];
        wheel.land(parcel)
    }
}

fn scan(wheel: &mut Wheel<WheelQueue>, now: Sbt) -> u32
    ensures { IsScanned wheel.old now result wheel.new }
{
    let mut looks = Looks::new();
    wheel.scan(now, &mut looks)
}

/// The bag is empty, and written only where the callout leaves, which is rare.
fn call(
    wheel: &mut Wheel<WheelQueue>,
    i: u32,
    op: &CallOp,
    bag: &mut Option<Parcel>,
    out: &mut CallOut,
) -> bool
    requires here { is_here wheel.old.callouts i ≡ true }
    requires empty { bag.old ≡ None }
    ensures { IsCalled wheel.old i op.now out.new.reply out.new.removed result out.new.inserted bag.new wheel.new }
{
    wheel.call_into(i, op, out);
    if out.leaves.is_none() {
        return out.inserted.is_some();
    }
    carry(bag, &mut out.leaves);
    true
}

/// What leaves goes into the bag. Not inlined: it is rare, and each call would pay for its locals.
#[inline(never)]
fn carry(bag: &mut Option<Parcel>, leaves: &mut Option<Parcel>)
    ensures { bag.new ≡ leaves.old }
{
    *bag = std::mem::replace(leaves, None);
}

/// The bag is empty, and written only where the callout leaves, which is rare.
fn end(wheel: &mut Wheel<WheelQueue>, direct: bool, bag: &mut Option<Parcel>) -> Reply
    requires possible { is_some (end_here direct wheel.old.callouts) ≡ true }
    requires empty { bag.old ≡ None }
    ensures { IsEnded direct wheel.old result bag.new wheel.new }
{
    let mut out = EndOut::none();
    wheel.end_into(direct, &mut out);
    if out.leaves.is_none() {
        return out.reply;
    }
    *bag = out.leaves;
    out.reply
}
