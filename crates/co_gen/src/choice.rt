//! What a draw says of a group of acts.
ghost use Rattle.std.specs.Prelude.{◌≡◌, ◌<◌, ◌^◌};
ghost use Rattle.co_gen.specs.Generator.{choice_of, call_kind};

use co_sbt::Sbt;

/// The call of a group.
#[derive(Clone, Copy)]
pub enum Kind {
    /// A reset, which three draws of eight give.
    Reset,
    /// A schedule, one of eight.
    Schedule,
    /// A stop, one of eight.
    Stop,
    /// An asynchronous drain, one of eight.
    AsyncDrain,
    /// The query whether it is armed, one of eight.
    Pending,
    /// A drain that waits, one of eight; under no lock.
    Drain,
}

/// What a draw says of a group.
#[derive(Clone, Copy)]
pub struct Choice {
    /// The callout that the group is about, below 64.
    pub timer: u32,
    /// The call on it.
    pub kind: Kind,
    /// How long after the group's time a reset or schedule is due, in units of 2^-32 s.
    pub span: Sbt,
    /// Below 4 the CPU that a reset names; else it names none.
    pub cpu: u32,
}

/// The time of `units` units of 2^-32 s.
pub fn time(units: u64) -> Sbt
    requires { units < 2 ^ 63 }
    ensures { result ≡ units }
{
    match Sbt::new(units) {
        Some(time) => time,
        None => unreachable!(),
    }
}

/// The call of a number below 8: three of eight are a reset.
fn kind_of(number: u32) -> Kind
    ensures { result ≡ call_kind number }
{
    match number {
        0 | 1 | 2 => Kind::Reset,
        3 => Kind::Schedule,
        4 => Kind::Stop,
        5 => Kind::AsyncDrain,
        6 => Kind::Pending,
        _ => Kind::Drain,
    }
}

/// What a draw says of a group.
pub fn choice_of(draw: u32) -> Choice
    ensures { result ≡ choice_of draw }
{
    Choice {
        timer: draw % 64,
        kind: kind_of(draw / 64 % 8),
        span: time(u64::from(draw / 512 % 2048) * 4_194_304),
        cpu: draw / 1_048_576 % 8,
    }
}
