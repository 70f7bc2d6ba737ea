//! Times and CPUs as numbers.
ghost use Rattle.std.specs.Prelude.{◌≡◌, true, false, IfNone, IfSome};
ghost use Rattle.co_embed.specs.Times.{are_times, cpu_meant};

use co_sbt::Sbt;

/// When and where a callout is to run: the time from which on it may, and the precision, in units of 2^-32 s from 0 to
/// 2^63 - 1, and the CPU. CPU 2^32 - 1 is the callout's own, that of its last arming or else 0, and CPU 2^32 - 2 that at
/// which it is.
#[derive(Clone, Copy)]
pub struct When {
    pub due: u64,
    pub prec: u64,
    pub cpu: u32,
}

/// The two times, where both are times.
#[inline(always)]
pub(crate) fn times_of(when: When) -> Option<(Sbt, Sbt)>
    ensures times { IfSome result (λ p. (p.0 ≡ when.due) × (p.1 ≡ when.prec) × (are_times when ≡ true)) }
    ensures none { IfNone result (are_times when ≡ false) }
{
    let due = Sbt::new(when.due)?;
    let prec = Sbt::new(when.prec)?;
    Some((due, prec))
}

/// The CPU that is meant, at CPU `here`.
#[inline(always)]
pub(crate) fn cpu_meant(cpu: u32, here: u32) -> Option<u32>
    ensures { result ≡ cpu_meant here cpu }
{
    if cpu == 0xffff_ffff {
        None
    } else if cpu == 0xffff_fffe {
        Some(here)
    } else {
        Some(cpu)
    }
}
