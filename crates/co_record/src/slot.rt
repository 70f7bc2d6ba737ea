//! What a CPU knows of the callout that it has in service.
ghost use Rattle.std.specs.Prelude.{◌≡◌};
ghost use Rattle.co_record.specs.Fresh.{vacant};
ghost use Rattle.co_record.specs.Standing.{served, holds};

use co_sbt::Sbt;

/// The arming in service: callout `i`'s arming `n`.
#[derive(Clone, Copy)]
pub struct Current {
    pub i: u32,
    pub n: u64,
}

/// An arming on another CPU that waits for the end of the service: its due time, precision, function, argument and CPU.
#[derive(Clone, Copy)]
pub struct DeferredArming {
    pub time: Sbt,
    pub prec: Sbt,
    pub func: u32,
    pub arg: u64,
    pub cpu: u32,
}

/// What a CPU knows of the callout that it has in service, if any.
#[derive(Clone, Copy)]
pub struct Slot {
    pub(crate) cpu: u32,
    pub(crate) current: Option<Current>,
    /// The arming was cancelled while it waited for its lock.
    pub(crate) cancel: bool,
    /// A drain waits for the end.
    pub(crate) waiting: bool,
    /// The function of an asynchronous drain, for the end to name.
    pub(crate) drain: Option<u32>,
    /// Where the record has a deferred arming: that arming.
    pub(crate) moving: DeferredArming,
}

impl Slot {
    /// A CPU's slot, with no callout in service.
    pub fn new(cpu: u32) -> Slot
        ensures { result ≡ vacant cpu }
    {
        let zero = Sbt::zero();
        Slot {
            cpu,
            current: None,
            cancel: false,
            waiting: false,
            drain: None,
            moving: DeferredArming {
                time: zero,
                prec: zero,
                func: 0,
                arg: 0,
                cpu: 0,
            },
        }
    }

    /// The slot's CPU.
    pub fn cpu(&self) -> u32
        ensures { result ≡ self.now.cpu }
    {
        self.cpu
    }

    /// The arming in service, if any.
    pub fn current(&self) -> Option<Current>
        ensures { result ≡ self.now.current }
    {
        self.current
    }

    /// The arming of callout `i` in service.
    #[inline]
    pub(crate) fn served(&self, i: u32) -> Option<u64>
        ensures { result ≡ served self.now i }
    {
        match self.current {
            None => None,
            Some(current) => {
                if current.i == i {
                    Some(current.n)
                } else {
                    None
                }
            }
        }
    }

    /// Whether callout `i` is in service.
    #[inline]
    pub(crate) fn holds(&self, i: u32) -> bool
        ensures { result ≡ holds self.now i }
    {
        self.served(i).is_some()
    }
}
