//! Interval timers before their service is opened.
ghost use Rattle.std.specs.Prelude.{◌≡◌, ◌≤◌, IfOk};

use crate::book::Book;
use co_sbt::NoMemory;
use co_single::SingleFresh;
use std::alloc::Global;
use std::marker::Model;

/// Interval timers of a service that is not open yet. Contracts see the service's name and the number of processes.
#[derive(Drop)]
pub struct ItimersFresh {
    pub(crate) single: SingleFresh,
    pub(crate) processes: u32,
    pub(crate) book: Book,
}

impl Model for ItimersFresh {
    ghost use Rattle.std.specs.Prelude.{◌≡◌};
    ghost use Rattle.co_itimer.specs.Itimers.{AreFresh, ItimersFreshView};
    ghost use Rattle.co_itimer.specs.Timers.{opening};

    ghost Value = { ItimersFreshView };

    ghost view = { λ f. record { name = f.single.name; processes = f.processes } };

    ghost invariant = { λ f. AreFresh f.single.callouts f.processes × (f.book ≡ opening f.processes) };
}

/// Interval timers of `processes` processes, 1 to 1024, and their service. `NoMemory` where this finds no room.
pub(crate) fn boot(alloc: Global, processes: u32) -> Result<ItimersFresh, NoMemory>
    requires some { 1 ≤ processes }
    requires limit { processes ≤ 1024 }
    ensures { IfOk result (λ fresh. fresh.processes ≡ processes) }
{
    let book = Book::new(alloc, processes)?;
    let single = SingleFresh::boot(alloc, processes)?;
    Ok(ItimersFresh {
        single,
        processes,
        book,
    })
}
