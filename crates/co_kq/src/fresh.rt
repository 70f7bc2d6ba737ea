//! A kevent list before it is opened.
ghost use Rattle.std.specs.Prelude.{◌≡◌, ◌≤◌, IfOk};

use crate::knotes::Knotes;
use crate::numbers::Uses;
use co_sbt::NoMemory;
use co_single::SingleFresh;
use std::alloc::Global;
use std::marker::Model;

/// A kevent list that is not open yet. Contracts see its name and how many knotes it has room for.
#[derive(Drop)]
pub struct KqFresh {
    pub(crate) single: SingleFresh,
    pub(crate) room: u32,
    pub(crate) knotes: Knotes,
    pub(crate) uses: Uses,
}

impl Model for KqFresh {
    ghost use Rattle.co_kq.specs.Numbers.{IsKqFresh};
    ghost use Rattle.co_single.specs.Rest.{SingleFreshView};

    ghost Value = { SingleFreshView };

    ghost view = { λ k. k.single };

    ghost invariant = { λ k. IsKqFresh k.single.callouts k.room k.knotes k.uses };
}

impl KqFresh {
    /// A list with room for 1 to 1024 knotes.
    pub(crate) fn boot(alloc: Global, knotes: u32) -> Result<KqFresh, NoMemory>
        requires some { 1 ≤ knotes }
        requires limit { knotes ≤ 1024 }
        ensures { IfOk result (λ fresh. fresh.callouts ≡ knotes) }
    {
        let uses = Uses::new(alloc, knotes)?;
        let none = Knotes::new(alloc, knotes)?;
        let single = SingleFresh::boot(alloc, knotes)?;
        Ok(KqFresh {
            single,
            room: knotes,
            knotes: none,
            uses,
        })
    }
}
