//! Lists of copies of one item.
ghost use Rattle.std.specs.Prelude.{◌≡◌, replicate, IfOk};

use co_sbt::{NoMemory, Seq};
use std::alloc::Global;

/// `count` copies of an item. `NoMemory` where there is no room for them.
pub(crate) fn copies<T: Copy + Drop>(
    alloc: Global,
    count: usize,
    item: T,
) -> Result<Vec<T>, NoMemory>
    ensures { IfOk result (λ copies. copies.items ≡ replicate count item) }
{
    Ok(Seq::filled(alloc, count, item)?.into_vec())
}
