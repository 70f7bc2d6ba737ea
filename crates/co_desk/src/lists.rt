//! Lists that grow only where there is room.
ghost use Rattle.std.specs.Prelude.{◌≡◌, [], ◌∷◌, ◌++◌, IfOk, OnErr, OnOk};

use co_sbt::NoMemory;
use std::alloc::Global;

/// How many bytes are fetched together, two cache lines: so many items take at least as much, since each has a byte or more.
const LINES: usize = 128;

/// A list with no item yet and room for `count` and `LINES` more, whose items one actor or one desk stores at each call. The room behind
/// the items is at least two cache lines, so that a thread at the next CPU doesn't wait for what is stored here.
pub fn apart<T: Drop>(alloc: Global, count: usize) -> Result<Vec<T>, NoMemory>
    ensures { IfOk result (λ items. items.items ≡ []) }
{
    Ok(Vec::with_capacity(alloc, count.saturating_add(LINES))?)
}

/// Appends an item. `NoMemory` where there is no room for it: the list stays as it was.
pub fn push<T: Drop>(items: &mut Vec<T>, item: T) -> Result<(), NoMemory>
    ensures pushed { OnOk result (items.new.items ≡ items.old.items ++ item ∷ []) }
    ensures kept { OnErr result (items.new.items ≡ items.old.items) }
{
    match items.push(item) {
        Ok(()) => Ok(()),
        Err(_) => Err(NoMemory {}),
    }
}
