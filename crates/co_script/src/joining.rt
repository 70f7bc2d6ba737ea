//! Lists, one behind the other.
ghost use Rattle.std.specs.Prelude.{◌≡◌, ◌++◌, OnOk, IfOk};
ghost use Rattle.co_script.specs.Joined.{AreJoined};

use co_sbt::{NoMemory, Seq};
use std::alloc::Global;

/// Appends other items, none of which is copied: a piece of a text, or an actor's list, moves as it is. `NoMemory` where
/// there is no room for them.
pub fn append<T: Drop>(items: &mut Seq<T>, more: Seq<T>) -> Result<(), NoMemory>
    ensures { OnOk result (items.new ≡ items.old ++ more) }
{
    for item in more.into_vec() {
        items.push(item)?;
    }
    Ok(())
}

/// The items of all parts that threads made, in their order. `NoMemory` where a part found no memory, and where there is no
/// room for them.
pub(crate) fn joined<T: Drop>(
    alloc: Global,
    parts: Vec<Result<Seq<T>, NoMemory>>,
) -> Result<Seq<T>, NoMemory>
    ensures { IfOk result (AreJoined parts.items) }
{
    let mut all = Seq::new(alloc);
    for part in parts {
        append(&mut all, part?)?;
    }
    Ok(all)
}
