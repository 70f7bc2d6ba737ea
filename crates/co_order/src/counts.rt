//! Counts by number.
ghost use Rattle.std.specs.Prelude.{◌≡◌, ◌<◌, ◌+◌, length, slice_index, slice_set, OnOk};

use co_sbt::{NoMemory, Seq};

/// One more. NoMemory at 2^64, for which no memory is large enough.
pub fn raise(counts: &mut Seq<u64>, at: usize) -> Result<(), NoMemory>
    requires { at < length counts.old }
    ensures { OnOk result (counts.new ≡ slice_set counts.old at (slice_index counts.old at + 1)) }
{
    let count = counts.as_slice()[at].checked_add(1).ok_or(NoMemory {})?;
    counts.replace(at, count);
    Ok(())
}
