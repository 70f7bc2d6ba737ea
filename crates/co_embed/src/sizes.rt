//! How large a wheel may be.
ghost use Rattle.std.specs.Prelude.{◌≡◌, IfOk};
ghost use Rattle.co_object.specs.Queue.{is_wheel_size};
ghost use Rattle.co_embed.specs.Sizes.{are_sizes, directs};

use co_sbt::{NoMemory, Seq};
use std::alloc::Global;

/// Whether a wheel may have so many buckets: a power of two from 16 to 65536.
fn is_wheel_size(buckets: u32) -> bool
    ensures { result ≡ is_wheel_size buckets }
{
    buckets == 16
        || buckets == 32
        || buckets == 64
        || buckets == 128
        || buckets == 256
        || buckets == 512
        || buckets == 1024
        || buckets == 2048
        || buckets == 4096
        || buckets == 8192
        || buckets == 16384
        || buckets == 32768
        || buckets == 65536
}

/// Whether there may be a wheel of this CPU, with so many buckets for so many callouts, of which so many are direct.
pub(crate) fn are_sizes(cpu: u32, buckets: u32, callouts: u32, direct: u32) -> bool
    ensures { result ≡ are_sizes cpu buckets callouts direct }
{
    cpu < 0xffff_fffe
        && is_wheel_size(buckets)
        && 1 <= callouts
        && callouts <= 1_048_576
        && direct <= callouts
}

/// Of each callout, whether it is direct: the numbers from `first` on are.
pub(crate) fn directs(alloc: Global, callouts: u32, first: u32) -> Result<Seq<bool>, NoMemory>
    ensures { IfOk result (λ list. list ≡ directs callouts first) }
{
    let mut directs = Seq::new(alloc);
    for i in 0..callouts {
        directs.push(first <= i)?;
    }
    Ok(directs)
}
