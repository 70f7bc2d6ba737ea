//! When the first entry of the buckets comes due.
ghost use Rattle.std.specs.Prelude.{◌≡◌, ◌≤◌, ◌<◌, ◌+◌, min, length};
ghost use Rattle.std.specs.declared.option.Option.TheVariants.{Some};
ghost use Rattle.co_bucket.specs.Earliest.{earlier, least, within, IsFirst};
ghost use Rattle.co_bucket.specs.Rings.{list_of, AreLinked};
ghost use Rattle.co_bucket.specs.Wheel.{AreTimely};

use crate::rings::Rings;
use co_sbt::Sbt;

/// The earlier of a time and another, if there is another.
fn earlier(first: Option<Sbt>, time: Sbt) -> Sbt
    ensures { result ≡ earlier first time }
{
    match first {
        None => time,
        Some(first) => first.min(time),
    }
}

/// The first time of a bucket's entries and of `first`.
fn first_in(rings: &Rings, times: &[Sbt], bucket: u32, first: Option<Sbt>) -> Option<Sbt>
    requires linked { AreLinked rings.now }
    requires bucket { bucket < rings.now.count }
    requires times { length times.now ≡ rings.now.size }
    ensures { result ≡ least times.now first (list_of rings.now bucket) }
{
    let mut first = first;
    let mut at = rings.first(bucket);
    for _ in 0..rings.size {
        let Some(i) = at else {
            return first;
        };
        first = Some(earlier(first, times[i as usize]));
        at = rings.after(i);
    }
    first
}

/// The time, if there is one whose hash is at most this.
fn within(time: &Option<Sbt>, hash: u64) -> Option<Sbt>
    ensures { result ≡ within time.now hash }
{
    match time {
        Some(time) if time.hash() <= hash => Some(*time),
        _ => None,
    }
}

/// The first time of all entries. It looks no further than the bucket of that time: what stands in a later one is due later,
/// since nothing is due before the last scan.
pub(crate) fn first_of_all(rings: &Rings, times: &[Sbt], buckets: u32, last: Sbt) -> Option<Sbt>
    requires linked { AreLinked rings.now }
    requires count { rings.now.count ≡ buckets + 2 }
    requires times { length times.now ≡ rings.now.size }
    requires some { 1 ≤ buckets }
    requires timely { AreTimely buckets times.now last (list_of rings.now) }
    ensures { IsFirst buckets times.now (list_of rings.now) result }
{
    let from = last.hash();
    let mut first: Option<Sbt> = None;
    for d in 0..u64::from(buckets) {
        let bucket = ((from + d) % u64::from(buckets)) as u32;
        first = first_in(rings, times, bucket, first);
        if let Some(time) = within(&first, from + d) {
            return Some(time);
        }
    }
    first
}
