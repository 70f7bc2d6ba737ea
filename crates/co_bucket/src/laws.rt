//! How many entries a scan of a wheel looks at, each law the contract of a function that does nothing.
ghost use Rattle.co_bucket.specs.Laws.{ATurnLooksAtAll, LooksAreAtVisitedBuckets, LooksAtMostAsAList};

/// The looks of a scan are the entries of the content whose bucket, the hash modulo the number of buckets, is visited: the
/// visited buckets run from that of the last scan's time to that of this one's, and each counts once.
pub fn looks_are_at_visited_buckets()
    ensures { LooksAreAtVisitedBuckets }
{}

/// Where that is a turn of the wheel, or more, these are all entries, each once.
pub fn a_turn_looks_at_all()
    ensures { ATurnLooksAtAll }
{}

/// A wheel never looks at more entries than a plain list.
pub fn looks_at_most_as_a_list()
    ensures { LooksAtMostAsAList }
{}
