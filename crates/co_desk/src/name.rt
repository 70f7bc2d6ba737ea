//! The name of a service.
use std::marker::Brand;

/// A service's name: the identities of the lives of its places. It has no functions. Who opens a service picks it, for a
/// type such as std's `Brand`.
pub trait Name {
    ghost use Rattle.co_desk.specs.Name.{ServiceName};

    ghost name: { ServiceName };
}

impl Name for Brand {
    ghost use Rattle.std.specs.Prelude.{[]};

    ghost name = { record { timers = []; cpus = [] } };
}
