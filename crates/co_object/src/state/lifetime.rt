//! The lifetime of a callout: init and retire.
ghost use Rattle.std.specs.Prelude.{◌≡◌};
ghost use Rattle.co_object.specs.Lifetime.{retire, init};

use crate::{Reply, State};

impl State {
    pub(crate) fn retire(&mut self) -> Reply
        ensures { (self.new, result) ≡ retire self.old }
    {
        let armed = self.armed.is_some();
        let serviced = !self.run.is_idle();
        if armed || serviced {
            return Reply::InUse { armed, serviced };
        }
        self.live = false;
        Reply::Done
    }

    pub(crate) fn init(&mut self) -> Reply
        ensures { (self.new, result) ≡ init self.old }
    {
        self.live = true;
        self.active = false;
        self.last = None;
        self.home = 0;
        Reply::Done
    }
}
