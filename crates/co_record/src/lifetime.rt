//! The lifetime of a callout: retire and init (our own).
ghost use Rattle.std.specs.Prelude.{◌≡◌, false};
ghost use Rattle.co_object.specs.Lifetime.{retire, init};
ghost use Rattle.co_record.specs.Paired.{IsPaired};
ghost use Rattle.co_record.specs.Same.{SameCallout};
ghost use Rattle.co_record.specs.Standing.{state_of};

use crate::{Record, Slot};
use co_object::Reply;

/// Takes a callout out of use that is not armed and that no service has.
pub(crate) fn retire(rec: &mut Record, slot: &Slot, reply: &mut Reply)
    requires paired { IsPaired rec.old slot.now }
    ensures outcome { (state_of rec.new slot.now, reply.new) ≡ retire (state_of rec.old slot.now) }
    ensures callout { SameCallout rec.old slot.now rec.new slot.now }
{
    let armed = rec.is_armed(slot);
    let serviced = !rec.is_idle(slot);
    if armed || serviced {
        *reply = Reply::InUse { armed, serviced };
        return;
    }
    rec.live = false;
    *reply = Reply::Done;
}

/// Makes a retired callout live again, as it was made, but that its armings' numbers go on.
pub(crate) fn init(rec: &mut Record, slot: &Slot, reply: &mut Reply)
    requires paired { IsPaired rec.old slot.now }
    requires retired { rec.old.live ≡ false }
    ensures outcome { (state_of rec.new slot.now, reply.new) ≡ init (state_of rec.old slot.now) }
    ensures callout { SameCallout rec.old slot.now rec.new slot.now }
{
    rec.live = true;
    rec.active = false;
    rec.known = false;
    rec.home = 0;
    *reply = Reply::Done;
}
