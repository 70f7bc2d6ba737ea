//! A box as its pointer, or none.
ghost use Rattle.std.specs.Prelude.{◌≡◌, true, is_some};
ghost use Rattle.std.specs.declared.option.Option.{Option};
ghost use Rattle.std.specs.declared.option.Option.TheVariants.{Some, None};
ghost use Rattle.callout_c.specs.declared.inner.Inner.{Inner as Content};

use crate::Inner;
use crate::loose::Loose;
use std::alloc::Global;
use std::marker::Model;

/// A box as its pointer, or none.
#[repr(C)]
#[derive(Drop)]
pub struct Held {
    at: *mut u8,
    alloc: Global,
    pub ghost value: { Option Content },
}

impl Model for Held {
    ghost use Rattle.callout_c.specs.Owned.{owned};

    ghost also_owns = { λ h. owned h.alloc h.at h.value };
}

fn hide(loose: Loose<Inner, Global>) -> Held
    ensures { result.value ≡ Some loose.value }
{
    let Loose { at, alloc } = loose;
    Held {
        at: at as *mut u8,
        alloc,
    }
}

fn show(held: Held) -> Loose<Inner, Global>
    requires { is_some held.value ≡ true }
    ensures { Some result.value ≡ held.value }
{
    let Held { at, alloc } = held;
    Loose {
        at: at as *mut Inner,
        alloc,
    }
}

fn blank(alloc: Global) -> Held
    ensures { result.value ≡ None }
{
    Held {
        at: std::ptr::null_mut(),
        alloc,
    }
}

impl Held {
    /// No box: a null pointer.
    pub fn none(alloc: Global) -> Held
        ensures { result.value ≡ None }
    {
        blank(alloc)
    }

    /// This box, which the pointer owns from now on.
    pub fn of(value: Box<Inner>) -> Held
        ensures { result.value ≡ Some value.value }
    {
        hide(Loose::of(value))
    }

    /// The box that it has, which owns itself again.
    pub fn into_box(self) -> Box<Inner>
        requires { is_some self.value ≡ true }
        ensures { Some result.value ≡ self.value }
    {
        show(self).into_box()
    }
}

unsafe impl Send for Held {}
