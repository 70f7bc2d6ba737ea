//! A value that only clauses read.
ghost use Rattle.std.specs.Prelude.{◌≡◌};
ghost use base.Fml.{ftrue};

use std::marker::{Model, PhantomData};

/// A `T` as clauses see it. It has no bytes and owns nothing, so only a clause ties `value`.
pub struct Shown<T> {
    marker: PhantomData<T>,
    pub ghost value: { T },
}

impl<T> Model for Shown<T> {
    ghost also_owns = { λ _. ftrue };
}

impl<T> Shown<T> {
    /// What the reference shows now.
    pub fn of(x: &T) -> Shown<T>
        ensures { result.value ≡ x.now }
    {
        let _ = x;
        Shown {
            marker: PhantomData,
        }
    }
}

impl<T> Drop for Shown<T> {
    fn drop(self) {
        let Self { marker: _ } = self;
    }
}

unsafe impl<T> Send for Shown<T> {}

unsafe impl<T> Sync for Shown<T> {}
