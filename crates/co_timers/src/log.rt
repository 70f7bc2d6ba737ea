//! A list that only clauses read.
ghost use Rattle.std.specs.Prelude.{◌≡◌, List, [], ◌∷◌, ◌++◌};
ghost use base.Fml.{ftrue};

use std::marker::{Model, PhantomData};

/// A list of what was seen, as clauses see it. It has no bytes and owns nothing, so that it grows without memory; only clauses
/// tie `items`.
pub struct Log<T> {
    marker: PhantomData<T>,
    pub ghost items: { List T },
}

impl<T> Model for Log<T> {
    ghost also_owns = { λ _. ftrue };
}

impl<T> Log<T> {
    /// The empty list.
    pub fn new() -> Log<T>
        ensures { result.items ≡ [] }
    {
        Log {
            marker: PhantomData,
        }
    }

    /// The list with what the reference shows now behind it.
    pub fn and(&self, x: &T) -> Log<T>
        ensures { result.items ≡ self.now.items ++ x.now ∷ [] }
    {
        let _ = x;
        Log {
            marker: PhantomData,
        }
    }
}

impl<T> Drop for Log<T> {
    fn drop(self) {
        let Self { marker: _ } = self;
    }
}
