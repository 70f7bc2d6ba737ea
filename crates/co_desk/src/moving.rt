//! A callout on its way from one desk to another.
ghost use Rattle.std.specs.Prelude.{◌≡◌};
ghost use Rattle.std.specs.declared.option.Option.TheVariants.{None};
ghost use Rattle.co_desk.specs.Moving.{HasLeft, MayDepart};

use crate::books::Books;
use crate::{Name, TimerStory};
use co_life::Keeper;
use co_sbt::Sbt;
use co_wheel::Parcel;
use std::marker::{Model, PhantomData};

/// A callout on its way to the CPU at which it is armed, with the keeper of its history.
///
/// It stands in no queue. The type says of which service it is, and that its record's state is what its history gives.
#[derive(Drop)]
pub struct Moving<N: Name> {
    pub(crate) parcel: Parcel,
    pub(crate) keeper: Keeper<TimerStory>,
    /// The number of its arming.
    pub(crate) n: u64,
    /// When that is due.
    pub(crate) due: Sbt,
    pub(crate) of: PhantomData<N>,
}

impl<N: Name> Model for Moving<N> {
    ghost use Rattle.co_desk.specs.Moving.{MovingView, moving_of, IsOnItsWay};

    ghost Value = { MovingView };

    ghost view = { λ m. moving_of m.parcel m.keeper m.n m.due };

    ghost invariant = { λ m. IsOnItsWay N.name m.parcel m.keeper m.n m.due };
}

impl<N: Name> Moving<N> {
    /// The CPU that it goes to.
    #[inline(always)]
    pub fn cpu(&self) -> u32
        ensures { result ≡ self.now.target.cpu }
    {
        self.parcel.cpu()
    }

    /// The callout's number.
    #[inline(always)]
    pub fn callout(&self) -> u32
        ensures { result ≡ self.now.i }
    {
        self.parcel.callout()
    }
}

/// What leaves a desk takes its history along, and goes to its place.
#[inline(always)]
fn send<N: Name>(
    books: &mut Books<N>,
    leaves: Option<Parcel>,
    n: u64,
    due: Sbt,
    gone: &mut Option<Moving<N>>,
)
    requires may { MayDepart books.old n due leaves }
    requires none { gone.old ≡ None }
    ensures { HasLeft books.old n due leaves books.new gone.new }
{
    if let Some(parcel) = leaves {
        let keeper = books.take(parcel.callout());
        *gone = Some(Moving {
            parcel,
            keeper,
            n,
            due,
            of: PhantomData,
        });
    }
}

/// The same for what is taken from its place, which is not touched where nothing leaves.
#[inline(always)]
pub(crate) fn depart<N: Name>(
    books: &mut Books<N>,
    leaves: &mut Option<Parcel>,
    n: u64,
    due: Sbt,
    gone: &mut Option<Moving<N>>,
)
    requires may { MayDepart books.old n due leaves.old }
    requires none { gone.old ≡ None }
    ensures { HasLeft books.old n due leaves.old books.new gone.new }
{
    if let Some(_) = leaves {
        send(books, leaves.take(), n, due, gone);
    }
}
