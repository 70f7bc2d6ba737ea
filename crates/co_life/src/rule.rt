//! The rule of a shared history, and the steps under it.
use crate::story::Story;
use crate::view::SeatView;
use atomic_table::{Join, Play, Split, TableRule};
use std::marker::{Brand, PhantomData};

/// The rule of the histories of a story.
pub struct HistoryRule<S: Story> {
    of: PhantomData<S>,
}

impl<S: Story> TableRule<S::Entry, SeatView<S::Entry>, ()> for HistoryRule<S> {
    ghost use Rattle.co_life.specs.Rule.{Kept, opening_view};

    ghost holds = { λ _. Kept S.actor S.legal };

    ghost first = { λ _. opening_view };
}

/// At the start: one more pass is made.
pub struct Deal;

impl<E> Split<SeatView<E>> for Deal {
    ghost use Rattle.co_life.specs.Steps.{dealing, dealt};

    ghost left = { dealing };

    ghost right = { dealt };
}

/// A pass comes inside the keeper's seat.
pub struct Enter;

impl<E> Join<SeatView<E>> for Enter {
    ghost use Rattle.co_life.specs.Steps.{entered};
    ghost use Rattle.co_life.specs.declared.view.SeatView.TheVariants.{Spent};

    ghost both = { entered };

    ghost spent = { Spent };
}

/// The pass that is inside goes out again.
pub struct Leave;

impl<E> Split<SeatView<E>> for Leave {
    ghost use Rattle.co_life.specs.Steps.{left_by, let_out};

    ghost left = { left_by };

    ghost right = { let_out };
}

/// The keeper looks at the length, while a pass is inside.
pub struct Look<S: Story> {
    of: PhantomData<S>,
}

impl<S: Story> Play<S::Entry, SeatView<S::Entry>> for Look<S> {
    ghost use Rattle.co_life.specs.Steps.{Looks};

    ghost then = { Looks S.actor S.legal };
}

/// An entry that only a proof knows. Each call of [`crate::life::Life`] that appends picks it.
pub trait Says<E> {
    ghost use Rattle.std.specs.Prelude.{Option};

    ghost entry: { Option E };
}

impl<E> Says<E> for Brand {
    ghost use Rattle.std.specs.declared.option.Option.TheVariants.{None};

    ghost entry = { None };
}

/// The actor of the pass inside appends what is said.
pub struct Append<B> {
    said: PhantomData<B>,
}

impl<E, B: Says<E>> Play<E, SeatView<E>> for Append<B> {
    ghost use Rattle.co_life.specs.Steps.{Appends};

    ghost then = { Appends B.entry };
}
