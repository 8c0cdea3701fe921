//! What each step on a cell's word tells.
ghost use Rattle.std.specs.Prelude.{ℕ, []};
ghost use Rattle.std.specs.FinMap as map;
ghost use Rattle.turn_cell.specs.declared.view.Turn.TheVariants.{Waits};
ghost use Rattle.turn_cell.specs.Steps.{compared, opened, released, shut, took};
ghost use Rattle.turn_cell.specs.Turns.{longer, merged, only, shorter};
ghost use Rattle.turn_cell.specs.Views.{spent, view};

use crate::turned::Turned;
use crate::view::View;
use atomic_table::{Join, Play, Split};
use std::marker::{Brand, PhantomData};

/// From free to taken, where it is free.
pub(crate) struct Take;

impl<S: Turned> Play<Option<S>, View<S::Entry, S::Part>> for Take {
    ghost then = { took S.history S.parts };
}

/// From taken to free.
pub(crate) struct Release;

impl<S: Turned> Play<Option<S>, View<S::Entry, S::Part>> for Release {
    ghost then = { released S.history S.parts };
}

pub(crate) struct Open;

impl<S, E, P> Play<Option<S>, View<E, P>> for Open {
    ghost then = { opened };
}

pub(crate) struct Shut;

impl<S, E, P> Play<Option<S>, View<E, P>> for Shut {
    ghost then = { shut };
}

pub(crate) struct Compare;

impl<S, E, P> Play<Option<S>, View<E, P>> for Compare {
    ghost then = { compared };
}

/// Which number is cut off. Each call picks it.
pub(crate) trait Numbered {
    ghost number: { ℕ };
}

impl Numbered for Brand {
    ghost number = { 0 };
}

/// The cutting off of a number.
pub(crate) struct Cut<N> {
    of: PhantomData<N>,
}

impl<E, P, N: Numbered> Split<View<E, P>> for Cut<N> {
    ghost left = { λ v. view v.seen [] (map.remove v.parts N.number) Waits };

    ghost right = { λ v. view v.seen [] (only N.number v.parts) Waits };
}

/// The joining of two views.
pub(crate) struct Both;

impl<E, P> Join<View<E, P>> for Both {
    ghost both = { λ v w. view (longer v.seen w.seen) (shorter v.seen w.seen) (merged v.parts w.parts) Waits };

    ghost spent = { spent };
}
