ghost use Rattle.turn_cell.specs.Rule.{IsKept};
ghost use Rattle.turn_cell.specs.Views.{newcomer};

use crate::turned::Turned;
use crate::view::View;
use atomic_table::TableRule;
use std::marker::PhantomData;

/// The rule of a cell's table, which has one word and one slot.
pub struct Law<S> {
    of: PhantomData<S>,
}

impl<S: Turned> TableRule<Option<S>, View<S::Entry, S::Part>, ()> for Law<S> {
    ghost holds = { λ _. IsKept S.history S.parts };

    ghost first = { λ _. newcomer };
}
