ghost use Rattle.turn_cell.specs.Views.{IsIdle};

use crate::turned::Turned;
use crate::view::View;
use atomic_table::Seat;

/// What one thread knows of a cell: a beginning of its history, and what stands under the numbers that it
/// holds. It has no bytes.
#[derive(Drop)]
pub struct Pass<S: Turned> {
    pub(crate) seat: Seat<Option<S>, View<S::Entry, S::Part>>,
    ghost idle: { IsIdle seat },
}
