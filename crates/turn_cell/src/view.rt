use std::collections::LinkedList;
use views::number_map::NumberMap;

/// Whether a pass has its turn. No value of it is made.
pub enum Turn<E, P> {
    /// It has not.
    Waits,
    /// It has taken the value out, whose history and parts these were.
    Holds(LinkedList<E>, NumberMap<P>),
    /// It has its turn, and no value is there: before the first turn and after the last one.
    Shut(LinkedList<E>, NumberMap<P>),
}

/// What a pass knows. No value of it is made.
pub struct View<E, P> {
    /// A beginning of the history.
    pub seen: LinkedList<E>,
    /// What another pass had seen that it was joined with.
    pub met: LinkedList<E>,
    /// What stands under the numbers that it holds.
    pub parts: NumberMap<P>,
    pub turn: Turn<E, P>,
}
