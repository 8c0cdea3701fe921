//! A value whose changes take turns: each turn is one change by one thread, and what came of all turns is one
//! history.
//!
//! A [`TurnCell`] keeps the value, and each thread has a [`Pass`] to it. A pass is a beginning of the history
//! that was seen, and what stands under the numbers that it holds. No two passes hold the same number, so
//! what a pass holds stays as it is until a turn with that pass changes it, whatever other threads do
//! meanwhile.
//!
//! Proved: a turn finds a value whose history begins with all that the pass had seen and in which what the
//! pass holds stands as it knows it, does one act on it, and gives a pass that has seen the history with the
//! act and knows what then stands under its numbers ([`TurnCell::turn`]); a pass that is split or joined with
//! another knows just what was known ([`TurnCell::split`], [`TurnCell::join`]); at its end the cell gives a
//! value that begins with all that the pass had seen ([`TurnCell::close`]). All but `turn` and `close` return
//! and wait for nobody. Not proved: that a turn comes, that turns come in the order in which threads asked,
//! nor how long a thread waits. Passes that were never joined are in no order to each other.
#![tactic(auto)]

mod cell;
mod law;
mod pass;
mod steps;
mod turned;
mod view;

pub use cell::TurnCell;
pub use pass::Pass;
pub use turned::{Act, Turned};
pub use view::{Turn, View};
