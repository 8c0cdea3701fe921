//! The kernel over real numbers behind a guest's virtual ones.
//!
//! To a caller a [`Wrapped`] is the kernel part of the plain machine for which its system stands: its clauses
//! are equations of such kernel parts, as those of a plain one are. That value takes no memory and is there
//! for clauses alone; what ties it to the tables is that the system stands for it, whenever a `Wrapped` is
//! lent or handed on. A call names real numbers for what its guest names, by look-ups in the pairs and the
//! table of channels, has the kernel serve it, and tells the answer with the guest's numbers.
//!
//! What a system tells without a call of a guest is told by look-ups in its tables, which take no memory: a
//! call waits or not, a write goes to the console or not, some process lives, bytes of a direction are on the
//! way. Proved: what is told is the plain machine's word on every kernel part for which the system stands.
//! Where bytes arrive they pass from the sender's queue and the wire to the receiver's, and the system then
//! stands for the kernel part in which as many bytes of the direction have arrived.
#![tactic(auto)]

mod arriving;
mod connecting;
pub mod console;
pub mod direction_arriving;
pub mod directions;
mod ending;
pub mod living;
mod looks;
pub mod ready;
mod serving;
mod strangers;
pub mod wrapped;

pub use wrapped::Wrapped;
