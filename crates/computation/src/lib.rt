//! A distributed computation on one thread of the host: the part that all processes share, and each live
//! process's own part, made to run one record at a time.
//!
//! To a caller a [`Computation`] stands for a plain state; its shared part is a system over real numbers
//! behind the virtual ones that processes see. Proved: `work` makes one record of a thread's turn, a signal's
//! delivery, a quantum of instructions or a call, and `arrive` has all bytes of a direction arrive that are
//! missing: each appends a record that is a step from the state before to the one after, and the console takes
//! what that step writes. The look-ups say who lives, which threads there are, and what each can do. Where a
//! thread stands is looked at once: a look's answer, and what a quantum tells of its end, is handed back to
//! `work`. No fault of the console is passed over; where it failed at a call's bytes the shared part is that
//! after the record, and the call's answer isn't put. Want of memory leaves the plain state, the trace and the
//! console as they were. Not claimed: that an allocation succeeds.
#![tactic(auto)]

pub mod computation;
mod looks;
mod parts;
mod serving;
mod work;

pub use computation::{Computation, Did, Next, Stop};
pub use guest_proc::{Guest, Ran};
pub use wrap_calls::Wrapped;
