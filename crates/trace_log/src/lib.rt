//! The trace of a run: its records in order, the bytes that spell them, the lines of its log, and where the
//! marks of checkpoints may stand in it.
//!
//! A [`Trace`] is a list of records with room for a number of further ones. The room is made
//! beforehand, so that to append a record takes no memory and can't fail. `to_bytes` gives the bytes
//! of the trace's file, 16 for each record, and `from_bytes` reads them: but for want of memory it
//! is Ok exactly on such bytes, and else names the place of the first ones that spell no record.
//! [`log_text`] gives the lines that a run writes on its log for the checkpoints in its trace.
//! [`Schedule`] and [`Tally`] tell after which work record a request is made, and which generation
//! its cut gets.
//!
//! Proved: all of that, that a record has one spelling and different records differ in theirs, and the laws
//! of [`request_laws`] on the definition of a trace with its requests (`specs/Requests.antt`). Not proved
//! here: that a trace which is handed in follows that definition. All formats are this project's own and
//! restate no standard.
#![tactic(auto)]

mod fields;
pub mod log_lines;
pub mod requests;
pub mod trace;

pub use log_lines::{Progress, log_text};
pub use requests::{Schedule, Tally, request_laws, request_steps};
pub use trace::{Trace, TraceFault};
