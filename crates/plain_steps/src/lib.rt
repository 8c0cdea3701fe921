//! The steps of a thread on plain data.
//!
//! Each function computes the definition of its name in `plain_process`, in place where that changes a value.
//! It goes as the definition goes, a row of the table at a time, and shares no table with the processor that
//! runs guests.
//!
//! Proved: `decoded` is the table of RV32IM, `effect` the effect of an instruction, `user_step` the next step
//! of a thread and `user_steps` so many in a row; what doesn't go on changes nothing.
#![tactic(auto)]

pub mod arithmetic;
pub mod computing;
pub mod decoder;
pub mod effect;
pub mod executor;
pub mod format;
pub mod steps;
pub mod table;
