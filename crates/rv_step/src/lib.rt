//! One step of a guest's processor, for a loop over many: the instruction of a word, done on registers and
//! memory.
//!
//! [`step`] does at once what `decode` and `exec` of `rv_isa` do one after the other, where an instruction
//! goes on, and leaves calls, traps, fences and refused accesses to the two. It works on any memory that
//! keeps the contract of `GuestMemory`.
//!
//! Proved: a step that is made is that of the instruction table and the effects that `plain_process` defines,
//! and one that isn't has changed nothing. Not proved: how fast it is.
//!
//! Source: RISC-V unprivileged manual, chapters 2 (RV32I) and 13 (M).
#![tactic(auto)]

mod moves;
mod stepper;
mod values;

pub use stepper::step;
