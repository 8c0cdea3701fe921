//! The processor of a guest: RV32I with M, one instruction at a time.
//!
//! [`decode`] answers the instruction of a word, [`encode`] the word of an instruction, [`is_valid`] whether
//! an instruction has a word, and [`exec`] does one instruction on registers and on any memory that keeps the
//! contract of [`GuestMemory`]. `rv_step` does both at once where an instruction goes on, for a loop over
//! many.
//!
//! Proved: `exec` has the effects that `plain_process` defines; a call, a trap and want of memory leave
//! registers and memory as they were. The first three are those of `rv_words`. Not proved: that any hardware
//! behaves so.
//!
//! Source: RISC-V unprivileged manual, chapters 2 (RV32I) and 13 (M).
#![tactic(auto)]

mod accesses;
mod branches;
mod computing;
mod executor;
pub mod outcome;
mod registers;

pub use executor::exec;
pub use outcome::Outcome;
pub use plain_process::{Insn, Op, Regs};
pub use rv_words::{AccessFault, GuestMemory, decode, encode, is_valid};
