//! Words of RV32I and M: as instructions, as numbers, and in memory.
//!
//! [`decode`] answers the instruction of a word, [`encode`] the word of an instruction, and [`is_valid`]
//! whether an instruction has a word. Besides these, for what does instructions:
//!
//! - [`immediates`]: the fields of a word, and the numbers that they spell;
//! - [`arithmetic`]: shifts, comparisons, products, quotients and remainders;
//! - [`extension`]: bytes and half-words extended to words by their highest bits;
//! - [`GuestMemory`]: the memory that loads and stores reach, which any type may be.
//!
//! Proved: `decode` is the instruction table that `plain_process` defines; at most one row of the table
//! matches a word; `encode` and `decode` undo each other, and a valid instruction has exactly one word;
//! arithmetic is that of the table.
//!
//! Source: RISC-V unprivileged manual, chapters 2 (RV32I) and 13 (M), and the opcode map of chapter 34.
#![tactic(auto)]

pub mod arithmetic;
mod decoder;
mod encoder;
pub mod extension;
pub mod guest_memory;
pub mod immediates;
mod operands;

pub use decoder::decode;
pub use encoder::{encode, is_valid};
pub use guest_memory::{AccessFault, GuestMemory};
pub use plain_process::{Insn, Op};
