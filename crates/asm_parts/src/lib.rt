//! What the lines of an assembler's text are made of.
//!
//! - [`text`]: texts cut at a character, without spaces, and names;
//! - [`number`]: the numbers that fields hold;
//! - [`register`]: the registers by their names;
//! - [`operands`]: one, two or three operands between commas, and an offset with its register;
//! - [`quoted`]: the bytes that a quoted text spells.
//!
//! Proved: each call gives what its definition in `specs` says, for every text. Not proved: that memory
//! is wanted only where there is none, in the one call that takes some.
//!
//! Source: RISC-V assembly programmer's handbook; RISC-V ELF psABI, "Integer Register Convention".
#![tactic(auto)]

pub mod number;
pub mod operands;
pub mod quoted;
pub mod register;
pub mod text;
