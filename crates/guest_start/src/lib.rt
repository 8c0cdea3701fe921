//! What a process begins with: the memory of a program, where its break starts, the registers of its one
//! thread, and what it does on each signal.
//!
//! The pages of the program's segments, the stack with the argument strings, and the page to which handlers
//! return are put into a fresh address space; the stack pointer is where the stack's words begin.
//!
//! Proved: each of these is the machine's, for every program and all arguments; nothing fails but for want of
//! memory.
//!
//! Source: System V ABI, chapter 5 (program loading), chapter 3 of its supplements (process initialization);
//! RISC-V ELF psABI.
//!
//! # Instructions in a row
//!
//! They run on a process's memory as the processor sees it. [`run_instructions`] does so many instructions
//! of a thread, or as many as go on; [`outcome_of`] tells what an instruction would come to and changes
//! nothing. The page of the code stands apart for a stretch of instructions that lie in it: a store into it
//! ends the stretch, so that the next one finds the code as the store left it, and one into another page
//! doesn't.
//!
//! Proved: a run is so many steps of the plain machine's processor, and tells exactly what its next
//! instruction comes to. Not proved, but so written: the loop allocates nothing, and finds a page by two
//! indexes where it loads or stores.
//!
//! Source: RISC-V unprivileged manual, sections 1.4 (memory) and 1.6 (traps).
#![tactic(auto)]

mod pages;
mod peek;
mod ram;
mod run;
mod stack;
mod start;
mod stretch;

pub use pages::insert_page;
pub use peek::outcome_of;
pub use ram::Ram;
pub use run::{SIGNAL_FAULT, SIGNAL_ILLEGAL, Stop, run_instructions};
pub use start::{break_of, start_actions, start_regs, start_space};
