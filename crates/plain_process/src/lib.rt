//! The part of a process on plain data, and what it may do by itself: memory as a map of frames, threads with
//! registers, handlers, waiters, and the words in which the layers above speak of them.
//!
//! `specs/` has the definitions, a file a notion, each with the place of the public standard that it
//! restates: the RISC-V unprivileged manual for instructions and memory, the ELF ABI for the start, or, for
//! the calls, the manual page of Linux that it is modelled on. `user_step` is a thread's next step, `lent`
//! what a call reads, `put` what its answer changes, `local_row` a call that the process answers alone,
//! `deliver` a signal's delivery, and `IsUser` what holds of each part that a run reaches.
//!
//! Proved: each function is the definition of its name, on the buffers of a call, the registers after a call,
//! a clone and a handler's start, masks, actions, the commands of fcntl, rights and pages. `worked_examples`
//! pins decoding, multiplication, division, the start of the stack and the word of a reply at values worked
//! out by hand. Not claimed: that any hardware or kernel behaves so.
#![tactic(auto)]

pub mod buffers;
pub mod commands;
pub mod deliveries;
pub mod handlers;
pub mod instruction;
pub mod laws;
pub mod mappings;
pub mod memory;
pub mod regs;
pub mod threads;
pub mod user_part;

pub use buffers::{Source, Span, Spans, fills_of, length_place, reads_of, writes_of};
pub use elf32::views;
pub use instruction::{Insn, Op};
pub use laws::worked_examples;
pub use memory::{Frame, Right};
pub use regs::Regs;
pub use user_part::{Context, SignalAction, ThreadPart, UserPart, Waiter};
