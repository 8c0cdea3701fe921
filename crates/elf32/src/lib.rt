//! Static 32-bit RISC-V executables: [`read_elf`](reader::read_elf) makes of a file's bytes the
//! program that they describe, or says which rule of the format they break first, and at which
//! byte.
//!
//! The rules are those of the System V ABI for ELF (chapter 4, "ELF Header", and chapter 5,
//! "Program Header") and of the RISC-V ELF psABI (`e_flags`), narrowed to what is loaded here:
//! little endian, `ET_EXEC`, no compressed code, no floating point, no dynamic linker, at most 64
//! program headers and 1,536 pages, all segments between 0x1000 and 0x4000_0000.
//! `specs/Rules.antt` lists them in order, as tests of the fields by their places in the file. For a
//! loader, `page` says which pages the segments touch, and with which rights.
//!
//! Proved, for every list of bytes: a program comes exactly where every rule holds, and it is the
//! one that the headers describe; otherwise the answer is the first broken rule with its byte.
//! `Memory` alone may come in place of any answer. Not proved: that memory is there.
#![tactic(auto)]

pub use fault::{ElfFault, ElfReason};
pub use program::{Program, Segment};
pub use reader::read_elf;
pub use views;

pub mod fault;
mod fields;
mod file_header;
mod layout;
pub mod page;
pub mod program;
mod program_header;
mod range;
pub mod reader;
