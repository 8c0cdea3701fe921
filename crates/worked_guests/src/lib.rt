//! Guests of worked runs, told line by line.
//!
//! `words_of` takes a line apart, `Numbers` has the names of numbers, and a `Guest` takes the words
//! of its lines: words, bytes, texts, steps, and instructions by their mnemonics. The head of
//! `worked_calls` says what each line means. Nothing is proved here but that it is safe and ends.
#![tactic(auto)]

mod assembler;
pub mod fault;
pub mod guest;
mod mnemonics;
pub mod numbers;
pub mod words;

pub use fault::CaseFault;
pub use guest::{Guest, Guests, guest_of};
pub use numbers::Numbers;
