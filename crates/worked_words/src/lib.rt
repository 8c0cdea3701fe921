//! Worked calls of the lowest crates: lists and maps, ids and what is kept by them, inputs and sinks, and a
//! value that threads change in turns; and worked traces: their bytes, also damaged ones, the lines of their
//! log, and where checkpoints are asked for.
//!
//! A call that only gave up for want of memory would meet its contract, so each is made here with memory
//! to spare. Nothing is proved here but that the tests are safe and end, and that each pass of a turn is of
//! the cell and holds the number at which it is used.
#![tactic(auto)]

#[cfg(test)]
mod asserting;
#[cfg(test)]
mod ids;
#[cfg(test)]
mod ledgers;
#[cfg(test)]
mod lists;
#[cfg(test)]
mod log_lines;
#[cfg(test)]
mod maps;
#[cfg(test)]
mod streams;
#[cfg(test)]
mod traces;
