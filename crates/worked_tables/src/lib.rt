//! Worked calls of three tables of the kernel, pairs of numbers, channels and files, and of its two books,
//! descriptors and processes.
//!
//! A call that only gave up for want of memory would meet its contract, so each is made here with memory
//! to spare. Nothing is proved here but that the tests are safe and end.
#![tactic(auto)]

#[cfg(test)]
mod asserting;
#[cfg(test)]
mod channels;
#[cfg(test)]
mod descriptors;
#[cfg(test)]
mod files;
#[cfg(test)]
mod pairs;
#[cfg(test)]
mod processes;
