//! Worked calls that make, await and end processes, on a kernel part of plain data.
//!
//! What is expected comes from the table of calls (docs/CALLS.md), worked out by hand. Each test is named by
//! what it shows, and follows a table of steps. Nothing is proved here but that the tests are safe and end.
#![tactic(auto)]

#[cfg(test)]
mod ends;
#[cfg(test)]
mod forks;
#[cfg(test)]
mod kernels;
#[cfg(test)]
mod looks;
#[cfg(test)]
mod steps;
#[cfg(test)]
mod waits;
