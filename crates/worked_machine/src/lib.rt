//! Worked runs of the plain machine on plain data: calls on a kernel part, a thread's steps, calls that a
//! process answers alone, and replays.
//!
//! Each test is named by what it shows. Nothing is proved here but that the tests are safe and end.
#![tactic(auto)]

#[cfg(test)]
mod asserting;
#[cfg(test)]
mod kernel_calls;
#[cfg(test)]
mod local_calls;
#[cfg(test)]
mod process;
#[cfg(test)]
mod replays;
#[cfg(test)]
mod steps;
