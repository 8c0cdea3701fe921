//! Worked runs of the driver, each from the texts of programs to the system that comes back.
//!
//! Each test is named by what it shows. Nothing is proved here but that what the driver asks for holds, and
//! that the tests are safe and end.
#![tactic(auto)]

#[cfg(test)]
mod asserts;
#[cfg(test)]
mod benches;
#[cfg(test)]
mod checkpoints;
#[cfg(test)]
mod jobs;
#[cfg(test)]
mod nodes;
