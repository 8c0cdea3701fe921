//! Worked calls on descriptors and files of a kernel part: each error in its order, and what each call
//! leaves.
//!
//! Each test is named by what it shows, and follows a table of steps. Nothing is proved here but that the
//! tests are safe and end.
#![tactic(auto)]

#[cfg(test)]
mod descriptors;
#[cfg(test)]
mod files;
#[cfg(test)]
mod kernels;
#[cfg(test)]
mod steps;
