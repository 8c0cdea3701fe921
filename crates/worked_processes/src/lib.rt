//! Worked images of processes, read, written, damaged and cut, with their pages, threads, waiters and
//! saved contexts.
//!
//! Each test is named by what it shows. Nothing is proved here but that the tests are safe and end.
#![tactic(auto)]

#[cfg(test)]
mod asserts;
#[cfg(test)]
mod damages;
#[cfg(test)]
mod process_images;
#[cfg(test)]
mod process_texts;
#[cfg(test)]
mod reading;
#[cfg(test)]
mod shared_images;
#[cfg(test)]
mod thread_lists;
