//! Worked manifests, read, written and damaged, the shared image of a start, and whole sets read back.
//!
//! Each test is named by what it shows. Nothing is proved here but that the tests are safe and end.
#![tactic(auto)]

#[cfg(test)]
mod asserts;
#[cfg(test)]
mod damages;
#[cfg(test)]
mod manifests;
#[cfg(test)]
mod sets;
#[cfg(test)]
mod shared_images;
