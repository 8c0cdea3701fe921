//! Worked calls on what a guest is made of: its memory, and its own part with its threads; and programs that
//! write their own code.
//!
//! Each test is named by what it shows. Most are tables of steps, each a call with its answer: those of a
//! space are in `spaces`, those of a guest in `steps`. Nothing is proved here but that the tests are safe and
//! end.
#![tactic(auto)]

#[cfg(test)]
mod asserts;
#[cfg(test)]
mod children;
#[cfg(test)]
mod guests;
#[cfg(test)]
mod local_calls;
#[cfg(test)]
mod own_code;
#[cfg(test)]
mod spaces;
#[cfg(test)]
mod steps;
