//! Worked calls on internet sockets, on plain data: each error in its order, what each call leaves, and when
//! it waits.
//!
//! Each test is named by what it shows. Nothing is proved here but that the tests are safe and end.
#![tactic(auto)]

#[cfg(test)]
mod asking;
#[cfg(test)]
mod connected;
#[cfg(test)]
mod made;
#[cfg(test)]
mod turns;
