//! Worked runs of channels: what the calls of the network answer, and channels between two processes that are
//! drained, filled again, and both one after the other; and of what the processes of a checkpoint agree on:
//! who leads a description that several hold, where a channel can be reached after a restart, and which stage
//! all have come to.
//!
//! Each test is named by what it shows: it makes what is tested, and lends it to a function that is a list of
//! calls, or follows a table of steps. `channel` has the one channel that drains and refills are made of. A
//! call that only gave up for want of memory would meet its contract, so each is made here with memory to
//! spare. Nothing is proved here but that the tests are safe and end, and that each call is made where it may
//! be: what a drain gives is what a refill asks for.
#![tactic(auto)]

#[cfg(test)]
mod barriers;
#[cfg(test)]
mod channel;
#[cfg(test)]
mod checks;
#[cfg(test)]
mod cuts;
#[cfg(test)]
mod directories;
#[cfg(test)]
mod drains;
#[cfg(test)]
mod elections;
#[cfg(test)]
mod networks;
#[cfg(test)]
mod refills;
