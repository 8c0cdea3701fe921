//! What a driver with one thread does of a checkpoint: from a system that runs to its drained channels, and
//! back.
//!
//! [`drain`] suspends all processes, has them elect leaders, and has these, as agents, take all bytes off the
//! channels. Images are made of the drained set. [`refill`] has the agents give the bytes back, and
//! resumes all processes. [`hold`] and [`release`] do so of a whole computation: while it is held there is
//! the start from which one would go on where it stands, which is what a set spells. The one thread runs no
//! process meanwhile: they are suspended once it asks, and each stage is over for all of them when its call
//! returns. So the barrier notes the suspension alone, and the stages after it are passed without it: it
//! ends with its request.
//!
//! Proved: the drained set is that of the kernel part for which the system stood, and at its barrier those
//! that live, and no others, are suspended and at no later stage. Where a descriptor refers to what no
//! image holds the first of them is told, and want of memory only where there is none; the system is then
//! handed back and stands for the same kernel part. After a refill it stands for that kernel part with all
//! bytes arrived, whatever came of the images; a refill takes no memory and is not refused. A computation
//! all of whose bytes have arrived, and which an image can hold, is held but for want of memory, and is
//! then as before; from its start one can begin with the same kernel part and the same processes. Once it
//! is let go its system stands for that kernel part again, and it has these processes. The source is Ansel,
//! Arya, Cooperman, "DMTCP: Transparent Checkpointing for Cluster Computations and the Desktop", 2009 (the
//! stages of a checkpoint).
#![tactic(auto)]

mod draining;
pub mod holding;
mod refilling;
mod standing;

pub use ckpt_stages::{PutOutcome, first_unsupported};
pub use draining::drain;
pub use holding::{Held, hold, release};
pub use refilling::refill;
pub use run_start::{Computation, Did, Guest, Next, Ran, Start, Stop, Wrapped};
