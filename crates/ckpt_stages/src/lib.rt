//! A checkpoint of all processes, by stages that own the system meanwhile: nothing else acts on it between
//! two of them.
//!
//! [`Suspended`] begins when all processes are suspended. It takes all room of the checkpoint, keeps the
//! owners of all descriptions and clears them, and has each process vote. In [`Elected`] the agents, who are
//! elected so, take all bytes off the channels. [`DrainedSet`] tells what was drained, and images are made
//! meanwhile. In [`Written`] the agents send the bytes back, and [`Refilled`] resumes all processes: these
//! three are those of `cut_stages`.
//!
//! A contract sees of each of them the kernel part of the plain machine for which the system stood when it
//! was suspended, and the barrier: they are handed on unchanged from stage to stage. What ties them to the
//! tables is the types' own, whenever one is lent or handed on: the system differs from the one that was
//! suspended in the owners of descriptions and in where the bytes of channels stand, and in nothing else.
//!
//! Proved: a suspension is refused for the first descriptor that no image holds, exactly where there is one,
//! and else for want of memory alone; after it no call is refused, and none takes memory but the one that
//! makes the kernel part for the images. While the channels are drained or filled again the system stands for
//! the kernel part with what the agents hold. A step that moves bytes leaves less to do, and while a drain or a
//! refill is not done some agent's step or some move goes on with it; in a drain that agent is a live process.
//! `drain_all` and `refill_all` make these steps and moves in rounds until nothing is left. After the last
//! stage the system stands for the same kernel part with all bytes arrived, and one that is given up before
//! the drain for the same kernel part as it was. Not proved: that the agent which can go on with a refill
//! lives. The source is Ansel, Arya, Cooperman, "DMTCP: Transparent Checkpointing for Cluster Computations and
//! the Desktop", 2009 (the stages of a checkpoint).
#![tactic(auto)]

pub mod draining;
pub mod elected;
pub mod fault;
pub mod first_unsupported;
pub mod reserving;
pub mod suspended;

pub use barrier_core::{Barrier, Message, Stage};
pub use cut_stages::{DrainedSet, PutOutcome, Refilled, Stood, Written};
pub use elected::Elected;
pub use fault::StageFault;
pub use suspended::Suspended;
