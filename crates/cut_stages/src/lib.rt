//! A checkpoint from its drained channels on, by stages that own the system meanwhile.
//!
//! [`DrainedSet`] tells what was drained of all channels, and images are made meanwhile. In [`Written`] the
//! agents send the bytes back, and [`Refilled`] resumes all processes. The stages before them are those of
//! `ckpt_stages`.
//!
//! A contract sees of each of them the kernel part of the plain machine for which the system stood when it
//! was suspended, and the barrier: they are handed on unchanged from stage to stage. What ties them to the
//! tables is the types' own, whenever one is lent or handed on: the system differs from the one that was
//! suspended in the owners of descriptions and in where the bytes of channels stand, and in nothing else.
//!
//! Proved: no call is refused, and none takes memory but [`DrainedSet::kernel`], which makes the kernel part
//! for the images. While the channels are filled again the system stands for the kernel part with what the
//! agents hold. A step that moves bytes leaves less to do, and while a refill is not
//! done some agent's step or some move goes on with it; `refill_all` makes them in rounds until nothing is
//! left. After the last stage the system stands for the same kernel part with all bytes arrived. The source is
//! Ansel, Arya, Cooperman, "DMTCP: Transparent Checkpointing for Cluster Computations and the Desktop", 2009
//! (the stages of a checkpoint).
#![tactic(auto)]

pub mod base;
pub mod drained;
pub mod outcome;
pub mod refilled;
pub mod refilling;
pub mod written;

pub use drained::DrainedSet;
pub use outcome::PutOutcome;
pub use refilled::Refilled;
pub use wrap_names::stood::Stood;
pub use written::Written;
