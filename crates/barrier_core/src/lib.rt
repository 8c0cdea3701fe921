//! The global barrier of a coordinated checkpoint: which processes belong to the open request, which stage
//! all of them have reached, and which message each of them takes next.
//!
//! To a caller a [`Barrier`] is whether a request is open, and a finite map from its members to how far each
//! has come. `ask` opens a request, `reached` notes that a process has come to a stage, `joined` and `left`
//! follow forks and ends, `released` is the greatest stage that all have reached, and `take` gives each
//! process its messages.
//!
//! Proved: what each call leaves and answers, in every state. The barrier law, for every run of calls: a
//! stage is released only where every member has reached it, and no member is past a stage that another
//! member has not reached. Each member takes the messages in their order, each once, and none before it is
//! due. No call but `new` takes memory. Not proved: that any process reaches a stage, and that the members
//! are the processes that live, which is up to the caller. The stages are those of DMTCP's checkpoint
//! algorithm (IPDPS 2009), whose coordinator keeps a global barrier after each of them.
#![tactic(auto)]

mod barrier;
mod laws;
mod member;
mod members;
mod rows;
mod stage;

pub use barrier::Barrier;
pub use laws::barrier_laws;
pub use members::MEMBER_LIMIT;
pub use stage::{Message, Stage};
