//! What stands in the tables of a kernel part, on plain data: processes, descriptors, open descriptions,
//! channels; and what a call answers, apart from the change of the kernel part.
//!
//! `specs/` has the words on them, each over the table that it speaks of: `Tables` and `Objects` those on
//! what stands there, `Start` what a process begins with, `Closing`, `Ends` and `Waits` those on closes, on
//! the ends of processes and on waits for them, and in `specs/Valid/` what holds of the tables of every
//! kernel part, a topic a record over its own tables. Source: `man 2 open`, `man 2 credentials`,
//! `man 2 wait4`, `man 7 signal`.
//!
//! Proved: each function is the word of its name, and what may want memory, but for the descriptors of a
//! child, leaves its table as it was where there is none; `proofs/` has what each word keeps of each topic.
#![tactic(auto)]

pub mod answer;
pub mod channel;
pub mod closing;
pub mod description;
pub mod ends;
pub mod forks;
pub mod pending;
pub mod process;
pub mod start;
pub mod threads;
pub mod waiting;

pub use answer::{Answer, Attempt, RowResult};
pub use channel::{Channel, ChannelEnd, ChannelKind, Direction, Listening};
pub use description::{Description, Object};
pub use ends::NOBODY;
pub use id_maps::{ByAddress, ByConn, ByDesc, ByDir, ByName, ByPid, BySlot, sys_abi};
pub use plain_process;
pub use plain_process::views;
pub use process::Process;
pub use waiting::Waiting;
