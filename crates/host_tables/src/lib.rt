//! The kernel over real numbers, for all nodes, and what it is for it to stand for a plain kernel part.
//!
//! A [`Kernel`] is the tables of files, descriptors, network and processes, with the datagram pairs and the
//! node of each host. It knows no virtual number: the pairs of virtual and real numbers and addresses, and
//! the kinds and addresses of channels and sockets, stand beside it in a [`System`]. `specs/Stands.antt`
//! says, topic by topic and over the maps that the topic speaks of, when a kernel stands for a kernel part of
//! the plain machine by such pairs, and `specs/Systems.antt` when a system does. `specs/Serves.antt` says
//! what a call's row over real numbers owes: its answer, and the kernel after it, are those of the plain row
//! through the pairs, for all pairs and every kernel part for which the kernel stood.
#![tactic(auto)]

pub mod attempt;
pub mod kernel;
pub mod reply;
pub mod request;
pub mod system;

pub use attempt::{Attempt, RowResult};
pub use kernel::{HOST_COUNT, Hosts, Kernel};
pub use plain_machine::end::DESCRIPTOR_LIMIT;
pub use reply::KernelReply;
pub use request::{ChannelIds, PairIds, RealRequest};
pub use system::System;
pub use vfs_files::Files;
