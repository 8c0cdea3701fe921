//! The calls on internet sockets over real numbers: listen, accept and connect.
//!
//! Proved: by all pairs and every kernel part for which the kernel stood, a call's answer and the kernel
//! after it are those of the plain row, by the pairs and names that a listen adds and the channel that a
//! connect adds; where a call fails or waits, and after want of memory, all is as before; whether a call
//! waits is told as the plain machine tells it. A listen gives the port of the caller's node, and not that
//! of the guest; no node lacks one.
#![tactic(auto)]

mod accepting;
mod connecting;
mod listening;
mod look_ups;

pub use accepting::{accept, is_accept_ready};
pub use connecting::{connect, is_connect_ready};
pub use listening::listen;
