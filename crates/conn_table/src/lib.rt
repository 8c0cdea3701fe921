//! The table of connections: which channels stand and of what kind, where their ends are and which of them
//! are open, the addresses of sockets and listeners, and for each process its host and its running number.
//!
//! To a caller a [`ConnTable`] is three finite maps: channels by their names, addresses by the names of open
//! descriptions, and makers by process numbers. Each socket has an address from the time that it is made:
//! until it is bound that of its host with the port 0, which is nobody's. [`ConnTable::port_used`] tells
//! whether a socket may be bound to an address, and [`ConnTable::first_unsupported`] names the descriptor for
//! which a checkpoint has to be refused.
//!
//! Proved: each call does to the maps what its clause says and leaves the rest as it was; `Taken` comes
//! exactly where the channel is there; want of memory changes nothing, and it never comes where the maker of
//! a process is only changed. Not proved: how long a call takes. Nothing here restates a standard; the
//! addresses are those of `man 7 ip`, and a channel goes when its last open end is closed, as after the last
//! `close` of `man 2 close`.
//!
//! # Datagram pairs
//!
//! Those of all nodes stand by the numbers that open descriptions name them with: for each end its
//! description, whether it is open, and the messages that wait to be read there. To a caller
//! [`DatagramPairs`] is a finite map from numbers to pairs. A pair is there while an end of it is open, and
//! keeps the description of an end that has closed: the other end is still known by it.
#![tactic(auto)]

mod closing;
mod conn;
mod conn_fault;
mod inbox;
mod messages;
mod opening;
mod pairs;
mod table;
mod unsupported;

pub use conn::Conn;
pub use conn_fault::ConnFault;
pub use inbox::Inbox;
pub use pairs::{DatagramEnd, DatagramPair, DatagramPairs};
pub use table::ConnTable;
