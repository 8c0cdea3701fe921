//! What is told of a thread when a signal is to be delivered to it, and of what became of it
//! (`man 7 signal`).

use crate::request::Request;
use sys_abi::{Signal, Tid};

/// The first 16 bytes of what a call reads from its process's memory, with zeros where it reads fewer.
/// Whether a call waits depends on no later byte.
pub type Given = [u8; 16];

/// Where a thread stands when a signal is to be delivered to it.
#[derive(Clone, Copy)]
pub enum At {
    /// Anywhere else: at an instruction that goes on, at a trap with another signal, at a call that its
    /// process answers alone or that faults, or waiting on a word.
    Code,
    /// At a trap with that very signal.
    Trap,
    /// At a call of the kernel without a fault, which reads these bytes.
    Call(Request, Given),
}

/// What a delivery came to.
#[derive(Clone, Copy)]
pub enum Delivered {
    /// The handler begins.
    Entered,
    /// Nothing else happens.
    Ignored,
    /// The process ends with this status.
    Kills(u32),
}

/// The delivery of a signal to a thread.
#[derive(Clone, Copy)]
pub struct Delivering {
    pub t: Tid,
    pub s: Signal,
    pub at: At,
    pub result: Delivered,
}

/// A thread that can't go on by itself: its signal mask, and the call at which it stands, None for one that
/// waits on a word.
#[derive(Clone, Copy)]
pub struct IdleThread {
    pub tid: Tid,
    pub mask: u32,
    pub at: Option<(Request, Given)>,
}
