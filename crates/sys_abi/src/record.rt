use crate::identity::{Dir, Fd, Signal, Tid, VPid};

/// What an open description stands for, as a refused checkpoint names it.
#[derive(Clone, Copy, Debug, PartialEq, Eq)]
pub enum Kind {
    Console,
    File,
    Stream,
    Socket,
    Listener,
    Datagram,
    Counter,
}

/// Why a request for a checkpoint was refused.
#[derive(Clone, Copy, Debug, PartialEq, Eq)]
pub enum Cause {
    /// Descriptor `fd` of process `p` is of a kind that no image holds.
    Unsupported { p: VPid, fd: Fd, kind: Kind },
    DiskFault,
    Memory,
}

/// One event of a run. `User`, `Call` and `Deliver` are work, `Arrive` moves bytes, and the others are marks,
/// which change nothing.
#[derive(Clone, Copy, Debug, PartialEq, Eq)]
pub enum Record {
    /// Thread `t` of `p` ran `n` instructions: 4,096, or from 1 to 4,095 with a call or a trap right after
    /// them.
    User { p: VPid, t: Tid, n: u32 },
    /// The call at which `t` stands was served.
    Call { p: VPid, t: Tid },
    /// Signal `s`, pending or trapped, was delivered to `t`.
    Deliver { p: VPid, t: Tid, s: Signal },
    /// `n` further bytes of `dir` can be read, `n` at least 1.
    Arrive { dir: Dir, n: u32 },
    /// All processes are suspended, and all bytes have arrived.
    Cut { generation: u64 },
    /// `n` bytes of `dir` stood unread at the cut.
    Drained { dir: Dir, n: u32 },
    /// `n` bytes of `dir` were put back after the cut.
    Refilled { dir: Dir, n: u32 },
    /// The set of that generation was written.
    Complete { generation: u64 },
    /// The request was refused.
    Refused { cause: Cause },
    /// Nobody lived when all had reached suspension or left.
    Lapsed,
}
