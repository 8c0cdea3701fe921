use sys_abi::{ConnId, DescId, Errno, RealAddr, RealPid};

/// The numbers that a new channel and its two ends get, in the order in which their process gives them out.
#[derive(Clone, Copy)]
pub struct ChannelIds {
    pub channel: ConnId,
    pub first: DescId,
    pub second: DescId,
}

/// The numbers that the two ends of a new datagram pair get.
#[derive(Clone, Copy)]
pub struct PairIds {
    pub first: DescId,
    pub second: DescId,
}

/// A kernel call with real numbers: what the call's row reads of its arguments, and beside it what the caller
/// of the kernel found out with the pairs. bind, getsockname and getpeername need nothing of the kernel but
/// descriptors, and are not among them.
///
/// `target` is the real number of the process that the guest's `number` or `argument` names, and None where
/// the caller's host has no process of that number. The numbers that new descriptions and channels get are
/// None where their process has none left to give out. `of_pipe` tells whether the descriptor leads to an end
/// of a pipe, which is no socket: the kernel doesn't keep what kind a channel is of.
#[derive(Clone, Copy)]
pub enum RealRequest {
    Eventfd2 {
        value: u32,
        flags: u32,
        id: Option<DescId>,
    },
    Dup {
        fd: u32,
    },
    Dup3 {
        fd: u32,
        to: u32,
        flags: u32,
    },
    Fcntl {
        fd: u32,
        command: u32,
        argument: u32,
        target: Option<RealPid>,
    },
    Unlinkat {
        directory: u32,
        flags: u32,
    },
    Openat {
        directory: u32,
        flags: u32,
        id: Option<DescId>,
    },
    Close {
        fd: u32,
    },
    Pipe2 {
        flags: u32,
        ids: Option<ChannelIds>,
    },
    Lseek {
        fd: u32,
        offset: u32,
        whence: u32,
    },
    Read {
        fd: u32,
        count: u32,
    },
    Write {
        fd: u32,
        count: u32,
    },
    Exit {
        code: u32,
    },
    ExitGroup {
        code: u32,
    },
    Kill {
        number: u32,
        signal: u32,
        target: Option<RealPid>,
    },
    /// `thread` is the real number of the thread `tid`, None where it has none on the node of the caller.
    Tgkill {
        number: u32,
        tid: u32,
        signal: u32,
        target: Option<RealPid>,
        thread: Option<u32>,
    },
    Getpid,
    /// Answers 0 where there is no parent.
    Getppid,
    Socket {
        domain: u32,
        socket_type: u32,
        protocol: u32,
        id: Option<DescId>,
    },
    /// The numbers of a pair of streams, and those of a pair of datagram ends: the type says which are taken.
    Socketpair {
        domain: u32,
        socket_type: u32,
        protocol: u32,
        streams: Option<ChannelIds>,
        datagrams: Option<PairIds>,
    },
    /// Answers the real port. `port_free` tells whether the socket has a port, or its host a free one.
    Listen {
        fd: u32,
        backlog: u32,
        port_free: bool,
        of_pipe: bool,
    },
    /// Gives no address.
    Accept {
        fd: u32,
        id: Option<DescId>,
        of_pipe: bool,
    },
    /// `to` is the port at which the address that the guest names is listened, None where nobody listens
    /// there, or why the bytes are no address. `port_free` tells whether the socket has a port, or its host a
    /// free one.
    Connect {
        fd: u32,
        to: Result<Option<RealAddr>, Errno>,
        channel: Option<ConnId>,
        port_free: bool,
        of_pipe: bool,
    },
    Setsockopt {
        fd: u32,
        of_pipe: bool,
    },
    Shutdown {
        fd: u32,
        how: u32,
        of_pipe: bool,
    },
    /// Answers the real number, and gives no bytes.
    Clone {
        flags: u32,
    },
    Wait4 {
        number: u32,
        options: u32,
        usage: u32,
        target: Option<RealPid>,
    },
    /// A call that no row has.
    Unknown(u32),
}
