ghost use Rattle.std.specs.Prelude.{◌≡◌, ℕ, slice_index};
ghost use Rattle.call_table.specs.Requests as requests;

use crate::calls;

/// A call that a guest makes: one variant for each row of the table of calls, whose fields are the row's
/// arguments, a0 first. `Unknown` has the number of a call that no row has.
#[derive(Clone, Copy)]
pub enum Request {
    Eventfd2 {
        value: u32,
        flags: u32,
    },
    Dup {
        fd: u32,
    },
    Dup3 {
        fd: u32,
        to: u32,
        flags: u32,
    },
    Fcntl {
        fd: u32,
        command: u32,
        argument: u32,
    },
    Unlinkat {
        directory: u32,
        path: u32,
        flags: u32,
    },
    Openat {
        directory: u32,
        path: u32,
        flags: u32,
        mode: u32,
    },
    Close {
        fd: u32,
    },
    Pipe2 {
        fds: u32,
        flags: u32,
    },
    Lseek {
        fd: u32,
        offset: u32,
        whence: u32,
    },
    Read {
        fd: u32,
        buffer: u32,
        count: u32,
    },
    Write {
        fd: u32,
        buffer: u32,
        count: u32,
    },
    Exit {
        code: u32,
    },
    ExitGroup {
        code: u32,
    },
    SetTidAddress {
        place: u32,
    },
    Futex {
        address: u32,
        operation: u32,
        value: u32,
        timeout: u32,
    },
    SchedYield,
    Kill {
        pid: u32,
        signal: u32,
    },
    Tgkill {
        pid: u32,
        tid: u32,
        signal: u32,
    },
    RtSigaction {
        signal: u32,
        action: u32,
        old_action: u32,
        size: u32,
    },
    RtSigprocmask {
        how: u32,
        set: u32,
        old_set: u32,
        size: u32,
    },
    RtSigreturn,
    Getpid,
    Getppid,
    Gettid,
    Socket {
        domain: u32,
        socket_type: u32,
        protocol: u32,
    },
    Socketpair {
        domain: u32,
        socket_type: u32,
        protocol: u32,
        fds: u32,
    },
    Bind {
        fd: u32,
        address: u32,
        length: u32,
    },
    Listen {
        fd: u32,
        backlog: u32,
    },
    Accept {
        fd: u32,
        address: u32,
        length: u32,
    },
    Connect {
        fd: u32,
        address: u32,
        length: u32,
    },
    Getsockname {
        fd: u32,
        address: u32,
        length: u32,
    },
    Getpeername {
        fd: u32,
        address: u32,
        length: u32,
    },
    Setsockopt {
        fd: u32,
        level: u32,
        name: u32,
        value: u32,
        length: u32,
    },
    Shutdown {
        fd: u32,
        how: u32,
    },
    Brk {
        address: u32,
    },
    Munmap {
        address: u32,
        length: u32,
    },
    Clone {
        flags: u32,
        stack: u32,
        parent_tid: u32,
        tls: u32,
        child_tid: u32,
    },
    Mmap {
        address: u32,
        length: u32,
        protection: u32,
        flags: u32,
        fd: u32,
        offset: u32,
    },
    Wait4 {
        pid: u32,
        status: u32,
        options: u32,
        usage: u32,
    },
    Unknown(u32),
}

/// The call at which a thread with these registers stands: the number is in a7 (x17), the arguments are in a0
/// to a5 (x10 to x15).
#[tactic(auto, unfolding(crate::specs::Requests::request_by))]
pub fn request_of(regs: &[u32; 32]) -> Request
    ensures { result ≡ requests.request_of regs.now }
{
    request_by(
        regs[17],
        [regs[10], regs[11], regs[12], regs[13], regs[14], regs[15]],
    )
}

#[tactic(auto, unfolding(crate::specs::Requests::request_by))]
fn request_by(number: u32, arguments: [u32; 6]) -> Request
    ensures { result ≡ requests.request_by number arguments }
{
    let [a, b, c, d, e, f] = arguments;
    match number {
        calls::EVENTFD2 => Request::Eventfd2 { value: a, flags: b },
        calls::DUP => Request::Dup { fd: a },
        calls::DUP3 => Request::Dup3 {
            fd: a,
            to: b,
            flags: c,
        },
        calls::FCNTL => Request::Fcntl {
            fd: a,
            command: b,
            argument: c,
        },
        calls::UNLINKAT => Request::Unlinkat {
            directory: a,
            path: b,
            flags: c,
        },
        calls::OPENAT => Request::Openat {
            directory: a,
            path: b,
            flags: c,
            mode: d,
        },
        calls::CLOSE => Request::Close { fd: a },
        calls::PIPE2 => Request::Pipe2 { fds: a, flags: b },
        calls::LSEEK => Request::Lseek {
            fd: a,
            offset: b,
            whence: c,
        },
        calls::READ => Request::Read {
            fd: a,
            buffer: b,
            count: c,
        },
        calls::WRITE => Request::Write {
            fd: a,
            buffer: b,
            count: c,
        },
        calls::EXIT => Request::Exit { code: a },
        calls::EXIT_GROUP => Request::ExitGroup { code: a },
        calls::SET_TID_ADDRESS => Request::SetTidAddress { place: a },
        calls::FUTEX => Request::Futex {
            address: a,
            operation: b,
            value: c,
            timeout: d,
        },
        calls::SCHED_YIELD => Request::SchedYield,
        calls::KILL => Request::Kill { pid: a, signal: b },
        calls::TGKILL => Request::Tgkill {
            pid: a,
            tid: b,
            signal: c,
        },
        calls::RT_SIGACTION => Request::RtSigaction {
            signal: a,
            action: b,
            old_action: c,
            size: d,
        },
        calls::RT_SIGPROCMASK => Request::RtSigprocmask {
            how: a,
            set: b,
            old_set: c,
            size: d,
        },
        calls::RT_SIGRETURN => Request::RtSigreturn,
        calls::GETPID => Request::Getpid,
        calls::GETPPID => Request::Getppid,
        calls::GETTID => Request::Gettid,
        calls::SOCKET => Request::Socket {
            domain: a,
            socket_type: b,
            protocol: c,
        },
        calls::SOCKETPAIR => Request::Socketpair {
            domain: a,
            socket_type: b,
            protocol: c,
            fds: d,
        },
        calls::BIND => Request::Bind {
            fd: a,
            address: b,
            length: c,
        },
        calls::LISTEN => Request::Listen { fd: a, backlog: b },
        calls::ACCEPT => Request::Accept {
            fd: a,
            address: b,
            length: c,
        },
        calls::CONNECT => Request::Connect {
            fd: a,
            address: b,
            length: c,
        },
        calls::GETSOCKNAME => Request::Getsockname {
            fd: a,
            address: b,
            length: c,
        },
        calls::GETPEERNAME => Request::Getpeername {
            fd: a,
            address: b,
            length: c,
        },
        calls::SETSOCKOPT => Request::Setsockopt {
            fd: a,
            level: b,
            name: c,
            value: d,
            length: e,
        },
        calls::SHUTDOWN => Request::Shutdown { fd: a, how: b },
        calls::BRK => Request::Brk { address: a },
        calls::MUNMAP => Request::Munmap {
            address: a,
            length: b,
        },
        calls::CLONE => Request::Clone {
            flags: a,
            stack: b,
            parent_tid: c,
            tls: d,
            child_tid: e,
        },
        calls::MMAP => Request::Mmap {
            address: a,
            length: b,
            protection: c,
            flags: d,
            fd: e,
            offset: f,
        },
        calls::WAIT4 => Request::Wait4 {
            pid: a,
            status: b,
            options: c,
            usage: d,
        },
        _ => Request::Unknown(number),
    }
}

/// Whether a process answers the call alone, with no change outside its own memory, threads and handlers.
pub fn is_local(request: &Request) -> bool
    ensures { result ≡ requests.is_local request.now }
{
    matches!(
        request,
        Request::SetTidAddress { .. }
            | Request::Futex { .. }
            | Request::SchedYield
            | Request::RtSigaction { .. }
            | Request::RtSigprocmask { .. }
            | Request::RtSigreturn
            | Request::Gettid
            | Request::Brk { .. }
            | Request::Munmap { .. }
            | Request::Mmap { .. }
    )
}
