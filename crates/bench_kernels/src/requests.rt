//! The calls that a benchmark makes.
ghost use Rattle.bench_kernels.specs.Owning as words;

use call_table::Request;

/// The flags of a fork: the child's end is told by SIGCHLD.
const FORK: u32 = 17;

/// The command that asks for a descriptor's flags (`man 2 fcntl`).
const GET_FLAGS: u32 = 3;

/// getpid
pub fn look() -> Request
    ensures { words.MayMake result }
{
    Request::Getpid
}

/// F_GETFL of a descriptor
pub fn flags_of(fd: u32) -> Request
    ensures { words.MayMake result }
{
    Request::Fcntl {
        fd,
        command: GET_FLAGS,
        argument: 0,
    }
}

/// pipe2
pub fn pipe() -> Request
    ensures { words.MayMake result }
{
    Request::Pipe2 { fds: 0, flags: 0 }
}

/// socketpair, of streams
pub fn pair() -> Request
    ensures { words.MayMake result }
{
    Request::Socketpair {
        domain: 1,
        socket_type: 1,
        protocol: 0,
        fds: 0,
    }
}

/// write
pub fn write(fd: u32, count: u32) -> Request
    ensures { words.MayMake result }
{
    Request::Write {
        fd,
        buffer: 0,
        count,
    }
}

/// read
pub fn read(fd: u32, count: u32) -> Request
    ensures { words.MayMake result }
{
    Request::Read {
        fd,
        buffer: 0,
        count,
    }
}

/// clone, as fork makes it
pub fn fork() -> Request
    ensures { words.MayMake result }
{
    Request::Clone {
        flags: FORK,
        stack: 0,
        parent_tid: 0,
        tls: 0,
        child_tid: 0,
    }
}

/// exit_group
pub fn end() -> Request
    ensures { words.MayMake result }
{
    Request::ExitGroup { code: 0 }
}

/// wait4, for any child
pub fn wait() -> Request
    ensures { words.MayMake result }
{
    Request::Wait4 {
        pid: 0xFFFF_FFFF,
        status: 0,
        options: 0,
        usage: 0,
    }
}
