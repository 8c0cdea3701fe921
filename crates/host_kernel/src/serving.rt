//! Each call by its row.
ghost use Rattle.std.specs.Prelude.{◌≡◌, IfOk, OnErr};
ghost use Rattle.host_tables.specs.Conditions.{IsSound, IsAsking, IsFresh};
ghost use Rattle.host_tables.specs.Serves.{ServesAttempt, ServesCall};
ghost use Rattle.host_kernel.specs.Groups.{IsNoDescriptorCall, IsNoFileCall, IsSocketCall};

use crate::{read, write};
use host_files::{close, dup, dup3, fcntl, lseek, openat, unlinkat};
use host_makers::{eventfd2, pipe2, socket, socketpair};
use host_sockets::{accept, connect, listen};
use host_streams::{
    clone, exit, exit_group, getpid, getppid, kill, setsockopt, shutdown, tgkill, wait4,
};
use host_tables::{Attempt, Kernel, KernelReply, RealRequest, RowResult};
use sys_abi::errors::ENOSYS;
use sys_abi::transfer::Transfer;
use sys_abi::{Errno, RealPid};

/// Serves a call of a thread (`man 2 syscalls`), whose numbers are real. The transfer holds the bytes that
/// the call reads, and then those that it gives, where it gives any.
pub fn serve(
    kernel: &mut Kernel,
    who: RealPid,
    thread: u32,
    request: &RealRequest,
    transfer: &mut Transfer,
) -> KernelReply
    requires sound { IsSound kernel.old }
    requires asking { IsAsking kernel.old.procs who thread }
    requires fresh { IsFresh kernel.old who request.now }
    ensures { ServesCall kernel.old kernel.new who thread request.now transfer.old transfer.new result }
{
    match row(kernel, who, thread, request, transfer) {
        Ok(Attempt::Gives(number)) => KernelReply::Done(number),
        Ok(Attempt::Fails(error)) => KernelReply::Error(error),
        Ok(Attempt::NotReady) => KernelReply::NotReady,
        Err(_) => KernelReply::Memory,
    }
}

/// The row of the call.
fn row(
    kernel: &mut Kernel,
    who: RealPid,
    thread: u32,
    request: &RealRequest,
    transfer: &mut Transfer,
) -> RowResult
    requires sound { IsSound kernel.old }
    requires asking { IsAsking kernel.old.procs who thread }
    requires fresh { IsFresh kernel.old who request.now }
    ensures ok { IfOk result
        (ServesAttempt kernel.old kernel.new who thread request.now transfer.old transfer.new) }
    ensures err { OnErr result (kernel.new ≡ kernel.old) }
    ensures kept { OnErr result (transfer.new ≡ transfer.old) }
{
    match *request {
        RealRequest::Eventfd2 { value, flags, id } => eventfd2(kernel, who, value, flags, id),
        RealRequest::Dup { fd } => dup(kernel, who, fd),
        RealRequest::Dup3 { fd, to, flags } => Ok(dup3(kernel, who, fd, to, flags)?.answer),
        RealRequest::Fcntl {
            fd,
            command,
            argument,
            target,
        } => fcntl(kernel, who, fd, command, argument, target),
        RealRequest::Close { fd } => Ok(close(kernel, who, fd).0),
        RealRequest::Pipe2 { flags, ids } => pipe2(kernel, who, flags, ids, transfer),
        _ => file_row(kernel, who, thread, request, transfer),
    }
}

/// The row of a call on files, or of one on processes or sockets.
fn file_row(
    kernel: &mut Kernel,
    who: RealPid,
    thread: u32,
    request: &RealRequest,
    transfer: &mut Transfer,
) -> RowResult
    requires sound { IsSound kernel.old }
    requires asking { IsAsking kernel.old.procs who thread }
    requires fresh { IsFresh kernel.old who request.now }
    requires no_descriptor { IsNoDescriptorCall request.now }
    ensures ok { IfOk result
        (ServesAttempt kernel.old kernel.new who thread request.now transfer.old transfer.new) }
    ensures err { OnErr result (kernel.new ≡ kernel.old) }
    ensures kept { OnErr result (transfer.new ≡ transfer.old) }
{
    match *request {
        RealRequest::Unlinkat { directory, flags } => Ok(unlinkat(
            kernel, directory, flags, transfer,
        )),
        RealRequest::Openat {
            directory,
            flags,
            id,
        } => openat(kernel, who, directory, flags, id, transfer),
        RealRequest::Lseek { fd, offset, whence } => Ok(lseek(kernel, who, fd, offset, whence)),
        RealRequest::Read { fd, count } => Ok(read(kernel, who, fd, count, transfer)),
        RealRequest::Write { fd, count } => write(kernel, who, thread, fd, count, transfer),
        _ => process_row(kernel, who, thread, request, transfer),
    }
}

/// The row of a call on processes, or of one on sockets.
fn process_row(
    kernel: &mut Kernel,
    who: RealPid,
    thread: u32,
    request: &RealRequest,
    transfer: &mut Transfer,
) -> RowResult
    requires sound { IsSound kernel.old }
    requires asking { IsAsking kernel.old.procs who thread }
    requires fresh { IsFresh kernel.old who request.now }
    requires no_file { IsNoFileCall request.now }
    ensures ok { IfOk result
        (ServesAttempt kernel.old kernel.new who thread request.now transfer.old transfer.new) }
    ensures err { OnErr result (kernel.new ≡ kernel.old) }
    ensures kept { OnErr result (transfer.new ≡ transfer.old) }
{
    match *request {
        RealRequest::Exit { code } => Ok(exit(kernel, who, thread, code)),
        RealRequest::ExitGroup { code } => Ok(exit_group(kernel, who, code)),
        RealRequest::Kill {
            number,
            signal,
            target,
        } => Ok(kill(kernel, number, signal, target)),
        RealRequest::Tgkill {
            number,
            tid,
            signal,
            target,
            thread,
        } => Ok(tgkill(kernel, number, tid, signal, target, thread)),
        RealRequest::Getpid => Ok(getpid(who)),
        RealRequest::Getppid => Ok(getppid(kernel, who)),
        RealRequest::Clone { flags } => clone(kernel, who, flags),
        RealRequest::Wait4 {
            number,
            options,
            usage,
            target,
        } => Ok(wait4(kernel, who, number, options, usage, target, transfer)),
        _ => socket_row(kernel, who, thread, request, transfer),
    }
}

/// The row of a call on sockets. A call that has no row is refused.
fn socket_row(
    kernel: &mut Kernel,
    who: RealPid,
    thread: u32,
    request: &RealRequest,
    transfer: &mut Transfer,
) -> RowResult
    requires sound { IsSound kernel.old }
    requires asking { IsAsking kernel.old.procs who thread }
    requires fresh { IsFresh kernel.old who request.now }
    requires sockets { IsSocketCall request.now }
    ensures ok { IfOk result
        (ServesAttempt kernel.old kernel.new who thread request.now transfer.old transfer.new) }
    ensures err { OnErr result (kernel.new ≡ kernel.old) }
    ensures kept { OnErr result (transfer.new ≡ transfer.old) }
{
    match *request {
        RealRequest::Socket {
            domain,
            socket_type,
            protocol,
            id,
        } => socket(kernel, who, domain, socket_type, protocol, id),
        RealRequest::Socketpair {
            domain,
            socket_type,
            protocol,
            streams,
            datagrams,
        } => socketpair(
            kernel,
            who,
            domain,
            socket_type,
            protocol,
            streams,
            datagrams,
            transfer,
        ),
        RealRequest::Listen {
            fd,
            backlog,
            port_free,
            of_pipe,
        } => listen(kernel, who, fd, backlog, port_free, of_pipe),
        RealRequest::Accept { fd, id, of_pipe } => accept(kernel, who, fd, id, of_pipe),
        RealRequest::Connect {
            fd,
            to,
            channel,
            port_free,
            of_pipe,
        } => connect(kernel, who, fd, to, channel, port_free, of_pipe),
        RealRequest::Setsockopt { fd, of_pipe } => Ok(setsockopt(kernel, who, fd, of_pipe)),
        RealRequest::Shutdown { fd, how, of_pipe } => Ok(shutdown(kernel, who, fd, how, of_pipe)),
        _ => Ok(Attempt::Fails(Errno(ENOSYS))),
    }
}
