ghost use Rattle.std.specs.Prelude.{◌≡◌, ◌≤◌, ℕ, List, None, is_some, length, IfOk, IfSome};
ghost use Rattle.sys_abi.specs.declared.transfer.TheConstants.{TRANSFER_LIMIT};
ghost use Rattle.plain_machine.specs.Serve as words;
ghost use Rattle.plain_machine.specs.Answers.{answer_told, attempt_told, KeepsUnlessGives};
ghost use Rattle.plain_rows.specs.Groups.{IsNoFileCall, IsNoProcessCall};

use crate::numbers::{getpid, getppid};
use crate::send::{kill, tgkill};
use call_table::{Given, Request};
use plain_files::clone::clone;
use plain_files::descriptors::{close, dup, dup3, fcntl};
use plain_files::end::{exit, exit_group};
use plain_files::files::{lseek, openat, unlinkat};
use plain_files::wait::{is_wait4_ready, wait4};
use plain_machine::PlainKernel;
use plain_sockets::connections::{accept, connect, is_accept_ready, is_connect_ready};
use plain_sockets::sockets::{
    bind, getpeername, getsockname, listen, setsockopt, shutdown, socket,
};
use plain_streams::channels::{pipe2, socketpair};
use plain_streams::counters::eventfd2;
use plain_streams::read::{is_read_ready, read};
use plain_streams::write::{is_write_ready, write};
use plain_tables::answer::{Answer, Attempt, RowResult, settled};
use std::alloc::{AllocError, Global};
use sys_abi::errors::ENOSYS;
use sys_abi::{Tid, VPid};

/// Serves a call of a thread, where `given` are the bytes that the call reads. It answers None where the call
/// waits, and then the kernel part is as before. After want of memory it may be any.
pub fn serve(
    kernel: &mut PlainKernel,
    alloc: Global,
    p: VPid,
    t: Tid,
    request: &Request,
    given: &[u8],
) -> Result<Option<Answer>, AllocError>
    requires { length given.now ≤ TRANSFER_LIMIT }
    ensures ok { IfOk result (λ answer.
        words.serve kernel.old p t.0 request.now given.now ≡ answer_told kernel.new given.now answer) }
    ensures waits { IfOk result (λ answer. answer ≡ None → kernel.new ≡ kernel.old) }
    ensures short { IfOk result (λ answer. IfSome answer (λ answer. length answer.bytes ≤ TRANSFER_LIMIT)) }
{
    let attempt = row(kernel, alloc, p, t, request, given)?;
    Ok(settled(alloc, attempt))
}

/// Whether a call of a thread doesn't wait, by the first 16 bytes that it reads, with zeros where it reads
/// fewer.
pub fn is_ready(kernel: &PlainKernel, p: VPid, t: Tid, request: &Request, front: &Given) -> bool
    ensures { (given : List ℕ) → words.front_of given ≡ front.now
        → is_some (words.serve kernel.now p t.0 request.now given) ≡ result }
{
    is_ready_at(kernel, p, t, request, front)
}

#[tactic(auto, unfolding(plain_machine::specs::Serve::is_ready))]
fn is_ready_at(kernel: &PlainKernel, p: VPid, t: Tid, request: &Request, front: &Given) -> bool
    ensures { result ≡ words.is_ready kernel.now p t.0 request.now front.now }
{
    match *request {
        Request::Read { fd, count, .. } => is_read_ready(kernel, p, fd, count),
        Request::Write { fd, count, .. } => is_write_ready(kernel, p, fd, count, front),
        Request::Accept { fd, .. } => is_accept_ready(kernel, p, fd),
        Request::Connect { fd, length, .. } => is_connect_ready(kernel, p, fd, length, front),
        Request::Wait4 {
            pid,
            options,
            usage,
            ..
        } => is_wait4_ready(kernel, p, pid, options, usage),
        _ => true,
    }
}

/// The row of the call: each arm is one call.
#[tactic(auto, unfolding(plain_machine::specs::Serve::row))]
fn row(
    kernel: &mut PlainKernel,
    alloc: Global,
    p: VPid,
    t: Tid,
    request: &Request,
    given: &[u8],
) -> RowResult
    requires { length given.now ≤ TRANSFER_LIMIT }
    ensures row { IfOk result (λ attempt.
        words.row kernel.old p t.0 request.now given.now ≡ attempt_told kernel.new given.now attempt) }
    ensures kept { IfOk result (λ attempt. KeepsUnlessGives attempt kernel.old kernel.new) }
{
    match *request {
        Request::Eventfd2 { value, flags } => eventfd2(kernel, alloc, p, value, flags),
        Request::Dup { fd } => dup(kernel, alloc, p, fd),
        Request::Dup3 { fd, to, flags } => dup3(kernel, alloc, p, fd, to, flags),
        Request::Fcntl {
            fd,
            command,
            argument,
        } => fcntl(kernel, alloc, p, fd, command, argument),
        Request::Unlinkat {
            directory,
            flags,
            ..
        } => unlinkat(kernel, alloc, p, directory, flags, given),
        Request::Openat {
            directory,
            flags,
            ..
        } => openat(kernel, alloc, p, directory, flags, given),
        Request::Close { fd } => close(kernel, alloc, p, fd),
        Request::Pipe2 { flags, .. } => pipe2(kernel, alloc, p, flags),
        Request::Lseek { fd, offset, whence } => lseek(kernel, alloc, p, fd, offset, whence),
        Request::Read { fd, count, .. } => read(kernel, alloc, p, fd, count),
        Request::Write { fd, count, .. } => write(kernel, alloc, p, t, fd, count, given),
        _ => process_row(kernel, alloc, p, t, request, given),
    }
}

/// The row of a call on processes, or of one on sockets.
#[tactic(auto, unfolding(plain_machine::specs::Serve::row))]
fn process_row(
    kernel: &mut PlainKernel,
    alloc: Global,
    p: VPid,
    t: Tid,
    request: &Request,
    given: &[u8],
) -> RowResult
    requires short { length given.now ≤ TRANSFER_LIMIT }
    requires no_file { IsNoFileCall request.now }
    ensures row { IfOk result (λ attempt.
        words.row kernel.old p t.0 request.now given.now ≡ attempt_told kernel.new given.now attempt) }
    ensures kept { IfOk result (λ attempt. KeepsUnlessGives attempt kernel.old kernel.new) }
{
    match *request {
        Request::Exit { code } => Ok(exit(kernel, alloc, p, t, code)),
        Request::ExitGroup { code } => Ok(exit_group(kernel, alloc, p, code)),
        Request::Kill { pid, signal } => Ok(kill(kernel, alloc, p, pid, signal)),
        Request::Tgkill { pid, tid, signal } => Ok(tgkill(kernel, alloc, p, pid, tid, signal)),
        Request::Getpid => Ok(getpid(kernel, alloc, p)),
        Request::Getppid => Ok(getppid(kernel, alloc, p)),
        Request::Clone { flags, .. } => clone(kernel, alloc, p, flags),
        Request::Wait4 {
            pid,
            options,
            usage,
            ..
        } => wait4(kernel, alloc, p, pid, options, usage),
        _ => socket_row(kernel, alloc, p, request, given),
    }
}

/// The row of a call on sockets. A call that has no row is refused.
#[tactic(auto, unfolding(plain_machine::specs::Serve::row))]
fn socket_row(
    kernel: &mut PlainKernel,
    alloc: Global,
    p: VPid,
    request: &Request,
    given: &[u8],
) -> RowResult
    requires short { length given.now ≤ TRANSFER_LIMIT }
    requires no_file { IsNoFileCall request.now }
    requires no_process { IsNoProcessCall request.now }
    ensures row { (t : ℕ) → IfOk result (λ attempt.
        words.row kernel.old p t request.now given.now ≡ attempt_told kernel.new given.now attempt) }
    ensures kept { IfOk result (λ attempt. KeepsUnlessGives attempt kernel.old kernel.new) }
{
    match *request {
        Request::Socket {
            domain,
            socket_type,
            protocol,
        } => socket(kernel, alloc, p, domain, socket_type, protocol),
        Request::Socketpair {
            domain,
            socket_type,
            protocol,
            ..
        } => socketpair(kernel, alloc, p, domain, socket_type, protocol),
        Request::Bind { fd, length, .. } => bind(kernel, alloc, p, fd, length, given),
        Request::Listen { fd, backlog } => listen(kernel, alloc, p, fd, backlog),
        Request::Accept { fd, address, .. } => accept(kernel, alloc, p, fd, address, given),
        Request::Connect { fd, length, .. } => connect(kernel, alloc, p, fd, length, given),
        Request::Getsockname { fd, .. } => getsockname(kernel, alloc, p, fd, given),
        Request::Getpeername { fd, .. } => getpeername(kernel, alloc, p, fd, given),
        Request::Setsockopt { fd, .. } => setsockopt(kernel, alloc, p, fd),
        Request::Shutdown { fd, how } => shutdown(kernel, alloc, p, fd, how),
        _ => Ok(Attempt::fails(ENOSYS)),
    }
}
