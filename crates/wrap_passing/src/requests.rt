//! A guest's call over real numbers.
ghost use Rattle.std.specs.Prelude.{◌≡◌};
ghost use Rattle.plain_process.specs.Commands.{fcntl_command};
ghost use Rattle.wrap_passing.specs.Asking as words;
ghost use Rattle.wrap_passing.specs.Asking.{real_of};

use call_table::Request;
use host_tables::{RealRequest, System};
use plain_machine::FIRST_PID;
use plain_process::commands::FcntlCommand;
use sys_abi::{RealPid, VPid};
use wrap_names::naming::{leads_to_pipe, named, next_desc};
use wrap_names::numbers::real_thread;

/// The call with real numbers.
#[tactic(auto, unfolding(crate::specs::Asking::real_of))]
pub fn real_of(system: &System, p: VPid, who: RealPid, request: &Request) -> RealRequest
    ensures { result ≡ real_of system.now p who request.now }
{
    match *request {
        Request::Dup { fd } => RealRequest::Dup { fd },
        Request::Fcntl {
            fd,
            command,
            argument,
        } => fcntl_of(system, p, fd, command, argument_read(command, argument)),
        Request::Unlinkat {
            directory,
            flags,
            ..
        } => RealRequest::Unlinkat { directory, flags },
        Request::Lseek { fd, offset, whence } => RealRequest::Lseek { fd, offset, whence },
        Request::Read { fd, count, .. } => RealRequest::Read { fd, count },
        Request::Write { fd, count, .. } => RealRequest::Write { fd, count },
        Request::Kill { pid, signal } => RealRequest::Kill {
            number: pid,
            signal,
            target: named(system, p, pid),
        },
        Request::Tgkill { pid, tid, signal } => RealRequest::Tgkill {
            number: pid,
            tid,
            signal,
            target: named(system, p, pid),
            thread: real_thread(&system.ids, who.node, tid),
        },
        Request::Getpid => RealRequest::Getpid,
        Request::Getppid => RealRequest::Getppid,
        Request::Eventfd2 { value, flags } => RealRequest::Eventfd2 {
            value,
            flags,
            id: next_desc(&system.conns, p),
        },
        Request::Openat {
            directory,
            flags,
            ..
        } => RealRequest::Openat {
            directory,
            flags,
            id: next_desc(&system.conns, p),
        },
        Request::Wait4 {
            pid,
            options,
            usage,
            ..
        } => RealRequest::Wait4 {
            number: pid,
            options,
            usage,
            target: named(system, p, pid),
        },
        Request::Setsockopt { fd, .. } => RealRequest::Setsockopt {
            fd,
            of_pipe: leads_to_pipe(system, who, fd),
        },
        Request::Shutdown { fd, how } => RealRequest::Shutdown {
            fd,
            how,
            of_pipe: leads_to_pipe(system, who, fd),
        },
        _ => RealRequest::Unknown(0),
    }
}

/// What the command reads of its argument: one that asks reads none.
fn argument_read(command: u32, argument: u32) -> u32
    ensures { result ≡ words.argument_read (fcntl_command command) argument }
{
    match FcntlCommand::of(command) {
        Some(FcntlCommand::GetFd | FcntlCommand::GetFl | FcntlCommand::GetOwn) => 0,
        _ => argument,
    }
}

/// fcntl, with the process that its argument names.
fn fcntl_of(system: &System, p: VPid, fd: u32, command: u32, argument: u32) -> RealRequest
    ensures { result ≡ words.fcntl_of system.now p fd command argument }
{
    RealRequest::Fcntl {
        fd,
        command,
        argument,
        target: target_of(system, p, argument),
    }
}

/// The process that the argument names. No number below the first one is looked up, since no process has it.
fn target_of(system: &System, p: VPid, number: u32) -> Option<RealPid>
    ensures { result ≡ words.target_in system.now p number }
{
    if number < FIRST_PID {
        return None;
    }
    named(system, p, number)
}
