//! Whether a call waits.
ghost use Rattle.std.specs.Prelude.{◌≡◌};
ghost use Rattle.plain_machine.specs.declared.kernel.PlainKernel.{PlainKernel};
ghost use Rattle.plain_machine.specs.Serve as words;
ghost use Rattle.wrap_passing.specs.OfWrapNames.Wrapping.{IsWrapped};

use crate::connecting::is_connect_ready;
use crate::strangers::is_stranger_ready;
use call_table::Request;
use host_tables::System;
use sys_abi::{Tid, VPid};
use wrap_ends::is_wait4_ready;
use wrap_passing::{is_read_ready, is_write_ready, leads_to_pipe, named, next_desc};
use wrap_sockets::is_accept_ready;

/// Whether a call of a thread doesn't wait, by the first 16 bytes that it reads, with zeros where it reads
/// fewer. Takes no memory.
pub fn is_ready(system: &System, p: VPid, t: Tid, request: &Request, front: &[u8]) -> bool
    ensures { (k : PlainKernel) (next_id : _) → IsWrapped system.now next_id k
        → result ≡ words.is_ready k p t.0 request.now front.now }
{
    let _ = t;
    let Ok(who) = system.ids.real_pid(p.0) else {
        return is_stranger_ready(system, p, request);
    };
    match *request {
        Request::Read { fd, count, .. } => is_read_ready(&system.kernel, who, fd, count),
        Request::Write { fd, count, .. } => is_write_ready(&system.kernel, who, fd, count, front),
        Request::Accept { fd, .. } => {
            system.kernel.book.whole();
            let id = next_desc(&system.conns, p);
            is_accept_ready(&system.kernel, who, fd, id, leads_to_pipe(system, who, fd))
        }
        Request::Connect { fd, length, .. } => is_connect_ready(system, p, who, fd, length, front),
        Request::Wait4 {
            pid,
            options,
            usage,
            ..
        } => {
            let target = named(system, p, pid);
            is_wait4_ready(&system.kernel, who, pid, options, usage, target)
        }
        _ => true,
    }
}
