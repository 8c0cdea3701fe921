//! The oldest connection that waits at a listener is taken (`man 2 accept`).
ghost use Rattle.std.specs.Prelude.{◌≡◌, List, None, Some, IfOk, IfSome, OnErr};
ghost use Rattle.std.specs.FinMap as map;
ghost use Rattle.views.specs.Numbers.{Byte};
ghost use Rattle.plain_machine.specs.Rows.Connections as rows;
ghost use Rattle.host_descriptors.specs.OfHostTables.Conditions.{IsNewDesc};
ghost use Rattle.host_descriptors.specs.OfHostTables.Requests.{next_desc, leads_to_pipe};
ghost use Rattle.host_descriptors.specs.OfHostTables.Serves.{Through, Serves, ByNumber, same};
ghost use Rattle.host_sockets.specs.Tests as words;
ghost use Rattle.host_sockets.specs.Changes.{Takes};

use crate::look_ups::{is_nonblocking, socket_at};
use fd_book::{BookFault, Desc, Object};
use host_descriptors::{Attempt, Kernel, RowResult};
use std::alloc::AllocError;
use sys_abi::errors::{EAGAIN, EINVAL, EMFILE, ENFILE};
use sys_abi::flags::O_RDWR;
use sys_abi::{ConnId, DescId, Errno, RealAddr, RealPid};

/// What an accept finds before it changes anything: the name of the new description, the port, and the
/// connection that waits there longest.
#[derive(Clone, Copy)]
pub struct Accepting {
    pub id: DescId,
    pub at: RealAddr,
    pub conn: ConnId,
}

/// accept (`man 2 accept`). Gives no address. `id` is the name of the new description, None where its process
/// has none left to give out; `of_pipe` tells whether the descriptor leads to an end of a pipe.
pub fn accept(
    kernel: &mut Kernel,
    who: RealPid,
    fd: u32,
    id: Option<DescId>,
    of_pipe: bool,
) -> RowResult
    requires new { IsNewDesc kernel.old.book id }
    ensures ok { IfOk result (λ a. Through kernel.old who (λ g k p. (x : List Byte)
        → (of_pipe ≡ leads_to_pipe k p fd) × (id ≡ next_desc k p)
        → Serves ByNumber same g kernel.old kernel.new x x a (rows.accept_row k p fd 0 x))) }
    ensures err { OnErr result (kernel.new ≡ kernel.old) }
{
    kernel.book.whole();
    match find_waiting(kernel, who, fd, id, of_pipe) {
        Err(error) => Ok(Attempt::Fails(error)),
        Ok(None) => Ok(Attempt::NotReady),
        Ok(Some(found)) => take_waiting(kernel, who, found),
    }
}

/// Whether an accept doesn't wait. The arguments are as those of [`accept`].
pub fn is_accept_ready(
    kernel: &Kernel,
    who: RealPid,
    fd: u32,
    id: Option<DescId>,
    of_pipe: bool,
) -> bool
    ensures { Through kernel.now who (λ g k p. (of_pipe ≡ leads_to_pipe k p fd) × (id ≡ next_desc k p)
        → result ≡ rows.is_accept_ready k p fd) }
{
    kernel.book.whole();
    match find_waiting(kernel, who, fd, id, of_pipe) {
        Err(_) => true,
        Ok(None) => false,
        Ok(Some(_)) => true,
    }
}

/// The tests of accept.
#[tactic(auto, unfolding(crate::specs::Tests::accepting_in, plain_process::specs::Attempts::and_then, plain_process::specs::Attempts::need, plain_process::specs::Attempts::found))]
fn find_waiting(
    kernel: &Kernel,
    who: RealPid,
    fd: u32,
    id: Option<DescId>,
    of_pipe: bool,
) -> Result<Option<Accepting>, Errno>
    ensures found { words.accepting_in kernel.now who fd id of_pipe ≡ words.tried_or_waits result }
    ensures named { IfOk result (λ found. IfSome found (λ found. id ≡ Some found.id)) }
    ensures first { IfOk result (λ found. IfSome found (λ found.
        words.first_in kernel.now.net found.at ≡ Some found.conn)) }
{
    let held = socket_at(&kernel.book, who, fd, of_pipe)?;
    let Some(at) = listens_at(held.description.object) else {
        return Err(Errno(EINVAL));
    };
    let Some(id) = id else {
        return Err(Errno(ENFILE));
    };
    if kernel.book.free(who) == 0 {
        return Err(Errno(EMFILE));
    }
    let Some(conn) = kernel.net.queued(at, 0) else {
        if is_nonblocking(held.description.flags) {
            return Err(Errno(EAGAIN));
        }
        return Ok(None);
    };
    Ok(Some(Accepting { id, at, conn }))
}

/// The port at which an object listens.
fn listens_at(object: Object) -> Option<RealAddr>
    ensures { result ≡ words.listens_at object }
{
    match object {
        Object::Listener { at } => Some(at),
        _ => None,
    }
}

/// The connection is the stream of a new descriptor, and waits no more.
fn take_waiting(kernel: &mut Kernel, who: RealPid, found: Accepting) -> RowResult
    requires new { map.get kernel.old.book.descriptions found.id ≡ None }
    requires first { words.first_in kernel.old.net found.at ≡ Some found.conn }
    ensures ok { IfOk result (Takes kernel.old kernel.new who found) }
    ensures err { OnErr result (kernel.new ≡ kernel.old) }
{
    let stream = Object::Stream {
        conn: found.conn,
        side: 1,
    };
    let description = Desc {
        object: stream,
        flags: O_RDWR,
        owner: None,
    };
    match kernel.book.place(who, found.id, description, false) {
        Ok(fd) => {
            let _ = kernel.net.accept(found.at);
            Ok(Attempt::Gives(fd.0))
        }
        Err(BookFault::Memory) => Err(AllocError),
        Err(_) => Ok(Attempt::Fails(Errno(EMFILE))),
    }
}
