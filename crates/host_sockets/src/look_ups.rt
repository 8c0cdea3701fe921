//! The socket of a descriptor.
ghost use Rattle.std.specs.Prelude.{◌≡◌};
ghost use Rattle.sys_abi.specs.Flags.{has_flag};
ghost use Rattle.sys_abi.specs.declared.flags.TheConstants.{O_NONBLOCK as NONBLOCK};
ghost use Rattle.fd_tables.specs.Slots as slots;
ghost use Rattle.host_sockets.specs.Tests as words;

use fd_book::{Book, Object};
use host_descriptors::{Held, held_at};
use sys_abi::errors::{EBADF, ENOTSOCK};
use sys_abi::flags::O_NONBLOCK;
use sys_abi::{Errno, RealPid};

/// What isn't ready fails with O_NONBLOCK, and waits without it (`man 2 open`).
pub(crate) fn is_nonblocking(flags: u32) -> bool
    ensures { result ≡ has_flag flags NONBLOCK }
{
    flags / O_NONBLOCK % 2 == 1
}

/// Whether an object is a socket. A pipe is a pair of sockets too: of a stream the caller tells which it is.
fn is_socket(object: Object, of_pipe: bool) -> bool
    ensures { result ≡ words.is_socket of_pipe object }
{
    match object {
        Object::Stream { .. } => !of_pipe,
        Object::Socket | Object::Listener { .. } | Object::Datagram { .. } => true,
        Object::Console | Object::File { .. } | Object::Counter { .. } => false,
    }
}

/// The socket of a descriptor; EBADF, ENOTSOCK.
#[tactic(auto, unfolding(crate::specs::Tests::socket_in, plain_process::specs::Attempts::and_then, plain_process::specs::Attempts::need, plain_process::specs::Attempts::found))]
pub(crate) fn socket_at(book: &Book, who: RealPid, fd: u32, of_pipe: bool) -> Result<Held, Errno>
    ensures { words.socket_in book.now (slots.slot who fd) of_pipe ≡ words.tried result }
{
    let Some(held) = held_at(book, who, fd) else {
        return Err(Errno(EBADF));
    };
    if !is_socket(held.description.object, of_pipe) {
        return Err(Errno(ENOTSOCK));
    }
    Ok(held)
}
