//! The socket of a descriptor.
ghost use Rattle.std.specs.Prelude.{◌≡◌};
ghost use Rattle.fd_tables.specs.Slots as slots;
ghost use Rattle.host_streams.specs.PipeEnds as words;

use fd_book::{Book, Object};
use host_processes::{Held, held_at};
use sys_abi::errors::{EBADF, ENOTSOCK};
use sys_abi::{Errno, RealPid};

/// Whether it is a socket: a stream is one unless it is an end of a pipe.
fn is_socket(object: Object, of_pipe: bool) -> bool
    ensures { result ≡ words.is_socket_unless of_pipe object }
{
    match object {
        Object::Stream { .. } => !of_pipe,
        Object::Socket => true,
        Object::Listener { .. } => true,
        Object::Datagram { .. } => true,
        _ => false,
    }
}

/// The socket of a descriptor, or why it leads to none. `of_pipe` tells whether it leads to an end of a pipe.
pub(crate) fn socket_at(book: &Book, who: RealPid, fd: u32, of_pipe: bool) -> Result<Held, Errno>
    ensures { result ≡ words.socket_in book.now (slots.slot who fd) of_pipe }
{
    let Some(held) = held_at(book, who, fd) else {
        return Err(Errno(EBADF));
    };
    if !is_socket(held.description.object, of_pipe) {
        return Err(Errno(ENOTSOCK));
    }
    Ok(held)
}
