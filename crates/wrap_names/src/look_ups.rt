//! The host of a process, and the socket of a descriptor.
ghost use Rattle.std.specs.Prelude.{◌≡◌, Some, IfOk};
ghost use Rattle.std.specs.FinMap as map;
ghost use Rattle.fd_tables.specs.Slots as slots;
ghost use Rattle.plain_machine.specs.declared.kernel.PlainKernel.{PlainKernel};
ghost use Rattle.plain_machine.specs.Kernel as kernels;
ghost use Rattle.plain_machine.specs.SocketWords as plain;
ghost use Rattle.plain_ports.specs.Told.{told};
ghost use Rattle.host_streams.specs.HandedOn.{held_in, seen_held};
ghost use Rattle.host_streams.specs.PipeEnds as words;
ghost use Rattle.host_streams.specs.OfHostTables.Descriptions as descriptions;
ghost use Rattle.host_streams.specs.OfHostTables.Systems.{given_of};
ghost use Rattle.wrap_names.specs.Wrapping.{IsWrapped};

use crate::naming::leads_to_pipe;
use conn_table::ConnTable;
use fd_book::{Book, Object};
use host_streams::{Held, System, held_at};
use sys_abi::errors::{EBADF, ENOTSOCK};
use sys_abi::{DescId, Errno, RealPid, VPid, VirtAddr};

/// The host of a process.
pub fn host_of(system: &System, p: VPid) -> u32
    ensures { (k : PlainKernel) (next_id : _) → IsWrapped system.now next_id k
        → result ≡ kernels.host_of k p }
{
    match system.conns.maker(p) {
        Some(maker) => maker.host,
        None => 0,
    }
}

/// The address of a socket or a listener: its host's with the port 0 while it is not bound.
pub fn address_of(conns: &ConnTable, desc: DescId) -> VirtAddr
    ensures { result ≡ descriptions.address_of conns.now.names desc }
{
    match conns.name(desc) {
        Some(address) => address,
        None => VirtAddr { host: 0, port: 0 },
    }
}

/// Whether it is a socket: a stream is one unless it is an end of a pipe.
fn is_socket(object: Object, of_pipe: bool) -> bool
    ensures { result ≡ words.is_socket_unless of_pipe object }
{
    match object {
        Object::Stream { .. } => !of_pipe,
        Object::Socket => true,
        Object::Listener { .. } => true,
        Object::Datagram { .. } => true,
        _ => false,
    }
}

/// The socket of a descriptor. `of_pipe` tells whether it leads to an end of a pipe.
fn socket_in(book: &Book, who: RealPid, fd: u32, of_pipe: bool) -> Result<Held, Errno>
    ensures { result ≡ words.socket_in book.now (slots.slot who fd) of_pipe }
{
    let Some(held) = held_at(book, who, fd) else {
        return Err(Errno(EBADF));
    };
    if !is_socket(held.description.object, of_pipe) {
        return Err(Errno(ENOTSOCK));
    }
    Ok(held)
}

/// The socket of a descriptor of the process that is paired with this one; EBADF, ENOTSOCK.
pub fn socket_at(system: &System, who: RealPid, fd: u32) -> Result<Held, Errno>
    ensures told { (k : PlainKernel) (next_id : _) (p : VPid) → IsWrapped system.now next_id k
        → map.get system.now.ids.pids p.0 ≡ Some who
        → plain.socket_at k p fd ≡ told (seen_held (given_of system.now) system.now.kernel) result }
    ensures there { IfOk result (λ held. held_in system.now.kernel.book (slots.slot who fd) ≡ Some held) }
{
    system.kernel.book.whole();
    socket_in(&system.kernel.book, who, fd, leads_to_pipe(system, who, fd))
}
