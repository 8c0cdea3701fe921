//! shutdown and setsockopt (`man 2 shutdown`, `man 2 setsockopt`).
ghost use Rattle.std.specs.Prelude.{◌≡◌, ◌-◌, List, None};
ghost use Rattle.views.specs.Numbers.{Byte};
ghost use Rattle.sys_abi.specs.declared.identity.DescId.{DescId};
ghost use Rattle.plain_machine.specs.declared.kernel.PlainKernel.{PlainKernel};
ghost use Rattle.plain_machine.specs.Rows.Sockets as rows;
ghost use Rattle.plain_tables.specs.Closing.{with_end, without_reader};
ghost use Rattle.plain_tables.specs.Objects.{dir};
ghost use Rattle.plain_tables.specs.Tables.{changed_at};
ghost use Rattle.host_processes.specs.OfHostTables.Descriptions.{seen_object};
ghost use Rattle.host_processes.specs.OfHostTables.Requests.{leads_to_pipe};
ghost use Rattle.host_processes.specs.OfHostTables.Serves.{Through, Serves, ByNumber, same};
ghost use Rattle.host_processes.specs.OfHostTables.Stands.{Given, Stands};

use crate::sockets::socket_at;
use fd_book::Object;
use host_processes::{Attempt, Kernel};
use plain_transfers::moving::across;
use sys_abi::errors::{EINVAL, ENOTCONN, EOPNOTSUPP};
use sys_abi::{ConnId, Dir, Errno, RealPid};

/// setsockopt (`man 2 setsockopt`), which has no effect. `of_pipe` tells whether the descriptor leads to an
/// end of a pipe.
pub fn setsockopt(kernel: &Kernel, who: RealPid, fd: u32, of_pipe: bool) -> Attempt
    ensures { Through kernel.now who (λ g k p. (x : List Byte) → of_pipe ≡ leads_to_pipe k p fd
        → Serves ByNumber same g kernel.now kernel.now x x result (rows.setsockopt_row k p fd)) }
{
    kernel.book.whole();
    match socket_at(&kernel.book, who, fd, of_pipe) {
        Err(error) => Attempt::Fails(error),
        Ok(_) => Attempt::Gives(0),
    }
}

/// shutdown (`man 2 shutdown`): 0 reads no more, 1 sends no more, 2 both. `of_pipe` is as that of
/// [`setsockopt`]. Takes no memory.
pub fn shutdown(kernel: &mut Kernel, who: RealPid, fd: u32, how: u32, of_pipe: bool) -> Attempt
    ensures row { Through kernel.old who (λ g k p. (x : List Byte) → of_pipe ≡ leads_to_pipe k p fd
        → Serves ByNumber same g kernel.old kernel.new x x result (rows.shutdown_row k p fd how)) }
    ensures nodes { kernel.new.net.nodes ≡ kernel.old.net.nodes }
    ensures next { kernel.new.procs.next ≡ kernel.old.procs.next }
{
    kernel.book.whole();
    match socket_at(&kernel.book, who, fd, of_pipe) {
        Err(error) => Attempt::Fails(error),
        Ok(held) => shut_object(kernel, held.description.object, how),
    }
}

/// Shuts what the socket of a descriptor is of.
fn shut_object(kernel: &mut Kernel, object: Object, how: u32) -> Attempt
    ensures row { (g : Given) (k : PlainKernel) (id : DescId) (x : List Byte) → Stands g None kernel.old k
        → Serves ByNumber same g kernel.old kernel.new x x result
        (rows.shut_object k how (seen_object g.names kernel.old.datagrams id object)) }
    ensures nodes { kernel.new.net.nodes ≡ kernel.old.net.nodes }
    ensures next { kernel.new.procs.next ≡ kernel.old.procs.next }
{
    match object {
        Object::Stream { conn, side } => {
            if how > 2 {
                return Attempt::Fails(Errno(EINVAL));
            }
            shut(kernel, conn, side, how);
            Attempt::Gives(0)
        }
        Object::Datagram { .. } => Attempt::Fails(Errno(EOPNOTSUPP)),
        _ => {
            if how > 2 {
                return Attempt::Fails(Errno(EINVAL));
            }
            Attempt::Fails(Errno(ENOTCONN))
        }
    }
}

/// The end of that side reads no more (0), sends no more (1), or neither.
#[tactic(auto, unfolding(plain_machine::specs::Rows::Sockets::shut, plain_tables::specs::Closing::silenced))]
fn shut(kernel: &mut Kernel, conn: ConnId, side: u8, how: u32)
    ensures stands { (g : Given) (k : PlainKernel) → Stands g None kernel.old k
        → Stands g None kernel.new (record k { directions = rows.shut k.directions conn side how }) }
    ensures nodes { kernel.new.net.nodes ≡ kernel.old.net.nodes }
    ensures next { kernel.new.procs.next ≡ kernel.old.procs.next }
{
    if how == 0 {
        return stop_reading(kernel, conn, side);
    }
    if how == 1 {
        return end(kernel, conn, side);
    }
    end(kernel, conn, side);
    stop_reading(kernel, conn, side);
}

/// The end of that side sends no more.
fn end(kernel: &mut Kernel, conn: ConnId, side: u8)
    ensures stands { (g : Given) (k : PlainKernel) → Stands g None kernel.old k
        → Stands g None kernel.new
        (record k { directions = changed_at k.directions (dir conn side) with_end }) }
    ensures nodes { kernel.new.net.nodes ≡ kernel.old.net.nodes }
    ensures next { kernel.new.procs.next ≡ kernel.old.procs.next }
{
    if side > 1 {
        return;
    }
    kernel.net.end(Dir { conn, side });
}

/// The end of that side reads no more.
fn stop_reading(kernel: &mut Kernel, conn: ConnId, side: u8)
    ensures stands { (g : Given) (k : PlainKernel) → Stands g None kernel.old k
        → Stands g None kernel.new
        (record k { directions = changed_at k.directions (dir conn (1 - side)) without_reader }) }
    ensures nodes { kernel.new.net.nodes ≡ kernel.old.net.nodes }
    ensures next { kernel.new.procs.next ≡ kernel.old.procs.next }
{
    let from = Dir {
        conn,
        side: across(side),
    };
    kernel.net.stop_reading(from);
}
