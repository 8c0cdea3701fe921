ghost use Rattle.std.specs.Prelude.{◌≡◌, true, None, Some, IfOk, OnErr};
ghost use Rattle.std.specs.FinMap as map;
ghost use Rattle.views.specs.Numbers.{ThreadNumber};
ghost use Rattle.plain_machine.specs.declared.kernel.PlainKernel.{PlainKernel};
ghost use Rattle.plain_machine.specs.Kernels.{IsKernel};
ghost use Rattle.plain_machine.specs.Rows.Write as rows;
ghost use Rattle.plain_tables.specs.Tables as tables;
ghost use Rattle.host_tables.specs.Conditions.{IsAsking};
ghost use Rattle.host_tables.specs.Numbers.{real};
ghost use Rattle.host_tables.specs.Serves.{Through, Serves, ByNumber, same};
ghost use Rattle.host_tables.specs.Stands.{Given, Stands};
ghost use Rattle.host_files.specs.OfHostDescriptors.Held.{seen_held};
ghost use Rattle.host_kernel.specs.Access.{MayTake};

use crate::access::{is_nonblocking, may_write, not_ready};
use crate::messages::{peer_at, takes_message, write_message};
use fd_book::Object;
use host_files::{Held, held_at, write_file};
use host_streams::{broken_pipe, is_sendable, takes_more, write_counter, write_stream};
use host_tables::{Attempt, Kernel, RowResult};
use sys_abi::errors::EBADF;
use sys_abi::transfer::Transfer;
use sys_abi::{Errno, RealPid};

/// write (`man 2 write`), by a thread that asks for so many bytes, of what the transfer holds. What goes to
/// the console stays there, all of it.
pub fn write(
    kernel: &mut Kernel,
    who: RealPid,
    thread: u32,
    fd: u32,
    count: u32,
    transfer: &Transfer,
) -> RowResult
    requires { IsAsking kernel.old.procs who thread }
    ensures ok { IfOk result (λ a. Through kernel.old who (λ g k p. (t : ThreadNumber)
        → map.get g.pids t ≡ Some (real who.node thread)
        → Serves ByNumber same g kernel.old kernel.new transfer.now transfer.now a
        (rows.write_row k p t fd count transfer.now))) }
    ensures err { OnErr result (kernel.new ≡ kernel.old) }
{
    kernel.book.whole();
    let Some(held) = held_at(&kernel.book, who, fd) else {
        return Ok(Attempt::Fails(Errno(EBADF)));
    };
    if !may_write(held.description.flags) {
        return Ok(Attempt::Fails(Errno(EBADF)));
    }
    if !is_writable(kernel, held, count, transfer.as_slice()) {
        return Ok(not_ready(held.description.flags));
    }
    write_object(kernel, who, thread, held, count, transfer)
}

/// Whether a write of so many bytes, which begin with these, has an answer yet.
fn is_writable(kernel: &Kernel, held: Held, count: u32, front: &[u8]) -> bool
    requires there { map.get kernel.now.book.descriptions held.desc ≡ Some held.description }
    requires may { tables.may_write held.description.flags ≡ true }
    ensures ready { (g : Given) (k : PlainKernel) → IsKernel k → Stands g None kernel.now k
        → result ≡ rows.is_writable k count front.now (seen_held g kernel.now held).description.object }
    ensures takes { result ≡ true → MayTake held.description.object count front.now }
{
    match held.description.object {
        Object::Stream { conn, side } => is_sendable(kernel, conn, side, count),
        Object::Datagram { queue, side } => {
            takes_message(kernel, peer_at(kernel, held.desc, queue, side), count)
        }
        Object::Counter { value } => takes_more(value, count, front),
        Object::Console => true,
        Object::File { .. } => true,
        Object::Socket => true,
        Object::Listener { .. } => true,
    }
}

fn write_object(
    kernel: &mut Kernel,
    who: RealPid,
    thread: u32,
    held: Held,
    count: u32,
    transfer: &Transfer,
) -> RowResult
    requires asking { IsAsking kernel.old.procs who thread }
    requires there { map.get kernel.old.book.descriptions held.desc ≡ Some held.description }
    requires may { tables.may_write held.description.flags ≡ true }
    requires takes { MayTake held.description.object count transfer.now }
    ensures ok { IfOk result (λ a. Through kernel.old who (λ g k p. (t : ThreadNumber)
        → map.get g.pids t ≡ Some (real who.node thread)
        → Serves ByNumber same g kernel.old kernel.new transfer.now transfer.now a
        (rows.write_object k p t (seen_held g kernel.old held) count transfer.now
        (seen_held g kernel.old held).description.object))) }
    ensures err { OnErr result (kernel.new ≡ kernel.old) }
{
    match held.description.object {
        Object::Console => Ok(Attempt::Gives(transfer.as_slice().len() as u32)),
        Object::File { number, offset } => write_file(kernel, &held, number, offset, transfer),
        Object::Stream { conn, side } => {
            Ok(write_stream(kernel, who, thread, conn, side, count, transfer))
        }
        Object::Socket => Ok(broken_pipe(kernel, who, thread)),
        Object::Listener { .. } => Ok(broken_pipe(kernel, who, thread)),
        Object::Datagram { queue, side } => {
            let peer = peer_at(kernel, held.desc, queue, side);
            write_message(kernel, peer, count, transfer)
        }
        Object::Counter { value } => Ok(write_counter(kernel, held, value, count, transfer)),
    }
}

/// Whether a write doesn't wait, by the front of what it is given.
pub fn is_write_ready(kernel: &Kernel, who: RealPid, fd: u32, count: u32, front: &[u8]) -> bool
    ensures { Through kernel.now who (λ g k p. result ≡ rows.is_write_ready k p fd count front.now) }
{
    kernel.book.whole();
    let Some(held) = held_at(&kernel.book, who, fd) else {
        return true;
    };
    if !may_write(held.description.flags) {
        return true;
    }
    if is_writable(kernel, held, count, front) {
        return true;
    }
    is_nonblocking(held.description.flags)
}
