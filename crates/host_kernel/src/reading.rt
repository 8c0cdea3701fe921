ghost use Rattle.std.specs.Prelude.{◌≡◌, ◌≤◌, true, None, Some};
ghost use Rattle.std.specs.FinMap as map;
ghost use Rattle.sys_abi.specs.declared.transfer.TheConstants.{TRANSFER_LIMIT};
ghost use Rattle.plain_machine.specs.declared.kernel.PlainKernel.{PlainKernel};
ghost use Rattle.plain_machine.specs.Kernels.{IsKernel};
ghost use Rattle.plain_machine.specs.Rows.Read as rows;
ghost use Rattle.plain_machine.specs.Transfers.Answers as answers;
ghost use Rattle.host_tables.specs.Serves.{Through, Serves, ByNumber, same};
ghost use Rattle.host_tables.specs.Stands.{Given, Stands};
ghost use Rattle.host_files.specs.OfHostDescriptors.Held.{seen_held};

use crate::access::{is_nonblocking, may_read, not_ready};
use crate::messages::{has_message, peer_at, read_message};
use fd_book::Object;
use host_files::{Held, held_at, read_file};
use host_streams::{is_counted, is_receivable, read_counter, read_stream};
use host_tables::{Attempt, Kernel};
use plain_transfers::moving::limited;
use sys_abi::errors::{EBADF, ENOTCONN};
use sys_abi::transfer::Transfer;
use sys_abi::{Errno, RealPid};

/// read (`man 2 read`): the bytes stand in the transfer then, where there are any. Takes no memory.
pub fn read(
    kernel: &mut Kernel,
    who: RealPid,
    fd: u32,
    count: u32,
    transfer: &mut Transfer,
) -> Attempt
    ensures { Through kernel.old who (λ g k p. Serves ByNumber same g kernel.old kernel.new transfer.old
        transfer.new result (rows.read_row k p fd count)) }
{
    kernel.book.whole();
    let Some(held) = held_at(&kernel.book, who, fd) else {
        return Attempt::Fails(Errno(EBADF));
    };
    if !may_read(held.description.flags) {
        return Attempt::Fails(Errno(EBADF));
    }
    let few = limited(count);
    if !is_readable(kernel, held, few) {
        return not_ready(held.description.flags);
    }
    read_object(kernel, held, few, transfer)
}

/// Whether a read of so many bytes has an answer yet.
fn is_readable(kernel: &Kernel, held: Held, count: u32) -> bool
    requires there { map.get kernel.now.book.descriptions held.desc ≡ Some held.description }
    requires may { answers.may_read held.description.flags ≡ true }
    ensures { (g : Given) (k : PlainKernel) → IsKernel k → Stands g None kernel.now k
        → result ≡ rows.is_readable k (seen_held g kernel.now held) count
        (seen_held g kernel.now held).description.object }
{
    match held.description.object {
        Object::Stream { conn, side } => is_receivable(kernel, conn, side, count),
        Object::Datagram { queue, side } => {
            has_message(kernel, held.desc, peer_at(kernel, held.desc, queue, side))
        }
        Object::Counter { value } => is_counted(value, count),
        Object::Console => true,
        Object::File { .. } => true,
        Object::Socket => true,
        Object::Listener { .. } => true,
    }
}

fn read_object(kernel: &mut Kernel, held: Held, count: u32, transfer: &mut Transfer) -> Attempt
    requires there { map.get kernel.old.book.descriptions held.desc ≡ Some held.description }
    requires few { count ≤ TRANSFER_LIMIT }
    ensures { (g : Given) (k : PlainKernel) → Stands g None kernel.old k
        → Serves ByNumber same g kernel.old kernel.new transfer.old transfer.new result
        (rows.read_object k (seen_held g kernel.old held) count
        (seen_held g kernel.old held).description.object) }
{
    match held.description.object {
        Object::Console => Attempt::Gives(0),
        Object::File { number, offset } => read_file(
            kernel, &held, number, offset, count, transfer,
        ),
        Object::Stream { conn, side } => read_stream(kernel, conn, side, count, transfer),
        Object::Socket => Attempt::Fails(Errno(ENOTCONN)),
        Object::Listener { .. } => Attempt::Fails(Errno(ENOTCONN)),
        Object::Datagram { .. } => read_message(kernel, held.desc, count, transfer),
        Object::Counter { value } => read_counter(kernel, held, value, count, transfer),
    }
}

/// Whether a read doesn't wait.
pub fn is_read_ready(kernel: &Kernel, who: RealPid, fd: u32, count: u32) -> bool
    ensures { Through kernel.now who (λ g k p. result ≡ rows.is_read_ready k p fd count) }
{
    kernel.book.whole();
    let Some(held) = held_at(&kernel.book, who, fd) else {
        return true;
    };
    if !may_read(held.description.flags) {
        return true;
    }
    if is_readable(kernel, held, limited(count)) {
        return true;
    }
    is_nonblocking(held.description.flags)
}
