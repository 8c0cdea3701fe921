ghost use Rattle.std.specs.Prelude.{◌≡◌, ◌≤◌, IfOk};
ghost use Rattle.sys_abi.specs.declared.transfer.TheConstants.{TRANSFER_LIMIT};
ghost use Rattle.plain_machine.specs.HeldTold.{held_of};
ghost use Rattle.plain_machine.specs.Rows.Read as rows;
ghost use Rattle.plain_machine.specs.Answers.{RowTold, KeepsUnlessGives};

use plain_machine::PlainKernel;
use plain_machine::descriptors::Held;
use plain_tables::Object;
use plain_tables::answer::{Attempt, RowResult};
use plain_transfers::counters::{is_counted, read_counter};
use plain_transfers::datagrams::{has_message, read_message};
use plain_transfers::files::read_file;
use plain_transfers::moving::{across, gift, is_nonblocking, limited, may_read};
use plain_transfers::streams::{is_receivable, read_stream};
use std::alloc::Global;
use sys_abi::errors::{EAGAIN, EBADF, ENOTCONN};
use sys_abi::{Dir, VPid};
use views::list_of::ListOf;

/// read (`man 2 read`).
#[tactic(auto, unfolding(plain_machine::specs::Rows::Read::read_row, plain_machine::specs::Rows::Read::read_access, plain_machine::specs::Waiting::need_ready, plain_process::specs::Attempts::and_then, plain_process::specs::Attempts::need))]
pub fn read(kernel: &mut PlainKernel, alloc: Global, p: VPid, fd: u32, count: u32) -> RowResult
    ensures row { IfOk result (RowTold (rows.read_row kernel.old p fd count) kernel.new) }
    ensures kept { IfOk result (λ attempt. KeepsUnlessGives attempt kernel.old kernel.new) }
{
    let Some(held) = kernel.held_at(p, fd) else {
        return Ok(Attempt::fails(EBADF));
    };
    if !may_read(&held.1) {
        return Ok(Attempt::fails(EBADF));
    }
    if !is_readable(kernel, held, limited(count)) {
        if is_nonblocking(&held.1) {
            return Ok(Attempt::fails(EAGAIN));
        }
        return Ok(Attempt::NotReady);
    }
    read_object(kernel, alloc, held, limited(count))
}

/// Whether a read of so many bytes has an answer yet.
fn is_readable(kernel: &PlainKernel, held: Held, count: u32) -> bool
    ensures { result ≡ rows.is_readable kernel.now (held_of held) count held.1.object }
{
    match held.1.object {
        Object::Stream { conn, side } => is_receivable(
            kernel,
            Dir {
                conn,
                side: across(side),
            },
            count,
        ),
        Object::Datagram { peer } => has_message(kernel, held.0.desc, peer),
        Object::Counter { value } => is_counted(value, count),
        _ => true,
    }
}

fn read_object(kernel: &mut PlainKernel, alloc: Global, held: Held, count: u32) -> RowResult
    requires { count ≤ TRANSFER_LIMIT }
    ensures row { IfOk result (RowTold (rows.read_object kernel.old (held_of held) count held.1.object) kernel.new) }
    ensures kept { IfOk result (λ attempt. KeepsUnlessGives attempt kernel.old kernel.new) }
{
    match held.1.object {
        Object::Console => Ok(gift(ListOf::new(alloc))),
        Object::File { number, offset } => read_file(kernel, alloc, held, number, offset, count),
        Object::Stream { conn, side } => read_stream(
            kernel,
            alloc,
            Dir {
                conn,
                side: across(side),
            },
            count,
        ),
        Object::Socket { .. } => Ok(Attempt::fails(ENOTCONN)),
        Object::Listener { .. } => Ok(Attempt::fails(ENOTCONN)),
        Object::Datagram { .. } => read_message(kernel, alloc, held.0.desc, count),
        Object::Counter { value } => read_counter(kernel, alloc, held, value, count),
    }
}

/// Whether a read doesn't wait.
#[tactic(auto, unfolding(plain_machine::specs::Rows::Read::is_read_ready, plain_machine::specs::Rows::Read::read_access, plain_machine::specs::Waiting::need_ready, plain_process::specs::Attempts::and_then, plain_process::specs::Attempts::need))]
pub fn is_read_ready(kernel: &PlainKernel, p: VPid, fd: u32, count: u32) -> bool
    ensures { result ≡ rows.is_read_ready kernel.now p fd count }
{
    let Some(held) = kernel.held_at(p, fd) else {
        return true;
    };
    if !may_read(&held.1) {
        return true;
    }
    if is_readable(kernel, held, limited(count)) {
        return true;
    }
    is_nonblocking(&held.1)
}
