ghost use Rattle.std.specs.Prelude.{◌≡◌, ◌≤◌, true, length, IfOk};
ghost use Rattle.sys_abi.specs.declared.transfer.TheConstants.{TRANSFER_LIMIT};
ghost use Rattle.plain_machine.specs.HeldTold.{held_of};
ghost use Rattle.plain_machine.specs.Rows.Write as rows;
ghost use Rattle.plain_machine.specs.Answers.{attempt_told, KeepsUnlessGives};

use call_table::Given;
use plain_machine::PlainKernel;
use plain_machine::descriptors::Held;
use plain_tables::Object;
use plain_tables::answer::{Answer, Attempt, RowResult};
use plain_transfers::counters::{takes_more, write_counter};
use plain_transfers::datagrams::{takes_message, write_message};
use plain_transfers::files::write_file;
use plain_transfers::moving::{break_pipe, is_nonblocking};
use plain_transfers::streams::{is_sendable, write_stream};
use std::alloc::Global;
use sys_abi::errors::{EAGAIN, EBADF};
use sys_abi::{Dir, Reply, Tid, VPid};
use views::list_of::ListOf;

/// write (`man 2 write`), of these bytes, by a thread that asks for so many.
#[tactic(auto, unfolding(plain_machine::specs::Rows::Write::write_row, plain_machine::specs::Rows::Write::write_access, plain_machine::specs::Waiting::need_ready, plain_process::specs::Attempts::and_then, plain_process::specs::Attempts::need))]
pub fn write(
    kernel: &mut PlainKernel,
    alloc: Global,
    p: VPid,
    t: Tid,
    fd: u32,
    count: u32,
    given: &[u8],
) -> RowResult
    requires { length given.now ≤ TRANSFER_LIMIT }
    ensures row { IfOk result (λ attempt.
        rows.write_row kernel.old p t.0 fd count given.now ≡ attempt_told kernel.new given.now attempt) }
    ensures kept { IfOk result (λ attempt. KeepsUnlessGives attempt kernel.old kernel.new) }
{
    let Some(held) = kernel.held_at(p, fd) else {
        return Ok(Attempt::fails(EBADF));
    };
    if !held.1.may_write() {
        return Ok(Attempt::fails(EBADF));
    }
    if !is_writable(kernel, held.1.object, count, given) {
        if is_nonblocking(&held.1) {
            return Ok(Attempt::fails(EAGAIN));
        }
        return Ok(Attempt::NotReady);
    }
    write_object(kernel, alloc, p, t, held, count, given)
}

/// Whether a write of so many bytes, which begin with these, has an answer yet.
fn is_writable(kernel: &PlainKernel, object: Object, count: u32, front: &[u8]) -> bool
    ensures { result ≡ rows.is_writable kernel.now count front.now object }
{
    match object {
        Object::Stream { conn, side } => is_sendable(kernel, Dir { conn, side }, count),
        Object::Datagram { peer } => takes_message(kernel, peer, count),
        Object::Counter { value } => takes_more(value, count, front),
        _ => true,
    }
}

fn write_object(
    kernel: &mut PlainKernel,
    alloc: Global,
    p: VPid,
    t: Tid,
    held: Held,
    count: u32,
    given: &[u8],
) -> RowResult
    requires short { length given.now ≤ TRANSFER_LIMIT }
    requires ready { rows.is_writable kernel.old count given.now held.1.object ≡ true }
    ensures row { IfOk result (λ attempt.
        rows.write_object kernel.old p t.0 (held_of held) count given.now held.1.object ≡ attempt_told kernel.new given.now attempt) }
    ensures kept { IfOk result (λ attempt. KeepsUnlessGives attempt kernel.old kernel.new) }
{
    match held.1.object {
        Object::Console => Ok(Attempt::Gives(Answer {
            reply: Reply::Value(given.len() as u32),
            bytes: ListOf::new(alloc),
            is_shown: true,
        })),
        Object::File { number, offset } => write_file(kernel, alloc, held, number, offset, given),
        Object::Stream { conn, side } => {
            write_stream(kernel, alloc, p, t, Dir { conn, side }, count, given)
        }
        Object::Socket { .. } => break_pipe(kernel, alloc, p, t),
        Object::Listener { .. } => break_pipe(kernel, alloc, p, t),
        Object::Datagram { peer } => write_message(kernel, alloc, peer, count, given),
        Object::Counter { value } => write_counter(kernel, alloc, held, value, count, given),
    }
}

/// Whether a write doesn't wait, by the front of what it is given.
#[tactic(auto, unfolding(plain_machine::specs::Rows::Write::is_write_ready, plain_machine::specs::Rows::Write::write_access, plain_machine::specs::Waiting::need_ready, plain_process::specs::Attempts::and_then, plain_process::specs::Attempts::need))]
pub fn is_write_ready(kernel: &PlainKernel, p: VPid, fd: u32, count: u32, front: &Given) -> bool
    ensures { result ≡ rows.is_write_ready kernel.now p fd count front.now }
{
    let Some(held) = kernel.held_at(p, fd) else {
        return true;
    };
    if !held.1.may_write() {
        return true;
    }
    if is_writable(kernel, held.1.object, count, front) {
        return true;
    }
    is_nonblocking(&held.1)
}
