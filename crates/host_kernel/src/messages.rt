//! Messages of datagram pairs (`man 2 socketpair`).
ghost use Rattle.std.specs.Prelude.{◌≡◌, ◌≤◌, take, length, None, IfOk, OnErr};
ghost use Rattle.sys_abi.specs.declared.transfer.TheConstants.{TRANSFER_LIMIT};
ghost use Rattle.plain_machine.specs.declared.kernel.PlainKernel.{PlainKernel};
ghost use Rattle.plain_machine.specs.Transfers.Datagrams as words;
ghost use Rattle.host_tables.specs.Datagrams.{peer_of};
ghost use Rattle.host_tables.specs.Serves.{Serves, ByNumber, same};
ghost use Rattle.host_tables.specs.Stands.{Given, Stands};
ghost use Rattle.host_kernel.specs.Messages as ends;

use crate::giving::give;
use fd_book::{Book, Object};
use host_tables::{Attempt, Kernel, RowResult};
use plain_transfers::moving::across;
use sys_abi::errors::{ECONNREFUSED, EMSGSIZE};
use sys_abi::transfer::Transfer;
use sys_abi::{DescId, Errno};
use views::list_of::ListOf;

/// A message has at most so many bytes.
const MESSAGE_LIMIT: u32 = 4096;

/// So many messages wait at an end at most.
const INBOX_LIMIT: usize = 64;

/// An end of a datagram pair, by the pair's number.
#[derive(Clone, Copy)]
pub(crate) struct MessageEnd {
    queue: u32,
    side: u8,
}

/// The description by which an end of a pair knows the other end, which may have closed.
pub(crate) fn peer_at(kernel: &Kernel, id: DescId, queue: u32, side: u8) -> DescId
    ensures { result ≡ peer_of kernel.now.datagrams id queue side }
{
    match kernel.datagrams.desc_at(queue, across(side)) {
        Some(peer) => peer,
        None => id,
    }
}

/// The end that the description stands for, where it is there and stands for one.
fn end_at(book: &Book, id: DescId) -> Option<MessageEnd>
    ensures { result ≡ ends.end_at book.now.descriptions id }
{
    let Some(description) = book.desc(id) else {
        return None;
    };
    end_of_object(description.object)
}

fn end_of_object(object: Object) -> Option<MessageEnd>
    ensures { result ≡ ends.end_of_object object }
{
    match object {
        Object::Datagram { queue, side } => Some(MessageEnd { queue, side }),
        Object::Console | Object::File { .. } | Object::Stream { .. } => None,
        Object::Socket | Object::Listener { .. } | Object::Counter { .. } => None,
    }
}

/// How many messages wait at the end that the description stands for, if it is there.
fn waiting(kernel: &Kernel, id: DescId) -> Option<usize>
    ensures { result ≡ ends.waiting_at kernel.now id }
{
    let Some(end) = end_at(&kernel.book, id) else {
        return None;
    };
    kernel.datagrams.waiting(end.queue, end.side)
}

fn message_count(kernel: &Kernel, id: DescId) -> usize
    ensures { (g : Given) (k : PlainKernel) → Stands g None kernel.now k
        → result ≡ length (words.messages_at k id) }
{
    match waiting(kernel, id) {
        Some(count) => count,
        None => 0,
    }
}

fn is_open_end(kernel: &Kernel, id: DescId) -> bool
    ensures { (g : Given) (k : PlainKernel) → Stands g None kernel.now k → result ≡ words.is_open_end k id }
{
    match waiting(kernel, id) {
        Some(_) => true,
        None => false,
    }
}

/// Whether a read at an end of a pair has an answer yet.
pub(crate) fn has_message(kernel: &Kernel, id: DescId, peer: DescId) -> bool
    ensures { (g : Given) (k : PlainKernel) → Stands g None kernel.now k
        → result ≡ words.has_message k id peer }
{
    if message_count(kernel, id) > 0 {
        return true;
    }
    !is_open_end(kernel, peer)
}

/// Whether a write of so many bytes to the other end has an answer yet.
pub(crate) fn takes_message(kernel: &Kernel, peer: DescId, count: u32) -> bool
    ensures { (g : Given) (k : PlainKernel) → Stands g None kernel.now k
        → result ≡ words.takes_message k peer count }
{
    if count > MESSAGE_LIMIT {
        return true;
    }
    if !is_open_end(kernel, peer) {
        return true;
    }
    message_count(kernel, peer) < INBOX_LIMIT
}

/// A read of the oldest message that waits at an end, cut to so many bytes. Takes no memory.
pub(crate) fn read_message(
    kernel: &mut Kernel,
    id: DescId,
    count: u32,
    transfer: &mut Transfer,
) -> Attempt
    requires { count ≤ TRANSFER_LIMIT }
    ensures { (g : Given) (k : PlainKernel) → Stands g None kernel.old k
        → Serves ByNumber same g kernel.old kernel.new transfer.old transfer.new result
        (words.read_message k id count) }
{
    let Some(message) = take_first(kernel, id) else {
        return Attempt::Gives(0);
    };
    give(front(message.as_slice(), count), transfer)
}

/// The first bytes, at most so many.
fn front(bytes: &[u8], count: u32) -> &[u8]
    ensures front { result.now ≡ take count bytes.now }
    ensures few { length result.now ≤ count }
{
    &bytes[..bytes.len().min(count as usize)]
}

/// Takes out the oldest message that waits at the end that the description stands for.
fn take_first(kernel: &mut Kernel, id: DescId) -> Option<ListOf<u8>>
    ensures { (g : Given) (k : PlainKernel) → Stands g None kernel.old k
        → ends.TakesFirst g k id kernel.old kernel.new result (words.messages_at k id) }
{
    let Some(end) = end_at(&kernel.book, id) else {
        return None;
    };
    kernel.datagrams.receive(end.queue, end.side)
}

/// A write of the transfer's bytes, by a thread that asks for so many, to the end that the description stands
/// for.
pub(crate) fn write_message(
    kernel: &mut Kernel,
    peer: DescId,
    count: u32,
    transfer: &Transfer,
) -> RowResult
    ensures ok { IfOk result (λ a. (g : Given) (k : PlainKernel) → Stands g None kernel.old k
        → Serves ByNumber same g kernel.old kernel.new transfer.now transfer.now a
        (words.write_message k peer count transfer.now)) }
    ensures err { OnErr result (kernel.new ≡ kernel.old) }
{
    if count > MESSAGE_LIMIT {
        return Ok(Attempt::Fails(Errno(EMSGSIZE)));
    }
    let Some(end) = end_at(&kernel.book, peer) else {
        return Ok(Attempt::Fails(Errno(ECONNREFUSED)));
    };
    let message = front(transfer.as_slice(), count);
    kernel.datagrams.send(end.queue, end.side, message)?;
    Ok(Attempt::Gives(message.len() as u32))
}
