//! Messages of datagram pairs.
ghost use Rattle.std.specs.Prelude.{◌≡◌, ◌≤◌, ◌∷◌, ◌++◌, [], List, length, drop, IfOk, OnOk};
ghost use Rattle.sys_abi.specs.declared.transfer.TheConstants.{TRANSFER_LIMIT};
ghost use Rattle.plain_machine.specs.OfPlainTables.Tables.{changed_at};
ghost use Rattle.plain_machine.specs.Answers.{RowTold, KeepsUnlessGives};
ghost use Rattle.plain_machine.specs.Transfers.Datagrams as words;

use crate::bytes::{drop_first, first_bytes};
use crate::moving::gift;
use id_maps::ByDesc;
use plain_machine::PlainKernel;
use plain_machine::plain_tables::answer::{Attempt, RowResult};
use std::alloc::{AllocError, Global};
use sys_abi::DescId;
use sys_abi::errors::{ECONNREFUSED, EMSGSIZE};
use views::list_of::ListOf;

/// A message has at most so many bytes.
const MESSAGE_LIMIT: u32 = 4096;

/// So many messages wait at an end at most.
const INBOX_LIMIT: usize = 64;

/// Whether a read at an end of a pair has an answer yet.
pub fn has_message(kernel: &PlainKernel, end: DescId, peer: DescId) -> bool
    ensures { result ≡ words.has_message kernel.now end peer }
{
    message_count(kernel, end) > 0 || !kernel.inboxes.contains_key(peer)
}

/// Whether a write of so many bytes to the other end has an answer yet.
pub fn takes_message(kernel: &PlainKernel, peer: DescId, count: u32) -> bool
    ensures { result ≡ words.takes_message kernel.now peer count }
{
    count > MESSAGE_LIMIT
        || !kernel.inboxes.contains_key(peer)
        || message_count(kernel, peer) < INBOX_LIMIT
}

fn message_count(kernel: &PlainKernel, end: DescId) -> usize
    ensures { result ≡ length (words.messages_at kernel.now end) }
{
    match kernel.inboxes.get(end) {
        Some(messages) => messages.len(),
        None => 0,
    }
}

/// A read of the first message, cut to so many bytes.
#[tactic(auto, unfolding(plain_machine::specs::Transfers::Datagrams::read_message))]
pub fn read_message(kernel: &mut PlainKernel, alloc: Global, end: DescId, count: u32) -> RowResult
    requires { count ≤ TRANSFER_LIMIT }
    ensures row { IfOk result (RowTold (words.read_message kernel.old end count) kernel.new) }
    ensures kept { IfOk result (λ attempt. KeepsUnlessGives attempt kernel.old kernel.new) }
{
    let Some(messages) = kernel.inboxes.get(end) else {
        return Ok(gift(ListOf::new(alloc)));
    };
    let Some((message, _)) = messages.as_slice().split_first() else {
        return Ok(gift(ListOf::new(alloc)));
    };
    let bytes = first_bytes(alloc, message.as_slice(), count as usize)?;
    drop_message(&mut kernel.inboxes, alloc, end);
    Ok(gift(bytes))
}

fn drop_message(inboxes: &mut ByDesc<ListOf<ListOf<u8>>>, alloc: Global, end: DescId)
    ensures { inboxes.new ≡ changed_at inboxes.old end (drop 1) }
{
    if let Some(messages) = inboxes.get_mut(end) {
        drop_first(messages, alloc, 1);
    }
}

/// A write of these bytes, by a thread that asks for so many, to the other end.
#[tactic(auto, unfolding(plain_machine::specs::Transfers::Datagrams::write_message, plain_process::specs::Attempts::and_then, plain_process::specs::Attempts::need, plain_process::specs::Attempts::found))]
pub fn write_message(
    kernel: &mut PlainKernel,
    alloc: Global,
    peer: DescId,
    count: u32,
    given: &[u8],
) -> RowResult
    ensures row { IfOk result (RowTold (words.write_message kernel.old peer count given.now) kernel.new) }
    ensures kept { IfOk result (λ attempt. KeepsUnlessGives attempt kernel.old kernel.new) }
{
    if count > MESSAGE_LIMIT {
        return Ok(Attempt::fails(EMSGSIZE));
    }
    let Some(_) = kernel.inboxes.get(peer) else {
        return Ok(Attempt::fails(ECONNREFUSED));
    };
    let message = first_bytes(alloc, given, count as usize)?;
    let length = message.len() as u32;
    push_message(&mut kernel.inboxes, peer, message)?;
    Ok(Attempt::value(alloc, length))
}

fn push_message(
    inboxes: &mut ByDesc<ListOf<ListOf<u8>>>,
    end: DescId,
    message: ListOf<u8>,
) -> Result<(), AllocError>
    ensures { OnOk result (inboxes.new ≡ changed_at inboxes.old end (λ messages. messages ++ message ∷ [])) }
{
    match inboxes.get_mut(end) {
        None => Ok(()),
        Some(messages) => messages.push(message),
    }
}
