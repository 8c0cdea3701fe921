//! Bytes through a channel.
ghost use Rattle.std.specs.Prelude.{◌≡◌, ◌≤◌, length, min, IfOk, OnOk};
ghost use Rattle.std.specs.FinMap as map;
ghost use Rattle.sys_abi.specs.declared.transfer.TheConstants.{TRANSFER_LIMIT};
ghost use Rattle.plain_machine.specs.OfPlainTables.Tables.{changed_at};
ghost use Rattle.plain_machine.specs.Answers.{RowTold, KeepsUnlessGives};
ghost use Rattle.plain_machine.specs.Transfers.Streams as words;

use crate::bytes::{append, drop_first, first_bytes};
use crate::moving::{break_pipe, gift};
use id_maps::ByDir;
use plain_machine::PlainKernel;
use plain_machine::plain_tables::Direction;
use plain_machine::plain_tables::answer::{Attempt, RowResult};
use std::alloc::{AllocError, Global};
use sys_abi::errors::{ENOTCONN, EPIPE};
use sys_abi::{Dir, Tid, VPid};

/// A direction holds at most so many bytes.
const DIRECTION_LIMIT: usize = 65_536;

fn is_broken(direction: &Direction) -> bool
    ensures { result ≡ words.is_broken direction.now }
{
    direction.ended || direction.unread
}

/// Whether a read of so many bytes from the direction has an answer yet.
pub fn is_receivable(kernel: &PlainKernel, from: Dir, count: u32) -> bool
    ensures { result ≡ words.is_receivable count (map.get kernel.now.directions from) }
{
    match kernel.directions.get(from) {
        None => true,
        Some(direction) => {
            count == 0 || direction.arrived > 0 || is_broken(direction) && direction.left.len() == 0
        }
    }
}

/// Whether a write of so many bytes into the direction has an answer yet.
pub fn is_sendable(kernel: &PlainKernel, to: Dir, count: u32) -> bool
    ensures { result ≡ words.is_sendable count (map.get kernel.now.directions to) }
{
    match kernel.directions.get(to) {
        None => true,
        Some(direction) => {
            count == 0 || is_broken(direction) || direction.left.len() < DIRECTION_LIMIT
        }
    }
}

/// A read of at most so many bytes from the direction.
#[tactic(auto, unfolding(plain_machine::specs::Transfers::Streams::read_stream, plain_process::specs::Attempts::and_then, plain_process::specs::Attempts::found))]
pub fn read_stream(kernel: &mut PlainKernel, alloc: Global, from: Dir, count: u32) -> RowResult
    requires { count ≤ TRANSFER_LIMIT }
    ensures row { IfOk result (RowTold (words.read_stream kernel.old from count) kernel.new) }
    ensures kept { IfOk result (λ attempt. KeepsUnlessGives attempt kernel.old kernel.new) }
{
    let Some(direction) = kernel.directions.get(from) else {
        return Ok(Attempt::fails(ENOTCONN));
    };
    let arrived = (count as u64).min(direction.arrived) as usize;
    let bytes = first_bytes(alloc, direction.left.as_slice(), arrived)?;
    drop_at(&mut kernel.directions, alloc, from, arrived);
    Ok(gift(bytes))
}

fn drop_at(directions: &mut ByDir<Direction>, alloc: Global, at: Dir, count: usize)
    ensures { directions.new ≡ changed_at directions.old at (words.without_front count) }
{
    if let Some(direction) = directions.get_mut(at) {
        drop_bytes(direction, alloc, count);
    }
}

fn drop_bytes(direction: &mut Direction, alloc: Global, count: usize)
    ensures { direction.new ≡ words.without_front count direction.old }
{
    drop_first(&mut direction.left, alloc, count);
    direction.arrived = direction.arrived.saturating_sub(count as u64);
}

/// A write of these bytes, by a thread that asks for so many, into the direction.
#[tactic(auto, unfolding(plain_machine::specs::Transfers::Streams::write_stream, plain_process::specs::Attempts::and_then, plain_process::specs::Attempts::found))]
pub fn write_stream(
    kernel: &mut PlainKernel,
    alloc: Global,
    p: VPid,
    t: Tid,
    to: Dir,
    count: u32,
    given: &[u8],
) -> RowResult
    requires { length given.now ≤ TRANSFER_LIMIT }
    ensures row { IfOk result (RowTold (words.write_stream kernel.old p t.0 to count given.now) kernel.new) }
    ensures kept { IfOk result (λ attempt. KeepsUnlessGives attempt kernel.old kernel.new) }
{
    let Some(direction) = kernel.directions.get(to) else {
        return Ok(Attempt::fails(EPIPE));
    };
    if count == 0 {
        return Ok(Attempt::value(alloc, 0));
    }
    if is_broken(direction) {
        return break_pipe(kernel, alloc, p, t);
    }
    let bytes = fitting(direction, given);
    append_at(&mut kernel.directions, alloc, to, bytes)?;
    Ok(Attempt::value(alloc, bytes.len() as u32))
}

/// As many of the first bytes as have room.
fn fitting<'a>(direction: &Direction, given: &'a [u8]) -> &'a [u8]
    ensures { result.now ≡ words.fitting_bytes given.now direction.now }
{
    let room = DIRECTION_LIMIT.saturating_sub(direction.left.len());
    &given[..room.min(given.len())]
}

fn append_at(
    directions: &mut ByDir<Direction>,
    alloc: Global,
    at: Dir,
    bytes: &[u8],
) -> Result<(), AllocError>
    ensures { OnOk result (directions.new ≡ changed_at directions.old at (words.with_sent bytes.now)) }
{
    match directions.get_mut(at) {
        None => Ok(()),
        Some(direction) => append_bytes(direction, alloc, bytes),
    }
}

fn append_bytes(direction: &mut Direction, alloc: Global, bytes: &[u8]) -> Result<(), AllocError>
    ensures { OnOk result (direction.new ≡ words.with_sent bytes.now direction.old) }
{
    append(&mut direction.left, alloc, bytes)
}
