//! The values of event counters.
ghost use Rattle.std.specs.Prelude.{◌≡◌, ◌≤◌, ◌+◌, nat_le, true, length, IfOk, OnOk};
ghost use Rattle.plain_process.specs.Memory.{little_endian, low_bytes};
ghost use Rattle.plain_machine.specs.OfPlainTables.declared.description.Object.TheVariants.{Counter};
ghost use Rattle.plain_machine.specs.HeldTold.{held_of};
ghost use Rattle.plain_machine.specs.Kernel.{with_object};
ghost use Rattle.plain_machine.specs.Transfers.Counters as words;
ghost use Rattle.plain_machine.specs.Answers.{RowTold, KeepsUnlessGives};

use crate::moving::gift;
use plain_machine::PlainKernel;
use plain_machine::descriptors::Held;
use plain_machine::plain_tables::answer::{Attempt, RowResult};
use plain_machine::plain_tables::{Description, Object};
use std::alloc::{AllocError, Global};
use sys_abi::errors::EINVAL;
use views::list_of::ListOf;

/// How many bytes a counter is read and written as.
const COUNTER_SIZE: u32 = 8;

/// The greatest value.
const COUNTER_LIMIT: u64 = 0xFFFF_FFFF_FFFF_FFFE;

/// Whether a read of so many bytes from a counter of that value has an answer yet.
pub fn is_counted(value: u64, count: u32) -> bool
    ensures { result ≡ words.is_counted value count }
{
    count < COUNTER_SIZE || value != 0
}

/// Whether a write of so many bytes, of which these are the first, to a counter of that value has an answer
/// yet.
pub fn takes_more(value: u64, count: u32, front: &[u8]) -> bool
    ensures { result ≡ words.takes_more value count front.now }
{
    !may_add(count, front) || fits(value, added_by(front))
}

fn fits(value: u64, added: u64) -> bool
    ensures { result ≡ nat_le (value + added) words.COUNTER_LIMIT }
{
    value <= COUNTER_LIMIT && added <= COUNTER_LIMIT - value
}

fn may_add(count: u32, bytes: &[u8]) -> bool
    ensures { result ≡ words.may_add count bytes.now }
{
    count >= COUNTER_SIZE && added_by(bytes) != u64::MAX
}

/// The number that the first 8 bytes spell, the lowest first.
fn added_by(bytes: &[u8]) -> u64
    ensures { result ≡ words.number_added bytes.now }
{
    number_of(&bytes[..bytes.len().min(8)])
}

fn number_of(bytes: &[u8]) -> u64
    requires { length bytes.now ≤ 8 }
    ensures { result ≡ little_endian bytes.now }
{
    let mut number: u64 = 0;
    for i in 0..bytes.len() {
        number = number * 256 + bytes[bytes.len() - 1 - i] as u64;
    }
    number
}

/// A read of a counter's value, which becomes 0.
#[tactic(auto, unfolding(plain_machine::specs::Transfers::Counters::read_counter, plain_process::specs::Attempts::and_then, plain_process::specs::Attempts::need))]
pub fn read_counter(
    kernel: &mut PlainKernel,
    alloc: Global,
    held: Held,
    value: u64,
    count: u32,
) -> RowResult
    ensures row { IfOk result (RowTold (words.read_counter kernel.old (held_of held) value count) kernel.new) }
    ensures kept { IfOk result (λ attempt. KeepsUnlessGives attempt kernel.old kernel.new) }
{
    if count < COUNTER_SIZE {
        return Ok(Attempt::fails(EINVAL));
    }
    let bytes = value_bytes(alloc, value)?;
    put_value(kernel, held, 0)?;
    Ok(gift(bytes))
}

fn value_bytes(alloc: Global, value: u64) -> Result<ListOf<u8>, AllocError>
    ensures { IfOk result (λ bytes. bytes ≡ low_bytes 8 value) }
{
    let mut bytes = Vec::new(alloc);
    bytes.extend_from_slice(&value.to_le_bytes())?;
    Ok(ListOf::from_vec(bytes))
}

fn put_value(kernel: &mut PlainKernel, held: Held, value: u64) -> Result<(), AllocError>
    ensures { OnOk result (kernel.new ≡ with_object kernel.old (held_of held) (Counter value)) }
{
    kernel.put_description(
        held.0.desc,
        Description {
            object: Object::Counter { value },
            flags: held.1.flags,
            owner: held.1.owner,
        },
    )
}

/// A write that adds to a counter's value, where it has an answer.
#[tactic(auto, unfolding(plain_machine::specs::Transfers::Counters::write_counter, plain_process::specs::Attempts::and_then, plain_process::specs::Attempts::need))]
pub fn write_counter(
    kernel: &mut PlainKernel,
    alloc: Global,
    held: Held,
    value: u64,
    count: u32,
    given: &[u8],
) -> RowResult
    requires { words.takes_more value count given.now ≡ true }
    ensures row { IfOk result (RowTold (words.write_counter kernel.old (held_of held) value count given.now) kernel.new) }
    ensures kept { IfOk result (λ attempt. KeepsUnlessGives attempt kernel.old kernel.new) }
{
    if !may_add(count, given) {
        return Ok(Attempt::fails(EINVAL));
    }
    put_value(kernel, held, value + added_by(given))?;
    Ok(Attempt::value(alloc, COUNTER_SIZE))
}
