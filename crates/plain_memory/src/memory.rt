ghost use Rattle.std.specs.Prelude.{◌≡◌, ◌<◌, ◌≤◌, ◌^◌, length, is_some, IfOk, IfSome, OnErr};
ghost use Rattle.std.specs.Option.{option_map};
ghost use Rattle.plain_process.specs.Memory as words;
ghost use Rattle.plain_memory.specs.Results.{stored};

use plain_process::memory::{Frame, Right};
use std::alloc::{AllocError, Global};
use views::list_of::ListOf;
use views::number_map::NumberMap;

/// A store to a page that is missing or may not be written.
#[derive(Clone, Copy)]
pub struct Denied;

/// Whether rights have the one that an access needs.
pub fn allows(right: Right, rights: u8) -> bool
    ensures { result ≡ words.allows right rights }
{
    match right {
        Right::Read => rights / 4 % 2 == 1,
        Right::Write => rights / 2 % 2 == 1,
        Right::Execute => rights % 2 == 1,
    }
}

/// The byte at an address, where its page is there and has the right.
#[tactic(auto, unfolding(plain_process::specs::Memory::byte_at))]
pub fn byte_at(memory: &NumberMap<Frame>, right: Right, address: u64) -> Option<u8>
    requires { address < 2 ^ 44 }
    ensures { result ≡ words.byte_at memory.now right address }
{
    let frame = memory.get((address / 4096) as u32)?;
    if allows(right, frame.rights) {
        Some(frame.page.byte((address % 4096) as usize))
    } else {
        None
    }
}

/// The `count` bytes from an address on, where each of them is there with the right.
pub fn bytes_at(
    alloc: Global,
    memory: &NumberMap<Frame>,
    right: Right,
    address: u32,
    count: u32,
) -> Result<Option<ListOf<u8>>, AllocError>
    ensures { IfOk result (λ bytes. bytes ≡ words.bytes_at memory.now right address count) }
{
    let mut bytes = ListOf::new(alloc);
    for i in 0..count {
        let Some(byte) = byte_at(memory, right, address as u64 + i as u64) else {
            return Ok(None);
        };
        bytes.push(byte)?;
    }
    Ok(Some(bytes))
}

/// Whether the `count` bytes from an address on are there with the right.
pub fn has_bytes(memory: &NumberMap<Frame>, right: Right, address: u32, count: u32) -> bool
    ensures { result ≡ is_some (words.bytes_at memory.now right address count) }
{
    for i in 0..count {
        let Some(_) = byte_at(memory, right, address as u64 + i as u64) else {
            return false;
        };
    }
    true
}

/// Puts a byte at an address. A page that is missing stays away.
#[tactic(auto, unfolding(plain_process::specs::Memory::with_byte))]
pub fn put_byte(memory: &mut NumberMap<Frame>, address: u64, byte: u8)
    requires { address < 2 ^ 44 }
    ensures { memory.new ≡ words.with_byte memory.old address byte }
{
    if let Some(frame) = memory.get_mut((address / 4096) as u32) {
        frame.page.set_byte((address % 4096) as usize, byte);
    }
}

/// Puts the bytes from an address on. Pages that are missing stay away.
pub fn put_bytes(memory: &mut NumberMap<Frame>, address: u32, bytes: &[u8])
    requires { length bytes.now < 2 ^ 32 }
    ensures { memory.new ≡ words.with_bytes memory.old address bytes.now }
{
    for (i, byte) in bytes.iter().enumerate() {
        put_byte(memory, address as u64 + i as u64, *byte);
    }
}

/// The number that the `size` bytes at an address spell, the least significant first.
fn number_at(memory: &NumberMap<Frame>, right: Right, address: u32, size: u32) -> Option<u32>
    requires { size ≤ 4 }
    ensures number { result ≡ option_map words.little_endian (words.bytes_at memory.now right address size) }
    ensures fits { IfSome result (λ value. value < 256 ^ size) }
{
    let mut number = 0;
    let mut unit = 1;
    for i in 0..size {
        let Some(byte) = byte_at(memory, right, address as u64 + i as u64) else {
            return None;
        };
        number += byte as u64 * unit;
        unit *= 256;
    }
    Some(number as u32)
}

/// The number that is loaded from an address.
pub fn load(memory: &NumberMap<Frame>, address: u32, size: u32) -> Option<u32>
    requires { size ≤ 4 }
    ensures number { result ≡ words.load memory.now address size }
    ensures fits { IfSome result (λ value. value < 256 ^ size) }
{
    number_at(memory, Right::Read, address, size)
}

/// The instruction word at an address.
pub fn fetch(memory: &NumberMap<Frame>, address: u32) -> Option<u32>
    ensures { result ≡ words.fetch memory.now address }
{
    number_at(memory, Right::Execute, address, 4)
}

/// Stores the lowest `size` bytes of a number at an address. A store that is denied writes none of them.
pub fn store(
    memory: &mut NumberMap<Frame>,
    address: u32,
    size: u32,
    value: u32,
) -> Result<(), Denied>
    ensures told { words.store memory.old address size value ≡ stored result memory.new }
    ensures err { OnErr result (memory.new ≡ memory.old) }
{
    if !has_bytes(memory, Right::Write, address, size) {
        return Err(Denied);
    }
    put_number(memory, address, size, value);
    Ok(())
}

fn put_number(memory: &mut NumberMap<Frame>, address: u32, size: u32, value: u32)
    ensures { memory.new ≡ words.with_bytes memory.old address (words.low_bytes size value) }
{
    let mut rest = value;
    for i in 0..size {
        put_byte(memory, address as u64 + i as u64, (rest % 256) as u8);
        rest /= 256;
    }
}
