ghost use Rattle.std.specs.Prelude.{◌≡◌, ◌+◌, ◌≤◌, ◌<◌, ◌⊎◌, ◌/◌, ◌%◌, ◌^◌, min, ◌-◌, length};
ghost use Rattle.plain_process.specs.Memory.{allows as allowed, little_endian, low_bytes};
ghost use Rattle.guest_pages.specs.Bytes.{bytes_from, with_piece};

use plain_process::{Frame, Right};
use sys_abi::page::PAGE_SIZE;

/// Whether rights have the one that an access needs.
#[inline(always)]
pub fn allows(right: Right, rights: u8) -> bool
    ensures { result ≡ allowed right rights }
{
    match right {
        Right::Read => rights / 4 % 2 == 1,
        Right::Write => rights / 2 % 2 == 1,
        Right::Execute => rights % 2 == 1,
    }
}

/// The number that `size` bytes of a frame spell.
#[inline(always)]
pub fn number_at(frame: &Frame, offset: usize, size: u32) -> u32
    requires size { (size ≡ 1) ⊎ (size ≡ 2) ⊎ (size ≡ 4) }
    requires inside { offset + size ≤ 4096 }
    ensures value { result ≡ little_endian (bytes_from frame.now.page offset size) }
    ensures fits { result < 256 ^ size }
{
    match size {
        1 => frame.page.byte(offset) as u32,
        2 => frame.page.half(offset) as u32,
        _ => frame.page.word(offset),
    }
}

/// The number that four bytes of a page spell.
#[inline]
pub fn word_in(page: &[u8], offset: usize) -> u32
    requires { offset + 4 ≤ length page.now }
    ensures { result ≡ little_endian (bytes_from page.now offset 4) }
{
    u32::from_le_bytes([
        page[offset],
        page[offset + 1],
        page[offset + 2],
        page[offset + 3],
    ])
}

/// Puts the first `size` bytes of a number into a frame.
#[inline(always)]
pub fn put_number(frame: &mut Frame, offset: usize, size: u32, value: u32)
    requires size { (size ≡ 1) ⊎ (size ≡ 2) ⊎ (size ≡ 4) }
    requires inside { offset + size ≤ 4096 }
    ensures put { frame.new ≡ with_piece frame.old offset (low_bytes size value) }
    ensures length { length frame.old.page ≡ 4096 }
{
    prove!(frame.page.as_slice().len() == PAGE_SIZE);
    match size {
        1 => frame.page.set_byte(offset, (value % 256) as u8),
        2 => frame.page.set_half(offset, (value % 65_536) as u16),
        _ => frame.page.set_word(offset, value),
    }
}

/// Puts a piece into a frame.
pub fn write_piece(frame: &mut Frame, offset: usize, piece: &[u8])
    requires { offset + length piece.now ≤ 4096 }
    ensures put { frame.new ≡ with_piece frame.old offset piece.now }
    ensures length { length frame.old.page ≡ 4096 }
{
    prove!(frame.page.as_slice().len() == PAGE_SIZE);
    frame.page.write(offset, piece);
}

/// How many of the bytes from an address on lie in its page.
#[inline]
pub fn room_in_page(address: u32, count: usize) -> usize
    ensures { result ≡ min count (4096 - address % 4096) }
{
    count.min(PAGE_SIZE - (address % 4096) as usize)
}
