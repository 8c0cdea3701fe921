ghost use Rattle.std.specs.Int.{to_le_bytes, w16, w32};
ghost use Rattle.std.specs.Prelude.{◌≡◌, ◌+◌, ◌≤◌, ◌<◌, ◌*◌, ◌^◌, ◌++◌, length, take, drop, replicate, slice_set, slice_index, IfOk};

use std::alloc::{AllocError, Global};
use std::marker::Model;
use views::duplicate::Duplicate;

/// How many bytes a page has (RISC-V privileged manual, Sv32: 4 KiB).
pub const PAGE_SIZE: usize = 4096;

/// The content of a page: a list of 4,096 bytes.
#[derive(Drop)]
pub struct Page {
    bytes: Box<[u8; PAGE_SIZE]>,
}

impl Model for Page {
    ghost use Rattle.std.specs.Prelude.{ℕ, ◌≡◌, List, length};
    ghost use Rattle.sys_abi.specs.declared.page.TheConstants.{PAGE_SIZE};

    ghost Value = { List ℕ };

    ghost view = { λ p. p.bytes.value };

    ghost invariant = { λ p. length p.bytes.value ≡ PAGE_SIZE };
}

impl Page {
    pub fn zeroed(alloc: Global) -> Result<Page, AllocError>
        ensures { IfOk result (λ page. page ≡ replicate PAGE_SIZE 0) }
    {
        Ok(Page {
            bytes: Box::new(alloc, [0; PAGE_SIZE])?,
        })
    }

    /// The page with these bytes, which are copied once.
    pub fn of_slice(alloc: Global, bytes: &[u8]) -> Result<Page, AllocError>
        requires { length bytes.now ≡ PAGE_SIZE }
        ensures { IfOk result (λ page. page ≡ bytes.now) }
    {
        let mut page = Box::new(alloc, [0; PAGE_SIZE])?;
        page.copy_from_slice(bytes);
        Ok(Page { bytes: page })
    }

    #[inline]
    pub fn as_slice(&self) -> &[u8]
        ensures bytes { result.now ≡ self.now }
        ensures size { length self.now ≡ PAGE_SIZE }
    {
        self.bytes.as_slice()
    }

    /// Puts the piece at an offset. Takes no memory.
    #[inline]
    pub fn write(&mut self, at: usize, piece: &[u8])
        requires { at + length piece.now ≤ PAGE_SIZE }
        ensures { self.new ≡ take at self.old ++ piece.now ++ drop (at + length piece.now) self.old }
    {
        self.bytes[at..at + piece.len()].copy_from_slice(piece);
    }

    /// The byte at an offset.
    #[inline]
    pub fn byte(&self, at: usize) -> u8
        requires { at < PAGE_SIZE }
        ensures { result ≡ slice_index self.now at }
    {
        self.bytes[at]
    }

    /// Puts one byte at an offset. Takes no memory.
    #[inline]
    pub fn set_byte(&mut self, at: usize, byte: u8)
        requires { at < PAGE_SIZE }
        ensures { self.new ≡ slice_set self.old at byte }
    {
        self.bytes[at] = byte;
    }

    /// The two bytes at an offset as a number, the least significant first.
    #[inline]
    pub fn half(&self, at: usize) -> u16
        requires { at + 2 ≤ PAGE_SIZE }
        ensures { result ≡ slice_index self.now at + slice_index self.now (at + 1) * 2 ^ 8 }
    {
        u16::from_le_bytes([self.bytes[at], self.bytes[at + 1]])
    }

    /// The four bytes at an offset as a number, the least significant first.
    #[inline]
    pub fn word(&self, at: usize) -> u32
        requires { at + 4 ≤ PAGE_SIZE }
        ensures { result ≡ slice_index self.now at + slice_index self.now (at + 1) * 2 ^ 8
            + slice_index self.now (at + 2) * 2 ^ 16 + slice_index self.now (at + 3) * 2 ^ 24 }
    {
        u32::from_le_bytes([
            self.bytes[at],
            self.bytes[at + 1],
            self.bytes[at + 2],
            self.bytes[at + 3],
        ])
    }

    /// Puts two bytes at an offset, the least significant first. Takes no memory.
    #[inline]
    pub fn set_half(&mut self, at: usize, value: u16)
        requires { at + 2 ≤ PAGE_SIZE }
        ensures { self.new ≡ take at self.old ++ to_le_bytes w16 value ++ drop (at + 2) self.old }
    {
        self.write(at, &value.to_le_bytes());
    }

    /// Puts four bytes at an offset, the least significant first. Takes no memory.
    #[inline]
    pub fn set_word(&mut self, at: usize, value: u32)
        requires { at + 4 ≤ PAGE_SIZE }
        ensures { self.new ≡ take at self.old ++ to_le_bytes w32 value ++ drop (at + 4) self.old }
    {
        self.write(at, &value.to_le_bytes());
    }
}

impl Duplicate for Page {
    fn duplicate(&self, alloc: Global) -> Result<Self, AllocError> {
        Page::of_slice(alloc, self.as_slice())
    }
}
