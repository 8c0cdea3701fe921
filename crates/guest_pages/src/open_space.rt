ghost use Rattle.std.specs.Prelude.{◌≡◌, ◌⊎◌, ◌+◌, ◌<◌, ◌≤◌, ◌^◌, false, Some, IfSome, IsTrue};
ghost use Rattle.std.specs.FinMap as map;
ghost use Rattle.plain_process.specs.Memory.{fetch as fetch_of, load as load_of, store as memory_after};
ghost use Rattle.guest_pages.specs.Bytes.{IsRead};
ghost use Rattle.guest_pages.specs.Pages.{IsSpace};

use crate::access::{allows, number_at, word_in};
use crate::frame_block::FrameBlock;
use crate::frame_table::{BLOCK_SIZE, FrameTable};
use plain_process::{Frame, Right};
use std::marker::Model;
use sys_abi::page::PAGE_SIZE;

/// The pages of a space, of which one that may be executed stands apart: its words are fetched with no
/// look-up, while the others are written. To a caller it is the whole memory.
#[derive(Drop)]
pub struct OpenSpace {
    pub(crate) blocks: Vec<FrameBlock>,
    pub(crate) count: usize,
    pub(crate) start: u32,
    pub(crate) code: Frame,
}

impl Model for OpenSpace {
    ghost use Rattle.std.specs.Coded.{coded_ℕ};
    ghost use Rattle.std.specs.FinMap as map;
    ghost use Rattle.plain_process.specs.contracts.memory.Frame as a_frame;
    ghost use Rattle.plain_process.specs.Memory.{Memory};
    ghost use Rattle.guest_pages.specs.FrameTable.{IsOpen, opened};

    ghost Value = { Memory };

    ghost coded = { map.code coded_ℕ a_frame.the_row.coded };

    ghost view = { λ o. opened o.blocks.items o.start o.code };

    ghost invariant = { λ o. IsOpen o.blocks.items o.count o.start o.code };
}

impl OpenSpace {
    /// The instruction word at an address, where it lies in the page that stands apart.
    #[inline(always)]
    pub fn fetch(&self, address: u32) -> Option<u32>
        ensures { IfSome result (λ word. fetch_of self.now address ≡ Some word) }
    {
        let offset = address.wrapping_sub(self.start) as usize;
        if offset > PAGE_SIZE - 4 {
            return None;
        }
        Some(word_in(self.code.page.as_slice(), offset))
    }

    /// The number that the `size` bytes at an address spell, where they lie in one page that may be read.
    #[inline(always)]
    pub fn load(&self, address: u32, size: u32) -> Option<u32>
        requires { (size ≡ 1) ⊎ (size ≡ 2) ⊎ (size ≡ 4) }
        ensures value { IfSome result (λ value. load_of self.now address size ≡ Some value) }
        ensures fits { IfSome result (λ value. value < 256 ^ size) }
    {
        let offset = (address % 4096) as usize;
        if offset + size as usize > PAGE_SIZE {
            return None;
        }
        let page = address / 4096;
        match self.page(page) {
            Some(frame) => read(frame, offset, size),
            None if page == self.start / 4096 => read(&self.code, offset, size),
            None => None,
        }
    }

    /// The frame of a page that doesn't stand apart.
    #[inline(always)]
    fn page(&self, page: u32) -> Option<&Frame>
        ensures { IfSome result (λ frame. map.get self.now page ≡ Some frame.now) }
    {
        let number = (page / BLOCK_SIZE) as usize;
        if number >= self.blocks.len() {
            return None;
        }
        match self.blocks[number].get((page % BLOCK_SIZE) as usize) {
            Some(frame) => Some(frame),
            None => None,
        }
    }

    /// Puts the first `size` bytes of a number at an address, where they lie in one page that may be written
    /// and doesn't stand apart, and tells whether.
    #[inline(always)]
    pub fn store(&mut self, address: u32, size: u32, value: u32) -> bool
        requires { (size ≡ 1) ⊎ (size ≡ 2) ⊎ (size ≡ 4) }
        ensures made { IsTrue result → memory_after self.old address size value ≡ Some self.new }
        ensures refused { result ≡ false → self.new ≡ self.old }
    {
        let offset = (address % 4096) as usize;
        if offset + size as usize > PAGE_SIZE {
            return false;
        }
        let page = address / 4096;
        let number = (page / BLOCK_SIZE) as usize;
        if number >= self.blocks.len() {
            return false;
        }
        self.blocks[number].store((page % BLOCK_SIZE) as usize, offset, size, value)
    }

    /// The table of all pages.
    #[inline(always)]
    pub fn close(self) -> FrameTable
        ensures table { result ≡ self }
        ensures space { IsSpace result }
    {
        let OpenSpace {
            mut blocks,
            count,
            start,
            code,
        } = self;
        let page = start / 4096;
        blocks[(page / BLOCK_SIZE) as usize].put_back((page % BLOCK_SIZE) as usize, code);
        FrameTable { blocks, count }
    }
}

/// The number that `size` bytes of a frame spell, where it may be read.
#[inline(always)]
fn read(frame: &Frame, offset: usize, size: u32) -> Option<u32>
    requires size { (size ≡ 1) ⊎ (size ≡ 2) ⊎ (size ≡ 4) }
    requires inside { offset + size ≤ 4096 }
    ensures value { IfSome result (λ value. IsRead frame.now offset size value) }
    ensures fits { IfSome result (λ value. value < 256 ^ size) }
{
    if allows(Right::Read, frame.rights) {
        Some(number_at(frame, offset, size))
    } else {
        None
    }
}
