ghost use Rattle.std.specs.Prelude.{◌≡◌, ◌+◌, ◌*◌, ◌/◌, ◌%◌, ◌<◌, ◌≤◌, ◌^◌, ◌⊎◌, Some, None, length, is_some, option_map, max, IfSome, IfOk, OnOk, OnErr};
ghost use Rattle.std.specs.Option.{option_copied};
ghost use Rattle.std.specs.FinMap as map;
ghost use Rattle.plain_process.specs.Memory.{low_bytes};
ghost use Rattle.guest_pages.specs.Bytes.{with_piece};
ghost use Rattle.guest_pages.specs.FrameTable.{IsSameRows, IsNextPage, changed_at};
ghost use Rattle.guest_pages.specs.Pages.{IsCode, IsSpace};

use crate::frame_block::FrameBlock;
use crate::open_space::OpenSpace;
use plain_process::Frame;
use std::alloc::{AllocError, Global};
use std::marker::Model;
use std::mem;

/// How many page numbers a block has places for.
pub(crate) const BLOCK_SIZE: u32 = 1024;

/// Frames by page number, found in two steps of an index: a map from the numbers to the frames.
#[derive(Drop)]
pub struct FrameTable {
    pub(crate) blocks: Vec<FrameBlock>,
    pub(crate) count: usize,
}

impl Model for FrameTable {
    ghost use Rattle.std.specs.Coded.{coded_ℕ};
    ghost use Rattle.std.specs.FinMap as map;
    ghost use Rattle.plain_process.specs.contracts.memory.Frame as frame;
    ghost use Rattle.plain_process.specs.Memory.{Memory};
    ghost use Rattle.guest_pages.specs.FrameTable.{frames_of, IsTable};

    ghost Value = { Memory };

    ghost coded = { map.code coded_ℕ frame.the_row.coded };

    ghost view = { λ t. frames_of t.blocks.items };

    ghost invariant = { λ t. IsTable t.blocks.items t.count };
}

impl FrameTable {
    /// A table with no frame, which holds no memory yet.
    pub fn new(alloc: Global) -> FrameTable
        ensures { result ≡ map.empty }
    {
        FrameTable {
            blocks: Vec::new(alloc),
            count: 0,
        }
    }

    /// The allocator that its memory comes from.
    pub fn allocator(&self) -> Global {
        *self.blocks.allocator()
    }

    /// How many frames stand.
    pub fn len(&self) -> usize
        ensures { result ≡ map.len self.now }
    {
        self.count
    }

    /// The frame at a number, where there is one.
    #[inline(always)]
    pub fn get(&self, page: u32) -> Option<&Frame>
        ensures { option_copied result ≡ map.get self.now page }
    {
        let number = (page / BLOCK_SIZE) as usize;
        if number < self.blocks.len() {
            self.blocks[number].get((page % BLOCK_SIZE) as usize)
        } else {
            None
        }
    }

    /// Whether a frame stands at a number.
    pub fn contains(&self, page: u32) -> bool
        ensures { result ≡ is_some (map.get self.now page) }
    {
        self.get(page).is_some()
    }

    /// Puts a frame at a number, in the place of the one that stands there. After a failed allocation the
    /// table is as before.
    pub fn insert(&mut self, page: u32, frame: Frame) -> Result<(), AllocError>
        requires { map.len self.old < 2 ^ 32 }
        ensures ok { OnOk result (self.new ≡ map.insert self.old page frame) }
        ensures err { OnErr result (self.new ≡ self.old) }
    {
        let is_new = !self.contains(page);
        let number = (page / BLOCK_SIZE) as usize;
        grow(&mut self.blocks, number + 1)?;
        self.blocks[number].insert((page % BLOCK_SIZE) as usize, frame)?;
        self.count += is_new as usize;
        Ok(())
    }

    /// Takes the frame at a number away, where there is one.
    pub fn remove(&mut self, page: u32)
        ensures { self.new ≡ map.remove self.old page }
    {
        if !self.contains(page) {
            return;
        }
        self.blocks[(page / BLOCK_SIZE) as usize].remove((page % BLOCK_SIZE) as usize);
        self.count -= 1;
    }

    /// Puts the first `size` bytes of a number into the frame of a page, where there is one.
    #[inline(always)]
    pub fn put_number(&mut self, page: u32, offset: usize, size: u32, value: u32)
        requires size { (size ≡ 1) ⊎ (size ≡ 2) ⊎ (size ≡ 4) }
        requires inside { offset + size ≤ 4096 }
        ensures put { self.new ≡ changed_at self.old page (λ frame. with_piece frame offset (low_bytes size value)) }
        ensures length { IfSome (map.get self.old page) (λ frame. length frame.page ≡ 4096) }
    {
        let number = (page / BLOCK_SIZE) as usize;
        if number < self.blocks.len() {
            self.blocks[number].put_number((page % BLOCK_SIZE) as usize, offset, size, value);
        }
    }

    /// Puts a piece into the frame of a page, where there is one.
    pub fn write(&mut self, page: u32, offset: usize, piece: &[u8])
        requires { offset + length piece.now ≤ 4096 }
        ensures put { self.new ≡ changed_at self.old page (λ frame. with_piece frame offset piece.now) }
        ensures length { IfSome (map.get self.old page) (λ frame. length frame.page ≡ 4096) }
    {
        let number = (page / BLOCK_SIZE) as usize;
        if number < self.blocks.len() {
            self.blocks[number].write((page % BLOCK_SIZE) as usize, offset, piece);
        }
    }

    /// Takes all frames out, that of the page of an address apart from the others.
    #[inline(always)]
    pub fn open(&mut self, address: u32) -> OpenSpace
        requires code { IsCode self.old (address / 4096) }
        requires space { IsSpace self.old }
        ensures all { result ≡ self.old }
        ensures empty { self.new ≡ map.empty }
    {
        let alloc = *self.blocks.allocator();
        let mut blocks = mem::replace(&mut self.blocks, Vec::new(alloc));
        let count = mem::replace(&mut self.count, 0);
        let page = address / 4096;
        let Some(code) = blocks[(page / BLOCK_SIZE) as usize].take((page % BLOCK_SIZE) as usize)
        else {
            unreachable!();
        };
        OpenSpace {
            blocks,
            count,
            start: address - address % 4096,
            code,
        }
    }

    /// The first number from one on at which a frame stands.
    pub fn next_from(&self, start: usize) -> Option<usize>
        ensures { IsNextPage self.now start result }
    {
        let blocks = self.blocks.as_slice();
        let mut number = start;
        while number / 1024 < blocks.len() {
            let first = number - number % 1024;
            if let Some(place) = blocks[number / 1024].next_from(number % 1024) {
                return Some(first + place);
            }
            number = first + 1024;
        }
        None
    }

    /// A table with the same frames, in memory of its own.
    pub fn try_clone(&self, alloc: Global) -> Result<FrameTable, AllocError>
        ensures { IfOk result (λ copy. copy ≡ self.now) }
    {
        Ok(FrameTable {
            blocks: copied(self.blocks.as_slice(), alloc)?,
            count: self.count,
        })
    }
}

fn copied(blocks: &[FrameBlock], alloc: Global) -> Result<Vec<FrameBlock>, AllocError>
    ensures { IfOk result (λ copy. copy.items ≡ blocks.now) }
{
    let mut copy = Vec::with_capacity(alloc, blocks.len())?;
    for block in blocks {
        copy.push(block.try_clone(alloc)?)?;
    }
    Ok(copy)
}

/// Puts empty blocks at the end until there are so many.
fn grow(blocks: &mut Vec<FrameBlock>, len: usize) -> Result<(), AllocError>
    ensures same { IsSameRows blocks.old.items blocks.new.items }
    ensures short { length blocks.new.items ≤ max (length blocks.old.items) len }
    ensures ok { OnOk result (len ≤ length blocks.new.items) }
{
    let alloc = *blocks.allocator();
    while blocks.len() < len {
        blocks.push(FrameBlock::new(alloc))?;
    }
    Ok(())
}
