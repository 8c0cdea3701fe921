ghost use Rattle.std.specs.Prelude.{◌≡◌, ◌≢◌, ◌+◌, ◌<◌, ◌≤◌, ◌⊎◌, ℕ, [], Some, None, length, option_map, slice_index_or, slice_set, false, IsTrue, IfSome, IfOk, OnOk, OnErr};
ghost use Rattle.std.specs.Option.{option_copied};
ghost use Rattle.plain_process.specs.Memory.{low_bytes};
ghost use Rattle.guest_pages.specs.Bytes.{with_piece};
ghost use Rattle.guest_pages.specs.Cells.{IsSameCells, SetsCell, IsNextPlace, Writes};

use crate::access;
use plain_process::{Frame, Right};
use std::alloc::{AllocError, Global};
use std::marker::Model;
use sys_abi::Page;

/// Frames in a row, some of which are missing, as are all past the end.
#[derive(Drop)]
pub struct FrameBlock {
    cells: Vec<Option<Frame>>,
}

impl Model for FrameBlock {
    ghost use Rattle.std.specs.Prelude.{List, Option};
    ghost use Rattle.plain_process.specs.declared.memory.Frame.{Frame};

    ghost Value = { List (Option Frame) };

    ghost view = { λ b. b.cells.items };
}

impl FrameBlock {
    /// A block with no frame, which holds no memory yet.
    pub fn new(alloc: Global) -> FrameBlock
        ensures { result ≡ [] }
    {
        FrameBlock {
            cells: Vec::new(alloc),
        }
    }

    #[inline(always)]
    pub fn get(&self, at: usize) -> Option<&Frame>
        ensures { option_copied result ≡ slice_index_or self.now at None }
    {
        match self.cells.get(at) {
            Some(Some(frame)) => Some(frame),
            _ => None,
        }
    }

    /// Puts a frame at a place. After a failed allocation each place holds what it held.
    pub fn insert(&mut self, at: usize, frame: Frame) -> Result<(), AllocError>
        requires { at < 1024 }
        ensures ok { OnOk result (SetsCell self.old self.new at (Some frame)) }
        ensures err { OnErr result (IsSameCells self.old self.new) }
    {
        grow(&mut self.cells, at + 1)?;
        self.cells[at] = Some(frame);
        Ok(())
    }

    pub fn remove(&mut self, at: usize)
        ensures { self.new ≡ slice_set self.old at None }
    {
        if at < self.cells.len() {
            self.cells[at] = None;
        }
    }

    /// Puts the first `size` bytes of a number into the frame at a place, where there is one.
    #[inline(always)]
    pub fn put_number(&mut self, at: usize, offset: usize, size: u32, value: u32)
        requires size { (size ≡ 1) ⊎ (size ≡ 2) ⊎ (size ≡ 4) }
        requires inside { offset + size ≤ 4096 }
        ensures put { self.new ≡ slice_set self.old at
            (option_map (λ frame. with_piece frame offset (low_bytes size value)) (slice_index_or self.old at None)) }
        ensures length { IfSome (slice_index_or self.old at None) (λ frame. length frame.page ≡ 4096) }
    {
        if at >= self.cells.len() {
            return;
        }
        let Some(frame) = &mut self.cells[at] else {
            return;
        };
        access::put_number(frame, offset, size, value);
    }

    /// Puts the first `size` bytes of a number into the frame at a place, where there is one that may be
    /// written, and tells whether.
    #[inline(always)]
    pub fn store(&mut self, at: usize, offset: usize, size: u32, value: u32) -> bool
        requires size { (size ≡ 1) ⊎ (size ≡ 2) ⊎ (size ≡ 4) }
        requires inside { offset + size ≤ 4096 }
        ensures made { IsTrue result → Writes self.old self.new at (λ frame. with_piece frame offset (low_bytes size value)) }
        ensures refused { result ≡ false → self.new ≡ self.old }
    {
        match self.get(at) {
            Some(frame) if access::allows(Right::Write, frame.rights) => {}
            _ => return false,
        }
        self.put_number(at, offset, size, value);
        true
    }

    /// Takes the frame at a place out, where there is one.
    #[inline(always)]
    pub fn take(&mut self, at: usize) -> Option<Frame>
        ensures taken { result ≡ slice_index_or self.old at None }
        ensures left { self.new ≡ slice_set self.old at None }
        ensures place { IfSome result (λ _. at < length self.new) }
    {
        if at < self.cells.len() {
            self.cells[at].take()
        } else {
            None
        }
    }

    /// Puts a frame at a place that is there.
    #[inline(always)]
    pub fn put_back(&mut self, at: usize, frame: Frame)
        requires { at < length self.old }
        ensures { self.new ≡ slice_set self.old at (Some frame) }
    {
        self.cells[at] = Some(frame);
    }

    /// Puts a piece into the frame at a place, where there is one.
    pub fn write(&mut self, at: usize, offset: usize, piece: &[u8])
        requires { offset + length piece.now ≤ 4096 }
        ensures put { self.new ≡ slice_set self.old at
            (option_map (λ frame. with_piece frame offset piece.now) (slice_index_or self.old at None)) }
        ensures length { IfSome (slice_index_or self.old at None) (λ frame. length frame.page ≡ 4096) }
    {
        if at >= self.cells.len() {
            return;
        }
        let Some(frame) = &mut self.cells[at] else {
            return;
        };
        access::write_piece(frame, offset, piece);
    }

    /// The first place from one on, below 1,024, that holds a frame.
    pub fn next_from(&self, start: usize) -> Option<usize>
        ensures { IsNextPlace self.now start result }
    {
        for at in start..self.cells.len().min(1024) {
            if self.cells[at].is_some() {
                return Some(at);
            }
        }
        None
    }

    /// A block with the same frames, in memory of its own.
    pub fn try_clone(&self, alloc: Global) -> Result<FrameBlock, AllocError>
        ensures { IfOk result (λ copy. copy ≡ self.now) }
    {
        Ok(FrameBlock {
            cells: copied(self.cells.as_slice(), alloc)?,
        })
    }
}

fn copied(cells: &[Option<Frame>], alloc: Global) -> Result<Vec<Option<Frame>>, AllocError>
    ensures { IfOk result (λ copy. copy.items ≡ cells.now) }
{
    let mut copy = Vec::with_capacity(alloc, cells.len())?;
    for cell in cells {
        copy.push(copy_of(cell, alloc)?)?;
    }
    Ok(copy)
}

fn copy_of(cell: &Option<Frame>, alloc: Global) -> Result<Option<Frame>, AllocError>
    ensures { IfOk result (λ copy. copy ≡ cell.now) }
{
    match cell {
        None => Ok(None),
        Some(frame) => Ok(Some(Frame {
            rights: frame.rights,
            page: Page::of_slice(alloc, frame.page.as_slice())?,
        })),
    }
}

fn grow(cells: &mut Vec<Option<Frame>>, len: usize) -> Result<(), AllocError>
    requires { len ≤ 1024 }
    ensures same { IsSameCells cells.old.items cells.new.items }
    ensures ok { OnOk result (len ≤ length cells.new.items) }
{
    while cells.len() < len {
        cells.push(None)?;
    }
    Ok(())
}
