ghost use Rattle.std.specs.Prelude.{◌≡◌, ◌+◌, ◌≤◌, ◌<◌, ◌*◌, ◌/◌, ◌%◌, ◌^◌, ◌⊎◌, ◌↔◌, ◌++◌, Some, None, length, is_some, find, IsSome, IfSome, IsTrue, Err, IfErr, [], replicate, IfOk, OnOk, OnErr, option_map};
ghost use Rattle.std.specs.Option.{option_copied};
ghost use Rattle.std.specs.Result.{result_ok, result_err, result_map_both};
ghost use Rattle.std.specs.FinMap as map;
ghost use Rattle.plain_process.specs.Memory.{bytes_at, byte_at, with_bytes, little_endian, low_bytes, load as load_of, fetch as fetch_of, store as memory_after};
ghost use Rattle.plain_process.specs.declared.memory.Right.TheVariants as right;
ghost use Rattle.plain_process.specs.Start.{with_pages};
ghost use Rattle.sys_abi.specs.declared.transfer.TheConstants.{TRANSFER_LIMIT};
ghost use Rattle.views.specs.NumberMap.{is_above};
ghost use Rattle.guest_pages.specs.Refusals.{granted, refusal, stored};
ghost use Rattle.guest_pages.specs.FrameTable.{IsNextPage};
ghost use Rattle.guest_mem.specs.Runs.{IsFree, IsRoomFault, start_of, without_pages};

use guest_pages::access::{allows, number_at, room_in_page};
use guest_pages::{FrameTable, MemFault, OpenSpace};
use plain_process::{Frame, Right};
use std::alloc::{AllocError, Global};
use std::marker::Model;
use sys_abi::page::PAGE_SIZE;
use sys_abi::{Page, Transfer};

/// How many pages a space has at most: 8 MiB.
pub const PAGE_LIMIT: usize = 2048;

/// The memory of a process: a finite map from page numbers to frames.
#[derive(Drop)]
pub struct Space {
    frames: FrameTable,
}

impl Model for Space {
    ghost use Rattle.std.specs.Coded.{coded_ℕ};
    ghost use Rattle.std.specs.FinMap as map;
    ghost use Rattle.plain_process.specs.contracts.memory.Frame as frame;
    ghost use Rattle.plain_process.specs.Memory.{Memory};
    ghost use Rattle.guest_pages.specs.Pages.{IsSpace};

    ghost Value = { Memory };

    ghost coded = { map.code coded_ℕ frame.the_row.coded };

    ghost view = { λ s. s.frames };

    ghost invariant = { λ s. IsSpace s.frames };
}

impl Space {
    /// A space with no page, which holds no memory yet.
    pub fn new(alloc: Global) -> Space
        ensures { result ≡ map.empty }
    {
        Space {
            frames: FrameTable::new(alloc),
        }
    }

    /// How many pages stand.
    pub fn len(&self) -> usize
        ensures count { result ≡ map.len self.now }
        ensures limit { result ≤ PAGE_LIMIT }
    {
        self.frames.len()
    }

    pub fn is_empty(&self) -> bool
        ensures { IsTrue result ↔ (self.now ≡ map.empty) }
    {
        self.len() == 0
    }

    pub fn contains_page(&self, page: u32) -> bool
        ensures { result ≡ is_some (map.get self.now page) }
    {
        self.frames.contains(page)
    }

    /// The least page number above this one, or the least of all where none is given.
    pub fn next_page(&self, above: Option<u32>) -> Option<u32>
        ensures next { result ≡ find (is_above above) (map.keys self.now) }
        ensures place { IfSome result (λ page. page < 2 ^ 20) }
    {
        match self.frames.next_from(start_above(above)) {
            None => None,
            Some(page) => Some(page as u32),
        }
    }

    /// Whether none of so many pages from one on is there.
    pub fn is_free(&self, page: u32, count: u32) -> bool
        requires { page + count ≤ 2 ^ 20 }
        ensures { IsTrue result ↔ IsFree self.now page count }
    {
        match self.frames.next_from(page as usize) {
            None => true,
            Some(next) => next >= (page + count) as usize,
        }
    }

    /// The number that the `size` bytes at an address spell, the least significant first. It needs the right
    /// to read.
    #[inline(always)]
    pub fn load(&self, address: u32, size: u32) -> Result<u32, MemFault>
        requires { (size ≡ 1) ⊎ (size ≡ 2) ⊎ (size ≡ 4) }
        ensures value { result_ok result ≡ load_of self.now address size }
        ensures fits { IfOk result (λ value. value < 256 ^ size) }
        ensures refused { result_err result ≡ refusal self.now right.Read address size }
    {
        self.read(Right::Read, address, size)
    }

    /// The instruction word at an address. It needs the right to execute.
    #[inline(always)]
    pub fn fetch(&self, address: u32) -> Result<u32, MemFault>
        ensures value { result_ok result ≡ fetch_of self.now address }
        ensures refused { result_err result ≡ refusal self.now right.Execute address 4 }
    {
        self.read(Right::Execute, address, 4)
    }

    /// Takes all pages out, that of an address apart from the others, where it is there and may be executed.
    #[inline(always)]
    pub fn open(&mut self, address: u32) -> Option<OpenSpace>
        ensures some { IfSome result (λ apart. apart ≡ self.old) }
        ensures none { result ≡ None → self.new ≡ self.old }
    {
        if self.frame(Right::Execute, address / 4096).is_err() {
            return None;
        }
        Some(self.frames.open(address))
    }

    /// Has the pages that were taken out, in the place of its own.
    #[inline(always)]
    pub fn close(&mut self, apart: OpenSpace)
        ensures { self.new ≡ apart }
    {
        self.frames = apart.close();
    }

    #[inline(always)]
    fn read(&self, right: Right, address: u32, size: u32) -> Result<u32, MemFault>
        requires { (size ≡ 1) ⊎ (size ≡ 2) ⊎ (size ≡ 4) }
        ensures value { result_ok result ≡ option_map little_endian (bytes_at self.now right address size) }
        ensures fits { IfOk result (λ value. value < 256 ^ size) }
        ensures refused { result_err result ≡ refusal self.now right address size }
    {
        let offset = (address % 4096) as usize;
        if offset + size as usize > PAGE_SIZE {
            return self.read_across(right, address, size);
        }
        let frame = self.frame(right, address / 4096)?;
        Ok(number_at(frame, offset, size))
    }

    #[inline(always)]
    pub fn page(&self, page: u32) -> Option<&Frame>
        ensures { option_copied result ≡ map.get self.now page }
    {
        self.frames.get(page)
    }

    /// The frame of a page, where it has the right.
    #[inline(always)]
    fn frame(&self, right: Right, page: u32) -> Result<&Frame, MemFault>
        ensures { result_map_both (λ frame. frame.now) (λ fault. fault) result ≡ granted right (map.get self.now page) }
    {
        match self.page(page) {
            None => Err(MemFault::Unmapped),
            Some(frame) if allows(right, frame.rights) => Ok(frame),
            Some(_) => Err(MemFault::Rights),
        }
    }

    /// An access that meets two pages, a byte at a time.
    #[cold]
    fn read_across(&self, right: Right, address: u32, size: u32) -> Result<u32, MemFault>
        requires { (size ≡ 2) ⊎ (size ≡ 4) }
        ensures value { result_ok result ≡ option_map little_endian (bytes_at self.now right address size) }
        ensures fits { IfOk result (λ value. value < 256 ^ size) }
        ensures refused { result_err result ≡ refusal self.now right address size }
    {
        self.check(right, address, size as usize)?;
        Ok(match size {
            2 => u16::from_le_bytes([
                self.byte(right, address),
                self.byte(right, address + 1),
            ]) as u32,
            _ => u32::from_le_bytes([
                self.byte(right, address),
                self.byte(right, address + 1),
                self.byte(right, address + 2),
                self.byte(right, address + 3),
            ]),
        })
    }

    fn byte(&self, right: Right, address: u32) -> u8
        requires { IsSome (byte_at self.now right address) }
        ensures { byte_at self.now right address ≡ Some result }
    {
        match self.frame(right, address / 4096) {
            Ok(frame) => frame.page.byte((address % 4096) as usize),
            Err(_) => unreachable!(),
        }
    }

    /// Whether the `count` bytes from an address on may be had.
    fn check(&self, right: Right, address: u32, count: usize) -> Result<(), MemFault>
        ensures refused { result_err result ≡ refusal self.now right address count }
        ensures bounded { OnOk result (address + count ≤ 2 ^ 32) }
    {
        let _ = &self.frames;
        if count > (1 << 32) - address as usize {
            return Err(MemFault::Unmapped);
        }
        let mut has_right = true;
        let mut done = 0;
        while done < count {
            let at = (address as usize + done) as u32;
            let Some(frame) = self.page(at / 4096) else {
                return Err(MemFault::Unmapped);
            };
            has_right &= allows(right, frame.rights);
            done += room_in_page(at, count - done);
        }
        if has_right {
            Ok(())
        } else {
            Err(MemFault::Rights)
        }
    }

    /// Puts the first `size` bytes of a number at an address, the least significant first. It needs the right
    /// to write. A refused store writes no byte.
    #[inline(always)]
    pub fn store(&mut self, address: u32, size: u32, value: u32) -> Result<(), MemFault>
        requires { (size ≡ 1) ⊎ (size ≡ 2) ⊎ (size ≡ 4) }
        ensures told { memory_after self.old address size value ≡ stored result self.new }
        ensures err { OnErr result (self.new ≡ self.old) }
        ensures refused { result_err result ≡ refusal self.old right.Write address size }
    {
        let offset = (address % 4096) as usize;
        if offset + size as usize > PAGE_SIZE {
            return self.copy_in(address, &value.to_le_bytes()[0..size as usize]);
        }
        self.frame(Right::Write, address / 4096)?;
        self.put(address, size, value);
        Ok(())
    }

    #[inline(always)]
    fn put(&mut self, address: u32, size: u32, value: u32)
        requires size { (size ≡ 1) ⊎ (size ≡ 2) ⊎ (size ≡ 4) }
        requires inside { address % 4096 + size ≤ 4096 }
        ensures { self.new ≡ with_bytes self.old address (low_bytes size value) }
    {
        self.frames
            .put_number(address / 4096, (address % 4096) as usize, size, value);
    }

    /// Puts the piece at an address. It needs the right to write. All or nothing.
    pub fn copy_in(&mut self, address: u32, piece: &[u8]) -> Result<(), MemFault>
        ensures ok { OnOk result (self.new ≡ with_bytes self.old address piece.now) }
        ensures err { OnErr result (self.new ≡ self.old) }
        ensures refused { result_err result ≡ refusal self.old right.Write address (length piece.now) }
    {
        self.check(Right::Write, address, piece.len())?;
        let mut done = 0;
        while done < piece.len() {
            let at = (address as usize + done) as u32;
            let end = done + room_in_page(at, piece.len() - done);
            self.write(at, &piece[done..end]);
            done = end;
        }
        Ok(())
    }

    fn write(&mut self, address: u32, piece: &[u8])
        requires { address % 4096 + length piece.now ≤ 4096 }
        ensures { self.new ≡ with_bytes self.old address piece.now }
    {
        self.frames
            .write(address / 4096, (address % 4096) as usize, piece);
    }

    /// Makes the pages of a range this space's own, so that writes to them take no memory. It needs the right
    /// to write.
    pub fn own_pages(&mut self, address: u32, n: u32) -> Result<(), MemFault>
        ensures contents { self.new ≡ self.old }
        ensures refused { result_err result ≡ refusal self.old right.Write address n }
    {
        self.check(Right::Write, address, n as usize)
    }

    /// Appends the `n` bytes from an address on to the transfer. It needs the right to read. All or nothing.
    pub fn copy_out(&self, address: u32, transfer: &mut Transfer, n: u32) -> Result<(), MemFault>
        requires { length transfer.old + n ≤ TRANSFER_LIMIT }
        ensures ok { OnOk result (option_map (λ bytes. transfer.old ++ bytes)
            (bytes_at self.now right.Read address n) ≡ Some transfer.new) }
        ensures err { OnErr result (transfer.new ≡ transfer.old) }
        ensures refused { result_err result ≡ refusal self.now right.Read address n }
    {
        let count = n as usize;
        self.check(Right::Read, address, count)?;
        let mut done = 0;
        while done < count {
            let at = (address as usize + done) as u32;
            let size = room_in_page(at, count - done);
            transfer.put(self.piece(at, size));
            done += size;
        }
        Ok(())
    }

    fn piece(&self, address: u32, size: usize) -> &[u8]
        requires inside { address % 4096 + size ≤ 4096 }
        requires some { 0 < size }
        requires readable { IsSome (bytes_at self.now right.Read address size) }
        ensures { bytes_at self.now right.Read address size ≡ Some result.now }
    {
        let offset = (address % 4096) as usize;
        match self.frame(Right::Read, address / 4096) {
            Ok(frame) => &frame.page.as_slice()[offset..offset + size],
            Err(_) => unreachable!(),
        }
    }

    /// Whether the `n` bytes from an address on can be written.
    pub fn is_writable(&self, address: u32, n: u32) -> bool
        ensures writable { result ≡ is_some (bytes_at self.now right.Write address n) }
        ensures bounded { IsTrue result → address + n ≤ 2 ^ 32 }
    {
        self.check(Right::Write, address, n as usize).is_ok()
    }

    /// Whether the `n` bytes from an address on can be read.
    pub fn is_readable(&self, address: u32, n: u32) -> bool
        ensures readable { result ≡ is_some (bytes_at self.now right.Read address n) }
        ensures bounded { IsTrue result → address + n ≤ 2 ^ 32 }
    {
        self.check(Right::Read, address, n as usize).is_ok()
    }

    /// The byte at an address, where its page is there and has the right.
    pub fn byte_with(&self, right: Right, address: u32) -> Option<u8>
        ensures { result ≡ byte_at self.now right address }
    {
        match self.frame(right, address / 4096) {
            Ok(frame) => Some(frame.page.byte((address % 4096) as usize)),
            Err(_) => None,
        }
    }

    /// Puts a page at a number, in the place of the one that stands there. After a refusal all is as before.
    pub fn insert_page(&mut self, page: u32, frame: Frame) -> Result<(), MemFault>
        requires { page < 2 ^ 20 }
        ensures ok { OnOk result (self.new ≡ map.insert self.old page frame) }
        ensures err { OnErr result (self.new ≡ self.old) }
        ensures full { (result ≡ Err MemFault.Full)
            ↔ ((map.get self.old page ≡ None) × (PAGE_LIMIT ≤ map.len self.old)) }
        ensures kinds { IfErr result IsRoomFault }
    {
        if !self.frames.contains(page) && self.frames.len() >= PAGE_LIMIT {
            return Err(MemFault::Full);
        }
        self.frames.insert(page, frame)?;
        Ok(())
    }

    /// Takes a page away, where it is there.
    pub fn remove_page(&mut self, page: u32)
        ensures { self.new ≡ map.remove self.old page }
    {
        self.frames.remove(page);
    }

    /// Puts zeroed pages at so many numbers from one on (`man 2 mmap`, anonymous). After a refusal all is as
    /// before.
    pub fn map(&mut self, page: u32, count: u32, rights: u8) -> Result<(), MemFault>
        requires numbers { page + count ≤ 2 ^ 20 }
        requires rights { rights < 8 }
        requires free { IsFree self.old page count }
        ensures ok { OnOk result (self.new ≡ with_pages self.old page count rights []) }
        ensures err { OnErr result (self.new ≡ self.old) }
        ensures full { (result ≡ Err MemFault.Full) ↔ (PAGE_LIMIT < map.len self.old + count) }
        ensures kinds { IfErr result IsRoomFault }
    {
        let _ = &self.frames;
        if count as usize > PAGE_LIMIT - self.len() {
            return Err(MemFault::Full);
        }
        for number in 0..count {
            let Ok(()) = self.insert_zeroed(page + number, rights) else {
                self.unmap(page, number);
                return Err(MemFault::Memory);
            };
        }
        Ok(())
    }

    pub(crate) fn insert_zeroed(&mut self, page: u32, rights: u8) -> Result<(), AllocError>
        requires number { page < 2 ^ 20 }
        requires room { map.len self.old < PAGE_LIMIT }
        ensures ok { OnOk result (self.new
            ≡ map.insert self.old page (record { rights = rights; page = replicate 4096 0 })) }
        ensures err { OnErr result (self.new ≡ self.old) }
    {
        let zeroed = Page::zeroed(self.frames.allocator())?;
        self.frames.insert(
            page,
            Frame {
                rights,
                page: zeroed,
            },
        )?;
        Ok(())
    }

    /// Takes the pages of so many numbers from one on away (`man 2 munmap`); those that are missing are
    /// passed over, in time that is bounded by what the table holds and not by the count.
    pub fn unmap(&mut self, page: u32, count: u32)
        requires { page + count ≤ 2 ^ 20 }
        ensures { self.new ≡ without_pages self.old page count }
    {
        let mut done = 0;
        while let Some(next) = self.next_from((page + done) as usize) {
            if next >= (page + count) as usize {
                return;
            }
            self.remove_page(next as u32);
            done = next as u32 + 1 - page;
        }
    }

    pub(crate) fn next_from(&self, start: usize) -> Option<usize>
        ensures { IsNextPage self.now start result }
    {
        self.frames.next_from(start)
    }

    /// A space with the same contents, in memory of its own.
    pub fn try_clone(&self, alloc: Global) -> Result<Space, AllocError>
        ensures { IfOk result (λ copy. copy ≡ self.now) }
    {
        Ok(Space {
            frames: self.frames.try_clone(alloc)?,
        })
    }
}

fn start_above(page: Option<u32>) -> usize
    ensures { result ≡ start_of page }
{
    match page {
        None => 0,
        Some(page) => page as usize + 1,
    }
}
