//! Runs of pages for mappings and for the heap.
ghost use Rattle.std.specs.Prelude.{◌≡◌, ◌+◌, ◌≤◌, ◌<◌, ◌^◌, [], IfSome, IfOk, OnOk, OnErr};
ghost use Rattle.std.specs.FinMap as map;
ghost use Rattle.plain_process.specs.Pages.{free_run};
ghost use Rattle.plain_process.specs.Start.{with_pages};
ghost use Rattle.guest_mem.specs.Runs.{IsFree, IsFirstTaken};

use crate::space::{PAGE_LIMIT, Space};
use guest_pages::MemFault;
use std::alloc::{AllocError, Global};

/// Mappings lie from this page on.
const FIRST_PAGE: usize = 0x40000;

/// And below this one.
const END_PAGE: usize = 0x70000;

impl Space {
    /// The lowest page of a mapping from which so many are free, if there is one. The walk jumps over each
    /// page that is there once.
    pub fn free_run(&self, count: u32) -> Option<u32>
        ensures run { result ≡ free_run self.now count }
        ensures free { IfSome result (λ page. IsFree self.now page count) }
        ensures place { IfSome result (λ page. page + count ≤ END_PAGE) }
    {
        let count = count as usize;
        let mut page = FIRST_PAGE;
        while page + count <= END_PAGE {
            let Some(taken) = self.first_taken(page, count) else {
                return Some(page as u32);
            };
            page = taken + 1;
        }
        None
    }

    /// The first page that is there of so many from one on.
    fn first_taken(&self, page: usize, count: usize) -> Option<usize>
        requires { page + count < 2 ^ 32 }
        ensures { IsFirstTaken self.now page count result }
    {
        let next = self.next_from(page)?;
        if next < page + count {
            Some(next)
        } else {
            None
        }
    }

    /// Puts zeroed pages at so many numbers from one on, in the place of those that stand there. Where some
    /// do, it works on a copy, so that after a failed allocation all is as before.
    pub fn put_zeroed(
        &mut self,
        alloc: Global,
        page: u32,
        count: u32,
        rights: u8,
    ) -> Result<(), AllocError>
        requires numbers { page + count ≤ 2 ^ 20 }
        requires rights { rights < 8 }
        requires room { map.len self.old + count ≤ PAGE_LIMIT }
        ensures ok { OnOk result (self.new ≡ with_pages self.old page count rights []) }
        ensures err { OnErr result (self.new ≡ self.old) }
    {
        if self.is_free(page, count) {
            return self.map_in_room(page, count, rights);
        }
        *self = self.with_zeroed(alloc, page, count, rights)?;
        Ok(())
    }

    /// As `map`, where there is room for so many pages.
    pub fn map_in_room(&mut self, page: u32, count: u32, rights: u8) -> Result<(), AllocError>
        requires numbers { page + count ≤ 2 ^ 20 }
        requires rights { rights < 8 }
        requires free { IsFree self.old page count }
        requires room { map.len self.old + count ≤ PAGE_LIMIT }
        ensures ok { OnOk result (self.new ≡ with_pages self.old page count rights []) }
        ensures err { OnErr result (self.new ≡ self.old) }
    {
        match self.map(page, count, rights) {
            Ok(()) => Ok(()),
            Err(MemFault::Memory) => Err(AllocError),
            Err(_) => unreachable!(),
        }
    }

    /// A copy with zeroed pages at so many numbers from one on.
    fn with_zeroed(
        &self,
        alloc: Global,
        page: u32,
        count: u32,
        rights: u8,
    ) -> Result<Space, AllocError>
        requires numbers { page + count ≤ 2 ^ 20 }
        requires rights { rights < 8 }
        requires room { map.len self.now + count ≤ PAGE_LIMIT }
        ensures { IfOk result (λ copy. copy ≡ with_pages self.now page count rights []) }
    {
        let mut copy = self.try_clone(alloc)?;
        for number in 0..count {
            copy.insert_zeroed(page + number, rights)?;
        }
        Ok(copy)
    }
}
