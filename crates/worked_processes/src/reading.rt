// What is asserted of images of processes: what they show once they are read, and where they are damaged.
ghost use Rattle.std.specs.Prelude.{IfOk};
ghost use Rattle.image_process.specs.ProcessFits.{HasImage};

use crate::asserts::holds;
use crate::process_texts::{Image, bytes_of};
use crate::shared_images::{Processes, shared_of};
use image_codec::{Damage, ProcImage, ReadFault, Shared, read_process, write_process};
use std::alloc::{AllocError, Global};
use std::process::Abort;
use std::test::Fail;
use sys_abi::VPid;

/// What is seen of an image. A place counts from 0.
#[derive(Clone, Copy)]
pub enum Sight {
    Pid(u32),
    BreakStart(u32),
    /// How many pages there are.
    Pages(usize),
    /// The number of the page at a place.
    Page(usize, u32),
    /// How many actions there are.
    Actions(usize),
    /// How many waiters there are.
    Waiters(usize),
    /// The thread and the address of the waiter at a place.
    Waiter(usize, u32, u32),
    /// How many threads there are.
    Threads(usize),
    /// The number of the thread at a place, and how many contexts it has saved.
    Thread(usize, u32, usize),
    /// Where the thread at a place is, and the word that it clears when it ends.
    Registers(usize, u32, u32),
}

/// The image is this long, is read beside these processes as file 2, shows this, and is written as it was.
pub fn assert_both_ways(
    rt: &(impl Abort + AllocGlobal),
    image: Image,
    len: usize,
    processes: Processes,
    sights: &[Sight],
) -> Result<(), Fail> {
    let shared = shared_of(rt.alloc(), processes)?;
    let bytes = bytes_of(rt.alloc(), image)?;
    holds(rt, bytes.len() == len);
    assert_read(rt, bytes.as_slice(), &shared, sights)
}

fn assert_read(
    rt: &(impl Abort + AllocGlobal),
    bytes: &[u8],
    shared: &Shared,
    sights: &[Sight],
) -> Result<(), Fail> {
    let image = read(rt.alloc(), bytes, shared)?;
    assert_seen(rt, &image, sights);
    assert_written(rt, &image, bytes)?;
    Ok(())
}

fn read(alloc: Global, bytes: &[u8], shared: &Shared) -> Result<Box<ProcImage>, Fail>
    ensures { IfOk result (λ image. HasImage image.value) }
{
    let image = read_process(alloc, 2, bytes, shared)?;
    Ok(Box::new(alloc, image)?)
}

fn assert_seen(rt: &impl Abort, image: &ProcImage, sights: &[Sight]) {
    for sight in sights {
        holds(rt, is_seen(image, *sight));
    }
}

fn is_seen(image: &ProcImage, sight: Sight) -> bool {
    match sight {
        Sight::Pid(number) => image.pid == VPid(number),
        Sight::BreakStart(address) => image.break_start == address,
        Sight::Pages(count) => image.pages.len() == count,
        Sight::Page(place, number) => match image.pages.as_slice().get(place) {
            Some(page) => page.number == number,
            None => false,
        },
        Sight::Actions(count) => image.actions.len() == count,
        Sight::Waiters(count) => image.waiters.len() == count,
        Sight::Waiter(place, tid, address) => match image.waiters.as_slice().get(place) {
            Some(waiter) => waiter.tid == tid && waiter.address == address,
            None => false,
        },
        Sight::Threads(count) => image.threads.len() == count,
        Sight::Thread(place, tid, contexts) => match image.threads.as_slice().get(place) {
            Some(thread) => thread.tid == tid && thread.part.contexts.len() == contexts,
            None => false,
        },
        Sight::Registers(place, pc, clear_tid) => match image.threads.as_slice().get(place) {
            Some(thread) => thread.part.regs.pc == pc && thread.part.clear_tid == clear_tid,
            None => false,
        },
    }
}

/// Asserts that the image is written as these bytes.
fn assert_written(
    rt: &(impl Abort + AllocGlobal),
    image: &ProcImage,
    bytes: &[u8],
) -> Result<(), AllocError>
    requires { HasImage image.now }
{
    let written = write_process(rt.alloc(), image)?;
    holds(rt, written.as_slice() == bytes);
    Ok(())
}

/// Whether the bytes, read as this file, are damaged there.
pub fn is_damaged(alloc: Global, file: u32, bytes: &[u8], shared: &Shared, offset: u64) -> bool {
    let fault = read_process(alloc, file, bytes, shared).err();
    fault == Some(ReadFault::Damaged(Damage { file, offset }))
}

/// Each image is damaged at its offset, where it is read beside these processes as file 2.
pub fn assert_images_damaged(
    rt: &(impl Abort + AllocGlobal),
    processes: Processes,
    images: &[(Image, u64)],
) -> Result<(), Fail> {
    let shared = shared_of(rt.alloc(), processes)?;
    for (image, offset) in images {
        holds(rt, is_image_damaged(rt.alloc(), &shared, *image, *offset)?);
    }
    Ok(())
}

fn is_image_damaged(
    alloc: Global,
    shared: &Shared,
    image: Image,
    offset: u64,
) -> Result<bool, AllocError> {
    let bytes = bytes_of(alloc, image)?;
    Ok(is_damaged(alloc, 2, bytes.as_slice(), shared, offset))
}
