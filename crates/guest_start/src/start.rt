ghost use Rattle.std.specs.Prelude.{◌≡◌, ◌≤◌, ◌+◌, length, replicate, All, IfOk, OnOk};
ghost use Rattle.std.specs.FinMap as map;
ghost use Rattle.elf32.specs.Pages.{page_count};
ghost use Rattle.elf32.specs.Programs.{IsWellPlaced};
ghost use Rattle.plain_process.specs.Start as start;

use crate::pages::{insert_page, put_pages, put_segments};
use crate::stack::{start_sp, start_stack};
use elf32::{Program, Segment};
use guest_mem::Space;
use plain_process::{Frame, Regs, SignalAction};
use std::alloc::{AllocError, Global};
use sys_abi::Page;
use views::list_of::ListOf;

const STACK_PAGE: u32 = 0x7FFC0;

const STACK_PAGES: u32 = 64;

const RETURN_PAGE: u32 = 0x80000;
/// li a7, 139; ecall.
const RETURN_CODE: [u8; 8] = [0x93, 0x08, 0xB0, 0x08, 0x73, 0x00, 0x00, 0x00];

const READ_WRITE: u8 = 6;

const READ_EXECUTE: u8 = 5;

const SIGNAL_COUNT: usize = 31;

/// The page to which a signal handler returns.
fn return_page(alloc: Global) -> Result<Page, AllocError>
    ensures { IfOk result (λ page. page ≡ start.page_of start.return_code) }
{
    let mut page = Page::zeroed(alloc)?;
    page.write(0, &RETURN_CODE);
    Ok(page)
}

#[tactic(auto, unfolding(plain_process::specs::Start::with_pages))]
fn put_return_page(alloc: Global, space: &mut Space) -> Result<(), AllocError>
    requires { map.len space.old ≤ 1600 }
    ensures { OnOk result (space.new ≡ start.with_pages space.old start.RETURN_PAGE 1 5 start.return_code) }
{
    let frame = Frame {
        rights: READ_EXECUTE,
        page: return_page(alloc)?,
    };
    insert_page(space, RETURN_PAGE, frame)
}

/// The memory of a program at its start.
#[tactic(auto, unfolding(plain_process::specs::Start::start_memory))]
pub fn start_space(alloc: Global, program: &Program, arguments: &[u8]) -> Result<Space, AllocError>
    requires pages { page_count program.now.segments ≤ 1536 }
    requires some { 1 ≤ length arguments.now }
    requires few { length arguments.now ≤ 4096 }
    ensures { IfOk result (λ space. space ≡ start.start_memory program.now arguments.now) }
{
    let mut space = Space::new(alloc);
    put_segments(alloc, &mut space, program.segments.as_slice())?;
    let stack = start_stack(alloc, arguments)?;
    put_pages(
        alloc,
        &mut space,
        STACK_PAGE,
        STACK_PAGES,
        READ_WRITE,
        stack.as_slice(),
    )?;
    put_return_page(alloc, &mut space)?;
    Ok(space)
}

/// Where the highest segment ends.
fn highest_end(segments: &[Segment]) -> u64
    ensures { result ≡ start.highest_end segments.now }
{
    segments.iter().fold(0, |highest: u64, segment| {
        highest.max(segment.vaddr as u64 + segment.memsz as u64)
    })
}

/// Where the break starts.
#[tactic(auto, unfolding(plain_process::specs::Start::break_of), using(crate::proofs::Breaks::highest_end_low))]
pub fn break_of(segments: &[Segment]) -> u32
    requires { All IsWellPlaced segments.now }
    ensures { result ≡ start.break_of segments.now }
{
    let pages = (highest_end(segments) + 4095) / 4096;
    (4096 * pages) as u32
}

/// The registers of a program's one thread at its start: the stack pointer, the entry, and else zeros.
#[tactic(auto, unfolding(plain_process::specs::Start::start_regs))]
pub fn start_regs(alloc: Global, program: &Program, arguments: &[u8]) -> Result<Regs, AllocError>
    requires some { 1 ≤ length arguments.now }
    requires few { length arguments.now ≤ 4096 }
    ensures { IfOk result (λ regs. regs ≡ start.start_regs program.now arguments.now) }
{
    let mut x = [0; 32];
    x[2] = start_sp(alloc, arguments)?;
    Ok(Regs {
        x,
        pc: program.entry,
    })
}

/// What a process does on each signal at its start: the default.
pub fn start_actions(alloc: Global) -> Result<ListOf<SignalAction>, AllocError>
    ensures { IfOk result (λ actions. actions ≡ replicate 31 start.default_action) }
{
    let mut actions = Vec::with_capacity(alloc, SIGNAL_COUNT)?;
    for _signal in 0..SIGNAL_COUNT {
        actions.push(SignalAction {
            handler: 0,
            flags: 0,
            mask: 0,
        })?;
    }
    Ok(ListOf::from_vec(actions))
}
