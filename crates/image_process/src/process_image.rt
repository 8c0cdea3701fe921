ghost use Rattle.std.specs.Prelude.{◌≡◌, ℕ, ◌≤◌, ◌++◌, [], filter, slice_get, IfOk, OnOk};
ghost use Rattle.std.specs.List.{flat_map};
ghost use Rattle.std.specs.Option.{option_copied};
ghost use Rattle.image_format.specs.Files.{IsRead, IsDamagedAt};
ghost use Rattle.image_format.specs.Format.{n32, number_text, unsigned};
ghost use Rattle.image_process.specs.ProcessImages.{process_at, pid_at, tids_at, tids_of, lists_format, process_format, is_whole_process, PROCESS_MAGIC, SpellsProcess, DamagedProcess, SpellsFileAt, DamagedFileAt};
ghost use Rattle.sys_abi.specs.Lives.{lives};
ghost use Rattle.image_process.specs.ProcessFits.{threads_of, IsPage, HasImage, ImageWords};
ghost use Rattle.image_process.specs.ProcessTexts.{action_text, list_text, page_text, thread_text, waiter_text};
ghost use Rattle.image_process.specs.ProcessTests.{is_break_start, is_break_end};
ghost use Rattle.plain_process.specs.Valid.{IsWord};
ghost use Rattle.image_format.specs.Reading.{Gives, read};
ghost use Rattle.image_format.specs.Texts.{EachFrom};

use crate::actions::{SIGNAL_COUNT, actions_at, put_actions};
use crate::page_image::{BREAK_LIMIT, PageImage, has_heap, has_return_page, pages_at, put_pages};
use crate::thread_image::{ThreadImage, number_at, put_threads, threads_at};
use crate::waiters::{put_waiters, waiters_at};
use image_format::ReadFault;
use image_format::damage::damaged;
use image_format::fields::{Fault, after_magic, put_bytes, put_u32, u32_at};
use plain_process::{SignalAction, Waiter};
use shared_items::{ProcessEntry, Shared, ThreadEntry};
use std::alloc::{AllocError, Global};
use sys_abi::VPid;
use sys_abi::page::PAGE_SIZE;
use views::list_of::ListOf;

/// The image of one process: its own part, as lists in rising order of their numbers.
#[derive(Drop)]
pub struct ProcImage {
    pub pid: VPid,
    pub break_start: u32,
    pub break_end: u32,
    pub pages: ListOf<PageImage>,
    /// What the process does on the signals 1 to 31.
    pub actions: ListOf<SignalAction>,
    /// Who waits on its words, in waking order.
    pub waiters: ListOf<Waiter>,
    pub threads: ListOf<ThreadImage>,
}

/// The live process at this place.
#[tactic(auto, unfolding(crate::proofs::LiveProcesses::live_from), using(crate::proofs::LiveProcesses::passes_dead, crate::proofs::LiveProcesses::passes_live, crate::proofs::LiveProcesses::is_found, crate::proofs::LiveProcesses::is_none))]
fn live_at(processes: &[ProcessEntry], place: usize) -> Option<&ProcessEntry>
    ensures { option_copied result ≡ slice_get (filter (λ process. lives process.life) processes.now) place }
{
    let mut left = place;
    for process in processes {
        if process.life.is_live() {
            if left == 0 {
                return Some(process);
            }
            left -= 1;
        }
    }
    None
}

/// The process whose image is this file of a set.
#[tactic(auto, unfolding(crate::specs::ProcessImages::process_at))]
fn process_at(shared: &Shared, file: u32) -> Option<&ProcessEntry>
    ensures { option_copied result ≡ process_at shared.now file }
{
    if file < 2 {
        return None;
    }
    live_at(shared.processes.as_slice(), file as usize - 2)
}

#[tactic(auto, unfolding(crate::specs::ProcessImages::is_whole_process))]
fn is_whole_process(p: &ProcImage) -> bool
    requires order { p.now.break_start ≤ p.now.break_end }
    requires pages { EachFrom (IsPage p.now.break_start p.now.break_end) [] p.now.pages }
    ensures { result ≡ is_whole_process p.now }
{
    has_heap(p.break_start, p.break_end, p.pages.as_slice()) && has_return_page(p.pages.as_slice())
}

#[tactic(auto, unfolding(image_format::specs::Reading::read, image_format::specs::Reading::read_if))]
fn break_start_at(text: &[u8]) -> Result<(u32, &[u8]), Fault>
    ensures { Gives (λ x. (x.0, x.1.now)) result (read (unsigned n32 is_break_start) text.now) }
{
    let (start, rest) = u32_at(text)?;
    if start as usize % PAGE_SIZE != 0 || start > BREAK_LIMIT {
        return Err(Fault::Left(text.len()));
    }
    Ok((start, rest))
}

#[tactic(auto, unfolding(image_format::specs::Reading::read, image_format::specs::Reading::read_if))]
fn break_end_at(start: u32, text: &[u8]) -> Result<(u32, &[u8]), Fault>
    ensures { Gives (λ x. (x.0, x.1.now)) result (read (unsigned n32 (is_break_end start)) text.now) }
{
    let (end, rest) = u32_at(text)?;
    if end < start || end > BREAK_LIMIT {
        return Err(Fault::Left(text.len()));
    }
    Ok((end, rest))
}

/// The lists of a process of this number with this break, as its whole image.
#[tactic(auto, unfolding(image_format::specs::Reading::read, image_format::specs::Reading::read_next))]
fn lists_at<'a>(
    alloc: Global,
    number: u32,
    break_start: u32,
    break_end: u32,
    threads: &[ThreadEntry],
    text: &'a [u8],
) -> Result<(ProcImage, &'a [u8]), Fault>
    ensures { Gives (λ x. (x.0, x.1.now)) result
        (read (lists_format (tids_of threads.now) number break_start break_end) text.now) }
{
    let (pages, rest) = pages_at(alloc, break_start, break_end, text)?;
    let (actions, rest) = actions_at(alloc, SIGNAL_COUNT, rest)?;
    let (waiters, rest) = waiters_at(alloc, threads, rest)?;
    let (threads, rest) = threads_at(alloc, threads, rest)?;
    let p = ProcImage {
        pid: VPid(number),
        break_start,
        break_end,
        pages,
        actions,
        waiters,
        threads,
    };
    Ok((p, rest))
}

#[tactic(auto, unfolding(crate::specs::ProcessImages::process_format, image_format::specs::Reading::read, image_format::specs::Reading::read_next))]
fn process_of<'a>(
    alloc: Global,
    pid: Option<u32>,
    threads: &[ThreadEntry],
    text: &'a [u8],
) -> Result<(ProcImage, &'a [u8]), Fault>
    ensures { Gives (λ x. (x.0, x.1.now)) result (read (process_format pid (tids_of threads.now)) text.now) }
{
    let rest = after_magic(text, b"DMTPRC01")?;
    let (number, rest) = number_at(pid, rest)?;
    let (break_start, rest) = break_start_at(rest)?;
    let (break_end, rest) = break_end_at(break_start, rest)?;
    lists_at(alloc, number, break_start, break_end, threads, rest)
}

/// The image of the process of this number with these threads.
fn read_image(
    alloc: Global,
    file: u32,
    pid: Option<u32>,
    threads: &[ThreadEntry],
    bytes: &[u8],
) -> Result<ProcImage, ReadFault>
    ensures found { IfOk result (λ p. SpellsProcess pid (tids_of threads.now) bytes.now p) }
    ensures only { (p : ProcImage) → SpellsProcess pid (tids_of threads.now) bytes.now p → IsRead result p }
    ensures exact { IsDamagedAt file (DamagedProcess pid (tids_of threads.now) bytes.now) result }
    ensures again { IfOk result HasImage }
{
    match process_of(alloc, pid, threads, bytes) {
        Ok((p, rest)) => {
            if !rest.is_empty() {
                return Err(damaged(file, bytes, rest.len()));
            }
            if is_whole_process(&p) {
                Ok(p)
            } else {
                Err(damaged(file, bytes, 0))
            }
        }
        Err(Fault::Left(left)) => Err(damaged(file, bytes, left)),
        Err(Fault::Memory) => Err(ReadFault::Memory),
    }
}

/// The image of a process that this file of a set spells: of the live processes of the shared image in order,
/// the first one's is file 2.
pub fn read_process(
    alloc: Global,
    file: u32,
    bytes: &[u8],
    shared: &Shared,
) -> Result<ProcImage, ReadFault>
    ensures found { IfOk result (λ p. SpellsFileAt shared.now file bytes.now p) }
    ensures only { (p : ProcImage) → SpellsFileAt shared.now file bytes.now p → IsRead result p }
    ensures exact { IsDamagedAt file (DamagedFileAt shared.now file bytes.now) result }
    ensures again { IfOk result HasImage }
{
    match process_at(shared, file) {
        Some(process) => {
            let pid = Some(process.pid.0);
            read_image(alloc, file, pid, process.threads.as_slice(), bytes)
        }
        None => read_image(alloc, file, None, &[], bytes),
    }
}

/// The magic, the number and the break.
fn put_head(bytes: &mut Vec<u8>, p: &ProcImage) -> Result<(), AllocError>
    ensures value { OnOk result (bytes.new.items ≡ bytes.old.items ++ PROCESS_MAGIC
        ++ number_text n32 p.now.pid.0 ++ number_text n32 p.now.break_start
        ++ number_text n32 p.now.break_end) }
    ensures number { OnOk result (IsWord p.now.pid.0) }
{
    put_bytes(bytes, b"DMTPRC01")?;
    put_u32(bytes, p.pid.0)?;
    put_u32(bytes, p.break_start)?;
    put_u32(bytes, p.break_end)
}

fn put_lists(bytes: &mut Vec<u8>, p: &ProcImage) -> Result<(), AllocError>
    requires image { HasImage p.now }
    requires number { IsWord p.now.pid.0 }
    ensures value { OnOk result (bytes.new.items ≡ bytes.old.items ++ list_text page_text p.now.pages
        ++ flat_map action_text p.now.actions ++ list_text waiter_text p.now.waiters
        ++ list_text thread_text p.now.threads) }
    ensures words { OnOk result (ImageWords p.now) }
{
    put_pages(bytes, p.pages.as_slice())?;
    put_actions(bytes, p.actions.as_slice())?;
    put_waiters(bytes, p.waiters.as_slice())?;
    put_threads(bytes, p.threads.as_slice())
}

/// The bytes of the process's image.
#[tactic(auto, unfolding(crate::specs::ProcessTexts::process_text), using(crate::proofs::ProcessFiles::of_text))]
pub fn write_process(alloc: Global, p: &ProcImage) -> Result<Vec<u8>, AllocError>
    requires { HasImage p.now }
    ensures { IfOk result (λ bytes. SpellsProcess (Some p.now.pid.0) (threads_of p.now) bytes.items p.now) }
{
    let mut bytes = Vec::with_capacity(alloc, (p.pages.len() + 1) * (PAGE_SIZE + 5))?;
    put_head(&mut bytes, p)?;
    put_lists(&mut bytes, p)?;
    Ok(bytes)
}
