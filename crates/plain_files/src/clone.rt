ghost use Rattle.std.specs.Prelude.{◌≡◌, ◌++◌, IfOk, OnOk};
ghost use Rattle.sys_abi.specs.Flags.{has_flag};
ghost use Rattle.sys_abi.specs.declared.flags.TheConstants.{CLONE_PARENT_SETTID};
ghost use Rattle.plain_machine.specs.Rows.Clone as rows;
ghost use Rattle.plain_machine.specs.Answers.{RowTold, KeepsUnlessGives};

use plain_machine::PlainKernel;
use plain_tables::answer::{Answer, Attempt, RowResult};
use std::alloc::{AllocError, Global};
use sys_abi::errors::{EAGAIN, EINVAL};
use sys_abi::flags::{CLONE_CHILD_SETTID, CLONE_PARENT_SETTID};
use sys_abi::{CloneForm, Reply, VPid, clone_form};
use views::list_of::ListOf;

/// How many threads a process has at most.
const THREAD_LIMIT: usize = 64;

/// How many processes there are at most, those that have ended and are still there among them.
const PROCESS_LIMIT: usize = 128;

/// Numbers of processes and threads are below this one.
const LAST_ID: u32 = 0x7FFF_FFFF;

/// clone (`man 2 clone`): a thread more for the caller's process, or a child of it.
#[tactic(auto, unfolding(plain_machine::specs::Rows::Clone::clone_row))]
pub fn clone(kernel: &mut PlainKernel, alloc: Global, p: VPid, flags: u32) -> RowResult
    ensures row { IfOk result (RowTold (rows.clone_row kernel.old p flags) kernel.new) }
    ensures kept { IfOk result (λ attempt. KeepsUnlessGives attempt kernel.old kernel.new) }
{
    match clone_form(flags) {
        None => Ok(Attempt::fails(EINVAL)),
        Some(CloneForm::Fork) => clone_process(kernel, alloc, p, flags),
        Some(CloneForm::Thread) => clone_thread(kernel, alloc, p, flags),
    }
}

#[tactic(auto, unfolding(plain_machine::specs::Rows::Clone::clone_thread, plain_process::specs::Attempts::and_then, plain_process::specs::Attempts::need))]
fn clone_thread(kernel: &mut PlainKernel, alloc: Global, p: VPid, flags: u32) -> RowResult
    ensures row { IfOk result (RowTold (rows.clone_thread kernel.old p flags) kernel.new) }
    ensures kept { IfOk result (λ attempt. KeepsUnlessGives attempt kernel.old kernel.new) }
{
    if kernel.thread_count(p) >= THREAD_LIMIT || kernel.next_id >= LAST_ID {
        return Ok(Attempt::fails(EAGAIN));
    }
    let number = kernel.next_id;
    let bytes = number_bytes(alloc, flags, number)?;
    kernel.add_thread(p)?;
    Ok(Attempt::Gives(Answer {
        reply: Reply::Value(number),
        bytes,
        is_shown: false,
    }))
}

#[tactic(auto, unfolding(plain_machine::specs::Rows::Clone::clone_process, plain_process::specs::Attempts::and_then, plain_process::specs::Attempts::need))]
fn clone_process(kernel: &mut PlainKernel, alloc: Global, p: VPid, flags: u32) -> RowResult
    ensures row { IfOk result (RowTold (rows.clone_process kernel.old p flags) kernel.new) }
    ensures kept { IfOk result (λ attempt. KeepsUnlessGives attempt kernel.old kernel.new) }
{
    if kernel.processes.len() >= PROCESS_LIMIT || kernel.next_id >= LAST_ID {
        return Ok(Attempt::fails(EAGAIN));
    }
    let number = kernel.next_id;
    let bytes = parent_bytes(alloc, flags, number)?;
    kernel.add_child(alloc, p)?;
    Ok(Attempt::Gives(Answer {
        reply: Reply::Value(number),
        bytes,
        is_shown: false,
    }))
}

/// A child's number, where the flags ask for it in its parent.
fn parent_bytes(alloc: Global, flags: u32, number: u32) -> Result<ListOf<u8>, AllocError>
    ensures { IfOk result (λ bytes. bytes ≡ rows.number_if (has_flag flags CLONE_PARENT_SETTID) number) }
{
    let mut bytes = Vec::new(alloc);
    put_number_if(&mut bytes, flags / CLONE_PARENT_SETTID % 2 == 1, number)?;
    Ok(ListOf::from_vec(bytes))
}

/// The new number, for each place that the flags name.
fn number_bytes(alloc: Global, flags: u32, number: u32) -> Result<ListOf<u8>, AllocError>
    ensures { IfOk result (λ bytes. bytes ≡ rows.number_bytes flags number) }
{
    let mut bytes = Vec::new(alloc);
    put_number_if(&mut bytes, flags / CLONE_PARENT_SETTID % 2 == 1, number)?;
    put_number_if(&mut bytes, flags / CLONE_CHILD_SETTID % 2 == 1, number)?;
    Ok(ListOf::from_vec(bytes))
}

fn put_number_if(bytes: &mut Vec<u8>, is_wanted: bool, number: u32) -> Result<(), AllocError>
    ensures { OnOk result (bytes.new.items ≡ bytes.old.items ++ rows.number_if is_wanted number) }
{
    if !is_wanted {
        return Ok(());
    }
    bytes.extend_from_slice(&number.to_le_bytes())
}
