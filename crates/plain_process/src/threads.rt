//! What a call's answer, a clone and a wake do to a thread's registers and to the list of those that wait
//! (`man 2 clone`, `man 2 futex`).
ghost use Rattle.std.specs.Prelude.{◌≡◌, ◌<◌, if◌then◌else◌};
ghost use Rattle.plain_process.specs.Put.{added_thread, added_by, made_as, made_by};
ghost use Rattle.plain_process.specs.Registers as registers;
ghost use Rattle.plain_process.specs.Threads as words;
ghost use Rattle.call_table.specs.OfSysAbi.Flags.{has_flag};

use crate::regs::Regs;
use crate::user_part::Waiter;
use call_table::Request;
use call_table::sys_abi::flags::{CLONE_CHILD_CLEARTID, CLONE_SETTLS};
use call_table::sys_abi::{CloneForm, Reply, clone_form};

/// The return address, the stack pointer and the thread pointer, and the first three arguments of a call
/// (RISC-V ELF psABI, chapter 1).
pub(crate) const RA: usize = 1;

pub(crate) const SP: usize = 2;

const TP: usize = 4;

pub(crate) const A0: usize = 10;

pub(crate) const A1: usize = 11;

pub(crate) const A2: usize = 12;

/// The registers with this word in one of them, which is not x0.
pub(crate) fn with_reg(regs: Regs, index: usize, value: u32) -> Regs
    requires written { 0 < index }
    requires place { index < 32 }
    ensures { result ≡ registers.with_reg regs index value }
{
    let mut after = regs;
    after.x[index] = value;
    after
}

fn with_reg_if(is_wanted: bool, regs: Regs, index: usize, value: u32) -> Regs
    requires written { 0 < index }
    requires place { index < 32 }
    ensures { result ≡ words.with_reg_if is_wanted regs index value }
{
    if is_wanted {
        with_reg(regs, index, value)
    } else {
        regs
    }
}

/// The registers at the next instruction.
pub(crate) fn at_next(regs: Regs) -> Regs
    ensures { result ≡ registers.at_pc regs (registers.next_pc regs) }
{
    let mut after = regs;
    after.pc = regs.pc.wrapping_add(4);
    after
}

/// The registers after a call that answers this word: it is in a0, and the thread goes on after the call.
pub fn after_call(regs: Regs, value: u32) -> Regs
    ensures { result ≡ registers.at_pc (registers.with_reg regs registers.A0 value) (registers.next_pc regs) }
{
    at_next(with_reg(regs, A0, value))
}

/// The registers of the thread that a clone makes, from those of its caller after the call.
pub fn new_regs(regs: Regs, flags: u32, stack: u32, tls: u32) -> Regs
    ensures { result ≡ words.new_regs regs flags stack tls }
{
    let on_stack = with_reg_if(stack != 0, regs, SP, stack);
    let has_pointer = flags / CLONE_SETTLS % 2 == 1;
    with_reg(with_reg_if(has_pointer, on_stack, TP, tls), A0, 0)
}

/// The word that the end of the thread which a clone makes is to clear, 0 for none.
pub fn new_clear_tid(flags: u32, child_tid: u32) -> u32
    ensures { result ≡ (if has_flag flags CLONE_CHILD_CLEARTID then child_tid else 0) }
{
    if flags / CLONE_CHILD_CLEARTID % 2 == 1 {
        child_tid
    } else {
        0
    }
}

/// Who has waited longest on the word at an address.
pub fn first_waiter(waiters: &[Waiter], address: u32) -> Option<Waiter>
    ensures { result ≡ words.first_waiter address waiters.now }
{
    waiters
        .iter()
        .copied()
        .find(|waiter| waiter.address == address)
}

/// The thread waits no more. Takes no memory.
pub fn remove_waiter(waiters: &mut Vec<Waiter>, t: u32)
    ensures { waiters.new.items ≡ words.without_waiter t waiters.old.items }
{
    waiters.retain(|waiter| waiter.tid != t);
}

/// The number of the thread that an answer adds: that which a clone of a thread answers.
#[tactic(auto, unfolding(crate::specs::Put::added_thread))]
pub fn added_thread(request: &Request, reply: Reply) -> Option<u32>
    ensures { result ≡ added_thread request.now reply }
{
    match *request {
        Request::Clone { flags, .. } => added_by(reply, clone_form(flags)),
        _ => None,
    }
}

fn added_by(reply: Reply, form: Option<CloneForm>) -> Option<u32>
    ensures { result ≡ added_by reply form }
{
    match (reply, form) {
        (Reply::Value(new), Some(CloneForm::Thread)) => Some(new),
        _ => None,
    }
}

/// The number of the child that an answer makes: that which a fork answers.
#[tactic(auto, unfolding(crate::specs::Put::made_by))]
pub fn made_by(request: &Request, reply: Reply) -> Option<u32>
    ensures { result ≡ made_by request.now reply }
{
    match *request {
        Request::Clone { flags, .. } => made_as(reply, clone_form(flags)),
        _ => None,
    }
}

fn made_as(reply: Reply, form: Option<CloneForm>) -> Option<u32>
    ensures { result ≡ made_as reply form }
{
    match (reply, form) {
        (Reply::Value(new), Some(CloneForm::Fork)) => Some(new),
        _ => None,
    }
}
