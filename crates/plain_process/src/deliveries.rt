//! What the delivery of a signal comes to, and what it does to a thread's registers and its mask
//! (`man 7 signal`, `man 2 sigaction`).
ghost use Rattle.std.specs.Prelude.{◌≡◌, ℕ, ◌-◌, Bool, length, slice_get, unwrap_or};
ghost use Rattle.plain_process.specs.Deliveries as words;
ghost use Rattle.plain_process.specs.Start.{default_action};
ghost use Rattle.plain_process.specs.declared.user_part.UserPart.{UserPart};
ghost use Rattle.plain_process.specs.declared.user_part.ThreadPart.{ThreadPart};

use crate::regs::Regs;
use crate::threads::{A0, A1, A2, RA, SP, after_call, with_reg};
use crate::user_part::SignalAction;
use call_table::Delivered;
use call_table::sys_abi::Signal;
use call_table::sys_abi::errors::EINTR;
use call_table::sys_abi::flags::{SA_NODEFER, SA_RESTART};
use call_table::sys_abi::signals::{
    SIGCHLD, SIGKILL, SIGSEGV, SIGURG, SIGWINCH, has_signal, with_signal,
};

/// How many contexts a thread saves at most.
pub const CONTEXT_LIMIT: usize = 64;

/// The page to which a handler returns starts here.
const RETURN_ADDRESS: u32 = 0x8000_0000;

const DEFAULT_ACTION: SignalAction = SignalAction {
    handler: 0,
    flags: 0,
    mask: 0,
};

/// What a process with these actions does on a signal: the default where there is none of its number.
pub fn action_on(actions: &[SignalAction], s: Signal) -> SignalAction
    ensures { result ≡ unwrap_or (slice_get actions.now (s.0 - 1)) default_action }
{
    actions
        .get(s.0.saturating_sub(1) as usize)
        .copied()
        .unwrap_or(DEFAULT_ACTION)
}

/// Whether the action leaves the signal without effect.
pub fn is_ignored(action: SignalAction, s: Signal) -> bool
    ensures { result ≡ words.is_ignored action s.0 }
{
    action.handler == 1
        || (action.handler == 0 && (s.0 == SIGCHLD || s.0 == SIGURG || s.0 == SIGWINCH))
}

/// The registers that a handler interrupts: a call that isn't ready answers EINTR, unless it is to begin
/// again.
pub fn interrupted(is_unready: bool, flags: u32, regs: Regs) -> Regs
    ensures { result ≡ words.interrupted is_unready flags regs }
{
    if is_unready && flags / SA_RESTART % 2 != 1 {
        after_call(regs, u32::from(EINTR).wrapping_neg())
    } else {
        regs
    }
}

/// The registers at a handler's start.
pub fn handler_regs(regs: Regs, s: Signal, handler: u32) -> Regs
    ensures { result ≡ words.handler_regs regs s.0 handler }
{
    let aligned = with_reg(regs, SP, regs.x[SP] / 16 * 16);
    let returning = with_reg(aligned, RA, RETURN_ADDRESS);
    let mut entered = with_reg(with_reg(with_reg(returning, A0, s.0), A1, 0), A2, 0);
    entered.pc = handler;
    entered
}

/// The mask while a handler runs.
pub fn handler_mask(mask: u32, action: SignalAction, s: Signal) -> u32
    ensures { result ≡ words.handler_mask mask action s.0 }
{
    let blocked = mask | action.mask;
    if action.flags / SA_NODEFER % 2 == 1 {
        blocked
    } else {
        with_signal(blocked, s)
    }
}

/// What the delivery of a signal comes to, for a thread with this mask and so many saved contexts, that traps
/// with the signal or doesn't.
pub fn decided(
    action: SignalAction,
    s: Signal,
    mask: u32,
    context_count: usize,
    is_trap: bool,
) -> Delivered
    ensures { (user : UserPart) (t : ℕ) (thread : ThreadPart) (is_unready : Bool) → thread.mask ≡ mask → length thread.contexts ≡ context_count
        → words.delivered_told (words.delivery user t thread action s.0 is_trap is_unready) ≡ result }
{
    let is_passed_over = is_ignored(action, s);
    if s.0 == SIGKILL || (is_trap && (has_signal(mask, s) || is_passed_over)) {
        return Delivered::Kills(s.0);
    }
    if is_passed_over {
        return Delivered::Ignored;
    }
    if action.handler == 0 {
        return Delivered::Kills(s.0);
    }
    if context_count < CONTEXT_LIMIT {
        return Delivered::Entered;
    }
    Delivered::Kills(SIGSEGV)
}
