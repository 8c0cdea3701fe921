//! Signals (`man 7 signal`), and sets of them: bit s - 1 stands for signal s, from 1 to 31.
ghost use Rattle.std.specs.Prelude.{◌≡◌, option_map};
ghost use Rattle.sys_abi.specs.Signals as signals;

use crate::identity::Signal;

/// An instruction that no row of the table matches.
pub const SIGILL: u32 = 4;

/// EBREAK.
pub const SIGTRAP: u32 = 5;

/// A jump to an address that is no multiple of 4.
pub const SIGBUS: u32 = 7;

/// No handler takes it, and no mask holds it.
pub const SIGKILL: u32 = 9;

/// An access without the page or the right; and the 65th saved context.
pub const SIGSEGV: u32 = 11;

/// A write that nobody will read.
pub const SIGPIPE: u32 = 13;

/// A child has ended.
pub const SIGCHLD: u32 = 17;

/// No handler takes it, and no mask holds it.
pub const SIGSTOP: u32 = 19;

pub const SIGURG: u32 = 23;

pub const SIGWINCH: u32 = 28;

/// Whether it is the number of a signal.
pub fn is_signal(s: u32) -> bool
    ensures { result ≡ signals.is_signal s }
{
    1 <= s && s <= 31
}

/// The set of this signal alone, empty where it is none.
pub fn bit_of(s: Signal) -> u32
    ensures { result ≡ signals.bit_of s.0 }
{
    if s.0 < 1 || s.0 > 31 {
        return 0;
    }
    1 << (s.0 - 1)
}

/// Whether the set has the signal.
pub fn has_signal(set: u32, s: Signal) -> bool
    ensures { result ≡ signals.has_signal set s.0 }
{
    set & bit_of(s) != 0
}

/// The set and the signal.
pub fn with_signal(set: u32, s: Signal) -> u32
    ensures { result ≡ signals.with_signal set s.0 }
{
    set | bit_of(s)
}

/// The set without the signal.
pub fn without_signal(set: u32, s: Signal) -> u32
    ensures { result ≡ signals.without_signal set s.0 }
{
    without_signals(set, bit_of(s))
}

/// The set without the signals of the other one.
pub fn without_signals(set: u32, others: u32) -> u32
    ensures { result ≡ signals.without_signals set others }
{
    set ^ (set & others)
}

/// What of a word a signal mask may hold: signals 1 to 31 but SIGKILL and SIGSTOP (`man 2 sigprocmask`).
pub fn blockable(word: u32) -> u32
    ensures { result ≡ signals.blockable word }
{
    without_signal(
        without_signal(word % 0x8000_0000, Signal(SIGKILL)),
        Signal(SIGSTOP),
    )
}

/// The least signal of the set, None where it is empty.
pub fn lowest_signal(set: u32) -> Option<Signal>
    ensures { option_map (λ s. s.0) result ≡ signals.lowest_signal set }
{
    for s in 1..32 {
        if has_signal(set, Signal(s)) {
            return Some(Signal(s));
        }
    }
    None
}
