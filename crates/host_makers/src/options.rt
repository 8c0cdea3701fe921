//! The flags with which descriptions are made.
ghost use Rattle.std.specs.Prelude.{◌≡◌, ◌<◌};
ghost use Rattle.sys_abi.specs.declared.flags.TheConstants.{O_CLOEXEC};
ghost use Rattle.sys_abi.specs.Flags.{has_flag};
ghost use Rattle.plain_machine.specs.Making as words;

use sys_abi::flags::{O_CLOEXEC, O_NONBLOCK};

/// The flags that a call which makes descriptors takes.
const MAKING_FLAGS: u32 = O_NONBLOCK + O_CLOEXEC;

pub(crate) fn are_making_flags(flags: u32) -> bool
    ensures { result ≡ words.are_making_flags flags }
{
    flags & MAKING_FLAGS == flags
}

pub(crate) fn has_cloexec(flags: u32) -> bool
    ensures { result ≡ has_flag flags O_CLOEXEC }
{
    flags / O_CLOEXEC % 2 == 1
}

/// An access mode, with O_NONBLOCK where it is among the flags.
pub(crate) fn status_flags(mode: u32, flags: u32) -> u32
    requires { mode < 3 }
    ensures { result ≡ words.end_flags mode flags }
{
    if flags / O_NONBLOCK % 2 == 1 {
        mode + O_NONBLOCK
    } else {
        mode
    }
}
