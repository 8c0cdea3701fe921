//! Who may read and write, and what a call answers where it would wait.
ghost use Rattle.std.specs.Prelude.{◌≡◌};
ghost use Rattle.plain_machine.specs.Transfers.Answers as answers;
ghost use Rattle.plain_tables.specs.Tables as tables;
ghost use Rattle.sys_abi.specs.Flags.{has_flag};
ghost use Rattle.sys_abi.specs.declared.flags.TheConstants.{O_NONBLOCK};
ghost use Rattle.host_kernel.specs.Access.{unready};

use host_tables::Attempt;
use sys_abi::Errno;
use sys_abi::errors::EAGAIN;
use sys_abi::flags::O_NONBLOCK;

/// Whether a description's access mode lets it be read from (`man 2 open`).
pub(crate) fn may_read(flags: u32) -> bool
    ensures { result ≡ answers.may_read flags }
{
    flags % 4 == 0 || flags % 4 == 2
}

/// Whether a description's access mode lets it be written to (`man 2 open`).
pub(crate) fn may_write(flags: u32) -> bool
    ensures { result ≡ tables.may_write flags }
{
    flags % 4 == 1 || flags % 4 == 2
}

/// Whether a call on the description fails in place of waiting (`man 2 open`).
pub(crate) fn is_nonblocking(flags: u32) -> bool
    ensures { result ≡ has_flag flags O_NONBLOCK }
{
    flags / O_NONBLOCK % 2 == 1
}

/// What a call answers on a description that isn't ready.
pub(crate) fn not_ready(flags: u32) -> Attempt
    ensures { result ≡ unready (has_flag flags O_NONBLOCK) }
{
    if is_nonblocking(flags) {
        return Attempt::Fails(Errno(EAGAIN));
    }
    Attempt::NotReady
}
