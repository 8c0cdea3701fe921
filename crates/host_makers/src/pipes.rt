//! Pipes (`man 2 pipe`).
ghost use Rattle.std.specs.Prelude.{◌≡◌, IfOk, OnErr};
ghost use Rattle.plain_machine.specs.Rows.Channels as rows;
ghost use Rattle.host_tables.specs.Conditions.{AreNewChannel};
ghost use Rattle.host_tables.specs.Requests.{next_channel};
ghost use Rattle.host_tables.specs.Serves.{Through, Serves, ByNumber, PIPE, with_new_channel};

use crate::channels::{StreamEnd, make_channel};
use crate::options::{are_making_flags, has_cloexec, status_flags};
use host_tables::{Attempt, ChannelIds, Kernel, RowResult};
use sys_abi::errors::{EINVAL, ENFILE};
use sys_abi::flags::O_WRONLY;
use sys_abi::{Errno, RealPid, Transfer};

/// pipe2 (`man 2 pipe`). `ids` are the numbers of the new channel and its ends, None where the process has
/// none left to give out. The descriptors stand in the transfer then, that of the reader first.
pub fn pipe2(
    kernel: &mut Kernel,
    who: RealPid,
    flags: u32,
    ids: Option<ChannelIds>,
    transfer: &mut Transfer,
) -> RowResult
    requires { AreNewChannel kernel.old.book kernel.old.net ids }
    ensures ok { IfOk result (λ a. Through kernel.old who (λ g k p. ids ≡ next_channel k p
        → Serves ByNumber (λ n m given. with_new_channel given ids PIPE) g
        kernel.old kernel.new transfer.old transfer.new a (rows.pipe2_row k p flags))) }
    ensures err { OnErr result (kernel.new ≡ kernel.old) }
    ensures kept { OnErr result (transfer.new ≡ transfer.old) }
{
    if !are_making_flags(flags) {
        return Ok(Attempt::Fails(Errno(EINVAL)));
    }
    let Some(ids) = ids else {
        return Ok(Attempt::Fails(Errno(ENFILE)));
    };
    let reader = StreamEnd {
        side: 1,
        flags: status_flags(0, flags),
    };
    let writer = StreamEnd {
        side: 0,
        flags: status_flags(O_WRONLY, flags),
    };
    make_channel(
        kernel,
        who,
        ids,
        has_cloexec(flags),
        reader,
        writer,
        transfer,
    )
}
