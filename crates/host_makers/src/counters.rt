//! Event counters (`man 2 eventfd`).
ghost use Rattle.std.specs.Prelude.{◌≡◌, List, IfOk, OnErr};
ghost use Rattle.views.specs.Numbers.{Byte};
ghost use Rattle.plain_machine.specs.Rows.Counters as rows;
ghost use Rattle.host_tables.specs.Conditions.{IsNewDesc};
ghost use Rattle.host_tables.specs.Requests.{next_desc};
ghost use Rattle.host_tables.specs.Serves.{Through, Serves, ByNumber, same};

use crate::options::{are_making_flags, has_cloexec, status_flags};
use crate::placing::{new_desc, place};
use fd_book::Object;
use host_tables::{Attempt, Kernel, RowResult};
use sys_abi::errors::{EINVAL, EMFILE, ENFILE};
use sys_abi::flags::O_RDWR;
use sys_abi::{DescId, Errno, RealPid};

/// eventfd2 (`man 2 eventfd`). `id` is the number of the new description, None where the process has none
/// left to give out.
pub fn eventfd2(
    kernel: &mut Kernel,
    who: RealPid,
    value: u32,
    flags: u32,
    id: Option<DescId>,
) -> RowResult
    requires { IsNewDesc kernel.old.book id }
    ensures ok { IfOk result (λ a. Through kernel.old who (λ g k p. (x : List Byte) → id ≡ next_desc k p
        → Serves ByNumber same g kernel.old kernel.new x x a (rows.eventfd2_row k p value flags))) }
    ensures err { OnErr result (kernel.new ≡ kernel.old) }
{
    if !are_making_flags(flags) {
        return Ok(Attempt::Fails(Errno(EINVAL)));
    }
    let Some(id) = id else {
        return Ok(Attempt::Fails(Errno(ENFILE)));
    };
    let counter = Object::Counter {
        value: value as u64,
    };
    let desc = new_desc(counter, status_flags(O_RDWR, flags));
    match place(&mut kernel.book, who, id, desc, has_cloexec(flags))? {
        Some(fd) => Ok(Attempt::Gives(fd.0)),
        None => Ok(Attempt::Fails(Errno(EMFILE))),
    }
}
