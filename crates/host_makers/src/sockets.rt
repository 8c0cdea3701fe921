//! Sockets (`man 2 socket`).
ghost use Rattle.std.specs.Prelude.{◌≡◌, ◌==◌, ◌&&◌, ◌||◌, List, IfOk, OnErr};
ghost use Rattle.views.specs.Numbers.{Byte};
ghost use Rattle.sys_abi.specs.declared.flags.TheConstants.{O_NONBLOCK};
ghost use Rattle.sys_abi.specs.Flags.{has_flag};
ghost use Rattle.plain_machine.specs.Addresses.{address_at};
ghost use Rattle.plain_machine.specs.Kernel.{host_of};
ghost use Rattle.plain_machine.specs.Rows.Sockets as rows;
ghost use Rattle.plain_machine.specs.SocketWords as words;
ghost use Rattle.host_tables.specs.Conditions.{IsNewDesc};
ghost use Rattle.host_tables.specs.Requests.{next_desc};
ghost use Rattle.host_tables.specs.Serves.{Through, Serves, ByNumber, with_new_name};

use crate::options::has_cloexec;
use crate::placing::{new_desc, place};
use fd_book::Object;
use host_tables::{Attempt, Kernel, RowResult};
use sys_abi::errors::{EAFNOSUPPORT, EINVAL, EMFILE, ENFILE};
use sys_abi::flags::{O_CLOEXEC, O_NONBLOCK, O_RDWR};
use sys_abi::{DescId, Errno, RealPid};

/// The family of internet sockets.
const AF_INET: u32 = 2;

/// The protocol of internet streams (TCP), which may be named or left to be picked by 0.
const STREAM_PROTOCOL: u32 = 6;

/// socket (`man 2 socket`). `id` is the number of the new description, None where the process has none left
/// to give out.
pub fn socket(
    kernel: &mut Kernel,
    who: RealPid,
    domain: u32,
    socket_type: u32,
    protocol: u32,
    id: Option<DescId>,
) -> RowResult
    requires { IsNewDesc kernel.old.book id }
    ensures ok { IfOk result (λ a. Through kernel.old who (λ g k p. (x : List Byte) → id ≡ next_desc k p
        → Serves ByNumber (λ n m given. with_new_name given id (address_at (host_of k p) 0)) g
        kernel.old kernel.new x x a (rows.socket_row k p domain socket_type protocol))) }
    ensures err { OnErr result (kernel.new ≡ kernel.old) }
{
    if domain != AF_INET {
        return Ok(Attempt::Fails(Errno(EAFNOSUPPORT)));
    }
    if !is_internet_stream(socket_type, protocol) {
        return Ok(Attempt::Fails(Errno(EINVAL)));
    }
    let Some(id) = id else {
        return Ok(Attempt::Fails(Errno(ENFILE)));
    };
    let desc = new_desc(Object::Socket, socket_flags(socket_type));
    match place(&mut kernel.book, who, id, desc, has_cloexec(socket_type))? {
        Some(fd) => Ok(Attempt::Gives(fd.0)),
        None => Ok(Attempt::Fails(Errno(EMFILE))),
    }
}

fn is_internet_stream(socket_type: u32, protocol: u32) -> bool
    ensures { result ≡ (words.is_stream_type socket_type && ((protocol == 0) || (protocol == 6))) }
{
    is_stream_type(socket_type) && (protocol == 0 || protocol == STREAM_PROTOCOL)
}

/// Streams, and no other bits than those of a new description.
fn is_stream_type(socket_type: u32) -> bool
    ensures { result ≡ words.is_stream_type socket_type }
{
    socket_type % 16 == 1 && socket_type & (1 + O_NONBLOCK + O_CLOEXEC) == socket_type
}

fn socket_flags(socket_type: u32) -> u32
    ensures { result ≡ words.socket_flags (has_flag socket_type O_NONBLOCK) }
{
    if socket_type / O_NONBLOCK % 2 == 1 {
        O_RDWR + O_NONBLOCK
    } else {
        O_RDWR
    }
}
