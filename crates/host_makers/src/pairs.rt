//! Pairs of sockets (`man 2 socketpair`).
ghost use Rattle.std.specs.Prelude.{◌≡◌, ◌==◌, ◌&&◌, ◌%◌, IfOk, OnErr, if◌then◌else◌};
ghost use Rattle.plain_machine.specs.Rows.Channels as rows;
ghost use Rattle.host_tables.specs.Conditions.{AreNewChannel, AreNewPair};
ghost use Rattle.host_tables.specs.Requests.{next_channel, next_pair};
ghost use Rattle.host_tables.specs.Serves.{Through, Serves, ByNumber, PAIR, same, with_new_channel};

use crate::channels::{StreamEnd, make_channel};
use crate::datagrams::make_datagrams;
use crate::options::{are_making_flags, has_cloexec, status_flags};
use host_tables::{Attempt, ChannelIds, Kernel, PairIds, RowResult};
use sys_abi::errors::{EAFNOSUPPORT, EINVAL, ENFILE, EOPNOTSUPP};
use sys_abi::flags::O_RDWR;
use sys_abi::{Errno, RealPid, Transfer};

/// The families of local sockets and of internet sockets.
const AF_UNIX: u32 = 1;

const AF_INET: u32 = 2;

/// The types of pairs.
const STREAMS: u32 = 1;

const DATAGRAMS: u32 = 2;

/// socketpair (`man 2 socketpair`). `streams` are the numbers of a new channel and its ends, and `datagrams`
/// those of the ends of a new datagram pair, None where the process has none left to give out. The
/// descriptors stand in the transfer then.
pub fn socketpair(
    kernel: &mut Kernel,
    who: RealPid,
    domain: u32,
    socket_type: u32,
    protocol: u32,
    streams: Option<ChannelIds>,
    datagrams: Option<PairIds>,
    transfer: &mut Transfer,
) -> RowResult
    requires new_channel { AreNewChannel kernel.old.book kernel.old.net streams }
    requires new_pair { AreNewPair kernel.old.book datagrams }
    ensures ok { IfOk result (λ a. Through kernel.old who (λ g k p. streams ≡ next_channel k p
        → datagrams ≡ next_pair k p
        → Serves ByNumber
        (λ n m given. if socket_type % 16 == rows.STREAMS then with_new_channel given streams PAIR else given)
        g kernel.old kernel.new transfer.old transfer.new a
        (rows.socketpair_row k p domain socket_type protocol))) }
    ensures err { OnErr result (kernel.new ≡ kernel.old) }
    ensures kept { OnErr result (transfer.new ≡ transfer.old) }
{
    if domain == AF_INET {
        return Ok(Attempt::Fails(Errno(EOPNOTSUPP)));
    }
    if domain != AF_UNIX {
        return Ok(Attempt::Fails(Errno(EAFNOSUPPORT)));
    }
    if !is_pair(socket_type, protocol) {
        return Ok(Attempt::Fails(Errno(EINVAL)));
    }
    if socket_type % 16 == STREAMS {
        stream_pair(kernel, who, socket_type, streams, transfer)
    } else {
        datagram_pair(kernel, who, socket_type, datagrams, transfer)
    }
}

fn is_pair(socket_type: u32, protocol: u32) -> bool
    ensures { result ≡ (rows.is_pair_type socket_type && (protocol == 0)) }
{
    is_pair_type(socket_type) && protocol == 0
}

/// Streams or datagrams, with flags.
fn is_pair_type(socket_type: u32) -> bool
    ensures { result ≡ rows.is_pair_type socket_type }
{
    let kind = socket_type % 16;
    (kind == STREAMS || kind == DATAGRAMS) && are_making_flags(socket_type - kind)
}

fn stream_pair(
    kernel: &mut Kernel,
    who: RealPid,
    flags: u32,
    ids: Option<ChannelIds>,
    transfer: &mut Transfer,
) -> RowResult
    requires { AreNewChannel kernel.old.book kernel.old.net ids }
    ensures ok { IfOk result (λ a. Through kernel.old who (λ g k p. ids ≡ next_channel k p
        → Serves ByNumber (λ n m given. with_new_channel given ids PAIR) g
        kernel.old kernel.new transfer.old transfer.new a (rows.stream_pair k p flags))) }
    ensures err { OnErr result (kernel.new ≡ kernel.old) }
    ensures kept { OnErr result (transfer.new ≡ transfer.old) }
{
    let Some(ids) = ids else {
        return Ok(Attempt::Fails(Errno(ENFILE)));
    };
    let status = status_flags(O_RDWR, flags);
    let one = StreamEnd {
        side: 0,
        flags: status,
    };
    let other = StreamEnd {
        side: 1,
        flags: status,
    };
    make_channel(kernel, who, ids, has_cloexec(flags), one, other, transfer)
}

fn datagram_pair(
    kernel: &mut Kernel,
    who: RealPid,
    flags: u32,
    ids: Option<PairIds>,
    transfer: &mut Transfer,
) -> RowResult
    requires { AreNewPair kernel.old.book ids }
    ensures ok { IfOk result (λ a. Through kernel.old who (λ g k p. ids ≡ next_pair k p
        → Serves ByNumber same g kernel.old kernel.new transfer.old transfer.new a
        (rows.datagram_pair k p flags))) }
    ensures err { OnErr result (kernel.new ≡ kernel.old) }
    ensures kept { OnErr result (transfer.new ≡ transfer.old) }
{
    let Some(ids) = ids else {
        return Ok(Attempt::Fails(Errno(ENFILE)));
    };
    let status = status_flags(O_RDWR, flags);
    make_datagrams(kernel, who, ids, has_cloexec(flags), status, transfer)
}
