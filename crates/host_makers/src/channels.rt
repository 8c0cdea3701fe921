//! A new channel with both its ends.
ghost use Rattle.std.specs.Prelude.{◌≡◌, ◌++◌, ℕ, None, Some, IfOk, OnErr};
ghost use Rattle.std.specs.FinMap as map;
ghost use Rattle.plain_process.specs.Memory.{low_bytes};
ghost use Rattle.host_tables.specs.Conditions.{AreNewChannel};
ghost use Rattle.host_tables.specs.Network.{kind_of};
ghost use Rattle.host_tables.specs.Requests.{next_channel};
ghost use Rattle.host_tables.specs.Serves.{Through, Serves, ByNumber};
ghost use Rattle.host_tables.specs.Stands.{open_conn, with_conn};
ghost use Rattle.host_makers.specs.Ends as words;

use crate::placing::{TwoEnds, close_two, new_desc, place_two};
use fd_book::{Desc, Object};
use host_tables::{Attempt, ChannelIds, Kernel, PairIds, RowResult};
use std::alloc::AllocError;
use sys_abi::errors::{EMFILE, ENFILE};
use sys_abi::{Errno, Fd, RealPid, Transfer};

/// An end of a channel that is to be made: its side, and the flags of its description.
#[derive(Clone, Copy)]
pub struct StreamEnd {
    pub side: u8,
    pub flags: u32,
}

/// Makes a channel with both its ends, and answers their descriptors in the transfer.
pub(crate) fn make_channel(
    kernel: &mut Kernel,
    who: RealPid,
    ids: ChannelIds,
    cloexec: bool,
    one: StreamEnd,
    other: StreamEnd,
    transfer: &mut Transfer,
) -> RowResult
    requires { AreNewChannel kernel.old.book kernel.old.net (Some ids) }
    ensures ok { IfOk result (λ a. Through kernel.old who (λ g k p. (kind : ℕ) → Some ids ≡ next_channel k p
        → Serves ByNumber (λ n m given. with_conn given (open_conn ids.channel kind None None)) g
        kernel.old kernel.new transfer.old transfer.new a
        (words.channel_row k p (kind_of kind) cloexec one other))) }
    ensures err { OnErr result (kernel.new ≡ kernel.old) }
    ensures kept { OnErr result (transfer.new ≡ transfer.old) }
{
    if kernel.net.is_full() {
        return Ok(Attempt::Fails(Errno(ENFILE)));
    }
    kernel.book.whole();
    let ends = channel_ends(ids, cloexec, one, other);
    let Some(fds) = place_two(&mut kernel.book, who, ends)? else {
        return Ok(Attempt::Fails(Errno(EMFILE)));
    };
    let Ok(()) = kernel.net.pair(ids.channel) else {
        close_two(&mut kernel.book, who, fds);
        return Err(AllocError);
    };
    put_numbers(transfer, fds);
    Ok(Attempt::Gives(0))
}

fn channel_ends(ids: ChannelIds, cloexec: bool, one: StreamEnd, other: StreamEnd) -> TwoEnds
    ensures { result ≡ words.channel_ends ids cloexec one other }
{
    TwoEnds {
        ids: PairIds {
            first: ids.first,
            second: ids.second,
        },
        first: stream_desc(ids, one),
        second: stream_desc(ids, other),
        cloexec,
    }
}

fn stream_desc(ids: ChannelIds, end: StreamEnd) -> Desc
    ensures { result ≡ words.stream_desc ids.channel end }
{
    let stream = Object::Stream {
        conn: ids.channel,
        side: end.side,
    };
    new_desc(stream, end.flags)
}

/// The numbers of two descriptors, 4 bytes each, in the place of what the transfer holds. Takes no memory.
pub(crate) fn put_numbers(transfer: &mut Transfer, fds: (Fd, Fd))
    ensures { transfer.new ≡ low_bytes 4 fds.0.0 ++ low_bytes 4 fds.1.0 }
{
    let (first, second) = fds;
    transfer.clear();
    transfer.put(&first.0.to_le_bytes());
    transfer.put(&second.0.to_le_bytes());
}
