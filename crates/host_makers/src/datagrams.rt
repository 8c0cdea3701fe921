//! A new datagram pair.
ghost use Rattle.std.specs.Prelude.{◌≡◌, Some, IfOk, OnErr};
ghost use Rattle.host_tables.specs.Conditions.{AreNewEnds};
ghost use Rattle.host_tables.specs.Requests.{next_pair};
ghost use Rattle.host_tables.specs.Serves.{Through, Serves, ByNumber, same};
ghost use Rattle.host_makers.specs.Ends as words;

use crate::channels::put_numbers;
use crate::placing::{TwoEnds, close_two, new_desc, place_two};
use fd_book::Object;
use host_tables::{Attempt, Kernel, PairIds, RowResult};
use std::alloc::AllocError;
use sys_abi::errors::EMFILE;
use sys_abi::{Errno, RealPid, Transfer};

/// Makes a datagram pair, and answers the descriptors of its ends in the transfer.
pub(crate) fn make_datagrams(
    kernel: &mut Kernel,
    who: RealPid,
    ids: PairIds,
    cloexec: bool,
    flags: u32,
    transfer: &mut Transfer,
) -> RowResult
    requires { AreNewEnds kernel.old.book ids.first ids.second }
    ensures ok { IfOk result (λ a. Through kernel.old who (λ g k p. Some ids ≡ next_pair k p
        → Serves ByNumber same g kernel.old kernel.new transfer.old transfer.new a
        (words.datagram_row k p cloexec flags))) }
    ensures err { OnErr result (kernel.new ≡ kernel.old) }
    ensures kept { OnErr result (transfer.new ≡ transfer.old) }
{
    let Some(queue) = kernel.datagrams.lowest_number() else {
        return Err(AllocError);
    };
    kernel.book.whole();
    let ends = datagram_ends(queue, ids, cloexec, flags);
    let Some(fds) = place_two(&mut kernel.book, who, ends)? else {
        return Ok(Attempt::Fails(Errno(EMFILE)));
    };
    let Ok(()) = kernel.datagrams.insert(queue, ids.first, ids.second) else {
        close_two(&mut kernel.book, who, fds);
        return Err(AllocError);
    };
    put_numbers(transfer, fds);
    Ok(Attempt::Gives(0))
}

fn datagram_ends(queue: u32, ids: PairIds, cloexec: bool, flags: u32) -> TwoEnds
    ensures { result ≡ words.datagram_ends queue ids cloexec flags }
{
    TwoEnds {
        ids,
        first: new_desc(Object::Datagram { queue, side: 0 }, flags),
        second: new_desc(Object::Datagram { queue, side: 1 }, flags),
        cloexec,
    }
}
