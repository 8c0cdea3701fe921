//! A write to a channel (`man 2 write`, `man 7 pipe`).
ghost use Rattle.std.specs.Prelude.{◌≡◌, ◌≢◌, ◌<◌, length, false, None, Some};
ghost use Rattle.std.specs.FinMap as map;
ghost use Rattle.views.specs.Numbers.{ThreadNumber};
ghost use Rattle.plain_machine.specs.declared.kernel.PlainKernel.{PlainKernel};
ghost use Rattle.plain_machine.specs.Channels.{direction_at};
ghost use Rattle.plain_machine.specs.Transfers.Streams as streams;
ghost use Rattle.plain_tables.specs.Objects.{dir};
ghost use Rattle.host_processes.specs.OfHostTables.Conditions.{IsAsking};
ghost use Rattle.host_processes.specs.OfHostTables.Numbers.{real};
ghost use Rattle.host_processes.specs.OfHostTables.Serves.{Through, Serves, ByNumber, same};
ghost use Rattle.host_processes.specs.OfHostTables.Stands.{Given, Stands};
ghost use Rattle.host_streams.specs.Lanes as words;

use crate::broken::broken_pipe;
use crate::lanes::{is_broken_at, standing_at};
use host_processes::{Attempt, Kernel};
use sys_abi::errors::EPIPE;
use sys_abi::{ConnId, Dir, Errno, RealPid, Transfer};
use wire_net::Net;

/// A direction holds at most so many bytes.
const DIRECTION_LIMIT: u32 = 65_536;

/// Whether a write of so many bytes, at the end of that side, has an answer yet.
pub fn is_sendable(kernel: &Kernel, conn: ConnId, side: u8, count: u32) -> bool
    ensures { (g : Given) (k : PlainKernel) → Stands g None kernel.now k
        → result ≡ streams.is_sendable count (direction_at k (dir conn side)) }
{
    if side > 1 {
        return true;
    }
    can_send(&kernel.net, Dir { conn, side }, count)
}

fn can_send(net: &Net, to: Dir, count: u32) -> bool
    requires { to.side < 2 }
    ensures { result ≡ words.can_send net.now to count }
{
    if standing_at(net, to) < DIRECTION_LIMIT {
        return true;
    }
    let is_there = net.has(to.conn);
    let is_broken = is_broken_at(net, to);
    !is_there || count == 0 || is_broken
}

/// A write of the bytes in the transfer, by a thread that asks for so many, at the end of that side
/// (`man 2 write`). Takes no memory.
pub fn write_stream(
    kernel: &mut Kernel,
    who: RealPid,
    thread: u32,
    conn: ConnId,
    side: u8,
    count: u32,
    transfer: &Transfer,
) -> Attempt
    requires { IsAsking kernel.old.procs who thread }
    ensures row { Through kernel.old who (λ g k p. (t : ThreadNumber)
        → map.get g.pids t ≡ Some (real who.node thread)
        → Serves ByNumber same g kernel.old kernel.new transfer.now transfer.now result
        (streams.write_stream k p t (dir conn side) count transfer.now)) }
    ensures nodes { kernel.new.net.nodes ≡ kernel.old.net.nodes }
    ensures next { kernel.new.procs.next ≡ kernel.old.procs.next }
{
    if side > 1 {
        return Attempt::Fails(Errno(EPIPE));
    }
    let to = Dir { conn, side };
    if count == 0 {
        return unsent(kernel, who, thread, to, count, transfer);
    }
    match kernel.net.send(to, transfer.as_slice()) {
        Ok(sent) => Attempt::Gives(sent),
        Err(_) => unsent(kernel, who, thread, to, count, transfer),
    }
}

/// A write of which the direction takes no byte: none is asked for, or it is not there, or nothing more is
/// sent, or nobody reads, or there is no room.
fn unsent(
    kernel: &mut Kernel,
    who: RealPid,
    thread: u32,
    to: Dir,
    count: u32,
    transfer: &Transfer,
) -> Attempt
    requires asking { IsAsking kernel.old.procs who thread }
    requires near { to.side < 2 }
    requires refused { count ≢ 0 → words.IsRefused kernel.old.net to (length transfer.now) }
    ensures row { Through kernel.old who (λ g k p. (t : ThreadNumber)
        → map.get g.pids t ≡ Some (real who.node thread)
        → Serves ByNumber same g kernel.old kernel.new transfer.now transfer.now result
        (streams.write_stream k p t to count transfer.now)) }
    ensures nodes { kernel.new.net.nodes ≡ kernel.old.net.nodes }
    ensures next { kernel.new.procs.next ≡ kernel.old.procs.next }
{
    let _ = transfer;
    if !kernel.net.has(to.conn) {
        return Attempt::Fails(Errno(EPIPE));
    }
    if count == 0 {
        return Attempt::Gives(0);
    }
    if is_broken_at(&kernel.net, to) {
        return broken_pipe(kernel, who, thread);
    }
    Attempt::Gives(0)
}
