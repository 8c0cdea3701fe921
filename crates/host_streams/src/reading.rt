//! A read of a channel (`man 2 read`, `man 7 pipe`).
ghost use Rattle.std.specs.Prelude.{◌≡◌, ◌<◌, ◌-◌, false, None};
ghost use Rattle.plain_machine.specs.declared.kernel.PlainKernel.{PlainKernel};
ghost use Rattle.plain_machine.specs.Channels.{direction_at};
ghost use Rattle.plain_machine.specs.Transfers.Streams as streams;
ghost use Rattle.plain_tables.specs.Objects.{dir};
ghost use Rattle.host_processes.specs.OfHostTables.Serves.{Serves, ByNumber, same};
ghost use Rattle.host_processes.specs.OfHostTables.Stands.{Given, Stands};
ghost use Rattle.host_streams.specs.Lanes as words;

use crate::lanes::{is_broken_at, received_at, standing_at};
use host_processes::{Attempt, Kernel};
use plain_transfers::moving::across;
use sys_abi::errors::ENOTCONN;
use sys_abi::{ConnId, Dir, Errno, Transfer};
use wire_net::Net;

/// Whether a read of so many bytes, at the end of that side, has an answer yet.
pub fn is_receivable(kernel: &Kernel, conn: ConnId, side: u8, count: u32) -> bool
    ensures { (g : Given) (k : PlainKernel) → Stands g None kernel.now k
        → result ≡ streams.is_receivable count (direction_at k (dir conn (1 - side))) }
{
    let from = Dir {
        conn,
        side: across(side),
    };
    can_receive(&kernel.net, from, count)
}

fn can_receive(net: &Net, from: Dir, count: u32) -> bool
    requires { from.side < 2 }
    ensures { result ≡ words.can_receive net.now from count }
{
    if received_at(net, from) > 0 {
        return true;
    }
    let is_there = net.has(from.conn);
    let is_broken = is_broken_at(net, from);
    let standing = standing_at(net, from);
    !is_there || count == 0 || is_broken && standing == 0
}

/// A read of at most so many bytes, at the end of that side (`man 2 read`). Takes no memory.
pub fn read_stream(
    kernel: &mut Kernel,
    conn: ConnId,
    side: u8,
    count: u32,
    transfer: &mut Transfer,
) -> Attempt
    ensures row { (g : Given) (k : PlainKernel) → Stands g None kernel.old k
        → Serves ByNumber same g kernel.old kernel.new transfer.old transfer.new result
        (streams.read_stream k (dir conn (1 - side)) count) }
    ensures nodes { kernel.new.net.nodes ≡ kernel.old.net.nodes }
    ensures next { kernel.new.procs.next ≡ kernel.old.procs.next }
{
    let from = Dir {
        conn,
        side: across(side),
    };
    let waiting = count.min(received_at(&kernel.net, from));
    if waiting == 0 {
        if !kernel.net.has(conn) {
            return Attempt::Fails(Errno(ENOTCONN));
        }
        return Attempt::Gives(0);
    }
    match kernel.net.receive(from, waiting, transfer) {
        Ok(taken) => Attempt::Gives(taken),
        Err(_) => Attempt::Gives(0),
    }
}
