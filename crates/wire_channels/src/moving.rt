//! Calls on a direction of a channel that may not be there.
ghost use Rattle.std.specs.Prelude.{◌≡◌, ◌≤◌, min, take, length, IfOk, OnErr};
ghost use Rattle.wire_channels.specs.Directions as lanes;
ghost use Rattle.wire_channels.specs.Channels as words;
ghost use Rattle.wire_channels.specs.Frames.{SameFrames};
ghost use Rattle.wire_channels.specs.Answers as answers;

use crate::channel::Channel;
use crate::net_fault::NetFault;
use crate::place::Place;
use virt_ids::ByConn;
use virt_ids::sys_abi::{Dir, Transfer};

/// Takes as much of the piece as the direction has room for (`man 2 send`). Takes no memory.
///
/// # Errors
/// `NotConnected` where the channel is not there; else `Ended` where the direction is ended or unread; else
/// `NotReady` where there is no room and the piece is not empty.
pub fn send_on(channels: &mut ByConn<Channel>, d: Dir, piece: &[u8]) -> Result<u32, NetFault>
    ensures answer { result ≡ answers.send_answer_on (words.direction_at channels.old d) (length piece.now) }
    ensures ok { IfOk result (λ count. channels.new ≡ words.at_direction channels.old d (lanes.after_send (take count piece.now))) }
    ensures err { OnErr result (channels.new ≡ channels.old) }
{
    let Some(channel) = channels.get_mut(d.conn) else {
        return Err(NetFault::NotConnected);
    };
    channel.send(d.side, piece)
}

/// Reads at most `n` bytes from the receiver's queue, in the place of what the transfer holds (`man 2 recv`).
/// Takes no memory.
///
/// # Errors
/// `NotConnected` where the channel is not there; else `NotReady` where nothing can be read yet.
pub fn receive_on(
    channels: &mut ByConn<Channel>,
    d: Dir,
    n: u32,
    xfer: &mut Transfer,
) -> Result<u32, NetFault>
    requires { n ≤ 65536 }
    ensures answer { result ≡ answers.receive_answer_on (words.direction_at channels.old d) n }
    ensures ok { IfOk result (λ count. channels.new ≡ words.at_direction channels.old d (lanes.after_receive count)) }
    ensures taken { IfOk result (λ count. xfer.new ≡ take count (answers.received_on (words.direction_at channels.old d))) }
    ensures err { OnErr result (channels.new ≡ channels.old) }
    ensures kept { OnErr result (xfer.new ≡ xfer.old) }
{
    let Some(channel) = channels.get_mut(d.conn) else {
        return Err(NetFault::NotConnected);
    };
    channel.receive(d.side, n, xfer)
}

/// The sender of the direction sends no more (`SHUT_WR` of `man 2 shutdown`). Takes no memory.
pub fn end_on(channels: &mut ByConn<Channel>, d: Dir)
    ensures { channels.new ≡ words.at_direction channels.old d lanes.after_end }
{
    if let Some(channel) = channels.get_mut(d.conn) {
        channel.end(d.side);
    }
}

/// The receiver of the direction reads no more (`SHUT_RD`), and what stood in it is gone. Takes no memory.
pub fn stop_reading_on(channels: &mut ByConn<Channel>, d: Dir)
    ensures { channels.new ≡ words.at_direction channels.old d lanes.after_stop_reading }
{
    if let Some(channel) = channels.get_mut(d.conn) {
        channel.stop_reading(d.side);
    }
}

/// Moves the first bytes of a queue of the direction, at most `n`, to the next queue. Answers how many; 0
/// where the channel is not there. Takes no memory.
pub fn move_on(channels: &mut ByConn<Channel>, d: Dir, from: Place, n: u32) -> u32
    ensures moved { result ≡ min n (length (answers.bytes_on from (words.direction_at channels.old d))) }
    ensures after { channels.new ≡ words.at_direction channels.old d (lanes.after_move from n) }
    ensures frame { SameFrames channels.old channels.new }
    ensures still { result ≡ 0 → channels.new ≡ channels.old }
{
    let Some(channel) = channels.get_mut(d.conn) else {
        return 0;
    };
    channel.move_bytes(d.side, from, n)
}
