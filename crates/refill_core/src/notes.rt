//! What an agent does with the two directions of a live channel.
ghost use Rattle.std.specs.Prelude.{◌≡◌, ◌≤◌, ◌+◌, true, length, take, drop, IfSome};
ghost use Rattle.wire_channels.specs.Channels.{direction_at};
ghost use Rattle.wire_net.specs.Whereabouts.{reverse};
ghost use Rattle.refill_core.specs.Refills.{IsNoted, IsFlowing};
ghost use Rattle.refill_core.specs.Tasks as words;

use crate::limits::HEADER_LENGTH;
use crate::network::{receive_some, send_some};
use sys_abi::transfer::TRANSFER_LIMIT;
use sys_abi::{Dir, RealPid, Transfer};
use wire_net::{DirNotes, Net};

/// The other direction of the channel.
pub(crate) fn reverse_of(d: Dir) -> Dir
    requires { d.side ≤ 1 }
    ensures { result ≡ reverse d }
{
    Dir {
        conn: d.conn,
        side: 1 - d.side,
    }
}

/// How long the frame is in which the direction's bytes go back.
pub(crate) fn frame_length(notes: &DirNotes) -> u32
    requires { IsNoted notes.now }
    ensures { result ≡ words.frame_length notes.now }
{
    HEADER_LENGTH + notes.count
}

/// How many bytes of the frame the agent reads next at most.
fn wanted(notes: &DirNotes) -> u32
    requires { IsNoted notes.now }
    ensures { result ≡ words.wanted notes.now }
{
    (frame_length(notes) - notes.read).min(TRANSFER_LIMIT as u32)
}

/// Keeps the bytes of the piece that stand behind the header.
fn note_piece(notes: &mut DirNotes, piece: &[u8])
    requires noted { IsNoted notes.old }
    requires within { notes.old.read + length piece.now ≤ words.frame_length notes.old }
    ensures { notes.new ≡ words.with_piece piece.now notes.old }
{
    notes.returned.put(behind(piece, HEADER_LENGTH.saturating_sub(notes.read) as usize));
    notes.read += piece.len() as u32;
}

/// The piece without its first bytes.
fn behind(piece: &[u8], count: usize) -> &[u8]
    ensures { result.now ≡ drop count piece.now }
{
    if count >= piece.len() {
        return &piece[piece.len()..];
    }
    &piece[count..]
}

/// The agent of the sending end reads what has come of the frame with the direction's own bytes. Answers how
/// many bytes.
pub(crate) fn read_frame(
    notes: &mut DirNotes,
    net: &mut Net,
    transfer: &mut Transfer,
    agent: RealPid,
) -> u32
    requires noted { IsNoted notes.old }
    requires agent { words.is_agent agent notes.old.sender ≡ true }
    ensures count { result ≡ words.read_count agent notes.old net.old.channels }
    ensures notes { notes.new ≡ words.note_read agent notes.old net.old.channels }
    ensures net { net.new ≡ record net.old { channels = words.channels_read agent notes.old net.old.channels } }
{
    let count = receive_some(net, reverse_of(notes.dir), wanted(notes), transfer);
    note_piece(notes, transfer.as_slice());
    count
}

/// What is sent next on the direction with the first notes, so far in one piece.
fn part_of<'a>(own: &'a DirNotes, other: &'a DirNotes, header: &'a [u8]) -> &'a [u8]
    requires own { IsNoted own.now }
    requires other { IsNoted other.now }
    requires header { header.now ≡ words.header other.now }
    requires within { own.now.sent ≤ words.frame_length other.now + own.now.count }
    ensures { result.now ≡ words.part own.now other.now }
{
    if own.sent < HEADER_LENGTH {
        return behind(header, own.sent as usize);
    }
    if own.sent < frame_length(other) {
        return behind(
            other.drained.as_slice(),
            (own.sent - HEADER_LENGTH) as usize,
        );
    }
    if own.read == frame_length(own) {
        return behind(
            own.returned.as_slice(),
            (own.sent - frame_length(other)) as usize,
        );
    }
    &header[..0]
}

/// The agent of the sending end sends the next part, as far as there is room. Answers how many bytes.
pub(crate) fn send_part(own: &DirNotes, other: &DirNotes, net: &mut Net, agent: RealPid) -> u32
    requires own { IsNoted own.now }
    requires other { IsNoted other.now }
    requires within { own.now.sent ≤ words.frame_length other.now + own.now.count }
    requires agent { words.is_agent agent own.now.sender ≡ true }
    requires flows { IfSome (direction_at net.old.channels own.now.dir) IsFlowing }
    ensures count { result ≡ words.send_count agent own.now other.now net.old.channels }
    ensures net { net.new ≡ record net.old { channels = words.channels_sent agent own.now other.now net.old.channels } }
{
    let header = other.count.to_le_bytes();
    let part = part_of(own, other, &header);
    send_some(net, own.dir, part)
}
