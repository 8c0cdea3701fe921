//! What an agent does with one direction of a live channel.
ghost use Rattle.std.specs.Prelude.{◌≡◌, ◌≤◌, true, false, length, take, drop, IfSome};
ghost use Rattle.std.specs.Option.{option_map_or};
ghost use Rattle.wire_channels.specs.Channels.{direction_at, at_direction};
ghost use Rattle.wire_channels.specs.Directions as directions;
ghost use Rattle.wire_channels.specs.Answers.{received_on};
ghost use Rattle.drain_core.specs.Tasks as words;
ghost use Rattle.drain_core.specs.Drains.{IsNoted, IsFlowing};

use crate::cookie::cookie_of;
use crate::limits::COOKIE_LENGTH;
use sys_abi::transfer::TRANSFER_LIMIT;
use sys_abi::{RealPid, Transfer};
use wire_net::{DirNotes, Net, is_agent};

/// How many bytes the agent of the reading end has still to read.
pub(crate) fn unread(notes: &DirNotes) -> u32
    requires { IsNoted notes.now }
    ensures { result ≡ words.unread notes.now }
{
    notes.count + COOKIE_LENGTH - notes.read
}

/// Whether the agent of the sending end has sent the whole cookie.
pub(crate) fn has_sent(notes: &DirNotes) -> bool
    ensures { result ≡ words.has_sent notes.now }
{
    notes.sent == COOKIE_LENGTH
}

/// Keeps the bytes of the piece that stand before the cookie.
fn note_read(notes: &mut DirNotes, piece: &[u8])
    requires noted { IsNoted notes.old }
    requires wanted { length piece.now ≤ words.unread notes.old }
    ensures read { notes.new ≡ words.with_piece piece.now notes.old }
    ensures noted { IsNoted notes.new }
{
    let own = (notes.count.saturating_sub(notes.read) as usize).min(piece.len());
    notes.drained.put(&piece[..own]);
    notes.read += piece.len() as u32;
}

/// The agent of the reading end reads what has come, up to the end of the cookie. Answers how many bytes.
fn read_bytes(notes: &mut DirNotes, net: &mut Net, transfer: &mut Transfer) -> u32
    requires noted { IsNoted notes.old }
    ensures count { result ≡ option_map_or (words.readable notes.old) (direction_at net.old.channels notes.old.dir) 0 }
    ensures notes { notes.new ≡ words.noted_read (take result (received_on (direction_at net.old.channels notes.old.dir))) notes.old }
    ensures net { net.new ≡ record net.old { channels = at_direction net.old.channels notes.old.dir (directions.after_receive result) } }
    ensures noted { IsNoted notes.new }
{
    let wanted = unread(notes).min(TRANSFER_LIMIT as u32);
    let Ok(count) = net.receive(notes.dir, wanted, transfer) else {
        return 0;
    };
    if count == 0 {
        return 0;
    }
    note_read(notes, transfer.as_slice());
    count
}

/// What is left of a cookie.
fn rest_of(cookie: &[u8], sent: usize) -> &[u8]
    requires { sent ≤ length cookie.now }
    ensures { result.now ≡ drop sent cookie.now }
{
    &cookie[sent..]
}

/// The agent of the sending end sends what is left of the cookie, as far as there is room. Answers how many
/// bytes.
fn send_cookie(notes: &mut DirNotes, net: &mut Net) -> u32
    requires noted { IsNoted notes.old }
    requires flows { IfSome (direction_at net.old.channels notes.old.dir) IsFlowing }
    ensures count { result ≡ option_map_or (words.sendable notes.old) (direction_at net.old.channels notes.old.dir) 0 }
    ensures notes { notes.new ≡ words.noted_sent result notes.old }
    ensures net { net.new ≡ record net.old { channels = at_direction net.old.channels notes.old.dir (words.with_sent result notes.old) } }
    ensures noted { IsNoted notes.new }
{
    let cookie = cookie_of(notes.dir.conn);
    let rest = rest_of(&cookie, notes.sent as usize);
    if rest.is_empty() {
        return 0;
    }
    let Ok(count) = net.send(notes.dir, rest) else {
        return 0;
    };
    notes.sent += count;
    count
}

fn read_as(notes: &mut DirNotes, net: &mut Net, transfer: &mut Transfer, agent: RealPid) -> u32
    requires noted { IsNoted notes.old }
    ensures count { result ≡ option_map_or (words.reads agent notes.old) (direction_at net.old.channels notes.old.dir) 0 }
    ensures notes { notes.new ≡ words.noted_read (take result (received_on (direction_at net.old.channels notes.old.dir))) notes.old }
    ensures net { net.new ≡ record net.old { channels = at_direction net.old.channels notes.old.dir (directions.after_receive result) } }
    ensures noted { IsNoted notes.new }
{
    if !is_agent(notes.reader, agent) {
        return 0;
    }
    read_bytes(notes, net, transfer)
}

fn send_as(notes: &mut DirNotes, net: &mut Net, agent: RealPid) -> u32
    requires noted { IsNoted notes.old }
    requires flows { words.is_agent agent notes.old.sender ≡ true → IfSome (direction_at net.old.channels notes.old.dir) IsFlowing }
    ensures count { result ≡ option_map_or (words.sends agent notes.old) (direction_at net.old.channels notes.old.dir) 0 }
    ensures notes { notes.new ≡ words.noted_sent result notes.old }
    ensures net { net.new ≡ record net.old { channels = at_direction net.old.channels notes.old.dir (words.with_sent result notes.old) } }
    ensures noted { IsNoted notes.new }
{
    if !is_agent(notes.sender, agent) {
        return 0;
    }
    send_cookie(notes, net)
}

/// One step of an agent on a direction: it reads before it sends. Answers whether it moved bytes.
pub(crate) fn step_on(
    notes: &mut DirNotes,
    net: &mut Net,
    transfer: &mut Transfer,
    agent: RealPid,
) -> bool
    requires noted { IsNoted notes.old }
    requires flows { words.is_agent agent notes.old.sender ≡ true → IfSome (direction_at net.old.channels notes.old.dir) IsFlowing }
    ensures moved { result ≡ option_map_or (words.moves agent notes.old) (direction_at net.old.channels notes.old.dir) false }
    ensures notes { notes.new ≡ words.note_after agent (direction_at net.old.channels notes.old.dir) notes.old }
    ensures net { net.new ≡ record net.old { channels = at_direction net.old.channels notes.old.dir (words.direction_after agent notes.old) } }
    ensures noted { IsNoted notes.new }
{
    let read = read_as(notes, net, transfer, agent);
    let sent = send_as(notes, net, agent);
    read > 0 || sent > 0
}
