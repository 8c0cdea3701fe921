ghost use Rattle.std.specs.Prelude.{◌≡◌, ◌<◌, ◌≤◌, ◌-◌, min, take, length, true, IfOk, OnErr};
ghost use Rattle.wire_channels.specs.Directions as lanes;
ghost use Rattle.wire_channels.specs.Channels as words;

use crate::lane::Lane;
use crate::net_fault::NetFault;
use crate::place::Place;
use std::alloc::{AllocError, Global};
use virt_ids::sys_abi::Transfer;

/// A channel: the direction in which side 0 sends, that in which side 1 sends, and which ends are open.
#[derive(Drop)]
pub struct Channel {
    pub first: Lane,
    pub second: Lane,
    pub open_ends: [bool; 2],
}

impl Channel {
    /// A channel on which nothing was sent, with both ends open.
    pub fn new(alloc: Global) -> Result<Channel, AllocError>
        ensures { IfOk result (λ channel. channel ≡ words.new_channel) }
    {
        let first = Lane::new(alloc)?;
        let second = Lane::new(alloc)?;
        Ok(Channel {
            first,
            second,
            open_ends: [true, true],
        })
    }

    /// The direction in which that side sends.
    pub fn direction(&self, side: u8) -> &Lane
        ensures { result.now ≡ words.direction_of side self.now }
    {
        if side == 0 { &self.first } else { &self.second }
    }

    /// Whether bytes may still pass both ways.
    pub fn is_live(&self) -> bool
        ensures { result ≡ words.is_live self.now }
    {
        if !self.first.is_flowing() {
            return false;
        }
        self.second.is_flowing()
    }

    pub(crate) fn send(&mut self, side: u8, piece: &[u8]) -> Result<u32, NetFault>
        ensures answer { result ≡ lanes.send_answer (words.direction_of side self.old) (length piece.now) }
        ensures ok { IfOk result (λ count. self.new ≡ words.at_side side (lanes.after_send (take count piece.now)) self.old) }
        ensures err { OnErr result (self.new ≡ self.old) }
    {
        if side == 0 {
            return self.first.send(piece);
        }
        self.second.send(piece)
    }

    pub(crate) fn receive(&mut self, side: u8, n: u32, xfer: &mut Transfer) -> Result<u32, NetFault>
        requires { n ≤ 65536 }
        ensures answer { result ≡ lanes.receive_answer (words.direction_of side self.old) n }
        ensures ok { IfOk result (λ count. self.new ≡ words.at_side side (lanes.after_receive count) self.old) }
        ensures taken { IfOk result (λ count. xfer.new ≡ take count (words.direction_of side self.old).received) }
        ensures err { OnErr result (self.new ≡ self.old) }
        ensures kept { OnErr result (xfer.new ≡ xfer.old) }
    {
        if side == 0 {
            return self.first.receive(n, xfer);
        }
        self.second.receive(n, xfer)
    }

    pub(crate) fn end(&mut self, side: u8)
        ensures { self.new ≡ words.at_side side lanes.after_end self.old }
    {
        if side == 0 {
            self.first.end();
            return;
        }
        self.second.end();
    }

    pub(crate) fn stop_reading(&mut self, side: u8)
        ensures { self.new ≡ words.at_side side lanes.after_stop_reading self.old }
    {
        if side == 0 {
            self.first.stop_reading();
            return;
        }
        self.second.stop_reading();
    }

    pub(crate) fn move_bytes(&mut self, side: u8, from: Place, n: u32) -> u32
        ensures moved { result ≡ min n (length (lanes.bytes_at from (words.direction_of side self.old))) }
        ensures after { self.new ≡ words.at_side side (lanes.after_move from n) self.old }
    {
        if side == 0 {
            return self.first.move_bytes(from, n);
        }
        self.second.move_bytes(from, n)
    }

    /// Closes the end of a side: its outgoing direction is ended, its incoming one unread. Answers whether an
    /// end is open then.
    pub(crate) fn close_end(&mut self, side: u8) -> bool
        requires { side < 2 }
        ensures open { result ≡ words.is_open (words.without_end side self.old) }
        ensures closed { self.new ≡ words.without_end side self.old }
    {
        self.end(side);
        self.stop_reading(1 - side);
        self.open_ends[side as usize] = false;
        self.open_ends[0] || self.open_ends[1]
    }
}
