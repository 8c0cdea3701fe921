ghost use Rattle.std.specs.Prelude.{◌≡◌, ◌+◌, ◌≤◌, min, take, length, IfOk, OnErr};
ghost use Rattle.wire_channels.specs.Directions as words;
ghost use Rattle.wire_channels.specs.Answers.{counts_of};
ghost use Rattle.wire_channels.specs.declared.place.Place.TheVariants.{Send, Wire};

use crate::limits::QUEUE_LIMIT;
use crate::net_fault::NetFault;
use crate::place::Place;
use crate::rings::{Ring, copy_front, take_front};
use std::alloc::{AllocError, Global};
use std::marker::Model;
use virt_ids::sys_abi::Transfer;

/// A direction of a channel. The bytes of its three queues are one stream and stand in one ring, oldest first:
/// those that can be read, those on the wire, and those in the sender's queue. Two counts tell where one queue
/// ends and the next begins, so that bytes pass from queue to queue without being copied.
#[derive(Drop)]
pub struct Lane {
    bytes: Ring,
    received: usize,
    wire: usize,
    is_ended: bool,
    is_unread: bool,
    carried: u64,
}

impl Model for Lane {
    ghost use Rattle.std.specs.Prelude.{◌≡◌, ◌+◌, ◌≤◌, length, take, drop};
    ghost use Rattle.wire_channels.specs.declared.limits.TheConstants.{QUEUE_LIMIT};
    ghost use Rattle.wire_channels.specs.Directions.{Direction};

    ghost Value = { Direction };

    ghost view = { λ a. record {
      sent = drop (a.received + a.wire) a.bytes.items;
      wire = take a.wire (drop a.received a.bytes.items);
      received = take a.received a.bytes.items;
      is_ended = a.is_ended;
      is_unread = a.is_unread;
      carried = a.carried;
    } };

    ghost invariant = { λ a. (a.bytes.capacity ≡ QUEUE_LIMIT) × (length a.bytes.items ≤ QUEUE_LIMIT)
        × (a.received + a.wire ≤ length a.bytes.items) };
}

impl Lane {
    /// A direction on which nothing was sent.
    pub(crate) fn new(alloc: Global) -> Result<Lane, AllocError>
        ensures { IfOk result (λ lane. lane ≡ words.unused) }
    {
        Ok(Lane {
            bytes: Ring::with_capacity(alloc, QUEUE_LIMIT)?,
            received: 0,
            wire: 0,
            is_ended: false,
            is_unread: false,
            carried: 0,
        })
    }

    /// How many bytes stand in the queues.
    #[tactic(auto, using(crate::proofs::Stretches::lengths))]
    fn standing(&self) -> usize
        ensures standing { result ≡ words.standing self.now }
        ensures within { result ≤ QUEUE_LIMIT }
    {
        self.bytes.len()
    }

    /// How many bytes stand in the sender's queue.
    #[tactic(auto, using(crate::proofs::Stretches::lengths))]
    fn sent(&self) -> usize
        ensures sent { result ≡ length self.now.sent }
        ensures within { result ≤ QUEUE_LIMIT }
    {
        self.bytes.len() - self.received - self.wire
    }

    pub(crate) fn send(&mut self, piece: &[u8]) -> Result<u32, NetFault>
        ensures answer { result ≡ words.send_answer self.old (length piece.now) }
        ensures ok { IfOk result (λ count. self.new ≡ words.after_send (take count piece.now) self.old) }
        ensures err { OnErr result (self.new ≡ self.old) }
    {
        if self.is_ended || self.is_unread {
            return Err(NetFault::Ended);
        }
        let room = QUEUE_LIMIT - self.standing();
        if room == 0 && !piece.is_empty() {
            return Err(NetFault::NotReady);
        }
        let count = piece.len().min(room);
        self.bytes.fill_from_slice(&piece[..count]);
        self.carried = self.carried.saturating_add(count as u64);
        Ok(count as u32)
    }

    pub(crate) fn receive(&mut self, n: u32, xfer: &mut Transfer) -> Result<u32, NetFault>
        requires { n ≤ 65536 }
        ensures answer { result ≡ words.receive_answer self.old n }
        ensures ok { IfOk result (λ count. self.new ≡ words.after_receive count self.old) }
        ensures taken { IfOk result (λ count. xfer.new ≡ take count self.old.received) }
        ensures err { OnErr result (self.new ≡ self.old) }
        ensures kept { OnErr result (xfer.new ≡ xfer.old) }
    {
        if n > 0 && !self.is_over() && self.received == 0 {
            return Err(NetFault::NotReady);
        }
        let count = (n as usize).min(self.received);
        take_front(&mut self.bytes, count, xfer);
        self.received -= count;
        Ok(count as u32)
    }

    /// Whether it is ended, and nothing stands in it.
    fn is_over(&self) -> bool
        ensures { result ≡ words.is_over self.now }
    {
        self.is_ended && self.standing() == 0
    }

    /// Puts what can be read in the place of what the transfer holds.
    pub fn peek(&self, xfer: &mut Transfer)
        ensures { xfer.new ≡ self.now.received }
    {
        copy_front(&self.bytes, self.received, xfer);
    }

    pub(crate) fn end(&mut self)
        ensures { self.new ≡ words.after_end self.old }
    {
        self.is_ended = true;
    }

    pub(crate) fn stop_reading(&mut self)
        ensures { self.new ≡ words.after_stop_reading self.old }
    {
        self.bytes.clear();
        self.received = 0;
        self.wire = 0;
        self.is_unread = true;
    }

    pub(crate) fn move_bytes(&mut self, from: Place, n: u32) -> u32
        ensures moved { result ≡ min n (length (words.bytes_at from self.old)) }
        ensures after { self.new ≡ words.after_move from n self.old }
    {
        match from {
            Place::Send => self.put_on_wire(n as usize) as u32,
            Place::Wire => self.take_off_wire(n as usize) as u32,
        }
    }

    /// Puts the first bytes of the sender's queue, at most `n`, on the wire. Answers how many.
    fn put_on_wire(&mut self, n: usize) -> usize
        ensures moved { result ≡ min n (length self.old.sent) }
        ensures after { self.new ≡ words.after_move Send n self.old }
    {
        let count = n.min(self.sent());
        self.wire += count;
        count
    }

    /// Lets the first bytes on the wire, at most `n`, be read. Answers how many.
    fn take_off_wire(&mut self, n: usize) -> usize
        ensures moved { result ≡ min n (length self.old.wire) }
        ensures after { self.new ≡ words.after_move Wire n self.old }
    {
        let count = n.min(self.wire);
        self.wire -= count;
        self.received += count;
        count
    }

    /// Whether bytes may still pass: it is neither ended nor unread.
    pub(crate) fn is_flowing(&self) -> bool
        ensures { result ≡ words.is_flowing self.now }
    {
        !self.is_ended && !self.is_unread
    }

    /// Whether its sender sends no more.
    pub fn is_ended(&self) -> bool
        ensures { result ≡ self.now.is_ended }
    {
        self.is_ended
    }

    /// Whether its receiver reads no more.
    pub fn is_unread(&self) -> bool
        ensures { result ≡ self.now.is_unread }
    {
        self.is_unread
    }

    /// How many bytes it has taken.
    pub fn carried(&self) -> u64
        ensures { result ≡ self.now.carried }
    {
        self.carried
    }

    /// How many bytes stand in the sender's queue, on the wire and in the receiver's queue.
    pub fn counts(&self) -> [u32; 3]
        ensures counts { result ≡ counts_of self.now }
        ensures within { words.standing self.now ≤ QUEUE_LIMIT }
    {
        [self.sent() as u32, self.wire as u32, self.received as u32]
    }
}
