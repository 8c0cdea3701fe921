//! What the network tells. For a channel that is not there it tells false or 0.
ghost use Rattle.std.specs.Prelude.{◌≡◌, ◌<◌, ◌≤◌, slice_get, is_some, false, [], ◌∷◌, IsSome, IfSome, option_map, option_and_then};
ghost use Rattle.std.specs.Option.{option_map_or};
ghost use Rattle.std.specs.FinMap as map;
ghost use Rattle.wire_channels.specs.declared.limits.TheConstants.{QUEUE_LIMIT};
ghost use Rattle.wire_channels.specs.Channels as channels;
ghost use Rattle.wire_channels.specs.Directions as directions;
ghost use Rattle.wire_channels.specs.Answers as answers;

use crate::net::Net;
use sys_abi::{ConnId, Dir, RealAddr, Transfer};

impl Net {
    /// Whether the channel is there.
    pub fn has(&self, id: ConnId) -> bool
        ensures { result ≡ is_some (map.get self.now.channels id) }
    {
        self.channels.contains_key(id)
    }

    /// Puts what can be read of a direction in the place of what the transfer holds, and leaves it. Takes no
    /// memory.
    pub fn peek(&self, d: Dir, xfer: &mut Transfer)
        requires side { d.side < 2 }
        requires there { IsSome (map.get self.now.channels d.conn) }
        ensures { xfer.new ≡ answers.received_on (channels.direction_at self.now.channels d) }
    {
        match self.channels.get(d.conn) {
            None => xfer.clear(),
            Some(channel) => channel.direction(d.side).peek(xfer),
        }
    }

    /// Whether the sender of the direction sends no more.
    pub fn is_ended(&self, d: Dir) -> bool
        requires { d.side < 2 }
        ensures { result ≡ option_map_or (λ direction. direction.is_ended) (channels.direction_at self.now.channels d) false }
    {
        match self.channels.get(d.conn) {
            None => false,
            Some(channel) => channel.direction(d.side).is_ended(),
        }
    }

    /// Whether the receiver of the direction reads no more.
    pub fn is_unread(&self, d: Dir) -> bool
        requires { d.side < 2 }
        ensures { result ≡ option_map_or (λ direction. direction.is_unread) (channels.direction_at self.now.channels d) false }
    {
        match self.channels.get(d.conn) {
            None => false,
            Some(channel) => channel.direction(d.side).is_unread(),
        }
    }

    /// Whether bytes may still pass both ways: the channel is there, and neither direction is ended or
    /// unread.
    pub fn is_live(&self, id: ConnId) -> bool
        ensures { result ≡ channels.is_live_at self.now.channels id }
    {
        match self.channels.get(id) {
            None => false,
            Some(channel) => channel.is_live(),
        }
    }

    /// How many bytes stand in the sender's queue, on the wire and in the receiver's queue.
    pub fn counts(&self, d: Dir) -> [u32; 3]
        requires { d.side < 2 }
        ensures counts { result ≡ option_map_or answers.counts_of (channels.direction_at self.now.channels d) (0 ∷ 0 ∷ 0 ∷ []) }
        ensures within { IfSome (channels.direction_at self.now.channels d) (λ direction. directions.standing direction ≤ QUEUE_LIMIT) }
    {
        match self.channels.get(d.conn) {
            None => [0, 0, 0],
            Some(channel) => channel.direction(d.side).counts(),
        }
    }

    /// How many bytes the direction has taken since its channel was made, held at the greatest number of 64
    /// bits.
    pub fn carried(&self, d: Dir) -> u64
        requires { d.side < 2 }
        ensures { result ≡ option_map_or (λ direction. direction.carried) (channels.direction_at self.now.channels d) 0 }
    {
        match self.channels.get(d.conn) {
            None => 0,
            Some(channel) => channel.direction(d.side).carried(),
        }
    }

    /// How many connections may wait at the port, if somebody listens there.
    pub fn backlog(&self, at: RealAddr) -> Option<u32>
        ensures { result ≡ option_map (λ listener. listener.backlog) (map.get self.now.listeners at) }
    {
        let listener = self.listeners.get(at)?;
        Some(listener.backlog)
    }

    /// The connection that waits at that place of the port's queue, the oldest at 0.
    pub fn queued(&self, at: RealAddr, place: u32) -> Option<ConnId>
        ensures { result ≡ option_and_then (λ listener. slice_get listener.queue place) (map.get self.now.listeners at) }
    {
        self.listeners.get(at)?.queue.get(place as usize)
    }
}
