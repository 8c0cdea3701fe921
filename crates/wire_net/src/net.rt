ghost use Rattle.std.specs.Prelude.{◌≡◌, ◌↔◌, ◌<◌, ◌≤◌, ◌⊎◌, min, take, length, Ok, Err, IsSome, IsNone, IfSome, IfNone, IfOk, IfErr, OnOk, OnErr, IsOkUnless};
ghost use Rattle.std.specs.FinMap as map;
ghost use Rattle.wire_channels.specs.declared.limits.TheConstants.{ACCEPTING_SIDE, CHANNEL_LIMIT, NODE_LIMIT, PORT_BASE_LIMIT};
ghost use Rattle.wire_channels.specs.OfVirtIds.Changes.{at_key};
ghost use Rattle.wire_channels.specs.Channels as channels;
ghost use Rattle.wire_channels.specs.Directions as directions;
ghost use Rattle.wire_channels.specs.Frames.{SameFrames};
ghost use Rattle.wire_channels.specs.Listeners as listeners;
ghost use Rattle.wire_channels.specs.Answers as answers;
ghost use Rattle.wire_net.specs.Networks as words;

use crate::listening::{accept_at, has_room, new_listener, next_port, wait_at};
use std::alloc::{AllocError, Global};
use std::marker::Model;
use sys_abi::{ConnId, Dir, RealAddr, Transfer};
use wire_channels::limits::CHANNEL_LIMIT;
use wire_channels::virt_ids::ByRealAddress;
use wire_channels::{
    ByConn, Channel, Listener, NetFault, Place, drop_end, drop_pending, end_on, move_on,
    receive_on, send_on, stop_reading_on,
};

/// The network between the nodes: listeners by their ports, and channels by their names.
#[derive(Drop)]
pub struct Net {
    pub(crate) alloc: Global,
    pub(crate) nodes: u32,
    pub(crate) port_base: u32,
    pub(crate) listeners: ByRealAddress<Listener>,
    pub(crate) channels: ByConn<Channel>,
}

impl Model for Net {
    ghost use Rattle.std.specs.Prelude.{◌≤◌};
    ghost use Rattle.wire_channels.specs.declared.limits.TheConstants.{PORT_BASE_LIMIT};
    ghost use Rattle.wire_net.specs.Networks.{Network, coded_network};

    ghost Value = { Network };

    ghost coded = { coded_network };

    ghost view = { λ a. record { nodes = a.nodes; port_base = a.port_base; listeners = a.listeners; channels = a.channels } };

    ghost invariant = { λ a. a.port_base ≤ PORT_BASE_LIMIT };
}

impl Net {
    /// No listeners and no channels, on so many nodes, whose ports begin at the base.
    pub fn new(alloc: Global, nodes: u32, port_base: u32) -> Result<Net, AllocError>
        requires nodes { (1 ≤ nodes) × (nodes ≤ NODE_LIMIT) }
        requires ports { port_base ≤ PORT_BASE_LIMIT }
        ensures { IfOk result (λ net. net ≡ record { nodes = nodes; port_base = port_base; listeners = map.empty; channels = map.empty }) }
    {
        Ok(Net {
            alloc,
            nodes,
            port_base,
            listeners: ByRealAddress::new(alloc),
            channels: ByConn::new(alloc),
        })
    }

    /// Makes a channel with two open ends (`man 2 socketpair`).
    ///
    /// # Errors
    /// `TooMany` where 256 channels stand.
    pub fn pair(&mut self, id: ConnId) -> Result<(), NetFault>
        requires { IsNone (map.get self.old.channels id) }
        ensures refused { CHANNEL_LIMIT ≤ map.len self.old.channels → result ≡ Err NetFault.TooMany }
        ensures granted { map.len self.old.channels < CHANNEL_LIMIT → IsOkUnless result NetFault.Memory }
        ensures ok { OnOk result (self.new ≡ record self.old { channels = map.insert self.old.channels id channels.new_channel }) }
        ensures err { OnErr result (self.new ≡ self.old) }
    {
        if self.channels.len() >= CHANNEL_LIMIT {
            return Err(NetFault::TooMany);
        }
        let channel = Channel::new(self.alloc)?;
        self.channels.insert(id, channel)?;
        Ok(())
    }

    /// Listens at the next port of the node at which nobody listens (`man 2 listen`). So many connections may
    /// wait there.
    ///
    /// # Errors
    /// `PortUsed` where somebody listens at each of its ports.
    pub fn listen(&mut self, node: u32, backlog: u32) -> Result<RealAddr, NetFault>
        ensures used { (result ≡ Err NetFault.PortUsed) ↔ listeners.AllPortsUsed self.old.listeners node self.old.port_base }
        ensures fault { IfErr result (λ fault. (fault ≡ NetFault.PortUsed) ⊎ (fault ≡ NetFault.Memory)) }
        ensures port { IfOk result (listeners.IsNextPort self.old.listeners node self.old.port_base) }
        ensures ok { IfOk result (λ at. self.new ≡ record self.old { listeners = map.insert self.old.listeners at (listeners.new_listener backlog) }) }
        ensures err { OnErr result (self.new ≡ self.old) }
    {
        let Some(at) = next_port(&self.listeners, node, self.port_base) else {
            return Err(NetFault::PortUsed);
        };
        self.listeners
            .insert(at, new_listener(self.alloc, backlog))?;
        Ok(at)
    }

    /// Makes a channel, whose side 1 waits to be accepted at the port, behind the others (`man 2 connect`).
    ///
    /// # Errors
    /// `Refused` where nobody listens there; else `TooMany` where 256 channels stand; else `NotReady` where
    /// as many connections wait as may.
    pub fn connect(&mut self, id: ConnId, to: RealAddr) -> Result<(), NetFault>
        requires { IsNone (map.get self.old.channels id) }
        ensures refused { IfSome (words.connect_refusal self.old to) (λ fault. result ≡ Err fault) }
        ensures granted { IfNone (words.connect_refusal self.old to) (IsOkUnless result NetFault.Memory) }
        ensures ok { OnOk result (self.new ≡ record self.old {
          listeners = at_key self.old.listeners to (listeners.with_last id);
          channels = map.insert self.old.channels id channels.new_channel;
        }) }
        ensures err { OnErr result (self.new ≡ self.old) }
    {
        let Some(has_room) = has_room(&self.listeners, to) else {
            return Err(NetFault::Refused);
        };
        if self.channels.len() >= CHANNEL_LIMIT {
            return Err(NetFault::TooMany);
        }
        if !has_room {
            return Err(NetFault::NotReady);
        }
        let channel = Channel::new(self.alloc)?;
        self.channels.insert(id, channel)?;
        let Ok(()) = wait_at(&mut self.listeners, to, id) else {
            self.channels.remove(id);
            return Err(NetFault::Memory);
        };
        Ok(())
    }

    /// Takes the oldest connection that waits at the port (`man 2 accept`). Takes no memory.
    ///
    /// # Errors
    /// `NotReady` where none waits.
    pub fn accept(&mut self, at: RealAddr) -> Result<ConnId, NetFault>
        requires { IsSome (map.get self.old.listeners at) }
        ensures answer { result ≡ words.accept_answer (map.get self.old.listeners at) }
        ensures ok { OnOk result (self.new ≡ record self.old { listeners = at_key self.old.listeners at listeners.without_first }) }
        ensures err { OnErr result (self.new ≡ self.old) }
    {
        accept_at(&mut self.listeners, at)
    }

    /// Takes as much of the piece as there is room for (`man 2 send`). Takes no memory.
    ///
    /// # Errors
    /// `NotConnected` where the channel is not there; else `Ended` where the direction is ended or unread;
    /// else `NotReady` where there is no room and the piece is not empty.
    pub fn send(&mut self, d: Dir, piece: &[u8]) -> Result<u32, NetFault>
        requires { d.side < 2 }
        ensures answer { result ≡ answers.send_answer_on (channels.direction_at self.old.channels d) (length piece.now) }
        ensures ok { IfOk result (λ count. self.new ≡ record self.old {
          channels = channels.at_direction self.old.channels d (directions.after_send (take count piece.now));
        }) }
        ensures err { OnErr result (self.new ≡ self.old) }
    {
        send_on(&mut self.channels, d, piece)
    }

    /// Reads at most `n` bytes from the receiver's queue, in the place of what the transfer holds
    /// (`man 2 recv`). It answers 0 where `n` is 0, and where the direction is ended and nothing stands in
    /// it. Takes no memory.
    ///
    /// # Errors
    /// `NotConnected` where the channel is not there; else `NotReady` where nothing can be read yet.
    pub fn receive(&mut self, d: Dir, n: u32, xfer: &mut Transfer) -> Result<u32, NetFault>
        requires side { d.side < 2 }
        requires fits { n ≤ 65536 }
        ensures answer { result ≡ answers.receive_answer_on (channels.direction_at self.old.channels d) n }
        ensures ok { IfOk result (λ count. self.new ≡ record self.old {
          channels = channels.at_direction self.old.channels d (directions.after_receive count);
        }) }
        ensures taken { IfOk result (λ count. xfer.new ≡ take count (answers.received_on (channels.direction_at self.old.channels d))) }
        ensures err { OnErr result (self.new ≡ self.old) }
        ensures kept { OnErr result (xfer.new ≡ xfer.old) }
    {
        receive_on(&mut self.channels, d, n, xfer)
    }

    /// The sender of the direction sends no more (`SHUT_WR` of `man 2 shutdown`). Takes no memory.
    pub fn end(&mut self, d: Dir)
        requires { d.side < 2 }
        ensures { self.new ≡ record self.old { channels = channels.at_direction self.old.channels d directions.after_end } }
    {
        end_on(&mut self.channels, d);
    }

    /// The receiver of the direction reads no more (`SHUT_RD`), and what stood in it is gone. Takes no
    /// memory.
    pub fn stop_reading(&mut self, d: Dir)
        requires { d.side < 2 }
        ensures { self.new ≡ record self.old { channels = channels.at_direction self.old.channels d directions.after_stop_reading } }
    {
        stop_reading_on(&mut self.channels, d);
    }

    /// Closes the end of a side: its outgoing direction is ended, its incoming one unread. The channel is
    /// gone when its last open end is closed. Takes no memory.
    pub fn close_end(&mut self, id: ConnId, side: u8)
        requires { side < 2 }
        ensures { self.new ≡ record self.old { channels = channels.after_close side self.old.channels id } }
    {
        drop_end(&mut self.channels, id, side);
    }

    /// Nobody listens at the port any more, and the accepting ends of the connections that wait there are
    /// closed. Takes no memory.
    pub fn close_listener(&mut self, at: RealAddr)
        ensures { self.new ≡ record self.old {
          listeners = map.remove self.old.listeners at;
          channels = channels.after_closes ACCEPTING_SIDE self.old.channels (words.waiting_at (map.get self.old.listeners at));
        } }
    {
        if let Some(listener) = self.listeners.remove(at) {
            drop_pending(&mut self.channels, listener.queue);
        }
    }

    /// Moves the first bytes of a queue of the direction, at most `n`, to the next queue. Answers how many.
    /// Takes no memory.
    pub fn move_bytes(&mut self, d: Dir, from: Place, n: u32) -> u32
        requires { d.side < 2 }
        ensures moved { result ≡ min n (length (answers.bytes_on from (channels.direction_at self.old.channels d))) }
        ensures after { self.new ≡ record self.old { channels = channels.at_direction self.old.channels d (directions.after_move from n) } }

        // The same channels are there, with the same directions ended or unread and the same ends open. Where
        // no byte moves nothing changes.
        ensures frame { SameFrames self.old.channels self.new.channels }
        ensures still { result ≡ 0 → self.new ≡ self.old }
    {
        move_on(&mut self.channels, d, from, n)
    }
}
