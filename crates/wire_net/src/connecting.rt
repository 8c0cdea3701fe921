//! Whether a connection can be made, asked before one is.
ghost use Rattle.std.specs.Prelude.{◌≡◌, nat_le};
ghost use Rattle.std.specs.FinMap as map;
ghost use Rattle.wire_channels.specs.declared.limits.TheConstants.{CHANNEL_LIMIT};
ghost use Rattle.wire_net.specs.Networks as words;

use crate::listening::has_room;
use crate::net::Net;
use sys_abi::RealAddr;
use wire_channels::NetFault;
use wire_channels::limits::CHANNEL_LIMIT;

impl Net {
    /// Whether as many channels stand as may.
    pub fn is_full(&self) -> bool
        ensures { result ≡ nat_le CHANNEL_LIMIT (map.len self.now.channels) }
    {
        self.channels.len() >= CHANNEL_LIMIT
    }

    /// Why nobody can connect at the port now, if so: the refusal of `connect` that is not want of memory.
    pub fn connect_refusal(&self, to: RealAddr) -> Option<NetFault>
        ensures { result ≡ words.connect_refusal self.now to }
    {
        let Some(has_room) = has_room(&self.listeners, to) else {
            return Some(NetFault::Refused);
        };
        if self.is_full() {
            return Some(NetFault::TooMany);
        }
        if !has_room {
            return Some(NetFault::NotReady);
        }
        None
    }
}
