//! A whole channel.
ghost use Rattle.std.specs.Prelude.{◌≡◌, ◌<◌, Some};
ghost use Rattle.std.specs.FinMap as map;
ghost use Rattle.plain_machine.specs.Kernels.{IsKernel};
ghost use Rattle.wire_channels.specs.Channels.{new_channel};
ghost use Rattle.wire_channels.specs.declared.channel.Channel as wire;
ghost use Rattle.rebuild_tables.specs.Filled.{IsFilled};
ghost use Rattle.rebuild_tables.specs.Steps as words;

use crate::directions::fill_direction;
use plain_machine::PlainKernel;
use plain_tables::channel::Channel;
use sys_abi::{ConnId, Dir};
use wire_net::Net;

/// Closes the end of a side, unless it is open.
fn close_unless(net: &mut Net, id: ConnId, side: u8, is_open: bool)
    requires { side < 2 }
    ensures { net.new ≡ record net.old {
      channels = words.closed_unless is_open side net.old.channels id;
    } }
{
    if is_open {
        return;
    }
    net.close_end(id, side);
}

/// Gives a new channel the bytes, the ended and unread directions and the closed ends of the kernel part's.
/// Takes no memory.
pub fn fill(net: &mut Net, kernel: &PlainKernel, id: ConnId, channel: &Channel)
    requires whole { IsKernel kernel.now }
    requires channel { map.get kernel.now.channels id ≡ Some channel.now }
    requires new { map.get net.old.channels id ≡ Some new_channel }
    ensures { (c : wire.Channel) × (IsFilled kernel.now.directions id channel.now c
        × (net.new ≡ record net.old { channels = map.insert net.old.channels id c })) }
{
    fill_direction(net, kernel, Dir { conn: id, side: 0 });
    fill_direction(net, kernel, Dir { conn: id, side: 1 });
    close_unless(net, id, 0, channel.first.is_open);
    close_unless(net, id, 1, channel.second.is_open);
}
