//! The close of a channel's ends. A channel is gone when its last open end is closed.
ghost use Rattle.std.specs.Prelude.{◌≡◌, ◌<◌};
ghost use Rattle.wire_channels.specs.declared.limits.TheConstants.{ACCEPTING_SIDE};
ghost use Rattle.std.specs.FinMap as map;
ghost use Rattle.wire_channels.specs.Channels as words;

use crate::channel::Channel;
use crate::limits::ACCEPTING_SIDE;
use crate::listener::ConnQueue;
use virt_ids::ByConn;
use virt_ids::sys_abi::ConnId;

/// Closes an end of a channel, and tells whether the channel has an open end then, or isn't there.
fn close_end(channels: &mut ByConn<Channel>, id: ConnId, side: u8) -> bool
    requires { side < 2 }
    ensures open { result ≡ words.stays_open side (map.get channels.old id) }
    ensures closed { channels.new ≡ words.with_closed side channels.old id }
{
    let Some(channel) = channels.get_mut(id) else {
        return true;
    };
    channel.close_end(side)
}

/// Closes an end of a channel, which is gone where no end of it is open then.
pub fn drop_end(channels: &mut ByConn<Channel>, id: ConnId, side: u8)
    requires { side < 2 }
    ensures { channels.new ≡ words.after_close side channels.old id }
{
    if !close_end(channels, id, side) {
        channels.remove(id);
    }
}

/// Closes the accepting end of each connection that waits, the oldest first.
pub fn drop_pending(channels: &mut ByConn<Channel>, mut queue: ConnQueue)
    ensures { channels.new ≡ words.after_closes ACCEPTING_SIDE channels.old queue }
{
    while let Some(id) = queue.pop_first() {
        drop_end(channels, id, ACCEPTING_SIDE);
    }
}
