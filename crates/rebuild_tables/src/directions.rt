//! One direction of a channel that was just made.
ghost use Rattle.std.specs.Prelude.{◌≡◌, ◌<◌, ◌≤◌, length, Some};
ghost use Rattle.std.specs.FinMap as map;
ghost use Rattle.views.specs.Limits.{DIRECTION_LIMIT};
ghost use Rattle.plain_machine.specs.Kernels.{IsKernel};
ghost use Rattle.plain_tables.specs.Valid.Channels.{IsDirection};
ghost use Rattle.wire_channels.specs.Channels as channels;
ghost use Rattle.wire_channels.specs.Directions.{unused};
ghost use Rattle.rebuild_tables.specs.Steps as words;

use plain_machine::PlainKernel;
use plain_tables::channel::Direction;
use sys_abi::Dir;
use wire_net::{Net, Place};

/// Gives a direction on which nothing was sent these bytes, and moves them to where they can be read. Takes
/// no memory.
fn put_bytes(net: &mut Net, d: Dir, bytes: &[u8])
    requires side { d.side < 2 }
    requires fits { length bytes.now ≤ DIRECTION_LIMIT }
    requires new { channels.direction_at net.old.channels d ≡ Some unused }
    ensures { net.new ≡ record net.old {
      channels = words.with_direction net.old.channels d (words.with_bytes bytes.now);
    } }
{
    let Ok(count) = net.send(d, bytes) else {
        unreachable!()
    };
    net.move_bytes(d, Place::Send, count);
    net.move_bytes(d, Place::Wire, count);
}

/// Ends the direction, if that is asked.
fn end_if(net: &mut Net, d: Dir, is_ended: bool)
    requires { d.side < 2 }
    ensures { net.new ≡ record net.old {
      channels = channels.at_direction net.old.channels d (words.ended_if is_ended);
    } }
{
    if !is_ended {
        return;
    }
    net.end(d);
}

/// The receiver of the direction reads no more, if that is asked.
fn stop_reading_if(net: &mut Net, d: Dir, is_unread: bool)
    requires { d.side < 2 }
    ensures { net.new ≡ record net.old {
      channels = channels.at_direction net.old.channels d (words.unread_if is_unread);
    } }
{
    if !is_unread {
        return;
    }
    net.stop_reading(d);
}

/// A direction on which nothing was sent becomes as the kernel part's.
fn fill_as(net: &mut Net, d: Dir, direction: &Direction)
    requires side { d.side < 2 }
    requires whole { IsDirection direction.now }
    requires new { channels.direction_at net.old.channels d ≡ Some unused }
    ensures { net.new ≡ record net.old {
      channels = words.with_direction net.old.channels d (words.filled_as direction.now);
    } }
{
    put_bytes(net, d, direction.left.as_slice());
    end_if(net, d, direction.ended);
    stop_reading_if(net, d, direction.unread);
}

/// Likewise for the direction of this name, if the kernel part has it.
pub(crate) fn fill_direction(net: &mut Net, kernel: &PlainKernel, d: Dir)
    requires side { d.side < 2 }
    requires whole { IsKernel kernel.now }
    requires new { channels.direction_at net.old.channels d ≡ Some unused }
    ensures { net.new ≡ record net.old {
      channels = words.with_direction net.old.channels d (words.filled (map.get kernel.now.directions d));
    } }
{
    let Some(direction) = kernel.directions.get(d) else {
        return;
    };
    fill_as(net, d, direction);
}
