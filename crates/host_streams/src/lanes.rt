//! What stands in a direction of a channel, and whether it moves on.
ghost use Rattle.std.specs.Prelude.{◌≡◌, ◌<◌, ◌≤◌};
ghost use Rattle.host_streams.specs.Lanes as words;

use sys_abi::Dir;
use wire_net::Net;

/// How many bytes can be read of the direction.
pub(crate) fn received_at(net: &Net, d: Dir) -> u32
    requires { d.side < 2 }
    ensures count { result ≡ words.received_at net.now d }
    ensures few { result ≤ 65536 }
{
    net.counts(d)[2]
}

/// How many bytes stand in the direction.
pub(crate) fn standing_at(net: &Net, d: Dir) -> u32
    requires { d.side < 2 }
    ensures { result ≡ words.standing_at net.now d }
{
    let counts = net.counts(d);
    counts[0] + counts[1] + counts[2]
}

/// Whether nothing more is sent, or nobody reads.
pub(crate) fn is_broken_at(net: &Net, d: Dir) -> bool
    requires { d.side < 2 }
    ensures { result ≡ words.is_broken_at net.now d }
{
    let is_unread = net.is_unread(d);
    net.is_ended(d) || is_unread
}
