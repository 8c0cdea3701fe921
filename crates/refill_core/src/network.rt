//! Reading and sending as far as the network goes.
ghost use Rattle.std.specs.Prelude.{◌≡◌, ◌<◌, ◌≤◌, min, take, length, IfSome};
ghost use Rattle.std.specs.Option.{option_map_or};
ghost use Rattle.wire_channels.specs.Channels.{direction_at, at_direction};
ghost use Rattle.wire_channels.specs.Directions.{room, after_receive};
ghost use Rattle.wire_channels.specs.Answers.{received_on};
ghost use Rattle.refill_core.specs.Refills.{IsFlowing};
ghost use Rattle.refill_core.specs.Tasks as words;

use sys_abi::{Dir, Transfer};
use wire_net::Net;

/// Reads at most so many bytes, in the place of what the transfer holds. Answers how many.
pub(crate) fn receive_some(net: &mut Net, d: Dir, n: u32, transfer: &mut Transfer) -> u32
    requires side { d.side < 2 }
    requires fits { n ≤ 65536 }
    ensures count { result ≡ option_map_or (λ direction. min n (length direction.received)) (direction_at net.old.channels d) 0 }
    ensures piece { transfer.new ≡ take result (received_on (direction_at net.old.channels d)) }
    ensures net { net.new ≡ record net.old { channels = at_direction net.old.channels d (after_receive result) } }
{
    let Ok(count) = net.receive(d, n, transfer) else {
        transfer.clear();
        return 0;
    };
    count
}

/// Sends of the piece what there is room for. Answers how many bytes.
pub(crate) fn send_some(net: &mut Net, d: Dir, piece: &[u8]) -> u32
    requires side { d.side < 2 }
    requires flows { IfSome (direction_at net.old.channels d) IsFlowing }
    ensures count { result ≡ option_map_or (λ direction. min (length piece.now) (room direction)) (direction_at net.old.channels d) 0 }
    ensures net { net.new ≡ record net.old { channels = at_direction net.old.channels d (words.sent_on result piece.now) } }
{
    if piece.is_empty() {
        return 0;
    }
    let Ok(count) = net.send(d, piece) else {
        return 0;
    };
    count
}
