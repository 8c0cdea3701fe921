// The tests of fields of open descriptions, each after the fields before it.
ghost use Rattle.std.specs.Prelude.{◌≡◌};
ghost use Rattle.std.specs.List.{list_any};
ghost use Rattle.shared_items.specs.Sides.{same_channel};
ghost use Rattle.shared_items.specs.SharedTests as field;
ghost use Rattle.shared_items.specs.RisingLists.{ChannelsRise};
ghost use Rattle.shared_objects.specs.Known.{KnowsSides, KnowsPorts, KnowsQueue};

use id_maps::{ByAddress, ByConn, ByDir};
use plain_tables::ChannelKind;
use shared_items::found::channel_of;
use shared_items::item_tests::is_port;
use shared_items::{ChannelImage, DescriptionImage};
use sys_abi::flags::{O_APPEND, O_NONBLOCK};
use sys_abi::{ConnId, Dir, VirtAddr};

const ACCESS_MODE: u32 = 3;

pub fn is_description_maker(next_id: u32, front: &[DescriptionImage], maker: u32) -> bool
    ensures { result ≡ field.is_maker next_id (field.last_description front.now) maker }
{
    match front.last() {
        None => maker < next_id,
        Some(before) => before.id.pid.0 <= maker && maker < next_id,
    }
}

pub fn is_description_number(front: &[DescriptionImage], maker: u32, n: u32) -> bool
    ensures { result ≡ field.is_number_after (field.last_description front.now) maker n }
{
    match front.last() {
        None => true,
        Some(before) => before.id.pid.0 < maker || before.id.num < n,
    }
}

pub fn is_status_flags(flags: u32) -> bool
    ensures { result ≡ field.is_status_flags flags }
{
    flags & (ACCESS_MODE | O_APPEND | O_NONBLOCK) == flags && flags & ACCESS_MODE != ACCESS_MODE
}

pub fn is_channel(channels: &[ChannelImage], name: ConnId) -> bool
    requires { ChannelsRise channels.now }
    ensures { result ≡ field.is_channel channels.now name.pid.0 name.num }
{
    match channel_of(channels, name) {
        None => false,
        Some(_) => true,
    }
}

/// A pipe is written at side 0 and read at side 1.
fn fits_mode(kind: ChannelKind, flags: u32, side: u8) -> bool
    ensures { result ≡ field.fits_mode kind flags side }
{
    match kind {
        ChannelKind::Pipe => flags % 4 == (if side == 0 { 1 } else { 0 }),
        _ => true,
    }
}

fn has_end(channels: &[ChannelImage], name: ConnId, flags: u32, side: u8) -> bool
    requires { ChannelsRise channels.now }
    ensures { result ≡ list_any (field.has_end name flags side) channels.now }
{
    match channel_of(channels, name) {
        None => false,
        Some(channel) => fits_mode(channel.kind, flags, side),
    }
}

/// Whether a stream may be this side of the channel, which none of the descriptions so far names.
pub fn is_stream_side(
    channels: &[ChannelImage],
    front: &[DescriptionImage],
    sides: &ByDir<()>,
    flags: u32,
    name: ConnId,
    side: u8,
) -> bool
    requires channels { ChannelsRise channels.now }
    requires sides { KnowsSides sides.now front.now }
    ensures { result ≡ field.is_stream_side channels.now front.now flags name side }
{
    let _ = front;
    let end = Dir { conn: name, side };
    side <= 1 && has_end(channels, name, flags, side) && !sides.contains_key(end)
}

/// Whether a socket may have the port, which is 0 where it has none.
pub fn is_socket_port(
    front: &[DescriptionImage],
    ports: &ByAddress<()>,
    host: u32,
    port: u32,
) -> bool
    requires { KnowsPorts ports.now front.now }
    ensures { result ≡ field.is_socket_port front.now host port }
{
    let _ = front;
    is_port(port) && (port == 0 || !ports.contains_key(VirtAddr { host, port }))
}

pub fn is_listener_port(
    front: &[DescriptionImage],
    ports: &ByAddress<()>,
    host: u32,
    port: u32,
) -> bool
    requires { KnowsPorts ports.now front.now }
    ensures { result ≡ field.is_listener_port front.now host port }
{
    let _ = front;
    1 <= port && is_port(port) && !ports.contains_key(VirtAddr { host, port })
}

/// Whether so many connections may wait at a listener.
pub fn is_queue_count(backlog: u32, n: u32) -> bool
    ensures { result ≡ field.is_queue_count backlog n }
{
    n <= backlog
}

fn is_internet(kind: ChannelKind) -> bool
    ensures { result ≡ field.is_internet kind }
{
    match kind {
        ChannelKind::Internet => true,
        _ => false,
    }
}

fn is_connection(channels: &[ChannelImage], name: ConnId) -> bool
    requires { ChannelsRise channels.now }
    ensures { result ≡ list_any (field.is_connection name) channels.now }
{
    match channel_of(channels, name) {
        None => false,
        Some(channel) => is_internet(channel.kind),
    }
}

/// Whether the channel waits already.
fn is_queued(earlier: &[ConnId], queued: &ByConn<()>, name: ConnId) -> bool
    requires { KnowsQueue queued.now earlier.now }
    ensures { result ≡ list_any (same_channel name) earlier.now }
{
    let _ = earlier;
    queued.contains_key(name)
}

/// Whether the channel may wait at a listener behind the earlier ones.
pub fn is_pending_name(
    channels: &[ChannelImage],
    front: &[DescriptionImage],
    sides: &ByDir<()>,
    earlier: &[ConnId],
    queued: &ByConn<()>,
    name: ConnId,
) -> bool
    requires channels { ChannelsRise channels.now }
    requires sides { KnowsSides sides.now front.now }
    requires queue { KnowsQueue queued.now earlier.now }
    ensures { result ≡ field.is_pending_name channels.now front.now earlier.now name.pid.0 name.num }
{
    let _ = front;
    let accepting = Dir {
        conn: name,
        side: 1,
    };
    is_connection(channels, name)
        && !sides.contains_key(accepting)
        && !is_queued(earlier, queued, name)
}
