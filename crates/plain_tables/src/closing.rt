//! What the close of a side of a channel leaves, and a file that is no longer open.
ghost use Rattle.std.specs.Prelude.{◌≡◌, ◌-◌};
ghost use Rattle.plain_tables.specs.Closing as words;
ghost use Rattle.plain_tables.specs.Tables.{changed_at};
ghost use Rattle.plain_tables.specs.Objects as objects;

use crate::channel::{Channel, ChannelEnd, Direction};
use crate::description::{Description, Object};
use id_maps::sys_abi::{ConnId, Dir};
use id_maps::{ByConn, ByDesc, ByDir, ByName};
use plain_process::views::list_of::ListOf;
use plain_process::views::number_map::NumberMap;
use std::alloc::Global;

impl Channel {
    /// The end at side 0, or the other one.
    fn end(&self, side: u8) -> ChannelEnd
        ensures { result ≡ objects.end_of self.now side }
    {
        if side == 0 { self.first } else { self.second }
    }

    fn close(&mut self, side: u8)
        ensures { self.new ≡ words.with_closed side self.old }
    {
        if side == 0 {
            self.first.is_open = false;
        } else {
            self.second.is_open = false;
        }
    }
}

impl Direction {
    /// Nothing more is sent.
    fn end(&mut self)
        ensures { self.new ≡ words.with_end self.old }
    {
        self.ended = true;
    }

    /// Nothing more is read, and what was there is gone.
    fn stop_reading(&mut self, alloc: Global)
        ensures { self.new ≡ words.without_reader self.old }
    {
        self.left = ListOf::new(alloc);
        self.arrived = 0;
        self.unread = true;
    }
}

/// The side across: 1 for side 0.
fn across(side: u8) -> u8
    ensures { result ≡ 1 - side }
{
    if side == 0 { 1 } else { 0 }
}

/// Nothing more is sent in a direction that is there. Takes no memory.
pub fn end_at(directions: &mut ByDir<Direction>, at: Dir)
    ensures { directions.new ≡ changed_at directions.old at words.with_end }
{
    if let Some(direction) = directions.get_mut(at) {
        direction.end();
    }
}

/// Nothing more is read in a direction that is there. Takes no memory.
pub fn stop_reading_at(directions: &mut ByDir<Direction>, alloc: Global, at: Dir)
    ensures { directions.new ≡ changed_at directions.old at words.without_reader }
{
    if let Some(direction) = directions.get_mut(at) {
        direction.stop_reading(alloc);
    }
}

/// A side sends no more, and reads no more. Takes no memory.
#[tactic(auto, unfolding(crate::specs::Closing::silenced))]
pub fn quiet(directions: &mut ByDir<Direction>, alloc: Global, conn: ConnId, side: u8)
    ensures { directions.new ≡ words.silenced directions.old conn side }
{
    end_at(directions, Dir { conn, side });
    stop_reading_at(
        directions,
        alloc,
        Dir {
            conn,
            side: across(side),
        },
    );
}

fn close_at(channels: &mut ByConn<Channel>, conn: ConnId, side: u8)
    ensures { channels.new ≡ changed_at channels.old conn (words.with_closed side) }
{
    if let Some(channel) = channels.get_mut(conn) {
        channel.close(side);
    }
}

/// The channels after one of its sides closes; a channel of which no side is open is gone. Takes no memory.
#[tactic(auto, unfolding(crate::specs::Closing::closed_channels))]
pub fn close_channel(channels: &mut ByConn<Channel>, conn: ConnId, side: u8)
    ensures { channels.new ≡ words.closed_channels channels.old conn side }
{
    let Some(channel) = channels.get(conn).copied() else {
        return;
    };
    if channel.end(across(side)).is_open {
        close_at(channels, conn, side);
    } else {
        channels.remove(conn);
    }
}

/// The directions after a side of a channel closes, where `channels` are as they were before. Takes no
/// memory.
#[tactic(auto, unfolding(crate::specs::Closing::closed_directions))]
pub fn close_directions(
    channels: &ByConn<Channel>,
    directions: &mut ByDir<Direction>,
    alloc: Global,
    conn: ConnId,
    side: u8,
)
    ensures { directions.new ≡ words.closed_directions channels.now directions.old conn side }
{
    let Some(channel) = channels.get(conn).copied() else {
        return;
    };
    if channel.end(across(side)).is_open {
        quiet(directions, alloc, conn, side);
    } else {
        directions.remove(Dir { conn, side: 0 });
        directions.remove(Dir { conn, side: 1 });
    }
}

/// The accepting sides of connections close, one after the other. Takes no memory.
#[tactic(auto, unfolding(crate::specs::Closing::pending_channels, crate::specs::Closing::pending_directions))]
pub fn close_pending(
    channels: &mut ByConn<Channel>,
    directions: &mut ByDir<Direction>,
    alloc: Global,
    queue: &[ConnId],
)
    ensures channels { channels.new ≡ words.pending_channels channels.old queue.now }
    ensures directions { directions.new ≡ words.pending_directions channels.old directions.old queue.now }
{
    let mut rest = queue;
    while let Some((conn, later)) = rest.split_first() {
        close_directions(channels, directions, alloc, *conn, 1);
        close_channel(channels, *conn, 1);
        rest = later;
    }
}

fn has_name(names: &ByName<u32>, number: u32) -> bool
    ensures { result ≡ objects.has_name names.now number }
{
    names.values().any(|named| *named == number)
}

impl Object {
    fn is_file(&self, number: u32) -> bool
        ensures { result ≡ objects.is_file number self.now }
    {
        match *self {
            Object::File { number: open, .. } => open == number,
            _ => false,
        }
    }
}

fn is_open(descriptions: &ByDesc<Description>, number: u32) -> bool
    ensures { result ≡ objects.has_open descriptions.now number }
{
    descriptions
        .values()
        .any(|description| description.object.is_file(number))
}

/// A file without a name that is not open is gone. Takes no memory.
#[tactic(auto, unfolding(crate::specs::Closing::without_unkept))]
pub fn drop_unkept(
    names: &ByName<u32>,
    descriptions: &ByDesc<Description>,
    files: &mut NumberMap<ListOf<u8>>,
    number: u32,
)
    ensures { files.new ≡ words.without_unkept names.now descriptions.now files.old number }
{
    if has_name(names, number) {
        return;
    }
    if is_open(descriptions, number) {
        return;
    }
    files.remove(number);
}
