//! What follows in an open description of each kind.

ghost use Rattle.std.specs.Prelude.{◌≡◌, OnOk};
ghost use Rattle.image_format.specs.Format.{counted, each};
ghost use Rattle.image_format.specs.Reading.{Gives, read};
ghost use Rattle.shared_items.specs.SharedFormat as format;
ghost use Rattle.shared_items.specs.SharedTests as field;
ghost use Rattle.shared_items.specs.RisingLists.{FilesRise, ChannelsRise};
ghost use Rattle.shared_objects.specs.Known.{KnowsSides, KnowsPorts, KnowsQueue};

use crate::object_tests::{
    is_channel, is_listener_port, is_pending_name, is_queue_count, is_socket_port, is_stream_side,
};
use id_maps::{ByAddress, ByConn, ByDir};
use image_format::fields::{Fault, u8_at, u32_at};
use shared_items::found::has_file;
use shared_items::item_tests::is_host;
use shared_items::{ChannelImage, DescriptionImage, FileImage, ObjectImage};
use std::alloc::Global;
use sys_abi::{ConnId, VPid, VirtAddr};
use views::list_of::ListOf;

#[tactic(auto, unfolding(shared_items::specs::SharedFormat::open_file, image_format::specs::Reading::read, image_format::specs::Reading::read_next, image_format::specs::Reading::read_if))]
pub fn file_object_at<'a>(
    files: &[FileImage],
    text: &'a [u8],
) -> Result<(ObjectImage, &'a [u8]), Fault>
    requires { FilesRise files.now }
    ensures { Gives (λ x. (x.0, x.1.now)) result (read (format.open_file files.now) text.now) }
{
    let (number, after_number) = u32_at(text)?;
    if !has_file(files, number) {
        return Err(Fault::Left(text.len()));
    }
    let (offset, rest) = u32_at(after_number)?;
    Ok((ObjectImage::File { number, offset }, rest))
}

#[tactic(auto, unfolding(shared_items::specs::SharedFormat::stream, image_format::specs::Reading::read, image_format::specs::Reading::read_next, image_format::specs::Reading::read_if))]
pub fn stream_at<'a>(
    channels: &[ChannelImage],
    front: &[DescriptionImage],
    sides: &ByDir<()>,
    flags: u32,
    text: &'a [u8],
) -> Result<(ObjectImage, &'a [u8]), Fault>
    requires channels { ChannelsRise channels.now }
    requires sides { KnowsSides sides.now front.now }
    ensures { Gives (λ x. (x.0, x.1.now)) result
        (read (format.stream channels.now front.now flags) text.now) }
{
    let (maker, after_maker) = u32_at(text)?;
    let (num, after_pair) = u32_at(after_maker)?;
    let conn = ConnId {
        pid: VPid(maker),
        num,
    };
    if !is_channel(channels, conn) {
        return Err(Fault::Left(after_maker.len()));
    }
    let (side, rest) = u8_at(after_pair)?;
    if !is_stream_side(channels, front, sides, flags, conn, side) {
        return Err(Fault::Left(after_pair.len()));
    }
    Ok((ObjectImage::Stream { conn, side }, rest))
}

#[tactic(auto, unfolding(shared_items::specs::SharedFormat::socket, image_format::specs::Reading::read, image_format::specs::Reading::read_next, image_format::specs::Reading::read_if))]
pub fn socket_at<'a>(
    front: &[DescriptionImage],
    ports: &ByAddress<()>,
    text: &'a [u8],
) -> Result<(ObjectImage, &'a [u8]), Fault>
    requires { KnowsPorts ports.now front.now }
    ensures { Gives (λ x. (x.0, x.1.now)) result (read (format.socket front.now) text.now) }
{
    let (host, after_host) = u32_at(text)?;
    if !is_host(host) {
        return Err(Fault::Left(text.len()));
    }
    let (port, rest) = u32_at(after_host)?;
    if !is_socket_port(front, ports, host, port) {
        return Err(Fault::Left(after_host.len()));
    }
    let address = VirtAddr { host, port };
    Ok((ObjectImage::Socket { address }, rest))
}

/// A connection that waits to be accepted.
#[tactic(auto, unfolding(shared_items::specs::SharedFormat::connection, image_format::specs::Reading::read, image_format::specs::Reading::read_next, image_format::specs::Reading::read_if))]
fn connection_at<'a>(
    channels: &[ChannelImage],
    front: &[DescriptionImage],
    sides: &ByDir<()>,
    earlier: &[ConnId],
    queued: &ByConn<()>,
    text: &'a [u8],
) -> Result<(ConnId, &'a [u8]), Fault>
    requires channels { ChannelsRise channels.now }
    requires sides { KnowsSides sides.now front.now }
    requires queue { KnowsQueue queued.now earlier.now }
    ensures { Gives (λ x. (x.0, x.1.now)) result
        (read (format.connection channels.now front.now earlier.now) text.now) }
{
    let (maker, after_maker) = u32_at(text)?;
    let (num, rest) = u32_at(after_maker)?;
    let conn = ConnId {
        pid: VPid(maker),
        num,
    };
    if !is_pending_name(channels, front, sides, earlier, queued, conn) {
        return Err(Fault::Left(after_maker.len()));
    }
    Ok((conn, rest))
}

/// Reads one more connection that waits behind the earlier ones.
#[tactic(auto, unfolding(image_format::specs::Format::each, image_format::specs::Reading::read, image_format::specs::Reading::read_next))]
fn add_connection<'a>(
    channels: &[ChannelImage],
    front: &[DescriptionImage],
    sides: &ByDir<()>,
    pending: &mut ListOf<ConnId>,
    queued: &mut ByConn<()>,
    text: &'a [u8],
) -> Result<&'a [u8], Fault>
    requires channels { ChannelsRise channels.now }
    requires sides { KnowsSides sides.now front.now }
    requires queue { KnowsQueue queued.old pending.old }
    ensures read { Gives (λ rest. (pending.new, rest.now)) result
        (read (each (format.connection channels.now front.now) 1 pending.old) text.now) }
    ensures queue { OnOk result (KnowsQueue queued.new pending.new) }
{
    let (conn, rest) = connection_at(channels, front, sides, pending.as_slice(), queued, text)?;
    queued.insert(conn, ())?;
    pending.push(conn)?;
    Ok(rest)
}

#[tactic(auto, unfolding(image_format::specs::Format::counted, image_format::specs::Reading::read, image_format::specs::Reading::read_next, image_format::specs::Reading::read_if), using(shared_items::proofs::OneMore::one_more, image_format::proofs::Loop::is_done))]
fn queue_at<'a>(
    alloc: Global,
    channels: &[ChannelImage],
    front: &[DescriptionImage],
    sides: &ByDir<()>,
    backlog: u32,
    text: &'a [u8],
) -> Result<(ListOf<ConnId>, &'a [u8]), Fault>
    requires channels { ChannelsRise channels.now }
    requires sides { KnowsSides sides.now front.now }
    ensures { Gives (λ x. (x.0, x.1.now)) result
        (read (counted (field.is_queue_count backlog) (format.connection channels.now front.now))
        text.now) }
{
    let (count, items) = u32_at(text)?;
    if !is_queue_count(backlog, count) {
        return Err(Fault::Left(text.len()));
    }
    let mut queued = ByConn::new(alloc);
    let mut pending = ListOf::new(alloc);
    let mut rest = items;
    for _item in 0..count {
        rest = add_connection(channels, front, sides, &mut pending, &mut queued, rest)?;
    }
    Ok((pending, rest))
}

#[tactic(auto, unfolding(shared_items::specs::SharedFormat::listener, image_format::specs::Reading::read, image_format::specs::Reading::read_next, image_format::specs::Reading::read_if))]
pub fn listener_at<'a>(
    alloc: Global,
    channels: &[ChannelImage],
    front: &[DescriptionImage],
    sides: &ByDir<()>,
    ports: &ByAddress<()>,
    text: &'a [u8],
) -> Result<(ObjectImage, &'a [u8]), Fault>
    requires channels { ChannelsRise channels.now }
    requires sides { KnowsSides sides.now front.now }
    requires ports { KnowsPorts ports.now front.now }
    ensures { Gives (λ x. (x.0, x.1.now)) result
        (read (format.listener channels.now front.now) text.now) }
{
    let (host, after_host) = u32_at(text)?;
    if !is_host(host) {
        return Err(Fault::Left(text.len()));
    }
    let (port, after_port) = u32_at(after_host)?;
    if !is_listener_port(front, ports, host, port) {
        return Err(Fault::Left(after_host.len()));
    }
    let (backlog, after_backlog) = u32_at(after_port)?;
    let (pending, rest) = queue_at(alloc, channels, front, sides, backlog, after_backlog)?;
    let listener = ObjectImage::Listener {
        address: VirtAddr { host, port },
        backlog,
        pending,
    };
    Ok((listener, rest))
}
