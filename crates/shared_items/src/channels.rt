//! The list of channels.

ghost use Rattle.std.specs.Prelude.{◌≡◌};
ghost use Rattle.image_format.specs.Format.{counted, give, next, raw, unsigned, n8, n32};
ghost use Rattle.image_format.specs.Reading.{Gives, read};
ghost use Rattle.shared_items.specs.SharedFormat as format;
ghost use Rattle.shared_items.specs.SharedTests as field;

use crate::contents::{content_at, list_of};
use crate::item_tests::{
    INTERNET, PIPE, is_channel_count, is_channel_maker, is_channel_number, is_left_count,
    is_side_host, is_side_port,
};
use crate::{ChannelImage, SideImage};
use image_format::fields::{Fault, u8_at, u32_at};
use plain_tables::ChannelKind;
use std::alloc::Global;
use sys_abi::{ConnId, VPid, VirtAddr};
use views::list_of::ListOf;

fn kind_of(kind: u8) -> ChannelKind
    ensures { result ≡ format.channel_kind kind }
{
    match kind {
        0 => ChannelKind::Pair,
        INTERNET => ChannelKind::Internet,
        _ => ChannelKind::Pipe,
    }
}

fn address_of(kind: u8, host: u32, port: u32) -> Option<VirtAddr>
    ensures { result ≡ format.side_address kind host port }
{
    if kind == INTERNET {
        Some(VirtAddr { host, port })
    } else {
        None
    }
}

/// The flags of a side.
#[tactic(auto, unfolding(image_format::specs::Reading::read, image_format::specs::Reading::read_if))]
fn flags_at(text: &[u8]) -> Result<(u8, &[u8]), Fault>
    ensures { Gives (λ x. (x.0, x.1.now)) result (read (unsigned n8 field.is_side_flags) text.now) }
{
    let (flags, rest) = u8_at(text)?;
    if flags > 3 {
        return Err(Fault::Left(text.len()));
    }
    Ok((flags, rest))
}

/// What is left unread of a side of these flags, behind its number of bytes.
#[tactic(auto, unfolding(image_format::specs::Reading::read, image_format::specs::Reading::read_next, image_format::specs::Reading::read_if))]
fn left_at(kind: u8, side: u8, flags: u8, text: &[u8]) -> Result<(&[u8], &[u8]), Fault>
    ensures { Gives (λ x. (x.0.now, x.1.now)) result
        (read (next (unsigned n32 (field.is_left_count kind side flags)) (λ size. raw size field.are_bytes))
        text.now) }
{
    let (size, rest) = u32_at(text)?;
    if !is_left_count(kind, side, flags, size) {
        return Err(Fault::Left(text.len()));
    }
    content_at(rest, size as usize)
}

/// The address of a side, its host before its port.
#[tactic(auto, unfolding(image_format::specs::Reading::read, image_format::specs::Reading::read_next, image_format::specs::Reading::read_if))]
fn address_at(kind: u8, text: &[u8]) -> Result<(Option<VirtAddr>, &[u8]), Fault>
    ensures { Gives (λ x. (x.0, x.1.now)) result
        (read (next (unsigned n32 (field.is_side_host kind)) (λ host.
        next (unsigned n32 (field.is_side_port kind)) (λ port.
        give (format.side_address kind host port)))) text.now) }
{
    let (host, after_host) = u32_at(text)?;
    if !is_side_host(kind, host) {
        return Err(Fault::Left(text.len()));
    }
    let (port, rest) = u32_at(after_host)?;
    if !is_side_port(kind, port) {
        return Err(Fault::Left(after_host.len()));
    }
    Ok((address_of(kind, host, port), rest))
}

/// A side of a channel of this kind.
#[tactic(auto, unfolding(crate::specs::SharedFormat::side, image_format::specs::Reading::read, image_format::specs::Reading::read_next, image_format::specs::Reading::read_if))]
fn side_at(alloc: Global, kind: u8, side: u8, text: &[u8]) -> Result<(SideImage, &[u8]), Fault>
    ensures { Gives (λ x. (x.0, x.1.now)) result (read (format.side kind side) text.now) }
{
    let (flags, rest) = flags_at(text)?;
    let (left, rest) = left_at(kind, side, flags, rest)?;
    let (address, rest) = address_at(kind, rest)?;
    let image = SideImage {
        ended: flags % 2 == 1,
        unread: flags >= 2,
        left: list_of(alloc, left)?,
        address,
    };
    Ok((image, rest))
}

/// The name of a channel, above those before it.
#[tactic(auto, unfolding(image_format::specs::Reading::read, image_format::specs::Reading::read_next, image_format::specs::Reading::read_if))]
fn name_at<'a>(
    next_id: u32,
    front: &[ChannelImage],
    text: &'a [u8],
) -> Result<(ConnId, &'a [u8]), Fault>
    ensures { Gives (λ x. (x.0, x.1.now)) result
        (read (next (unsigned n32 (field.is_maker next_id (field.last_channel front.now))) (λ maker.
        next (unsigned n32 (field.is_number_after (field.last_channel front.now) maker)) (λ number.
        give (field.conn maker number)))) text.now) }
{
    let (maker, after_maker) = u32_at(text)?;
    if !is_channel_maker(next_id, front, maker) {
        return Err(Fault::Left(text.len()));
    }
    let (num, rest) = u32_at(after_maker)?;
    if !is_channel_number(front, maker, num) {
        return Err(Fault::Left(after_maker.len()));
    }
    let pid = VPid(maker);
    Ok((ConnId { pid, num }, rest))
}

/// The kind of a channel, as a number.
#[tactic(auto, unfolding(image_format::specs::Reading::read, image_format::specs::Reading::read_if))]
fn kind_at(text: &[u8]) -> Result<(u8, &[u8]), Fault>
    ensures { Gives (λ x. (x.0, x.1.now)) result (read (unsigned n8 field.is_channel_kind) text.now) }
{
    let (kind, rest) = u8_at(text)?;
    if kind > PIPE {
        return Err(Fault::Left(text.len()));
    }
    Ok((kind, rest))
}

#[tactic(auto, unfolding(crate::specs::SharedFormat::channel, image_format::specs::Reading::read, image_format::specs::Reading::read_next, image_format::specs::Reading::read_if))]
fn channel_at<'a>(
    alloc: Global,
    next_id: u32,
    front: &[ChannelImage],
    text: &'a [u8],
) -> Result<(ChannelImage, &'a [u8]), Fault>
    ensures { Gives (λ x. (x.0, x.1.now)) result (read (format.channel next_id front.now) text.now) }
{
    let (id, rest) = name_at(next_id, front, text)?;
    let (kind, rest) = kind_at(rest)?;
    let (first, rest) = side_at(alloc, kind, 0, rest)?;
    let (second, rest) = side_at(alloc, kind, 1, rest)?;
    let channel = ChannelImage {
        id,
        kind: kind_of(kind),
        first,
        second,
    };
    Ok((channel, rest))
}

#[tactic(auto, unfolding(image_format::specs::Format::counted, image_format::specs::Reading::read, image_format::specs::Reading::read_next, image_format::specs::Reading::read_if), using(image_format::proofs::Loop::goes_on, image_format::proofs::Loop::one_item, image_format::proofs::Loop::is_done))]
pub fn channels_at<'a>(
    alloc: Global,
    next_id: u32,
    text: &'a [u8],
) -> Result<(ListOf<ChannelImage>, &'a [u8]), Fault>
    ensures { Gives (λ x. (x.0, x.1.now)) result
        (read (counted field.is_channel_count (format.channel next_id)) text.now) }
{
    let (count, items) = u32_at(text)?;
    if !is_channel_count(count) {
        return Err(Fault::Left(text.len()));
    }
    let mut channels = ListOf::new(alloc);
    let mut rest = items;
    for _item in 0..count {
        let (channel, more) = channel_at(alloc, next_id, channels.as_slice(), rest)?;
        channels.push(channel)?;
        rest = more;
    }
    Ok((channels, rest))
}
