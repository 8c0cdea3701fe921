//! The files and channels of a shared image, as bytes of its file.

ghost use Rattle.std.specs.Prelude.{◌≡◌, ◌^◌, ◌<◌, ◌++◌, length, All, OnOk};
ghost use Rattle.shared_items.specs.SharedFits.{host_number, number_of_kind, port_number, side_flags};
ghost use Rattle.shared_items.specs.SharedTexts.{HasFileCounts, HasSideCounts, address_text, channel_text, file_text, list_text, side_text};

use image_format::fields::{put_bytes, put_u8, put_u16, put_u32};
use plain_tables::ChannelKind;
use shared_items::{ChannelImage, FileImage, SideImage};
use std::alloc::AllocError;
use sys_abi::VirtAddr;

#[tactic(auto, unfolding(shared_items::specs::SharedTexts::file_text))]
fn put_file(bytes: &mut Vec<u8>, file: &FileImage) -> Result<(), AllocError>
    requires { HasFileCounts file.now }
    ensures { OnOk result (bytes.new.items ≡ bytes.old.items ++ file_text file.now) }
{
    put_u32(bytes, file.number)?;
    put_u16(bytes, file.name.len() as u16)?;
    put_bytes(bytes, file.name.as_slice())?;
    put_u32(bytes, file.bytes.len() as u32)?;
    put_bytes(bytes, file.bytes.as_slice())
}

#[tactic(auto, using(image_format::proofs::Writing::puts_none, image_format::proofs::Writing::puts_more, image_format::proofs::Writing::puts_all))]
pub fn put_files(bytes: &mut Vec<u8>, items: &[FileImage]) -> Result<(), AllocError>
    requires size { length items.now < 2 ^ 32 }
    requires counts { All HasFileCounts items.now }
    ensures { OnOk result (bytes.new.items ≡ bytes.old.items ++ list_text file_text items.now) }
{
    put_u32(bytes, items.len() as u32)?;
    for item in items {
        put_file(bytes, item)?;
    }
    Ok(())
}

fn kind_number(kind: ChannelKind) -> u8
    ensures { result ≡ number_of_kind kind }
{
    match kind {
        ChannelKind::Pair => 0,
        ChannelKind::Internet => 1,
        ChannelKind::Pipe => 2,
    }
}

/// 1 where it sends no more, 2 where nobody reads what it sends.
fn side_flags(side: &SideImage) -> u8
    ensures { result ≡ side_flags side.now }
{
    let ended = if side.ended { 1 } else { 0 };
    let unread = if side.unread { 2 } else { 0 };
    ended + unread
}

fn put_address(bytes: &mut Vec<u8>, address: Option<VirtAddr>) -> Result<(), AllocError>
    ensures { OnOk result (bytes.new.items ≡ bytes.old.items ++ address_text address) }
{
    let (host, port) = match address {
        None => (0xFFFF_FFFF, 0),
        Some(address) => (address.host, address.port),
    };
    put_u32(bytes, host)?;
    put_u32(bytes, port)
}

#[tactic(auto, unfolding(shared_items::specs::SharedTexts::side_text))]
fn put_side(bytes: &mut Vec<u8>, side: &SideImage) -> Result<(), AllocError>
    requires { length side.now.left < 2 ^ 32 }
    ensures { OnOk result (bytes.new.items ≡ bytes.old.items ++ side_text side.now) }
{
    put_u8(bytes, side_flags(side))?;
    put_u32(bytes, side.left.len() as u32)?;
    put_bytes(bytes, side.left.as_slice())?;
    put_address(bytes, side.address)
}

#[tactic(auto, unfolding(shared_items::specs::SharedTexts::channel_text))]
fn put_channel(bytes: &mut Vec<u8>, channel: &ChannelImage) -> Result<(), AllocError>
    requires { HasSideCounts channel.now }
    ensures { OnOk result (bytes.new.items ≡ bytes.old.items ++ channel_text channel.now) }
{
    put_u32(bytes, channel.id.pid.0)?;
    put_u32(bytes, channel.id.num)?;
    put_u8(bytes, kind_number(channel.kind))?;
    put_side(bytes, &channel.first)?;
    put_side(bytes, &channel.second)
}

#[tactic(auto, using(image_format::proofs::Writing::puts_none, image_format::proofs::Writing::puts_more, image_format::proofs::Writing::puts_all))]
pub fn put_channels(bytes: &mut Vec<u8>, items: &[ChannelImage]) -> Result<(), AllocError>
    requires size { length items.now < 2 ^ 32 }
    requires sides { All HasSideCounts items.now }
    ensures { OnOk result (bytes.new.items ≡ bytes.old.items ++ list_text channel_text items.now) }
{
    put_u32(bytes, items.len() as u32)?;
    for item in items {
        put_channel(bytes, item)?;
    }
    Ok(())
}
