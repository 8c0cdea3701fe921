//! The open descriptions of a shared image, as bytes of its file.

ghost use Rattle.std.specs.Prelude.{◌≡◌, ◌^◌, ◌<◌, ◌++◌, length, All, OnOk};
ghost use Rattle.image_format.specs.Format.{n8, n32, number_text};
ghost use Rattle.shared_items.specs.SharedFits.{kind_of};
ghost use Rattle.shared_items.specs.SharedTexts.{HasQueueCount, connection_text, description_text, list_text, object_text};

use image_format::fields::{put_u8, put_u32};
use shared_items::{DescriptionImage, ObjectImage};
use std::alloc::AllocError;
use sys_abi::{ConnId, VirtAddr};

fn kind_of(object: &ObjectImage) -> u8
    ensures { result ≡ kind_of object.now }
{
    match object {
        ObjectImage::Console => 0,
        ObjectImage::File { .. } => 1,
        ObjectImage::Stream { .. } => 2,
        ObjectImage::Socket { .. } => 3,
        ObjectImage::Listener { .. } => 4,
    }
}

#[tactic(auto, unfolding(shared_items::specs::SharedTexts::connection_text))]
fn put_connection(bytes: &mut Vec<u8>, conn: ConnId) -> Result<(), AllocError>
    ensures { OnOk result (bytes.new.items ≡ bytes.old.items ++ connection_text conn) }
{
    put_u32(bytes, conn.pid.0)?;
    put_u32(bytes, conn.num)
}

#[tactic(auto, using(image_format::proofs::Writing::puts_none, image_format::proofs::Writing::puts_more, image_format::proofs::Writing::puts_all))]
fn put_queue(bytes: &mut Vec<u8>, items: &[ConnId]) -> Result<(), AllocError>
    requires { length items.now < 2 ^ 32 }
    ensures { OnOk result (bytes.new.items ≡ bytes.old.items ++ list_text connection_text items.now) }
{
    put_u32(bytes, items.len() as u32)?;
    for item in items {
        put_connection(bytes, *item)?;
    }
    Ok(())
}

fn put_pair(bytes: &mut Vec<u8>, first: u32, second: u32) -> Result<(), AllocError>
    ensures { OnOk result (bytes.new.items
        ≡ bytes.old.items ++ number_text n32 first ++ number_text n32 second) }
{
    put_u32(bytes, first)?;
    put_u32(bytes, second)
}

/// What follows in a description after its owner.
#[tactic(auto, unfolding(shared_items::specs::SharedTexts::object_text))]
fn put_object(bytes: &mut Vec<u8>, object: &ObjectImage) -> Result<(), AllocError>
    requires { HasQueueCount object.now }
    ensures { OnOk result (bytes.new.items ≡ bytes.old.items ++ object_text object.now) }
{
    match object {
        ObjectImage::Console => Ok(()),
        ObjectImage::File { number, offset } => put_pair(bytes, *number, *offset),
        ObjectImage::Stream { conn, side } => put_stream(bytes, *conn, *side),
        ObjectImage::Socket { address } => put_pair(bytes, address.host, address.port),
        ObjectImage::Listener {
            address,
            backlog,
            pending,
        } => put_listener(bytes, *address, *backlog, pending.as_slice()),
    }
}

fn put_stream(bytes: &mut Vec<u8>, conn: ConnId, side: u8) -> Result<(), AllocError>
    ensures { OnOk result (bytes.new.items ≡ bytes.old.items ++ connection_text conn ++ number_text n8 side) }
{
    put_connection(bytes, conn)?;
    put_u8(bytes, side)
}

fn put_listener(
    bytes: &mut Vec<u8>,
    address: VirtAddr,
    backlog: u32,
    pending: &[ConnId],
) -> Result<(), AllocError>
    requires { length pending.now < 2 ^ 32 }
    ensures { OnOk result (bytes.new.items
        ≡ bytes.old.items ++ number_text n32 address.host ++ number_text n32 address.port
        ++ number_text n32 backlog ++ list_text connection_text pending.now) }
{
    put_u32(bytes, address.host)?;
    put_u32(bytes, address.port)?;
    put_u32(bytes, backlog)?;
    put_queue(bytes, pending)
}

#[tactic(auto, unfolding(shared_items::specs::SharedTexts::description_text))]
fn put_description(bytes: &mut Vec<u8>, description: &DescriptionImage) -> Result<(), AllocError>
    requires { HasQueueCount description.now.object }
    ensures { OnOk result (bytes.new.items ≡ bytes.old.items ++ description_text description.now) }
{
    put_u32(bytes, description.id.pid.0)?;
    put_u32(bytes, description.id.num)?;
    put_u8(bytes, kind_of(&description.object))?;
    put_u32(bytes, description.flags)?;
    put_u32(bytes, description.owner)?;
    put_object(bytes, &description.object)
}

#[tactic(auto, using(image_format::proofs::Writing::puts_none, image_format::proofs::Writing::puts_more, image_format::proofs::Writing::puts_all))]
pub fn put_descriptions(bytes: &mut Vec<u8>, items: &[DescriptionImage]) -> Result<(), AllocError>
    requires size { length items.now < 2 ^ 32 }
    requires queues { All (λ it. HasQueueCount it.object) items.now }
    ensures { OnOk result (bytes.new.items ≡ bytes.old.items ++ list_text description_text items.now) }
{
    put_u32(bytes, items.len() as u32)?;
    for item in items {
        put_description(bytes, item)?;
    }
    Ok(())
}
