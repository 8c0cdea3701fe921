//! The files, channels and open descriptions that their images stand for.

ghost use Rattle.std.specs.Prelude.{◌≡◌, [], length, IfOk, OnOk, map as each};
ghost use Rattle.std.specs.FinMap as map;
ghost use Rattle.std.specs.List.{cons_option, filter_map, flat_map};
ghost use Rattle.image_codec.specs.KernelParts.{inserted, channel_entry, description_entry, direction_entries, file_entry, listening_of, name_entry, direction_of, object_of};
ghost use Rattle.image_codec.specs.NamedSides.{channel_by, has_side, named_sides, pending_side, sides_of};
ghost use Rattle.plain_tables.specs.Objects.{dir};

use id_maps::{ByAddress, ByConn, ByDesc, ByDir, ByName};
use plain_tables::{Channel, ChannelEnd, Description, Direction, Listening, Object};
use shared_items::{ChannelImage, DescriptionImage, FileImage, ObjectImage, SideImage};
use std::alloc::{AllocError, Global};
use sys_abi::{ConnId, Dir, VirtAddr};
use views::duplicate::Duplicate;
use views::list_of::ListOf;
use views::number_map::NumberMap;

/// The names of those files that have one.
#[tactic(auto, using(crate::proofs::Inserted::inserted_none, crate::proofs::Inserted::inserted_some))]
pub fn names_of(alloc: Global, images: &ListOf<FileImage>) -> Result<ByName<u32>, AllocError>
    ensures { IfOk result (λ names. names ≡ map.from_entries (filter_map name_entry images.now)) }
{
    let mut names = ByName::new(alloc);
    for image in images.iter().rev() {
        insert_name(alloc, &mut names, image)?;
    }
    Ok(names)
}

#[tactic(auto, using(crate::proofs::Inserted::unnamed, crate::proofs::Inserted::named))]
fn insert_name(alloc: Global, names: &mut ByName<u32>, image: &FileImage) -> Result<(), AllocError>
    ensures { OnOk result (names.new ≡ inserted (cons_option (name_entry image.now) []) names.old) }
{
    if image.name.is_empty() {
        return Ok(());
    }
    names.insert(image.name.duplicate(alloc)?, image.number)?;
    Ok(())
}

#[tactic(auto, using(crate::proofs::Inserted::inserted_none, crate::proofs::Inserted::inserted_one))]
pub fn files_of(
    alloc: Global,
    images: &ListOf<FileImage>,
) -> Result<NumberMap<ListOf<u8>>, AllocError>
    ensures { IfOk result (λ files. files ≡ map.from_entries (each file_entry images.now)) }
{
    let mut files = NumberMap::new(alloc);
    for image in images.iter().rev() {
        files.insert(image.number, image.bytes.duplicate(alloc)?)?;
    }
    Ok(files)
}

/// The channels, where a side that no description names is closed.
#[tactic(auto, using(crate::proofs::Inserted::inserted_none))]
pub fn channels_of(
    alloc: Global,
    images: &ListOf<ChannelImage>,
    descriptions: &ListOf<DescriptionImage>,
) -> Result<ByConn<Channel>, AllocError>
    ensures { IfOk result (λ channels.
        channels ≡ map.from_entries (each (channel_entry descriptions.now) images.now)) }
{
    let named = named_sides(alloc, descriptions)?;
    let mut channels = ByConn::new(alloc);
    for image in images.iter().rev() {
        channels.insert(image.id, channel_of(image, &named))?;
    }
    Ok(channels)
}

fn channel_of(image: &ChannelImage, named: &ByDir<()>) -> Channel
    ensures { result ≡ channel_by (has_side named.now) image.now }
{
    Channel {
        kind: image.kind,
        first: ChannelEnd {
            address: image.first.address,
            is_open: has_side(named, image.id, 0),
        },
        second: ChannelEnd {
            address: image.second.address,
            is_open: has_side(named, image.id, 1),
        },
    }
}

fn has_side(named: &ByDir<()>, conn: ConnId, side: u8) -> bool
    ensures { result ≡ has_side named.now conn side }
{
    named.contains_key(Dir { conn, side })
}

/// The sides of channels that descriptions name.
#[tactic(auto, using(crate::proofs::Inserted::inserted_none, crate::proofs::Inserted::inserted_group))]
fn named_sides(
    alloc: Global,
    descriptions: &ListOf<DescriptionImage>,
) -> Result<ByDir<()>, AllocError>
    ensures { IfOk result (λ named. named ≡ named_sides descriptions.now) }
{
    let mut named = ByDir::new(alloc);
    for description in descriptions.iter().rev() {
        insert_sides(&mut named, &description.object)?;
    }
    Ok(named)
}

fn insert_sides(named: &mut ByDir<()>, object: &ObjectImage) -> Result<(), AllocError>
    ensures { OnOk result (named.new ≡ inserted (sides_of object.now) named.old) }
{
    match object {
        ObjectImage::Stream { conn, side } => insert_side(named, *conn, *side),
        ObjectImage::Listener { pending, .. } => insert_pending(named, pending),
        _ => Ok(()),
    }
}

fn insert_side(named: &mut ByDir<()>, conn: ConnId, side: u8) -> Result<(), AllocError>
    ensures { OnOk result (named.new ≡ map.insert named.old (dir conn side) tt) }
{
    named.insert(Dir { conn, side }, ())?;
    Ok(())
}

/// Side 1 of each connection that waits.
#[tactic(auto, using(crate::proofs::Inserted::inserted_none, crate::proofs::Inserted::inserted_one))]
fn insert_pending(named: &mut ByDir<()>, pending: &ListOf<ConnId>) -> Result<(), AllocError>
    ensures { OnOk result (named.new ≡ inserted (each pending_side pending.now) named.old) }
{
    for conn in pending.iter().rev() {
        insert_side(named, *conn, 1)?;
    }
    Ok(())
}

/// The directions of the channels, all of whose bytes have arrived.
#[tactic(auto, using(crate::proofs::Inserted::inserted_none, crate::proofs::Inserted::inserted_group))]
pub fn directions_of(
    alloc: Global,
    images: &ListOf<ChannelImage>,
) -> Result<ByDir<Direction>, AllocError>
    ensures { IfOk result (λ directions.
        directions ≡ map.from_entries (flat_map direction_entries images.now)) }
{
    let mut directions = ByDir::new(alloc);
    for image in images.iter().rev() {
        insert_directions(alloc, &mut directions, image)?;
    }
    Ok(directions)
}

fn insert_directions(
    alloc: Global,
    directions: &mut ByDir<Direction>,
    image: &ChannelImage,
) -> Result<(), AllocError>
    ensures { OnOk result (directions.new ≡ inserted (direction_entries image.now) directions.old) }
{
    let first = direction_of(alloc, &image.first)?;
    let second = direction_of(alloc, &image.second)?;
    let conn = image.id;
    directions.insert(Dir { conn, side: 1 }, second)?;
    directions.insert(Dir { conn, side: 0 }, first)?;
    Ok(())
}

fn direction_of(alloc: Global, image: &SideImage) -> Result<Direction, AllocError>
    ensures { IfOk result (λ direction. direction ≡ direction_of image.now) }
{
    Ok(Direction {
        left: image.left.duplicate(alloc)?,
        arrived: image.left.len() as u64,
        ended: image.ended,
        unread: image.unread,
    })
}

#[tactic(auto, using(crate::proofs::Inserted::inserted_none, crate::proofs::Inserted::inserted_one))]
pub fn descriptions_of(
    alloc: Global,
    images: &ListOf<DescriptionImage>,
) -> Result<ByDesc<Description>, AllocError>
    ensures { IfOk result (λ descriptions.
        descriptions ≡ map.from_entries (each description_entry images.now)) }
{
    let mut descriptions = ByDesc::new(alloc);
    for image in images.iter().rev() {
        let description = Description {
            object: object_of(&image.object),
            flags: image.flags,
            owner: image.owner,
        };
        descriptions.insert(image.id, description)?;
    }
    Ok(descriptions)
}

fn object_of(image: &ObjectImage) -> Object
    ensures { result ≡ object_of image.now }
{
    match image {
        ObjectImage::Console => Object::Console,
        ObjectImage::File { number, offset } => Object::File {
            number: *number,
            offset: *offset,
        },
        ObjectImage::Stream { conn, side } => Object::Stream {
            conn: *conn,
            side: *side,
        },
        ObjectImage::Socket { address } => Object::Socket { address: *address },
        ObjectImage::Listener { address, .. } => Object::Listener { address: *address },
    }
}

/// The queue of each listener, under its address.
#[tactic(auto, using(crate::proofs::Inserted::inserted_none, crate::proofs::Inserted::inserted_some))]
pub fn listeners_of(
    alloc: Global,
    images: &ListOf<DescriptionImage>,
) -> Result<ByAddress<Listening>, AllocError>
    ensures { IfOk result (λ listeners.
        listeners ≡ map.from_entries (filter_map (λ it. listening_of it.object) images.now)) }
{
    let mut listeners = ByAddress::new(alloc);
    for image in images.iter().rev() {
        insert_listener(alloc, &mut listeners, &image.object)?;
    }
    Ok(listeners)
}

fn insert_listener(
    alloc: Global,
    listeners: &mut ByAddress<Listening>,
    object: &ObjectImage,
) -> Result<(), AllocError>
    ensures { OnOk result (listeners.new ≡ inserted (cons_option (listening_of object.now) []) listeners.old) }
{
    match object {
        ObjectImage::Listener {
            address,
            backlog,
            pending,
        } => {
            let listening = Listening {
                backlog: *backlog,
                queue: pending.duplicate(alloc)?,
            };
            listeners.insert(*address, listening)?;
            Ok(())
        }
        _ => Ok(()),
    }
}
