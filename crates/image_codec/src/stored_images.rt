//! The images of files and channels, in the order of their numbers.

ghost use Rattle.std.specs.Prelude.{◌≡◌, [], ◌∷◌, ◌++◌, IfOk, OnOk, map as each, unwrap_or};
ghost use Rattle.std.specs.FinMap as map;
ghost use Rattle.plain_tables.specs.Objects.{dir};
ghost use Rattle.image_codec.specs.KernelImages.{channel_image, file_image, names_by_number, side_image};

use id_maps::{ByDir, ByName};
use plain_machine::PlainKernel;
use plain_tables::{Channel, Direction};
use shared_items::{ChannelImage, FileImage, SideImage};
use std::alloc::{AllocError, Global};
use sys_abi::{ConnId, Dir, VirtAddr};
use views::duplicate::{Duplicate, duplicate_items};
use views::list_of::ListOf;
use views::number_map::NumberMap;

/// The files with their bytes, and with their names, where they have one.
pub fn file_images(alloc: Global, k: &PlainKernel) -> Result<ListOf<FileImage>, AllocError>
    ensures { IfOk result (λ images.
        images ≡ each (file_image (names_by_number k.now.names)) (map.entries k.now.files)) }
{
    let names = names_by_number(alloc, &k.names)?;
    named_files(alloc, &names, &k.files)
}

fn named_files(
    alloc: Global,
    names: &NumberMap<ListOf<u8>>,
    files: &NumberMap<ListOf<u8>>,
) -> Result<ListOf<FileImage>, AllocError>
    ensures { IfOk result (λ images. images ≡ each (file_image names.now) (map.entries files.now)) }
{
    let mut images = ListOf::new(alloc);
    for (number, bytes) in files.iter() {
        push_file(alloc, &mut images, names, *number, bytes)?;
    }
    Ok(images)
}

fn push_file(
    alloc: Global,
    images: &mut ListOf<FileImage>,
    names: &NumberMap<ListOf<u8>>,
    number: u32,
    bytes: &ListOf<u8>,
) -> Result<(), AllocError>
    ensures { OnOk result (images.new ≡ images.old ++ file_image names.now (number, bytes.now) ∷ []) }
{
    let name = name_of(alloc, names, number)?;
    let bytes = bytes.duplicate(alloc)?;
    images.push(FileImage {
        number,
        name,
        bytes,
    })
}

/// The names, each under the number to which it leads.
#[tactic(auto, using(crate::proofs::Inserted::inserted_none))]
fn names_by_number(alloc: Global, names: &ByName<u32>) -> Result<NumberMap<ListOf<u8>>, AllocError>
    ensures { IfOk result (λ found. found ≡ names_by_number names.now) }
{
    let mut found = NumberMap::new(alloc);
    for (name, number) in names.iter().rev() {
        insert_name(alloc, &mut found, *number, name.as_slice())?;
    }
    Ok(found)
}

fn insert_name(
    alloc: Global,
    names: &mut NumberMap<ListOf<u8>>,
    number: u32,
    name: &[u8],
) -> Result<(), AllocError>
    ensures { OnOk result (names.new ≡ map.insert names.old number name.now) }
{
    let copy = duplicate_items(name, alloc)?;
    names.insert(number, ListOf::from_vec(copy))?;
    Ok(())
}

fn name_of(
    alloc: Global,
    names: &NumberMap<ListOf<u8>>,
    number: u32,
) -> Result<ListOf<u8>, AllocError>
    ensures { IfOk result (λ name. name ≡ unwrap_or (map.get names.now number) []) }
{
    match names.get(number) {
        None => Ok(ListOf::new(alloc)),
        Some(name) => name.duplicate(alloc),
    }
}

/// The channels with both their directions.
pub fn channel_images(alloc: Global, k: &PlainKernel) -> Result<ListOf<ChannelImage>, AllocError>
    ensures { IfOk result (λ images.
        images ≡ each (channel_image k.now.directions) (map.entries k.now.channels)) }
{
    let mut images = ListOf::new(alloc);
    for (id, channel) in k.channels.iter() {
        push_channel(alloc, &mut images, &k.directions, *id, channel)?;
    }
    Ok(images)
}

fn push_channel(
    alloc: Global,
    images: &mut ListOf<ChannelImage>,
    directions: &ByDir<Direction>,
    id: ConnId,
    channel: &Channel,
) -> Result<(), AllocError>
    ensures { OnOk result (images.new ≡ images.old ++ channel_image directions.now (id, channel.now) ∷ []) }
{
    let first = side_image(alloc, directions, id, 0, channel.first.address)?;
    let second = side_image(alloc, directions, id, 1, channel.second.address)?;
    images.push(ChannelImage {
        id,
        kind: channel.kind,
        first,
        second,
    })
}

fn side_image(
    alloc: Global,
    directions: &ByDir<Direction>,
    conn: ConnId,
    side: u8,
    address: Option<VirtAddr>,
) -> Result<SideImage, AllocError>
    ensures { IfOk result (λ image. image ≡ side_image (map.get directions.now (dir conn side)) address) }
{
    match directions.get(Dir { conn, side }) {
        None => Ok(SideImage {
            ended: false,
            unread: false,
            left: ListOf::new(alloc),
            address,
        }),
        Some(direction) => Ok(SideImage {
            ended: direction.ended,
            unread: direction.unread,
            left: direction.left.duplicate(alloc)?,
            address,
        }),
    }
}
