//! The list of open descriptions.

ghost use Rattle.std.specs.Prelude.{◌≡◌, IfOk, IsTrue, OnOk};
ghost use Rattle.image_format.specs.Format.{any, counted, each, give, next, unsigned, n8, n32};
ghost use Rattle.image_format.specs.Reading.{Gives, read};
ghost use Rattle.shared_items.specs.SharedFormat as format;
ghost use Rattle.shared_items.specs.SharedTests as field;
ghost use Rattle.shared_items.specs.RisingLists.{FilesRise, ChannelsRise};
ghost use Rattle.shared_objects.specs.Known.{KnowsSides, KnowsPorts};

use crate::known::{note_port, note_sides};
use crate::object_tests::{is_description_maker, is_description_number, is_status_flags};
use crate::objects::{file_object_at, listener_at, socket_at, stream_at};
use id_maps::{ByAddress, ByDir};
use image_format::fields::{Fault, u8_at, u32_at};
use shared_items::{ChannelImage, DescriptionImage, FileImage, ObjectImage};
use std::alloc::Global;
use sys_abi::{DescId, VPid};
use views::list_of::ListOf;

const LAST_KIND: u8 = 4;

/// What the tests of a description look up: the files, the channels, and of the descriptions before it the
/// sides of channels that they name and the addresses that they have.
#[derive(Drop)]
struct Known<'a> {
    files: &'a [FileImage],
    channels: &'a [ChannelImage],
    sides: ByDir<()>,
    ports: ByAddress<()>,
}

/// The name of a description, above those before it.
#[tactic(auto, unfolding(image_format::specs::Reading::read, image_format::specs::Reading::read_next, image_format::specs::Reading::read_if))]
fn name_at<'a>(
    next_id: u32,
    front: &[DescriptionImage],
    text: &'a [u8],
) -> Result<(DescId, &'a [u8]), Fault>
    ensures { Gives (λ x. (x.0, x.1.now)) result
        (read (next (unsigned n32 (field.is_maker next_id (field.last_description front.now))) (λ maker.
        next (unsigned n32 (field.is_number_after (field.last_description front.now) maker)) (λ number.
        give (format.desc maker number)))) text.now) }
{
    let (maker, after_maker) = u32_at(text)?;
    if !is_description_maker(next_id, front, maker) {
        return Err(Fault::Left(text.len()));
    }
    let (num, rest) = u32_at(after_maker)?;
    if !is_description_number(front, maker, num) {
        return Err(Fault::Left(after_maker.len()));
    }
    let pid = VPid(maker);
    Ok((DescId { pid, num }, rest))
}

/// The kind of a description, as a number.
#[tactic(auto, unfolding(image_format::specs::Reading::read, image_format::specs::Reading::read_if))]
fn kind_at(version: u32, text: &[u8]) -> Result<(u8, &[u8]), Fault>
    ensures read { Gives (λ x. (x.0, x.1.now)) result
        (read (unsigned n8 (field.is_object_kind version)) text.now) }
    ensures kind { IfOk result (λ x. IsTrue (field.is_object_kind version x.0)) }
{
    let _ = version;
    let (kind, rest) = u8_at(text)?;
    if kind > LAST_KIND {
        return Err(Fault::Left(text.len()));
    }
    Ok((kind, rest))
}

/// The status flags of a description.
#[tactic(auto, unfolding(image_format::specs::Reading::read, image_format::specs::Reading::read_if))]
fn flags_at(text: &[u8]) -> Result<(u32, &[u8]), Fault>
    ensures { Gives (λ x. (x.0, x.1.now)) result (read (unsigned n32 field.is_status_flags) text.now) }
{
    let (flags, rest) = u32_at(text)?;
    if !is_status_flags(flags) {
        return Err(Fault::Left(text.len()));
    }
    Ok((flags, rest))
}

/// What follows in a description of this kind.
#[tactic(auto, unfolding(shared_items::specs::SharedFormat::object, shared_items::specs::SharedFormat::choice, image_format::specs::Reading::read))]
fn object_at<'a>(
    alloc: Global,
    version: u32,
    known: &Known<'_>,
    front: &[DescriptionImage],
    kind: u8,
    flags: u32,
    text: &'a [u8],
) -> Result<(ObjectImage, &'a [u8]), Fault>
    requires files { FilesRise known.now.files.now }
    requires channels { ChannelsRise known.now.channels.now }
    requires sides { KnowsSides known.now.sides front.now }
    requires ports { KnowsPorts known.now.ports front.now }
    requires kind { IsTrue (field.is_object_kind version kind) }
    ensures { Gives (λ x. (x.0, x.1.now)) result
        (read (format.object version known.now.files.now known.now.channels.now front.now kind flags) text.now) }
{
    let _ = version;
    match kind {
        0 => Ok((ObjectImage::Console, text)),
        1 => file_object_at(known.files, text),
        2 => stream_at(known.channels, front, &known.sides, flags, text),
        3 => socket_at(front, &known.ports, text),
        _ => listener_at(
            alloc,
            known.channels,
            front,
            &known.sides,
            &known.ports,
            text,
        ),
    }
}

/// What follows in a description of this name and kind: its flags, its owner and its object.
#[tactic(auto, unfolding(image_format::specs::Reading::read, image_format::specs::Reading::read_next))]
fn opened_at<'a>(
    alloc: Global,
    version: u32,
    known: &Known<'_>,
    front: &[DescriptionImage],
    id: DescId,
    kind: u8,
    text: &'a [u8],
) -> Result<(DescriptionImage, &'a [u8]), Fault>
    requires files { FilesRise known.now.files.now }
    requires channels { ChannelsRise known.now.channels.now }
    requires sides { KnowsSides known.now.sides front.now }
    requires ports { KnowsPorts known.now.ports front.now }
    requires kind { IsTrue (field.is_object_kind version kind) }
    ensures { Gives (λ x. (x.0, x.1.now)) result
        (read (next (unsigned n32 field.is_status_flags) (λ flags.
        next (unsigned n32 any) (λ owner.
        next (format.object version known.now.files.now known.now.channels.now front.now kind flags) (λ what.
        give (record { id = id; object = what; flags = flags; owner = owner }))))) text.now) }
{
    let (flags, rest) = flags_at(text)?;
    let (owner, rest) = u32_at(rest)?;
    let (object, rest) = object_at(alloc, version, known, front, kind, flags, rest)?;
    let description = DescriptionImage {
        id,
        object,
        flags,
        owner,
    };
    Ok((description, rest))
}

#[tactic(auto, unfolding(shared_items::specs::SharedFormat::description, image_format::specs::Reading::read, image_format::specs::Reading::read_next, image_format::specs::Reading::read_if))]
fn description_at<'a>(
    alloc: Global,
    version: u32,
    next_id: u32,
    known: &Known<'_>,
    front: &[DescriptionImage],
    text: &'a [u8],
) -> Result<(DescriptionImage, &'a [u8]), Fault>
    requires files { FilesRise known.now.files.now }
    requires channels { ChannelsRise known.now.channels.now }
    requires sides { KnowsSides known.now.sides front.now }
    requires ports { KnowsPorts known.now.ports front.now }
    ensures { Gives (λ x. (x.0, x.1.now)) result
        (read (format.description version next_id known.now.files.now known.now.channels.now front.now)
        text.now) }
{
    let (id, rest) = name_at(next_id, front, text)?;
    let (kind, rest) = kind_at(version, rest)?;
    opened_at(alloc, version, known, front, id, kind, rest)
}

/// Reads one more description, and notes what it names.
#[tactic(auto, unfolding(image_format::specs::Format::each, image_format::specs::Reading::read, image_format::specs::Reading::read_next))]
fn add_description<'a>(
    alloc: Global,
    version: u32,
    next_id: u32,
    known: &mut Known<'_>,
    descriptions: &mut ListOf<DescriptionImage>,
    text: &'a [u8],
) -> Result<&'a [u8], Fault>
    requires files { FilesRise known.old.files.now }
    requires channels { ChannelsRise known.old.channels.now }
    requires sides { KnowsSides known.old.sides descriptions.old }
    requires ports { KnowsPorts known.old.ports descriptions.old }
    ensures read { Gives (λ rest. (descriptions.new, rest.now)) result
        (read (each (format.description version next_id known.old.files.now known.old.channels.now) 1
        descriptions.old) text.now) }
    ensures files { OnOk result (known.new.files.now ≡ known.old.files.now) }
    ensures channels { OnOk result (known.new.channels.now ≡ known.old.channels.now) }
    ensures sides { OnOk result (KnowsSides known.new.sides descriptions.new) }
    ensures ports { OnOk result (KnowsPorts known.new.ports descriptions.new) }
{
    let front = descriptions.as_slice();
    let (description, rest) = description_at(alloc, version, next_id, known, front, text)?;
    note_sides(&mut known.sides, &description.object)?;
    note_port(&mut known.ports, &description.object)?;
    descriptions.push(description)?;
    Ok(rest)
}

/// Reads so many more descriptions.
#[tactic(auto, using(shared_items::proofs::OneMore::one_more, image_format::proofs::Loop::is_done), unfolding(image_format::specs::Reading::read_next))]
fn add_descriptions<'a>(
    alloc: Global,
    version: u32,
    next_id: u32,
    known: &mut Known<'_>,
    descriptions: &mut ListOf<DescriptionImage>,
    count: u32,
    text: &'a [u8],
) -> Result<&'a [u8], Fault>
    requires files { FilesRise known.old.files.now }
    requires channels { ChannelsRise known.old.channels.now }
    requires sides { KnowsSides known.old.sides descriptions.old }
    requires ports { KnowsPorts known.old.ports descriptions.old }
    ensures { Gives (λ rest. (descriptions.new, rest.now)) result
        (read (each (format.description version next_id known.old.files.now known.old.channels.now) count
        descriptions.old) text.now) }
{
    let mut rest = text;
    for _item in 0..count {
        rest = add_description(alloc, version, next_id, known, descriptions, rest)?;
    }
    Ok(rest)
}

#[tactic(auto, unfolding(image_format::specs::Format::counted, image_format::specs::Reading::read, image_format::specs::Reading::read_next, image_format::specs::Reading::read_if))]
pub fn descriptions_at<'a>(
    alloc: Global,
    version: u32,
    next_id: u32,
    files: &[FileImage],
    channels: &[ChannelImage],
    text: &'a [u8],
) -> Result<(ListOf<DescriptionImage>, &'a [u8]), Fault>
    requires files { FilesRise files.now }
    requires channels { ChannelsRise channels.now }
    ensures { Gives (λ x. (x.0, x.1.now)) result
        (read (counted any (format.description version next_id files.now channels.now)) text.now) }
{
    let (count, items) = u32_at(text)?;
    let mut known = Known {
        files,
        channels,
        sides: ByDir::new(alloc),
        ports: ByAddress::new(alloc),
    };
    let mut descriptions = ListOf::new(alloc);
    let rest = add_descriptions(
        alloc,
        version,
        next_id,
        &mut known,
        &mut descriptions,
        count,
        items,
    )?;
    Ok((descriptions, rest))
}
