//! Open descriptions, with the owners that were noted.
ghost use Rattle.std.specs.Prelude.{◌≡◌, IfOk, OnOk, option_and_then};
ghost use Rattle.std.specs.Option.{option_map_or};
ghost use Rattle.std.specs.FinMap as map;
ghost use Rattle.plain_tables.specs.Tables.{Descriptions};
ghost use Rattle.host_tables.specs.Descriptions as host_words;
ghost use Rattle.host_tables.specs.Numbers.{number_of};
ghost use Rattle.seen_kernel.specs.Descriptions as words;

use conn_table::ConnTable;
use fd_book::{Book, Object as RealObject};
use id_maps::ByDesc;
use plain_tables::{Description, Object};
use std::alloc::{AllocError, Global};
use sys_abi::{DescId, RealPid, VirtAddr};
use virt_ids::Ids;

/// The address of a socket that the table doesn't name.
const NOWHERE: VirtAddr = VirtAddr { host: 0, port: 0 };

/// The owner of a description that nobody owns.
const NO_OWNER: u32 = 0;

/// The open descriptions with these owners, where none is an end of a datagram pair.
pub fn seen_descriptions(
    alloc: Global,
    book: &Book,
    ids: &Ids,
    conns: &ConnTable,
    owners: &ByDesc<Option<RealPid>>,
) -> Result<ByDesc<Description>, AllocError>
    ensures { IfOk result (λ descriptions. (ks : Descriptions)
        → words.StandForDescriptions ids.now conns.now.names book.now owners.now ks
        → descriptions ≡ ks) }
{
    let mut seen = ByDesc::new(alloc);
    let mut above = None;
    while let Some(id) = book.next_desc(above) {
        add_description(
            &mut seen,
            id,
            seen_description(book, ids, conns, owners, id),
        )?;
        above = Some(id);
    }
    Ok(seen)
}

/// Puts the description, if there is one.
fn add_description(
    seen: &mut ByDesc<Description>,
    id: DescId,
    description: Option<Description>,
) -> Result<(), AllocError>
    ensures { OnOk result (seen.new ≡ option_map_or (map.insert seen.old id) description seen.old) }
{
    if let Some(description) = description {
        seen.insert(id, description)?;
    }
    Ok(())
}

/// The description, if it is there and is no end of a datagram pair.
fn seen_description(
    book: &Book,
    ids: &Ids,
    conns: &ConnTable,
    owners: &ByDesc<Option<RealPid>>,
    id: DescId,
) -> Option<Description>
    ensures { result ≡ option_and_then
        (words.description_of ids.now.virts conns.now.names owners.now id)
        (map.get book.now.descriptions id) }
{
    let Some(desc) = book.desc(id).copied() else {
        return None;
    };
    let Some(object) = seen_object(conns, id, desc.object) else {
        return None;
    };
    Some(Description {
        object,
        flags: desc.flags,
        owner: seen_owner(ids, owners, id),
    })
}

/// The object by virtual addresses; none for an end of a datagram pair, which has no image.
fn seen_object(conns: &ConnTable, id: DescId, object: RealObject) -> Option<Object>
    ensures { result ≡ words.object_of conns.now.names id object }
{
    match object {
        RealObject::Console => Some(Object::Console),
        RealObject::File { number, offset } => Some(Object::File { number, offset }),
        RealObject::Stream { conn, side } => Some(Object::Stream { conn, side }),
        RealObject::Socket => Some(Object::Socket {
            address: address_of(conns, id),
        }),
        RealObject::Listener { .. } => Some(Object::Listener {
            address: address_of(conns, id),
        }),
        RealObject::Datagram { .. } => None,
        RealObject::Counter { value } => Some(Object::Counter { value }),
    }
}

fn address_of(conns: &ConnTable, id: DescId) -> VirtAddr
    ensures { result ≡ host_words.address_of conns.now.names id }
{
    conns.name(id).unwrap_or(NOWHERE)
}

/// The virtual number of the owner that was noted, or that of nobody.
fn seen_owner(ids: &Ids, owners: &ByDesc<Option<RealPid>>, id: DescId) -> u32
    ensures { result ≡ number_of ids.now.virts 0 (words.kept_owner owners.now id) }
{
    match owners.get(id) {
        Some(Some(owner)) => ids.virt_pid(*owner).unwrap_or(NO_OWNER),
        _ => NO_OWNER,
    }
}
