//! Maps of what open descriptions name, in which a reader looks up what a later field names.

ghost use Rattle.std.specs.Prelude.{◌≡◌, ◌==◌, ◌&&◌, ◌||◌, IfOk, OnOk, is_some};
ghost use Rattle.std.specs.List.{list_any};
ghost use Rattle.std.specs.FinMap as map;
ghost use Rattle.shared_items.specs.SharedTests as field;
ghost use Rattle.shared_items.specs.WholeShared.{opens};
ghost use Rattle.shared_items.specs.Sides.{names_side, same_channel};
ghost use Rattle.shared_objects.specs.Known.{KnowsOpened, KnowsSides};
ghost use Rattle.shared_items.specs.Keys.{HasKeys};

use id_maps::{ByAddress, ByDir};
use shared_items::{DescriptionImage, ObjectImage};
use std::alloc::{AllocError, Global};
use sys_abi::{ConnId, Dir};
use views::number_map::NumberMap;

/// Notes the connections that wait at a listener.
fn note_queue(sides: &mut ByDir<()>, pending: &[ConnId]) -> Result<(), AllocError>
    ensures { OnOk result (HasKeys sides.new (λ at. is_some (map.get sides.old at)
        || ((at.side == 1) && list_any (same_channel at.conn) pending.now))) }
{
    for conn in pending {
        let accepting = Dir {
            conn: *conn,
            side: 1,
        };
        sides.insert(accepting, ())?;
    }
    Ok(())
}

/// Notes the sides of channels that the object names.
pub fn note_sides(sides: &mut ByDir<()>, object: &ObjectImage) -> Result<(), AllocError>
    ensures { OnOk result (HasKeys sides.new (λ at. is_some (map.get sides.old at)
        || names_side at.conn at.side object.now)) }
{
    match object {
        ObjectImage::Stream { conn, side } => {
            let end = Dir {
                conn: *conn,
                side: *side,
            };
            sides.insert(end, ())?;
        }
        ObjectImage::Listener { pending, .. } => note_queue(sides, pending.as_slice())?,
        _ => {}
    }
    Ok(())
}

/// Notes the address of a socket or a listener.
pub fn note_port(ports: &mut ByAddress<()>, object: &ObjectImage) -> Result<(), AllocError>
    ensures { OnOk result (HasKeys ports.new (λ address. is_some (map.get ports.old address)
        || field.has_port address.host address.port object.now)) }
{
    match object {
        ObjectImage::Socket { address } => {
            ports.insert(*address, ())?;
        }
        ObjectImage::Listener { address, .. } => {
            ports.insert(*address, ())?;
        }
        _ => {}
    }
    Ok(())
}

/// The sides of channels that some description names.
pub fn sides_of(alloc: Global, descriptions: &[DescriptionImage]) -> Result<ByDir<()>, AllocError>
    ensures { IfOk result (λ sides. KnowsSides sides descriptions.now) }
{
    let mut sides = ByDir::new(alloc);
    for description in descriptions {
        note_sides(&mut sides, &description.object)?;
    }
    Ok(sides)
}

fn note_file(numbers: &mut NumberMap<()>, object: &ObjectImage) -> Result<(), AllocError>
    ensures { OnOk result (HasKeys numbers.new (λ n. is_some (map.get numbers.old n) || opens n object.now)) }
{
    match object {
        ObjectImage::File { number, .. } => {
            numbers.insert(*number, ())?;
        }
        _ => {}
    }
    Ok(())
}

/// The numbers of the files that are open.
pub fn opened_of(
    alloc: Global,
    descriptions: &[DescriptionImage],
) -> Result<NumberMap<()>, AllocError>
    ensures { IfOk result (λ opened. KnowsOpened opened descriptions.now) }
{
    let mut opened = NumberMap::new(alloc);
    for description in descriptions {
        note_file(&mut opened, &description.object)?;
    }
    Ok(opened)
}
