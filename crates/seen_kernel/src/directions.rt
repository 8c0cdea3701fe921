//! The directions of channels with their bytes.
ghost use Rattle.std.specs.Prelude.{◌≡◌, Option, IfOk, OnOk};
ghost use Rattle.views.specs.Maps.{map_values};
ghost use Rattle.plain_machine.specs.Tests.{all_arrived};
ghost use Rattle.plain_tables.specs.Tables.{Directions};
ghost use Rattle.host_tables.specs.Descriptions.{Stage};
ghost use Rattle.host_tables.specs.Network.{SameDirections};
ghost use Rattle.seen_kernel.specs.Directions as words;

use id_maps::ByDir;
use plain_tables::Direction;
use std::alloc::{AllocError, Global};
use views::list_of::ListOf;
use wire_net::{DirBytes, Net};

/// Each direction with the bytes of its list, all of which have arrived.
pub fn seen_directions(
    alloc: Global,
    net: &Net,
    lists: &[DirBytes],
) -> Result<ByDir<Direction>, AllocError>
    ensures { (held : Option Stage) (directions : Directions) → SameDirections net.now held directions
        → words.HaveBytes net.now held lists.now
        → IfOk result (λ seen. seen ≡ map_values all_arrived directions) }
{
    let mut seen = ByDir::new(alloc);
    for list in lists {
        add_direction(&mut seen, alloc, net, list)?;
    }
    Ok(seen)
}

/// Adds the direction of the list, if its channel is there.
fn add_direction(
    seen: &mut ByDir<Direction>,
    alloc: Global,
    net: &Net,
    list: &DirBytes,
) -> Result<(), AllocError>
    ensures ok { OnOk result (seen.new ≡ words.with_list net.now.channels seen.old list.now) }
{
    if list.dir.side > 1 || !net.has(list.dir.conn) {
        return Ok(());
    }
    let left = ListOf::from_vec(list.bytes.as_slice().to_vec(alloc)?);
    let arrived = left.len() as u64;
    let direction = Direction {
        left,
        arrived,
        ended: net.is_ended(list.dir),
        unread: net.is_unread(list.dir),
    };
    seen.insert(list.dir, direction)?;
    Ok(())
}
