//! An open description over real numbers.
ghost use Rattle.std.specs.Prelude.{◌≡◌, IsSome};
ghost use Rattle.std.specs.FinMap as map;
ghost use Rattle.rebuild_tables.specs.Rebuilt as words;

use fd_book::{Desc, Object};
use plain_tables::description::{Description, Object as PlainObject};
use sys_abi::{RealAddr, RealPid, VirtAddr};
use virt_ids::Ids;

/// The process that was set as owner, if there is one.
fn owner_in(ids: &Ids, owner: u32) -> Option<RealPid>
    ensures { result ≡ words.owner_in ids.now owner }
{
    if owner == 0 {
        return None;
    }
    match ids.real_pid(owner) {
        Ok(r) => Some(r),
        Err(_) => None,
    }
}

/// The port that is paired with the address.
fn place_in(ids: &Ids, address: VirtAddr) -> RealAddr
    requires { IsSome (map.get ids.now.addresses address) }
    ensures { result ≡ words.place_in ids.now address }
{
    match ids.real_addr(address) {
        Ok(at) => at,
        Err(_) => unreachable!(),
    }
}

fn object_in(ids: &Ids, object: PlainObject) -> Object
    requires { words.HasReal ids.now object }
    ensures { result ≡ words.real_object ids.now object }
{
    match object {
        PlainObject::Console => Object::Console,
        PlainObject::File { number, offset } => Object::File { number, offset },
        PlainObject::Stream { conn, side } => Object::Stream { conn, side },
        PlainObject::Socket { .. } => Object::Socket,
        PlainObject::Listener { address } => Object::Listener {
            at: place_in(ids, address),
        },
        PlainObject::Datagram { .. } => unreachable!(),
        PlainObject::Counter { value } => Object::Counter { value },
    }
}

/// The description with its owner's real number, and at its real address where it listens.
pub(crate) fn desc_in(ids: &Ids, description: &Description) -> Desc
    requires { words.HasReal ids.now description.now.object }
    ensures { result ≡ words.real_desc ids.now description.now }
{
    Desc {
        object: object_in(ids, description.object),
        flags: description.flags,
        owner: owner_in(ids, description.owner),
    }
}
