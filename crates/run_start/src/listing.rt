//! The guests of a start as a list.
ghost use Rattle.std.specs.Prelude.{◌≡◌, All, None, Some, IfOk, IfSome, IsSome};
ghost use Rattle.std.specs.FinMap as map;
ghost use Rattle.run_start.specs.Starts.{AreNumbered};

use computation::Guest;
use id_maps::ByPid;
use std::alloc::{AllocError, Global};
use sys_abi::VPid;
use views::list_of::ListOf;

/// Each guest with its number.
pub(crate) fn listed(
    alloc: Global,
    guests: ByPid<Guest>,
) -> Result<ListOf<(VPid, Guest)>, AllocError>
    requires { AreNumbered guests }
    ensures same { IfOk result (λ list. map.from_entries list ≡ guests) }
    ensures numbered { IfOk result (All (λ entry. entry.1.pid ≡ entry.0)) }
{
    let mut rest = guests;
    let mut list = ListOf::new(alloc);
    while let Some((p, guest)) = take_first(&mut rest) {
        list.push((p, guest))?;
    }
    Ok(list)
}

/// Takes out the guest of the least number.
fn take_first(guests: &mut ByPid<Guest>) -> Option<(VPid, Guest)>
    ensures some { IfSome result (λ taken. (map.get guests.old taken.0 ≡ Some taken.1)
        × (guests.new ≡ map.remove guests.old taken.0)) }
    ensures none { result ≡ None → guests.old ≡ map.empty }
{
    let Some(p) = first_number(guests) else {
        return None;
    };
    let Some(guest) = guests.remove(p) else {
        unreachable!();
    };
    Some((p, guest))
}

fn first_number(guests: &ByPid<Guest>) -> Option<VPid>
    ensures some { IfSome result (λ p. IsSome (map.get guests.now p)) }
    ensures none { result ≡ None → guests.now ≡ map.empty }
{
    match guests.keys().next() {
        Some(p) => Some(*p),
        None => None,
    }
}
