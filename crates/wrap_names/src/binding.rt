//! bind (`man 2 bind`).
ghost use Rattle.std.specs.Prelude.{◌≡◌, Some, IfOk};
ghost use Rattle.std.specs.FinMap as map;
ghost use Rattle.conn_table.specs.Pairs.{Pairs};
ghost use Rattle.fd_tables.specs.Slots as slots;
ghost use Rattle.plain_machine.specs.declared.kernel.PlainKernel.{PlainKernel};
ghost use Rattle.plain_machine.specs.Kernels.{IsKernel};
ghost use Rattle.plain_machine.specs.Rows.Sockets as rows;
ghost use Rattle.plain_machine.specs.SocketWords as sockets;
ghost use Rattle.plain_ports.specs.Told.{told, itself, same_address};
ghost use Rattle.host_streams.specs.HandedOn.{held_in, seen_held};
ghost use Rattle.host_streams.specs.OfHostTables.Descriptions.{seen_object};
ghost use Rattle.host_streams.specs.OfHostTables.Systems.{given_of};
ghost use Rattle.wrap_names.specs.Wrapping.{IsWrapped, StandsAfter, kernel_left};
ghost use Rattle.wrap_names.specs.Binding as words;

use crate::look_ups::{address_of, socket_at};
use crate::ports::port_for;
use conn_table::ConnTable;
use fd_book::Object;
use host_streams::{Held, KernelReply, System};
use plain_ports::addresses::{ADDRESS_SIZE, AF_INET, family_of, named_host, port_of};
use sys_abi::errors::{EADDRNOTAVAIL, EAFNOSUPPORT, EINVAL};
use sys_abi::transfer::Transfer;
use sys_abi::{DescId, Errno, RealPid, VPid, VirtAddr};

/// A socket, and the address that it gets.
#[derive(Clone, Copy)]
pub struct Bound {
    pub held: Held,
    pub address: VirtAddr,
}

/// The host of a socket that isn't bound.
fn unbound_host(conns: &ConnTable, desc: DescId, object: Object) -> Option<u32>
    ensures { (pairs : Pairs)
        → result ≡ sockets.unbound_host (seen_object conns.now.names pairs desc object) }
{
    match object {
        Object::Socket => {
            let address = address_of(conns, desc);
            if address.port != 0 {
                return None;
            }
            Some(address.host)
        }
        _ => None,
    }
}

/// The host of a socket that may be bound, by an address of so many bytes; EINVAL.
fn host_for(conns: &ConnTable, desc: DescId, object: Object, length: u32) -> Result<u32, Errno>
    ensures { (pairs : Pairs)
        → words.host_for (seen_object conns.now.names pairs desc object) length ≡ told itself result }
{
    if length < ADDRESS_SIZE {
        return Err(Errno(EINVAL));
    }
    match unbound_host(conns, desc, object) {
        Some(host) => Ok(host),
        None => Err(Errno(EINVAL)),
    }
}

fn is_own_host(own: u32, host: Option<u32>) -> bool
    ensures { result ≡ rows.is_own_host own host }
{
    match host {
        Some(host) => host == own,
        None => false,
    }
}

/// The address that the bytes name, for a socket of this host; EAFNOSUPPORT, EADDRNOTAVAIL, EADDRINUSE.
fn address_for(system: &System, own: u32, given: &[u8]) -> Result<VirtAddr, Errno>
    ensures { (k : PlainKernel) (next_id : _) → IsWrapped system.now next_id k
        → words.address_for k own given.now ≡ told same_address result }
{
    if family_of(given) != AF_INET {
        return Err(Errno(EAFNOSUPPORT));
    }
    if !is_own_host(own, named_host(own, given)) {
        return Err(Errno(EADDRNOTAVAIL));
    }
    let port = port_for(system, own, port_of(given))?;
    Ok(VirtAddr { host: own, port })
}

/// What a bind finds before it changes anything.
fn find_bound(
    system: &System,
    who: RealPid,
    fd: u32,
    length: u32,
    given: &[u8],
) -> Result<Bound, Errno>
    ensures told { (k : PlainKernel) (next_id : _) (p : VPid) → IsWrapped system.now next_id k
        → map.get system.now.ids.pids p.0 ≡ Some who
        → rows.bind_row k p fd length given.now
        ≡ words.bound_told (given_of system.now) system.now.kernel k result }
    ensures there { IfOk result (λ bound. words.IsUnbound system.now.kernel.book (slots.slot who fd) bound) }
{
    let held = socket_at(system, who, fd)?;
    let own = host_for(&system.conns, held.desc, held.description.object, length)?;
    let address = address_for(system, own, given)?;
    Ok(Bound { held, address })
}

/// bind (`man 2 bind`), to the address whose bytes stand in the transfer.
pub(crate) fn bind(
    system: &mut System,
    who: RealPid,
    fd: u32,
    length: u32,
    transfer: &Transfer,
) -> KernelReply
    ensures { (k : PlainKernel) (next_id : _) (p : VPid) → IsWrapped system.old next_id k
        → map.get system.old.ids.pids p.0 ≡ Some who
        → IsKernel (kernel_left k (rows.bind_row k p fd length transfer.now))
        → StandsAfter system.new next_id k transfer.now transfer.now result
        (rows.bind_row k p fd length transfer.now) }
{
    let bound = match find_bound(system, who, fd, length, transfer.as_slice()) {
        Err(error) => return KernelReply::Error(error),
        Ok(bound) => bound,
    };
    match system.conns.set_name(bound.held.desc, bound.address) {
        Ok(()) => KernelReply::Done(0),
        Err(_) => KernelReply::Memory,
    }
}
