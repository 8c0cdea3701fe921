//! Whether a connect waits.
ghost use Rattle.std.specs.Prelude.{◌≡◌, Some};
ghost use Rattle.std.specs.FinMap as map;
ghost use Rattle.sys_abi.specs.declared.identity.VPid.{VPid};
ghost use Rattle.plain_machine.specs.declared.kernel.PlainKernel.{PlainKernel};
ghost use Rattle.plain_machine.specs.Kernel.{held};
ghost use Rattle.plain_machine.specs.Rows.Connections as rows;
ghost use Rattle.host_tables.specs.Requests.{target_of, IfHeld};
ghost use Rattle.wrap_passing.specs.OfWrapNames.Wrapping.{IsWrapped};
ghost use Rattle.wrap_calls.specs.Naming as words;

use conn_table::ConnTable;
use host_descriptors::held_at;
use host_tables::System;
use plain_ports::addresses::{ADDRESS_SIZE, AF_INET, family_of, named_host, port_of};
use sys_abi::errors::{EAFNOSUPPORT, EINVAL};
use sys_abi::{ConnId, Errno, RealAddr, RealPid, VPid, VirtAddr};
use virt_ids::Ids;
use wrap_passing::{address_of, has_port, leads_to_pipe, made_by};

/// Numbers of what a process makes are below this one, so that a call has room for those that it takes.
const LAST_MADE: u32 = 0xFFFF_FFFC;

/// An address that no socket has.
const NOWHERE: VirtAddr = VirtAddr { host: 0, port: 0 };

/// Whether a connect to the address that the bytes name doesn't wait.
pub(crate) fn is_connect_ready(
    system: &System,
    p: VPid,
    who: RealPid,
    fd: u32,
    length: u32,
    bytes: &[u8],
) -> bool
    requires { map.get system.now.ids.pids p.0 ≡ Some who }
    ensures { (k : PlainKernel) (next_id : _) → IsWrapped system.now next_id k
        → result ≡ rows.is_connect_ready k p fd length bytes.now }
{
    system.kernel.book.whole();
    let own = socket_address(system, who, fd);
    wrap_sockets::is_connect_ready(
        &system.kernel,
        who,
        fd,
        target(&system.ids, own, length, bytes),
        next_conn(&system.conns, p),
        has_port(system, own),
        leads_to_pipe(system, who, fd),
    )
}

/// The address of the socket to which the descriptor leads. Where it leads to none any will do.
fn socket_address(system: &System, who: RealPid, fd: u32) -> VirtAddr
    ensures { (k : PlainKernel) (next_id : _) (p : _) → IsWrapped system.now next_id k
        → map.get system.now.ids.pids p.0 ≡ Some who → IfHeld (held k p fd) (λ own. own ≡ result) }
{
    system.kernel.book.whole();
    let Some(held) = held_at(&system.kernel.book, who, fd) else {
        return NOWHERE;
    };
    address_of(&system.conns, held.desc)
}

/// The port at which the address that the bytes name is listened, or why they are no address.
fn target(ids: &Ids, own: VirtAddr, length: u32, bytes: &[u8]) -> Result<Option<RealAddr>, Errno>
    ensures { result ≡ target_of ids.now.addresses own length bytes.now }
{
    if length < ADDRESS_SIZE {
        return Err(Errno(EINVAL));
    }
    if family_of(bytes) != AF_INET {
        return Err(Errno(EAFNOSUPPORT));
    }
    let Some(host) = named_host(own.host, bytes) else {
        return Ok(None);
    };
    let port = port_of(bytes);
    match ids.real_addr(VirtAddr { host, port }) {
        Ok(at) => Ok(Some(at)),
        Err(_) => Ok(None),
    }
}

/// The name of the next channel that the process makes, None where it has no more to give out.
fn next_conn(conns: &ConnTable, p: VPid) -> Option<ConnId>
    ensures { result ≡ words.conn_in conns.now.makers p }
{
    let made = made_by(conns, p);
    if made >= LAST_MADE {
        return None;
    }
    Some(ConnId { pid: p, num: made })
}
