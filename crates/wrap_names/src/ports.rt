//! The ports of a host, by the table of channels.
ghost use Rattle.std.specs.Prelude.{◌≡◌, ◌≤◌};
ghost use Rattle.plain_machine.specs.declared.kernel.PlainKernel.{PlainKernel};
ghost use Rattle.plain_machine.specs.Addresses as words;
ghost use Rattle.plain_machine.specs.SocketWords as sockets;
ghost use Rattle.plain_machine.specs.Rows.Sockets as rows;
ghost use Rattle.plain_ports.specs.Told.{told, itself, same_address};
ghost use Rattle.host_streams.specs.OfHostTables.Requests as requests;
ghost use Rattle.wrap_names.specs.Wrapping.{IsWrapped};

use host_streams::System;
use sys_abi::errors::EADDRINUSE;
use sys_abi::{Errno, VirtAddr};

const FIRST_AUTOMATIC: u32 = 32_768;

/// Automatic ports are below this one.
const LAST_AUTOMATIC: u32 = 61_000;

/// Whether a socket is bound to the address, a listener has it, or an end of a channel. Not asked for the
/// port 0, which sockets have that are not bound.
pub fn is_port_used(system: &System, address: VirtAddr) -> bool
    requires { 1 ≤ address.port }
    ensures { (k : PlainKernel) (next_id : _) → IsWrapped system.now next_id k
        → result ≡ words.is_port_used k address }
{
    system.conns.port_used(address)
}

/// The least automatic port of a host that is not used.
pub fn automatic_port(system: &System, host: u32) -> Option<u32>
    ensures { (k : PlainKernel) (next_id : _) → IsWrapped system.now next_id k
        → result ≡ words.automatic_port k host }
{
    for port in FIRST_AUTOMATIC..LAST_AUTOMATIC {
        if !is_port_used(system, VirtAddr { host, port }) {
            return Some(port);
        }
    }
    None
}

/// Whether a socket has a port, or its host a free one.
pub fn has_port(system: &System, own: VirtAddr) -> bool
    ensures { (k : PlainKernel) (next_id : _) → IsWrapped system.now next_id k
        → result ≡ requests.has_port k own }
{
    if own.port != 0 {
        return true;
    }
    automatic_port(system, own.host).is_some()
}

/// The address of a socket, or an automatic port of its host; the error where none is left.
pub fn bound_or(system: &System, address: VirtAddr, error: u16) -> Result<VirtAddr, Errno>
    ensures { (k : PlainKernel) (next_id : _) → IsWrapped system.now next_id k
        → sockets.bound_or k address error ≡ told same_address result }
{
    if address.port != 0 {
        return Ok(address);
    }
    match automatic_port(system, address.host) {
        Some(port) => Ok(VirtAddr {
            host: address.host,
            port,
        }),
        None => Err(Errno(error)),
    }
}

/// The port that is asked for, which for 0 is an automatic one; EADDRINUSE.
pub fn port_for(system: &System, host: u32, port: u32) -> Result<u32, Errno>
    ensures { (k : PlainKernel) (next_id : _) → IsWrapped system.now next_id k
        → rows.port_for k host port ≡ told itself result }
{
    if port == 0 {
        return match automatic_port(system, host) {
            Some(port) => Ok(port),
            None => Err(Errno(EADDRINUSE)),
        };
    }
    if is_port_used(system, VirtAddr { host, port }) {
        return Err(Errno(EADDRINUSE));
    }
    Ok(port)
}
