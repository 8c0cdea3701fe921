ghost use Rattle.std.specs.Prelude.{◌≡◌, ◌<◌, IfOk};
ghost use Rattle.std.specs.List.{list_any};
ghost use Rattle.std.specs.FinMap as map;
ghost use Rattle.plain_tables.specs.declared.description.Description.{Description as ADescription};
ghost use Rattle.plain_tables.specs.Objects as objects;
ghost use Rattle.plain_machine.specs.Addresses as words;
ghost use Rattle.plain_machine.specs.SocketWords as sockets;
ghost use Rattle.plain_machine.specs.Rows.Sockets as rows;
ghost use Rattle.plain_ports.specs.Told.{told, itself, same_address};

use crate::look_ups::bound_at;
use id_maps::{ByConn, ByDesc};
use plain_machine::PlainKernel;
use plain_tables::{Channel, Description};
use sys_abi::errors::EADDRINUSE;
use sys_abi::{Errno, VirtAddr};

const FIRST_AUTOMATIC: u32 = 32_768;

/// Automatic ports are below this one.
const LAST_AUTOMATIC: u32 = 61_000;

fn is_at(address: VirtAddr, other: Option<VirtAddr>) -> bool
    ensures { result ≡ words.is_at address other }
{
    match other {
        Some(other) => address.cmp(&other).is_eq(),
        None => false,
    }
}

fn has_end_at(address: VirtAddr, channel: &Channel) -> bool
    ensures { result ≡ words.has_end_at address channel.now }
{
    is_at(address, channel.first.address) || is_at(address, channel.second.address)
}

fn is_bound(descriptions: &ByDesc<Description>, address: VirtAddr) -> bool
    ensures { result ≡ list_any (λ (x : ADescription). words.is_at address (objects.bound_at x.object))
        (map.values descriptions.now) }
{
    descriptions
        .values()
        .any(|description| is_at(address, bound_at(description.object)))
}

fn has_end(channels: &ByConn<Channel>, address: VirtAddr) -> bool
    ensures { result ≡ list_any (words.has_end_at address) (map.values channels.now) }
{
    channels
        .values()
        .any(|channel| has_end_at(address, channel))
}

/// Whether a socket is bound to the port, a listener has it, or an end of a channel.
#[tactic(auto, unfolding(plain_machine::specs::Addresses::is_port_used))]
fn is_port_used(kernel: &PlainKernel, address: VirtAddr) -> bool
    ensures { result ≡ words.is_port_used kernel.now address }
{
    is_bound(&kernel.descriptions, address) || has_end(&kernel.channels, address)
}

/// The least automatic port of a host that is not used.
#[tactic(auto, using(crate::proofs::Searches::unused_more, crate::proofs::Searches::unused_none), unfolding(plain_machine::specs::Addresses::automatic_port))]
fn automatic_port(kernel: &PlainKernel, host: u32) -> Option<u32>
    ensures { result ≡ words.automatic_port kernel.now host }
{
    for port in FIRST_AUTOMATIC..LAST_AUTOMATIC {
        if !is_port_used(kernel, VirtAddr { host, port }) {
            return Some(port);
        }
    }
    None
}

/// The address of a socket, or an automatic port of its host; the error where none is left.
#[tactic(auto, unfolding(plain_machine::specs::SocketWords::bound_or, plain_process::specs::Attempts::and_then, plain_process::specs::Attempts::found))]
pub fn bound_or(kernel: &PlainKernel, address: VirtAddr, error: u16) -> Result<VirtAddr, Errno>
    ensures { sockets.bound_or kernel.now address error ≡ told same_address result }
{
    if address.port != 0 {
        return Ok(address);
    }
    match automatic_port(kernel, address.host) {
        Some(port) => Ok(VirtAddr {
            host: address.host,
            port,
        }),
        None => Err(Errno(error)),
    }
}

/// The port that is asked for, which for 0 is an automatic one; EADDRINUSE.
#[tactic(auto, unfolding(plain_machine::specs::Rows::Sockets::port_for, plain_process::specs::Attempts::and_then, plain_process::specs::Attempts::need, plain_process::specs::Attempts::found))]
pub fn port_for(kernel: &PlainKernel, host: u32, port: u32) -> Result<u32, Errno>
    ensures { rows.port_for kernel.now host port ≡ told itself result }
{
    if port == 0 {
        return match automatic_port(kernel, host) {
            Some(port) => Ok(port),
            None => Err(Errno(EADDRINUSE)),
        };
    }
    if is_port_used(kernel, VirtAddr { host, port }) {
        return Err(Errno(EADDRINUSE));
    }
    Ok(port)
}
