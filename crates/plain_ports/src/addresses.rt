ghost use Rattle.std.specs.Prelude.{◌≡◌, ◌<◌, take, slice_index, IfOk};
ghost use Rattle.std.specs.FinMap as map;
ghost use Rattle.plain_process.specs.Memory.{low_bytes};
ghost use Rattle.plain_machine.specs.Addresses as words;
ghost use Rattle.plain_machine.specs.SocketWords as sockets;
ghost use Rattle.plain_machine.specs.Rows.Sockets as rows;

use crate::look_ups::{bound_at, end_address};
use plain_machine::PlainKernel;
use plain_process::handlers::word_in;
use plain_tables::Object;
use std::alloc::{AllocError, Global};
use sys_abi::{ConnId, VirtAddr};
use views::list_of::ListOf;

/// The family of internet addresses.
pub const AF_INET: u32 = 2;

/// How many bytes an internet address has.
pub const ADDRESS_SIZE: u32 = 16;

/// The address of an end of a pair.
pub const PAIR_BYTES: [u8; 2] = [1, 0];

/// The address of a socket that isn't bound.
const UNBOUND_BYTES: [u8; 16] = [2, 0, 0, 0, 0, 0, 0, 0, 0, 0, 0, 0, 0, 0, 0, 0];

fn byte_at(bytes: &[u8], place: usize) -> u32
    ensures value { result ≡ slice_index bytes.now place }
    ensures small { result < 256 }
{
    if place < bytes.len() {
        bytes[place] as u32
    } else {
        0
    }
}

/// The family of an address.
pub fn family_of(bytes: &[u8]) -> u32
    ensures { result ≡ (words.endpoint_of bytes.now).family }
{
    byte_at(bytes, 0) + 256 * byte_at(bytes, 1)
}

/// The port of an address.
pub fn port_of(bytes: &[u8]) -> u32
    ensures { result ≡ (words.endpoint_of bytes.now).port }
{
    256 * byte_at(bytes, 2) + byte_at(bytes, 3)
}

fn host_name(bytes: &[u8]) -> u32
    ensures { result ≡ (words.endpoint_of bytes.now).host }
{
    256 * (256 * (256 * byte_at(bytes, 4) + byte_at(bytes, 5)) + byte_at(bytes, 6))
        + byte_at(bytes, 7)
}

/// The host that an address names, as a process of the own host sees it.
#[tactic(auto, unfolding(plain_machine::specs::Addresses::named_host))]
pub fn named_host(own: u32, bytes: &[u8]) -> Option<u32>
    ensures { result ≡ words.named_host own (words.endpoint_of bytes.now) }
{
    let host = host_name(bytes);
    if host == 0 || host == 0x7F00_0001 {
        return Some(own);
    }
    if 0x0A00_0001 <= host && host <= 0x0A00_0010 {
        return Some(host - 0x0A00_0001);
    }
    None
}

/// An address as bytes.
fn address_bytes(address: VirtAddr) -> [u8; 16]
    ensures { result ≡ words.address_bytes address }
{
    let high = (address.port / 256 % 256) as u8;
    let low = (address.port % 256) as u8;
    let host = ((address.host as u64 + 1) % 256) as u8;
    [2, 0, high, low, 10, 0, 0, host, 0, 0, 0, 0, 0, 0, 0, 0]
}

fn list(alloc: Global, bytes: &[u8]) -> Result<ListOf<u8>, AllocError>
    ensures { IfOk result (λ listed. listed ≡ bytes.now) }
{
    let mut listed = Vec::new(alloc);
    listed.extend_from_slice(bytes)?;
    Ok(ListOf::from_vec(listed))
}

fn shown_as(
    alloc: Global,
    other: &[u8],
    address: Option<VirtAddr>,
) -> Result<ListOf<u8>, AllocError>
    ensures { IfOk result (λ name. name ≡ sockets.shown_as other.now address) }
{
    match address {
        None => list(alloc, other),
        Some(address) => list(alloc, &address_bytes(address)),
    }
}

/// The address of an end of a channel, as bytes.
pub fn end_name(
    alloc: Global,
    kernel: &PlainKernel,
    conn: ConnId,
    side: u8,
) -> Result<ListOf<u8>, AllocError>
    ensures { IfOk result (λ name. name ≡ sockets.end_name (map.get kernel.now.channels conn) side) }
{
    match kernel.channels.get(conn) {
        None => list(alloc, &PAIR_BYTES),
        Some(channel) => shown_as(alloc, &PAIR_BYTES, end_address(channel, side)),
    }
}

/// The own address of a socket, as bytes.
pub fn own_name(
    alloc: Global,
    kernel: &PlainKernel,
    object: Object,
) -> Result<ListOf<u8>, AllocError>
    ensures { IfOk result (λ name. name ≡ rows.own_name kernel.now object) }
{
    match object {
        Object::Stream { conn, side } => end_name(alloc, kernel, conn, side),
        Object::Datagram { .. } => list(alloc, &PAIR_BYTES),
        _ => shown_as(alloc, &UNBOUND_BYTES, bound_at(object)),
    }
}

fn front(bytes: &[u8], count: usize) -> &[u8]
    ensures { result.now ≡ take count bytes.now }
{
    if count < bytes.len() {
        &bytes[..count]
    } else {
        bytes
    }
}

fn length_bytes(length: usize) -> [u8; 4]
    ensures { result ≡ low_bytes 4 length }
{
    let first = (length % 256) as u8;
    let second = (length / 256 % 256) as u8;
    let third = (length / 256 / 256 % 256) as u8;
    let fourth = (length / 256 / 256 / 256 % 256) as u8;
    [first, second, third, fourth]
}

/// A name cut to the room that a process has for it, which `given` tells, and then its true length.
pub fn cut_to(alloc: Global, given: &[u8], name: &[u8]) -> Result<ListOf<u8>, AllocError>
    ensures { IfOk result (λ bytes. bytes ≡ words.cut_to given.now name.now) }
{
    let mut bytes = Vec::new(alloc);
    bytes.extend_from_slice(front(name, word_in(given, 0) as usize))?;
    bytes.extend_from_slice(&length_bytes(name.len()))?;
    Ok(ListOf::from_vec(bytes))
}
