// The tests of fields of files and channels, each after the fields before it.
ghost use Rattle.std.specs.Prelude.{◌≡◌, ◌≤◌, ◌+◌, nat_le};
ghost use Rattle.std.specs.List.{list_all};
ghost use Rattle.image_format.specs.Fields.{is_within};
ghost use Rattle.shared_items.specs.SharedTests as field;
ghost use Rattle.shared_items.specs.KnownNames.{KnowsNames};

use crate::{ChannelImage, FileImage};
use id_maps::ByName;

const FILE_LIMIT: u32 = 1024;

const CHANNEL_LIMIT: u32 = 256;

/// All files have at most so many bytes together.
const ALL_BYTES: u64 = 67_108_864;

const DIRECTION_LIMIT: u32 = 65_536;

const HOSTS: u32 = 16;

const LAST_PORT: u32 = 65_535;

/// The host of a side that has no address.
const NO_HOST: u32 = 0xFFFF_FFFF;

pub const INTERNET: u8 = 1;

pub const PIPE: u8 = 2;

pub fn is_file_count(n: u32) -> bool
    ensures { result ≡ field.is_file_count n }
{
    n <= FILE_LIMIT
}

pub fn is_channel_count(n: u32) -> bool
    ensures { result ≡ field.is_channel_count n }
{
    n <= CHANNEL_LIMIT
}

pub fn is_host(n: u32) -> bool
    ensures { result ≡ field.is_host n }
{
    n < HOSTS
}

pub fn is_port(n: u32) -> bool
    ensures { result ≡ field.is_port n }
{
    n <= LAST_PORT
}

pub fn is_file_number(next_file: u32, front: &[FileImage], n: u32) -> bool
    ensures { result ≡ field.is_file_number next_file front.now n }
{
    let is_above = match front.last() {
        None => true,
        Some(before) => before.number < n,
    };
    is_above && 1 <= n && n < next_file
}

fn has_no_zero(name: &[u8]) -> bool
    ensures { result ≡ list_all (is_within 1 255) name.now }
{
    name.iter().all(|byte| *byte != 0)
}

/// Whether a file may have the name, behind files of these names.
pub fn is_file_name(front: &[FileImage], names: &ByName<()>, name: &[u8]) -> bool
    requires { KnowsNames names.now front.now }
    ensures { result ≡ field.is_file_name front.now name.now }
{
    let _ = front;
    has_no_zero(name) && (name.is_empty() || !names.contains_key(name))
}

/// Whether a file of this size may follow files of so many bytes together.
pub fn is_file_size(total: u64, size: u32) -> bool
    requires { total ≤ 67108864 }
    ensures { result ≡ nat_le (total + size) 67108864 }
{
    total + size as u64 <= ALL_BYTES
}

pub fn is_channel_maker(next_id: u32, front: &[ChannelImage], maker: u32) -> bool
    ensures { result ≡ field.is_maker next_id (field.last_channel front.now) maker }
{
    match front.last() {
        None => maker < next_id,
        Some(before) => before.id.pid.0 <= maker && maker < next_id,
    }
}

pub fn is_channel_number(front: &[ChannelImage], maker: u32, n: u32) -> bool
    ensures { result ≡ field.is_number_after (field.last_channel front.now) maker n }
{
    match front.last() {
        None => true,
        Some(before) => before.id.pid.0 < maker || before.id.num < n,
    }
}

/// Whether so many bytes may be left in a direction: of one that is read no more none, nor of a pipe's
/// reading side.
pub fn is_left_count(kind: u8, side: u8, flags: u8, n: u32) -> bool
    ensures { result ≡ field.is_left_count kind side flags n }
{
    n <= DIRECTION_LIMIT && (n == 0 || (flags < 2 && !(kind == PIPE && side == 1)))
}

pub fn is_side_host(kind: u8, n: u32) -> bool
    ensures { result ≡ field.is_side_host kind n }
{
    if kind == INTERNET {
        is_host(n)
    } else {
        n == NO_HOST
    }
}

pub fn is_side_port(kind: u8, n: u32) -> bool
    ensures { result ≡ field.is_side_port kind n }
{
    if kind == INTERNET { is_port(n) } else { n == 0 }
}
