//! What is tested of channels and files, by what all open descriptions name.

ghost use Rattle.std.specs.Prelude.{◌≡◌, is_some};
ghost use Rattle.std.specs.List.{list_all};
ghost use Rattle.std.specs.FinMap as map;
ghost use Rattle.shared_items.specs.WholeShared as whole;
ghost use Rattle.shared_objects.specs.Known.{KnowsOpened, KnowsSides};

use id_maps::ByDir;
use shared_items::{ChannelImage, DescriptionImage, FileImage};
use sys_abi::{ConnId, Dir};
use views::number_map::NumberMap;

fn is_named(sides: &ByDir<()>, conn: ConnId, side: u8) -> bool
    ensures { result ≡ is_some (map.get sides.now (record { conn = conn; side = side })) }
{
    sides.contains_key(Dir { conn, side })
}

/// Whether a side of the channel is named, and each that is not is closed.
fn is_rightly_named(
    descriptions: &[DescriptionImage],
    sides: &ByDir<()>,
    channel: &ChannelImage,
) -> bool
    requires { KnowsSides sides.now descriptions.now }
    ensures { result ≡ whole.is_rightly_named descriptions.now channel.now }
{
    let _ = descriptions;
    let id = channel.id;
    let first = is_named(sides, id, 0);
    let second = is_named(sides, id, 1);
    (first || second)
        && (first || (channel.first.ended && channel.second.unread))
        && (second || (channel.second.ended && channel.first.unread))
}

pub fn are_rightly_named(
    descriptions: &[DescriptionImage],
    sides: &ByDir<()>,
    channels: &[ChannelImage],
) -> bool
    requires { KnowsSides sides.now descriptions.now }
    ensures { result ≡ list_all (whole.is_rightly_named descriptions.now) channels.now }
{
    channels
        .iter()
        .all(|channel| is_rightly_named(descriptions, sides, channel))
}

/// Whether the file has a name or is open.
fn is_kept_file(descriptions: &[DescriptionImage], opened: &NumberMap<()>, file: &FileImage) -> bool
    requires { KnowsOpened opened.now descriptions.now }
    ensures { result ≡ whole.is_kept_file descriptions.now file.now }
{
    let _ = descriptions;
    !file.name.is_empty() || opened.contains_key(file.number)
}

pub fn are_kept(
    descriptions: &[DescriptionImage],
    opened: &NumberMap<()>,
    files: &[FileImage],
) -> bool
    requires { KnowsOpened opened.now descriptions.now }
    ensures { result ≡ list_all (whole.is_kept_file descriptions.now) files.now }
{
    files
        .iter()
        .all(|file| is_kept_file(descriptions, opened, file))
}
