//! Whether a process made no channel and no description with a number from its next one on. The names rise,
//! so the first one from that number on is found by a binary search: if it is of another process, so are all
//! behind it.

ghost use Rattle.std.specs.Prelude.{◌≡◌};
ghost use Rattle.shared_items.specs.RisingLists.{ChannelsRise, DescriptionsRise};
ghost use Rattle.shared_items.specs.SharedTests as field;

use crate::{ChannelImage, DescriptionImage};
use sys_abi::{ConnId, DescId, VPid};

fn is_above_channels(channels: &[ChannelImage], pid: u32, made: u32) -> bool
    requires { ChannelsRise channels.now }
    ensures { result ≡ field.is_above_channels pid made channels.now }
{
    let first = ConnId {
        pid: VPid(pid),
        num: made,
    };
    match channels.binary_search_by_key(&first, |channel| channel.id) {
        Ok(_) => false,
        Err(place) => match channels.get(place) {
            None => true,
            Some(next) => next.id.pid.0 != pid,
        },
    }
}

fn is_above_descriptions(descriptions: &[DescriptionImage], pid: u32, made: u32) -> bool
    requires { DescriptionsRise descriptions.now }
    ensures { result ≡ field.is_above_descriptions pid made descriptions.now }
{
    let first = DescId {
        pid: VPid(pid),
        num: made,
    };
    match descriptions.binary_search_by_key(&first, |description| description.id) {
        Ok(_) => false,
        Err(place) => match descriptions.get(place) {
            None => true,
            Some(next) => next.id.pid.0 != pid,
        },
    }
}

/// Whether the number is above each that the process gave to a channel or a description.
pub fn is_made(
    channels: &[ChannelImage],
    descriptions: &[DescriptionImage],
    pid: u32,
    made: u32,
) -> bool
    requires channels { ChannelsRise channels.now }
    requires descriptions { DescriptionsRise descriptions.now }
    ensures { result ≡ field.is_made channels.now descriptions.now pid made }
{
    is_above_channels(channels, pid, made) && is_above_descriptions(descriptions, pid, made)
}
