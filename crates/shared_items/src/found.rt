//! Items of lists that rise, each found by a binary search.

ghost use Rattle.std.specs.Prelude.{◌≡◌, ◌==◌};
ghost use Rattle.std.specs.Option.{option_copied};
ghost use Rattle.shared_items.specs.RisingLists.{FilesRise, ChannelsRise, DescriptionsRise, ProcessesRise};
ghost use Rattle.shared_items.specs.SharedTests as field;
ghost use Rattle.shared_items.specs.Sides.{same_channel};
ghost use Rattle.shared_items.specs.Found.{Finds};

use crate::{ChannelImage, DescriptionImage, FileImage, ProcessEntry};
use sys_abi::{ConnId, DescId, VPid};

/// Whether a file of this number is listed.
pub fn has_file(files: &[FileImage], number: u32) -> bool
    requires { FilesRise files.now }
    ensures { result ≡ field.is_listed_file files.now number }
{
    match files.binary_search_by_key(&number, |file| file.number) {
        Ok(_) => true,
        Err(_) => false,
    }
}

/// The channel of this name.
pub fn channel_of(channels: &[ChannelImage], name: ConnId) -> Option<&ChannelImage>
    requires { ChannelsRise channels.now }
    ensures { Finds (λ channel. same_channel name channel.id) channels.now (option_copied result) }
{
    match channels.binary_search_by_key(&name, |channel| channel.id) {
        Ok(place) => Some(&channels[place]),
        Err(_) => None,
    }
}

/// Whether a description of this name is listed.
pub fn has_description(descriptions: &[DescriptionImage], id: DescId) -> bool
    requires { DescriptionsRise descriptions.now }
    ensures { result ≡ field.is_description descriptions.now id.pid.0 id.num }
{
    match descriptions.binary_search_by_key(&id, |description| description.id) {
        Ok(_) => true,
        Err(_) => false,
    }
}

/// The process of this number.
pub fn process_of(processes: &[ProcessEntry], n: u32) -> Option<&ProcessEntry>
    requires { ProcessesRise processes.now }
    ensures { Finds (λ process. process.pid.0 == n) processes.now (option_copied result) }
{
    match processes.binary_search_by_key(&VPid(n), |process| process.pid) {
        Ok(place) => Some(&processes[place]),
        Err(_) => None,
    }
}
