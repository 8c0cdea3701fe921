ghost use Rattle.std.specs.Prelude.{◌≡◌, ◌++◌, IfOk, OnOk};
ghost use Rattle.image_format.specs.Format.{n32, number_text};
ghost use Rattle.shared_items.specs.SharedFits.{IsShared};
ghost use Rattle.shared_items.specs.SharedFormat.{SpellsShared};
ghost use Rattle.shared_items.specs.SharedTexts.{list_text, channel_text, description_text, file_text, process_text, IsSharedText};

use crate::opened::put_descriptions;
use crate::processes::put_processes;
use crate::stored::{put_channels, put_files};
use image_format::fields::{put_bytes, put_u32};
use shared_items::Shared;
use std::alloc::{AllocError, Global};

#[tactic(auto, unfolding(shared_items::specs::SharedTexts::shared_text))]
fn shared_text(alloc: Global, s: &Shared) -> Result<Vec<u8>, AllocError>
    requires { IsShared s.now }
    ensures { IfOk result (λ bytes. IsSharedText bytes.items s.now) }
{
    let mut bytes = Vec::new(alloc);
    put_bytes(&mut bytes, b"DMTSHR01")?;
    put_shared(&mut bytes, s)?;
    Ok(bytes)
}

/// What follows the magic.
fn put_shared(bytes: &mut Vec<u8>, s: &Shared) -> Result<(), AllocError>
    requires { IsShared s.now }
    ensures { OnOk result (bytes.new.items
        ≡ bytes.old.items ++ number_text n32 s.now.next_id ++ number_text n32 s.now.next_file
        ++ list_text file_text s.now.files ++ list_text channel_text s.now.channels
        ++ list_text description_text s.now.descriptions ++ list_text process_text s.now.processes) }
{
    put_u32(bytes, s.next_id)?;
    put_u32(bytes, s.next_file)?;
    put_files(bytes, s.files.as_slice())?;
    put_channels(bytes, s.channels.as_slice())?;
    put_descriptions(bytes, s.descriptions.as_slice())?;
    put_processes(bytes, s.processes.as_slice())
}

/// The bytes of the shared image's file.
pub fn write_shared(alloc: Global, s: &Shared) -> Result<Vec<u8>, AllocError>
    requires { IsShared s.now }
    ensures { IfOk result (λ bytes. SpellsShared bytes.items s.now) }
{
    shared_text(alloc, s)
}
