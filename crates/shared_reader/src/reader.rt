ghost use Rattle.std.specs.Prelude.{◌≡◌, IfOk};
ghost use Rattle.image_format.specs.Files.{IsRead, IsDamagedAt};
ghost use Rattle.image_format.specs.Format.{any, counted, give, next};
ghost use Rattle.image_format.specs.Reading.{Gives, read};
ghost use Rattle.shared_items.specs.SharedFormat as format;
ghost use Rattle.shared_items.specs.SharedFormat.{SpellsShared, DamagedShared};
ghost use Rattle.shared_items.specs.SharedTests as field;

use crate::process_tests::is_next_id;
use crate::processes::processes_at;
use crate::whole::is_whole_shared;
use image_format::ReadFault;
use image_format::damage::damaged;
use image_format::fields::{Fault, after_magic, u32_at};
use shared_items::{Shared, channels_at, files_at};
use shared_objects::descriptions_at;
use std::alloc::Global;

/// The version of the file that begins with `DMTSHR01`.
const VERSION: u32 = 1;

/// The four lists, behind the next numbers.
#[tactic(auto, unfolding(image_format::specs::Reading::read, image_format::specs::Reading::read_next))]
fn lists_at(
    alloc: Global,
    next_id: u32,
    next_file: u32,
    text: &[u8],
) -> Result<(Shared, &[u8]), Fault>
    ensures { Gives (λ x. (x.0, x.1.now)) result
        (read (next (counted field.is_file_count (format.file next_file)) (λ files.
        next (counted field.is_channel_count (format.channel next_id)) (λ channels.
        next (counted any (format.description format.VERSION next_id files channels)) (λ descriptions.
        next (counted field.is_process_count (format.process next_id channels descriptions)) (λ processes.
        give (record {
          next_id = next_id;
          next_file = next_file;
          files = files;
          channels = channels;
          descriptions = descriptions;
          processes = processes;
        })))))) text.now) }
{
    let (files, rest) = files_at(alloc, next_file, text)?;
    let (channels, rest) = channels_at(alloc, next_id, rest)?;
    let (descriptions, rest) = descriptions_at(
        alloc,
        VERSION,
        next_id,
        files.as_slice(),
        channels.as_slice(),
        rest,
    )?;
    let (processes, rest) = processes_at(
        alloc,
        next_id,
        channels.as_slice(),
        descriptions.as_slice(),
        rest,
    )?;
    let shared = Shared {
        next_id,
        next_file,
        files,
        channels,
        descriptions,
        processes,
    };
    Ok((shared, rest))
}

#[tactic(auto, unfolding(shared_items::specs::SharedFormat::shared, image_format::specs::Reading::read, image_format::specs::Reading::read_next, image_format::specs::Reading::read_if))]
fn shared_at(alloc: Global, text: &[u8]) -> Result<(Shared, &[u8]), Fault>
    ensures { Gives (λ x. (x.0, x.1.now)) result (read format.shared text.now) }
{
    let after_magic = after_magic(text, b"DMTSHR01")?;
    let (next_id, after_next_id) = u32_at(after_magic)?;
    if !is_next_id(next_id) {
        return Err(Fault::Left(after_magic.len()));
    }
    let (next_file, lists) = u32_at(after_next_id)?;
    if next_file == 0 {
        return Err(Fault::Left(after_next_id.len()));
    }
    lists_at(alloc, next_id, next_file, lists)
}

/// The shared image that the file spells. The damage is of file 1.
pub fn read_shared(alloc: Global, bytes: &[u8]) -> Result<Shared, ReadFault>
    ensures found { IfOk result (λ s. SpellsShared bytes.now s) }
    ensures only { (s : Shared) → SpellsShared bytes.now s → IsRead result s }
    ensures exact { IsDamagedAt 1 (DamagedShared bytes.now) result }
{
    match shared_at(alloc, bytes) {
        Ok((s, rest)) => {
            if !rest.is_empty() {
                return Err(damaged(1, bytes, rest.len()));
            }
            if !is_whole_shared(alloc, &s)? {
                return Err(damaged(1, bytes, 0));
            }
            Ok(s)
        }
        Err(Fault::Left(left)) => Err(damaged(1, bytes, left)),
        Err(Fault::Memory) => Err(ReadFault::Memory),
    }
}
