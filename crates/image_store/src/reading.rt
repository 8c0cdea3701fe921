ghost use Rattle.std.specs.Prelude.{◌≡◌, ◌≤◌, Err, Some, None, Option, List, ℕ, length as list_length, map, take, option_map, IfOk, IfErr};
ghost use Rattle.std.specs.Option.{ForSome};
ghost use Rattle.std.specs.FinMap as files_by_name;
ghost use Rattle.disk_folder.specs.Files.{contents};
ghost use Rattle.image_format.specs.declared.damage.Damage.{Damage as Place};
ghost use Rattle.image_format.specs.declared.manifest.Manifest.{Manifest};
ghost use Rattle.image_format.specs.Manifests.{SpellsManifest, DamagedManifest};
ghost use Rattle.image_store.specs.Slots.{manifest_of, generation_of};
ghost use Rattle.image_store.specs.FoundSets.{file_at, files_from, set_of, IsSet};
ghost use Rattle.image_store.specs.SetDamages.{damage_at, damage_from, IsFirstDamage};
ghost use Rattle.image_store.specs.StoreCrashes.{ChangesNothing};
ghost use Rattle.image_store.specs.StoreCauses.{HasCause, IsOutside, IsOfReading, IsOrOutside, IsManifestOrOutside, TellsDamage};

use crate::set_info::SetInfo;
use crate::store_fault::StoreFault;
use disk_folder::{FileName, Folder};
use image_format::{Damage, Manifest, SetBytes, read_manifest};
use std::alloc::Global;
use views::list_of::ListOf;

/// How many bytes the longest manifest has, that of 129 files.
const LONGEST_MANIFEST: u64 = 1052;

/// Reads so many bytes from the front of a file, or all that it has where it has fewer.
pub fn read_front<F: Folder>(
    alloc: Global,
    disk: &mut F,
    name: FileName,
    len: u64,
) -> Result<Vec<u8>, StoreFault>
    ensures bytes { IfOk result (λ bytes. ForSome (F.seen disk.old).files
        (λ files. bytes.items ≡ take len (contents files name))) }
    ensures fits { IfOk result (λ bytes. list_length bytes.items ≤ len) }
    ensures refused { IfErr result IsOutside }
    ensures nothing { ChangesNothing (F.seen disk.old) (F.seen disk.new) }
    ensures cause { HasCause result StoreFault.DiskFault (F.seen disk.old).faults (F.seen disk.new).faults }
{
    let mut bytes = vec![in alloc; 0; len as usize]?;
    let n = disk.read_at(name, 0, &mut bytes)?;
    bytes.truncate(n);
    Ok(bytes)
}

/// The damage of a file that is to have this length and has that one, if it is there.
#[tactic(auto, unfolding(crate::specs::SetDamages::damage_at))]
fn damage_at(index: u32, length: u64, there: Option<u64>) -> Option<Damage>
    ensures { (file : Option (List ℕ)) → there ≡ option_map list_length file
        → result ≡ damage_at index length file }
{
    match there {
        None => Some(Damage {
            file: index,
            offset: 0,
        }),
        Some(len) if len == length => None,
        Some(len) => Some(Damage {
            file: index,
            offset: len.min(length),
        }),
    }
}

/// Tests that the files of the slot from 1 on have these lengths.
fn check_lengths<F: Folder>(disk: &mut F, slot: u32, lengths: &[u64]) -> Result<(), StoreFault>
    requires { list_length lengths.now ≤ 129 }

    ensures found { ForSome (F.seen disk.old).files (λ files.
        TellsDamage result (damage_from 1 lengths.now
        (files_from (file_at files slot) 1 (list_length lengths.now)))) }
    ensures read { IfErr result IsOfReading }
    ensures nothing { ChangesNothing (F.seen disk.old) (F.seen disk.new) }
    ensures cause { HasCause result StoreFault.DiskFault (F.seen disk.old).faults (F.seen disk.new).faults }
{
    for (i, length) in lengths.iter().enumerate() {
        let index = i as u32 + 1;
        let there = disk.len(FileName { slot, index })?;
        if let Some(damage) = damage_at(index, *length, there) {
            return Err(StoreFault::Damaged(damage));
        }
    }
    Ok(())
}

/// Reads a file that has this length. One that has become shorter meanwhile is damaged at its length.
fn read_image<F: Folder>(
    alloc: Global,
    disk: &mut F,
    name: FileName,
    length: u64,
) -> Result<ListOf<u8>, StoreFault>
    requires { ForSome (F.seen disk.old).files
        (λ files. damage_at name.index length (files_by_name.get files name) ≡ None) }

    ensures found { IfOk result (λ image. ForSome (F.seen disk.old).files
        (λ files. files_by_name.get files name ≡ Some image)) }
    ensures length { IfOk result (λ image. list_length image ≡ length) }
    ensures read { IfErr result IsOfReading }
    ensures refused { ForSome (F.seen disk.old).files (λ files. IfErr result IsOutside) }
    ensures nothing { ChangesNothing (F.seen disk.old) (F.seen disk.new) }
    ensures cause { HasCause result StoreFault.DiskFault (F.seen disk.old).faults (F.seen disk.new).faults }
{
    let image = ListOf::from_vec(read_front(alloc, disk, name, length)?);
    let len = image.len() as u64;
    if len < length {
        return Err(StoreFault::Damaged(Damage {
            file: name.index,
            offset: len,
        }));
    }
    Ok(image)
}

/// Reads the files of the slot from 1 on, which have these lengths.
fn read_images<F: Folder>(
    alloc: Global,
    disk: &mut F,
    slot: u32,
    lengths: &[u64],
) -> Result<ListOf<ListOf<u8>>, StoreFault>
    requires few { list_length lengths.now ≤ 129 }
    requires whole { ForSome (F.seen disk.old).files (λ files.
        damage_from 1 lengths.now (files_from (file_at files slot) 1 (list_length lengths.now)) ≡ None) }

    ensures found { IfOk result (λ images. ForSome (F.seen disk.old).files (λ files.
        files_from (file_at files slot) 1 (list_length lengths.now) ≡ map Some images)) }
    ensures lengths { IfOk result (λ images. map list_length images ≡ lengths.now) }
    ensures read { IfErr result IsOfReading }
    ensures refused { ForSome (F.seen disk.old).files (λ files. IfErr result IsOutside) }
    ensures nothing { ChangesNothing (F.seen disk.old) (F.seen disk.new) }
    ensures cause { HasCause result StoreFault.DiskFault (F.seen disk.old).faults (F.seen disk.new).faults }
{
    let mut images = Vec::with_capacity(alloc, lengths.len())?;
    for (i, length) in lengths.iter().enumerate() {
        let index = i as u32 + 1;
        images.push(read_image(alloc, disk, FileName { slot, index }, *length)?)?;
    }
    Ok(ListOf::from_vec(images))
}

/// Reads the manifest of the slot. Of a file that is longer than any it reads the front.
fn read_manifest_of<F: Folder>(
    alloc: Global,
    disk: &mut F,
    slot: u32,
) -> Result<Manifest, StoreFault>
    ensures found { IfOk result (λ m. ForSome (F.seen disk.old).files
        (λ files. SpellsManifest (manifest_of files slot) m)) }
    ensures few { IfOk result (λ m. list_length m.lengths ≤ 129) }
    ensures only { ForSome (F.seen disk.old).files
        (λ files. (m : Manifest) → SpellsManifest (manifest_of files slot) m → IsManifestOrOutside result m) }
    ensures damaged { (d : Place) → result ≡ Err (StoreFault.Damaged d)
        → ForSome (F.seen disk.old).files
        (λ files. (d.file ≡ 0) × DamagedManifest (manifest_of files slot) d.offset) }
    ensures read { IfErr result IsOfReading }
    ensures nothing { ChangesNothing (F.seen disk.old) (F.seen disk.new) }
    ensures cause { HasCause result StoreFault.DiskFault (F.seen disk.old).faults (F.seen disk.new).faults }
{
    let name = FileName { slot, index: 0 };
    let bytes = read_front(alloc, disk, name, LONGEST_MANIFEST + 1)?;
    Ok(read_manifest(alloc, &bytes)?)
}

/// Reads the set of a slot: first its manifest, then the lengths of its files, then the files.
pub fn read_set<F: Folder>(
    alloc: Global,
    disk: &mut F,
    info: SetInfo,
) -> Result<SetBytes, StoreFault>
    requires { ForSome (F.seen disk.old).files
        (λ files. generation_of (manifest_of files info.slot) ≡ info.generation) }

    ensures found { IfOk result (λ set. ForSome (F.seen disk.old).files
        (λ files. IsSet (set_of files info) info.generation set.files)) }
    ensures only { ForSome (F.seen disk.old).files
        (λ files. (g : ℕ) (bytes : List (List ℕ)) → IsSet (set_of files info) g bytes
        → IsOrOutside result bytes) }
    ensures damaged { (d : Place) → result ≡ Err (StoreFault.Damaged d)
        → ForSome (F.seen disk.old).files (λ files. IsFirstDamage (set_of files info) d) }
    ensures read { IfErr result IsOfReading }
    ensures nothing { ChangesNothing (F.seen disk.old) (F.seen disk.new) }
    ensures cause { HasCause result StoreFault.DiskFault (F.seen disk.old).faults (F.seen disk.new).faults }
{
    let manifest = read_manifest_of(alloc, disk, info.slot)?;
    let lengths = manifest.lengths.as_slice();
    check_lengths(disk, info.slot, lengths)?;
    let files = read_images(alloc, disk, info.slot, lengths)?;
    Ok(SetBytes::of_files(files))
}
