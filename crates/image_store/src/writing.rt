ghost use Rattle.std.specs.Prelude.{◌≡◌, ◌+◌, ◌*◌, ◌<◌, ◌≤◌, ◌^◌, length, map, slice_index, OnOk, option_map, IfOk};
ghost use Rattle.std.specs.Option.{ForSome};
ghost use Rattle.std.specs.FinMap as files_by_name;
ghost use Rattle.disk_folder.specs.Crash.{IsSettled};
ghost use Rattle.disk_folder.specs.Moments.{LeavesOnly, Passes};
ghost use Rattle.image_store.specs.Slots.{gate_of, manifest_of};
ghost use Rattle.image_store.specs.SlotWrites.{with_images, with_manifest, OnlyFile, KeepsManifest, KeepsGate};
ghost use Rattle.image_store.specs.SlotImages.{IsInPut, IsPut};
ghost use Rattle.image_format.specs.Manifests.{SpellsManifest};
ghost use Rattle.image_store.specs.StoreCrashes.{SameTold};
ghost use Rattle.image_store.specs.StoreCauses.{HasCause};

use crate::gate::{OPEN, close_gate, write_gate};
use disk_folder::{DiskFault, FileName, Folder};
use image_format::{Manifest, write_manifest};
use std::alloc::{AllocError, Global};
use views::list_of::ListOf;

/// The bytes of the manifest of a set, with an open gate.
pub fn manifest_bytes(
    alloc: Global,
    generation: u64,
    images: &[ListOf<u8>],
) -> Result<Vec<u8>, AllocError>
    requires some { 0 < length images.now }
    requires few { length images.now ≤ 129 }

    ensures { IfOk result (λ bytes. SpellsManifest bytes.items
        (record { generation = generation; lengths = map length images.now })) }
{
    let mut lengths = Vec::with_capacity(alloc, images.len())?;
    for image in images {
        lengths.push(image.len() as u64)?;
    }
    let lengths = ListOf::from_vec(lengths);
    write_manifest(
        alloc,
        &Manifest {
            generation,
            lengths,
        },
    )
}

/// Puts the bytes in the place of all that the file has.
fn write_file<F: Folder>(disk: &mut F, name: FileName, bytes: &[u8]) -> Result<(), DiskFault>
    ensures written { OnOk result
        ((F.seen disk.new).files ≡ option_map (λ files. files_by_name.insert files name bytes.now)
        (F.seen disk.old).files) }
    ensures told { SameTold (F.seen disk.old).files (F.seen disk.new).files }
    ensures crash { Passes (OnlyFile name) (F.seen disk.old) (F.seen disk.new) }
    ensures cause { HasCause result DiskFault.Failed (F.seen disk.old).faults (F.seen disk.new).faults }
    ensures want { result ≡ Err DiskFault.Memory → (F.seen disk.old).may_want }
{
    disk.cut(name, 0)?;
    disk.write_at(name, 0, bytes)
}

/// Writes the images as the files of the slot from 1 on.
fn write_images<F: Folder>(disk: &mut F, slot: u32, images: &[ListOf<u8>]) -> Result<(), DiskFault>
    requires { length images.now ≤ 129 }

    ensures written { OnOk result ((F.seen disk.new).files ≡ option_map (with_images slot 1 images.now)
        (F.seen disk.old).files) }
    ensures told { SameTold (F.seen disk.old).files (F.seen disk.new).files }
    ensures crash { Passes (KeepsManifest slot) (F.seen disk.old) (F.seen disk.new) }
    ensures cause { HasCause result DiskFault.Failed (F.seen disk.old).faults (F.seen disk.new).faults }
    ensures want { result ≡ Err DiskFault.Memory → (F.seen disk.old).may_want }
{
    for (i, image) in images.iter().enumerate() {
        let index = i as u32 + 1;
        write_file(disk, FileName { slot, index }, image.as_slice())?;
    }
    Ok(())
}

/// Writes the manifest behind its gate.
fn write_body<F: Folder>(disk: &mut F, slot: u32, manifest: &[u8]) -> Result<(), DiskFault>
    requires gate { ForSome (F.seen disk.old).files (λ files. 0 < length (manifest_of files slot)) }
    requires some { 0 < length manifest.now }

    ensures written { OnOk result ((F.seen disk.new).files ≡ option_map (with_manifest slot manifest.now)
        (F.seen disk.old).files) }
    ensures told { SameTold (F.seen disk.old).files (F.seen disk.new).files }
    ensures crash { Passes (KeepsGate slot) (F.seen disk.old) (F.seen disk.new) }
    ensures cause { HasCause result DiskFault.Failed (F.seen disk.old).faults (F.seen disk.new).faults }
    ensures want { result ≡ Err DiskFault.Memory → (F.seen disk.old).may_want }
{
    let name = FileName { slot, index: 0 };
    disk.write_at(name, 1, &manifest[1..])?;
    disk.cut(name, manifest.len() as u64)
}

/// Writes a set into a slot behind its gate, and makes it durable.
fn fill_slot<F: Folder>(
    disk: &mut F,
    slot: u32,
    images: &[ListOf<u8>],
    manifest: &[u8],
) -> Result<(), DiskFault>
    requires few { length images.now ≤ 129 }
    requires gate { ForSome (F.seen disk.old).files (λ files. 0 < length (manifest_of files slot)) }
    requires some { 0 < length manifest.now }

    ensures written { OnOk result
        ((F.seen disk.new).files ≡ option_map
        (λ files. with_manifest slot manifest.now (with_images slot 1 images.now files))
        (F.seen disk.old).files) }
    ensures durable { OnOk result (IsSettled (F.seen disk.new)) }
    ensures told { SameTold (F.seen disk.old).files (F.seen disk.new).files }
    ensures crash { Passes (KeepsGate slot) (F.seen disk.old) (F.seen disk.new) }
    ensures cause { HasCause result DiskFault.Failed (F.seen disk.old).faults (F.seen disk.new).faults }
    ensures want { result ≡ Err DiskFault.Memory → (F.seen disk.old).may_want }
{
    write_images(disk, slot, images)?;
    write_body(disk, slot, manifest)?;
    disk.sync()
}

/// Writes a set into a slot whose manifest has this gate, if it has one: closes the gate unless it
/// is shut, fills the slot and opens it, with a sync after each.
pub fn write_set<F: Folder>(
    disk: &mut F,
    slot: u32,
    gate: Option<u8>,
    images: &[ListOf<u8>],
    manifest: &[u8],
) -> Result<(), DiskFault>
    requires settled { IsSettled (F.seen disk.old) }
    requires gate { ForSome (F.seen disk.old).files (λ files. gate_of (manifest_of files slot) ≡ gate) }
    requires few { length images.now ≤ 129 }
    requires some { 0 < length manifest.now }
    requires open { slice_index manifest.now 0 ≡ 1 }

    ensures written { OnOk result (ForSome (F.seen disk.old).files
        (λ files. ForSome (F.seen disk.new).files (IsPut slot files manifest.now images.now))) }
    ensures durable { OnOk result (IsSettled (F.seen disk.new)) }
    ensures told { SameTold (F.seen disk.old).files (F.seen disk.new).files }
    ensures crash { ForSome (F.seen disk.old).files (λ files.
        LeavesOnly (F.seen disk.old) (F.seen disk.new) (IsInPut slot files manifest.now images.now)) }
    ensures cause { HasCause result DiskFault.Failed (F.seen disk.old).faults (F.seen disk.new).faults }
    ensures want { result ≡ Err DiskFault.Memory → (F.seen disk.old).may_want }
{
    close_gate(disk, slot, gate)?;
    fill_slot(disk, slot, images, manifest)?;
    write_gate(disk, slot, OPEN)
}
