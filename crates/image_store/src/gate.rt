ghost use Rattle.std.specs.Prelude.{◌≡◌, [], ◌∷◌, OnOk, option_map};
ghost use Rattle.disk_folder.specs.Files.{with_write};
ghost use Rattle.disk_folder.specs.Crash.{IsSettled, Torn};
ghost use Rattle.disk_folder.specs.Moments.{Passes};
ghost use Rattle.image_store.specs.Slots.{manifest_name};
ghost use Rattle.image_store.specs.SlotWrites.{closing_step, with_closed};
ghost use Rattle.image_store.specs.StoreCrashes.{SameTold};
ghost use Rattle.image_store.specs.StoreCauses.{HasCause};

use disk_folder::{DiskFault, FileName, Folder};

pub const OPEN: u8 = 1;

pub const CLOSED: u8 = 0;

/// Writes the gate of a slot, its manifest's first byte, and makes it durable with all that was
/// written before.
pub fn write_gate<F: Folder>(disk: &mut F, slot: u32, gate: u8) -> Result<(), DiskFault>
    ensures written { OnOk result
        ((F.seen disk.new).files ≡ option_map (λ files. with_write files (manifest_name slot) 0 (gate ∷ []))
        (F.seen disk.old).files) }
    ensures durable { OnOk result (IsSettled (F.seen disk.new)) }
    ensures told { SameTold (F.seen disk.old).files (F.seen disk.new).files }
    ensures crash { Passes (Torn (manifest_name slot) 0 1) (F.seen disk.old) (F.seen disk.new) }
    ensures cause { HasCause result DiskFault.Failed (F.seen disk.old).faults (F.seen disk.new).faults }
    ensures want { result ≡ Err DiskFault.Memory → (F.seen disk.old).may_want }
{
    disk.write_at(FileName { slot, index: 0 }, 0, &[gate])?;
    disk.sync()
}

/// Closes the gate of a slot whose manifest has this first byte, if it has one. A gate that is there
/// and is not open stays as it is.
pub fn close_gate<F: Folder>(disk: &mut F, slot: u32, gate: Option<u8>) -> Result<(), DiskFault>
    requires { IsSettled (F.seen disk.old) }

    ensures closed { OnOk result ((F.seen disk.new).files ≡ option_map (with_closed slot gate)
        (F.seen disk.old).files) }
    ensures durable { OnOk result (IsSettled (F.seen disk.new)) }
    ensures told { SameTold (F.seen disk.old).files (F.seen disk.new).files }
    ensures crash { Passes (closing_step slot gate) (F.seen disk.old) (F.seen disk.new) }
    ensures cause { HasCause result DiskFault.Failed (F.seen disk.old).faults (F.seen disk.new).faults }
    ensures want { result ≡ Err DiskFault.Memory → (F.seen disk.old).may_want }
{
    match gate {
        None => write_gate(disk, slot, CLOSED),
        Some(OPEN) => write_gate(disk, slot, CLOSED),
        Some(_) => Ok(()),
    }
}
