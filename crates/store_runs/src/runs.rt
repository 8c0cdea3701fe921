ghost use Rattle.std.specs.Prelude.{◌≡◌, ◌+◌, suc, ◌-◌, ◌^◌, ◌<◌, ◌≤◌, All, length, IfOk, IfErr, OnOk};
ghost use Rattle.std.specs.Option.{ForSome};
ghost use Rattle.disk_folder.specs.Moments.{LeavesOnly};
ghost use Rattle.image_store.specs.FoundSets.{last_set};
ghost use Rattle.store_runs.specs.StoreRuns.{IsOneOf, IsSmall};
ghost use Rattle.image_store.specs.StoreStates.{FitsFolder, next_generation};
ghost use Rattle.image_store.specs.StoreCrashes.{OldOrNew, SameTold};
ghost use Rattle.image_store.specs.StoreCauses.{HasCause, IsOutside};

use disk_folder::Folder;
use image_store::{SetBytes, Store, StoreFault};
use std::alloc::Global;

/// Puts a set. Where it is refused the folder is opened again, and the set may be there or not.
fn put_or_open<F: Folder>(
    store: Store,
    alloc: Global,
    disk: &mut F,
    set: &SetBytes,
) -> Result<Store, StoreFault>
    requires fits { FitsFolder store (F.seen disk.old) }
    requires room { next_generation store < 2 ^ 64 - 1 }
    requires small { IsSmall set.now }

    ensures fits { IfOk result (λ after. FitsFolder after (F.seen disk.new)) }
    ensures next { IfOk result (λ after. next_generation after ≡ suc (next_generation store)) }
    ensures crash { ForSome (F.seen disk.old).files (λ files.
        LeavesOnly (F.seen disk.old) (F.seen disk.new)
        (OldOrNew (last_set files) (next_generation store) set.now.files)) }
    ensures reads { ForSome (F.seen disk.old).files (λ files. ForSome (F.seen disk.new).files
        (OldOrNew (last_set files) (next_generation store) set.now.files)) }
    ensures told { SameTold (F.seen disk.old).files (F.seen disk.new).files }
    ensures refused { IfErr result IsOutside }
    ensures cause { HasCause result StoreFault.DiskFault (F.seen disk.old).faults (F.seen disk.new).faults }
{
    let generation = store.next();
    match store.put_set(alloc, disk, set) {
        Ok((after, _generation)) => Ok(after),
        Err(_refused) => Store::open_store(alloc, disk, generation),
    }
}

/// Puts sets one after another. Where one is refused the folder is opened again, and the next one is
/// put with the generation that follows.
pub fn put_all<F: Folder>(
    store: Store,
    alloc: Global,
    disk: &mut F,
    sets: &[SetBytes],
) -> Result<Store, StoreFault>
    requires fits { FitsFolder store (F.seen disk.old) }
    requires room { next_generation store + length sets.now < 2 ^ 64 - 1 }
    requires small { All IsSmall sets.now }

    ensures fits { IfOk result (λ after. FitsFolder after (F.seen disk.new)) }

    // Each set has had its generation.
    ensures next { IfOk result (λ after. next_generation after ≡ next_generation store + length sets.now) }
    ensures refused { IfErr result IsOutside }
    ensures cause { HasCause result StoreFault.DiskFault (F.seen disk.old).faults (F.seen disk.new).faults }

    // A crash at any moment leaves the set that counted before, or one of these.
    ensures crash { ForSome (F.seen disk.old).files (λ files.
        LeavesOnly (F.seen disk.old) (F.seen disk.new)
        (λ image. IsOneOf (last_set files) (next_generation store) sets.now (last_set image))) }
{
    let mut store = store;
    for set in sets {
        store = put_or_open(store, alloc, disk, set)?;
    }
    Ok(store)
}
