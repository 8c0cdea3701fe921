ghost use Rattle.std.specs.Prelude.{◌≡◌, ◌↔◌, ℕ, suc, ◌-◌, ◌^◌, ◌<◌, ◌≤◌, List, Some, None, Err, length, IfOk, IfErr, IfSome, OnOk, OnErr, IsErrOf, IsSomeAnd};
ghost use Rattle.std.specs.Option.{ForSome};
ghost use Rattle.disk_folder.specs.Files.{FolderFiles};
ghost use Rattle.disk_folder.specs.Moments.{LeavesOnly};
ghost use Rattle.image_format.specs.declared.damage.Damage.{Damage as Place};
ghost use Rattle.image_store.specs.Slots.{later, slot_to_write};
ghost use Rattle.image_store.specs.FoundSets.{last_set, HasSet};
ghost use Rattle.image_store.specs.StoreStates.{FitsFolder, NoneAbove, generation_after, next_generation, within_floor, gate_known, with_set};
ghost use Rattle.image_store.specs.StoreCrashes.{ChangesNothing, OldOrNew, SameTold};
ghost use Rattle.image_store.specs.SetDamages.{HasDamage};
ghost use Rattle.image_store.specs.StoreCauses.{HasCause, IsDamageOrOutside, IsOrOutside, IsOutside};

use crate::gate::OPEN;
use crate::head::read_head;
use crate::reading::read_set;
use crate::set_info::SetInfo;
use crate::store_fault::StoreFault;
use crate::writing::{manifest_bytes, write_set};
use disk_folder::Folder;
use image_format::SetBytes;
use std::alloc::Global;
use std::marker::Model;

/// What is known of a folder of checkpoint sets.
///
/// A contract sees it as `Known`, and asks that it fits the folder it is used with (`FitsFolder`):
/// that holds after an Ok of `open_store` and of `put_set`, until someone else writes there.
#[derive(Drop)]
pub struct Store {
    /// The gate of each slot, if its manifest has a byte.
    first: Option<u8>,
    second: Option<u8>,
    last: Option<SetInfo>,
    floor: u64,
}

impl Model for Store {
    ghost use Rattle.image_store.specs.StoreStates.{Known};

    ghost Value = { Known };

    ghost view = { λ s. record { first = s.first; second = s.second; last = s.last; floor = s.floor } };
}

impl Store {
    /// Opens the store of a folder: makes durable what reads give, and finds the set that counts.
    ///
    /// `floor` is 0, or a generation above which none is to be found: a set with a greater one is
    /// passed over.
    pub fn open_store<F: Folder>(
        _alloc: Global,
        disk: &mut F,
        floor: u64,
    ) -> Result<Store, StoreFault>
        requires { ForSome (F.seen disk.old).files (NoneAbove floor) }

        ensures fits { IfOk result (λ store. FitsFolder store (F.seen disk.new)) }
        ensures floor { IfOk result (λ store. store.floor ≡ floor) }
        ensures passed { 0 < floor → IfOk result
            (λ store. IfSome store.last (λ info. info.generation ≤ floor)) }
        ensures refused { IfErr result IsOutside }

        // A crash at any moment leaves only what one before the call could leave.
        ensures crash { LeavesOnly (F.seen disk.old) (F.seen disk.new) (F.seen disk.old).may_leave }
        ensures nothing { ChangesNothing (F.seen disk.old) (F.seen disk.new) }
        ensures cause { HasCause result StoreFault.DiskFault (F.seen disk.old).faults
            (F.seen disk.new).faults }
    {
        disk.sync()?;
        let first = read_head(disk, 0)?;
        let second = read_head(disk, 1)?;
        let last = later(
            within_floor(floor, first.info),
            within_floor(floor, second.info),
        );
        Ok(Store {
            first: first.gate,
            second: second.gate,
            last,
            floor,
        })
    }

    /// The set that counts.
    pub fn last(&self) -> Option<SetInfo>
        ensures { result ≡ self.now.last }
    {
        self.last
    }

    /// The generation of the next set.
    pub fn next(&self) -> u64
        requires { next_generation self.now < 2 ^ 64 - 1 }
        ensures { result ≡ next_generation self.now }
    {
        generation_after(self.floor, self.last)
    }

    /// Writes a set into the slot that does not count, with the next generation, so that a crash at
    /// any moment leaves the set that counted before or the new one.
    ///
    /// After a refusal the folder is to be opened again. Memory of the call's own is taken before its
    /// first call of the folder.
    pub fn put_set<F: Folder>(
        self,
        alloc: Global,
        disk: &mut F,
        set: &SetBytes,
    ) -> Result<(Store, u64), StoreFault>
        requires fits { FitsFolder self (F.seen disk.old) }
        requires room { next_generation self < 2 ^ 64 - 1 }
        requires some { 0 < length set.now.files }
        requires few { length set.now.files ≤ 129 }

        ensures generation { IfOk result (λ done. done.1 ≡ next_generation self) }
        ensures last { IfOk result (λ done. IsSomeAnd done.0.last
            (λ info. info.generation ≡ next_generation self)) }
        ensures next { IfOk result (λ done. next_generation done.0 ≡ suc (next_generation self)) }

        // It lies in the slot that did not count, slot 0 where none counted.
        ensures store { IfOk result (λ done. done.0 ≡ with_set self (slot_to_write self.last)
            (next_generation self)) }
        ensures fits { IfOk result (λ done. FitsFolder done.0 (F.seen disk.new)) }

        // A crash at any moment of the call leaves the set that counted before, or the new one.
        ensures crash { ForSome (F.seen disk.old).files (λ files.
            LeavesOnly (F.seen disk.old) (F.seen disk.new)
            (OldOrNew (last_set files) (next_generation self) set.now.files)) }

        // After Ok each crash leaves the new one, and reads give it.
        ensures durable { OnOk result (ForSome (F.seen disk.old).files
            (λ _. (image : FolderFiles) → (F.seen disk.new).may_leave image
            → HasSet (last_set image) (next_generation self) set.now.files)) }
        ensures stored { OnOk result (ForSome (F.seen disk.new).files
            (λ files. HasSet (last_set files) (next_generation self) set.now.files)) }

        // After a refusal reads give the one or the other.
        ensures err { OnErr result (ForSome (F.seen disk.old).files (λ before. ForSome (F.seen disk.new).files
            (OldOrNew (last_set before) (next_generation self) set.now.files))) }
        ensures told { SameTold (F.seen disk.old).files (F.seen disk.new).files }
        ensures refused { IfErr result IsOutside }
        ensures cause { HasCause result StoreFault.DiskFault (F.seen disk.old).faults
            (F.seen disk.new).faults }

        // Where the folder never wants for memory, a call that does has not touched it.
        ensures own { ((F.seen disk.old).may_want → ⊥) → result ≡ Err StoreFault.Memory
            → disk.new ≡ disk.old }
    {
        let generation = self.next();
        let slot = slot_to_write(self.last);
        let images = set.files.as_slice();
        let manifest = manifest_bytes(alloc, generation, images)?;
        write_set(disk, slot, self.gate(slot), images, &manifest)?;
        Ok((self.with_set(slot, generation), generation))
    }

    /// Reads the set that counts.
    pub fn get_set<F: Folder>(&self, alloc: Global, disk: &mut F) -> Result<SetBytes, StoreFault>
        requires { FitsFolder self.now (F.seen disk.old) }

        // There is none exactly where none counts.
        ensures none { IsErrOf result StoreFault.NoSet ↔ (self.now.last ≡ None) }

        // What is read is the set that counts, and a set that is whole is read.
        ensures found { IfOk result (λ set. ForSome (F.seen disk.old).files
            (λ files. IfSome self.now.last (λ info.
            HasSet (last_set files) info.generation set.files))) }
        ensures only { ForSome (F.seen disk.old).files
            (λ files. (g : ℕ) (bytes : List (List ℕ)) → HasSet (last_set files) g bytes
            → IsOrOutside result bytes) }

        // Where it is damaged the first damage is told, and only there.
        ensures broken { ForSome (F.seen disk.old).files (λ files. (d : Place) → HasDamage (last_set files) d
            → IsDamageOrOutside result d) }
        ensures damaged { (d : Place) → result ≡ Err (StoreFault.Damaged d)
            → ForSome (F.seen disk.old).files (λ files. HasDamage (last_set files) d) }

        // The folder stays as it is, and the store goes on to fit it.
        ensures crash { LeavesOnly (F.seen disk.old) (F.seen disk.new) (F.seen disk.old).may_leave }
        ensures fits { FitsFolder self.now (F.seen disk.new) }
        ensures nothing { ChangesNothing (F.seen disk.old) (F.seen disk.new) }
        ensures cause { HasCause result StoreFault.DiskFault (F.seen disk.old).faults
            (F.seen disk.new).faults }
    {
        match self.last {
            None => Err(StoreFault::NoSet),
            Some(info) => read_set(alloc, disk, info),
        }
    }

    /// The gate of a slot.
    fn gate(&self, slot: u32) -> Option<u8>
        requires { slot < 2 }
        ensures { result ≡ gate_known self.now slot }
    {
        if slot == 0 { self.first } else { self.second }
    }

    /// What is known once this set was put.
    fn with_set(self, slot: u32, generation: u64) -> Store
        requires { slot < 2 }
        ensures { result ≡ with_set self slot generation }
    {
        let last = Some(SetInfo { slot, generation });
        if slot == 0 {
            Store {
                first: Some(OPEN),
                last,
                ..self
            }
        } else {
            Store {
                second: Some(OPEN),
                last,
                ..self
            }
        }
    }
}

/// One more than the greater of the floor and the generation of the set.
#[tactic(auto, unfolding(crate::specs::StoreStates::generation_after))]
fn generation_after(floor: u64, last: Option<SetInfo>) -> u64
    requires { generation_after floor last < 2 ^ 64 - 1 }
    ensures { result ≡ generation_after floor last }
{
    match last {
        Some(info) if info.generation > floor => info.generation + 1,
        _ => floor + 1,
    }
}

/// The set, unless there is a floor and its generation is greater.
#[tactic(auto, unfolding(crate::specs::StoreStates::within_floor))]
fn within_floor(floor: u64, info: Option<SetInfo>) -> Option<SetInfo>
    ensures { result ≡ within_floor floor info }
{
    match info {
        Some(info) if floor != 0 && info.generation > floor => None,
        _ => info,
    }
}

/// Of two sets the one with the greater generation, the first of them where both have the same.
#[tactic(auto, unfolding(crate::specs::Slots::later))]
fn later(first: Option<SetInfo>, second: Option<SetInfo>) -> Option<SetInfo>
    ensures { result ≡ later first second }
{
    match (first, second) {
        (Some(a), Some(b)) if a.generation >= b.generation => Some(a),
        (first, None) => first,
        (_, second) => second,
    }
}

/// The slot that does not hold this set, and 0 where there is none.
#[tactic(auto, unfolding(crate::specs::Slots::slot_to_write))]
fn slot_to_write(last: Option<SetInfo>) -> u32
    ensures { result ≡ slot_to_write last }
{
    match last {
        Some(info) if info.slot == 0 => 1,
        _ => 0,
    }
}
