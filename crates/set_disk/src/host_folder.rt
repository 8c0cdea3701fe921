ghost use Rattle.std.specs.Prelude.{◌≡◌, ◌≤◌, ◌⊎◌, ◌||◌, [], Some, None, false, length, option_map, if◌then◌else◌, IsTrue, MatchBool, IsSome, IfSome, IfOk, OnOk, OnErr, ⊤, string_bytes};
ghost use Rattle.std.specs.FinMap as map;
ghost use Rattle.std.specs.Result.{result_err};
ghost use Rattle.disk_folder.specs.Files.{contents, with_write, with_cut};
ghost use Rattle.disk_folder.specs.Crash.{CutOrNot, IsSettled, Same, Takes, Torn};
ghost use Rattle.disk_folder.specs.Faults.{HasCause};
ghost use Rattle.disk_folder.specs.Moments.{Passes};
ghost use Rattle.set_disk.specs.HostNames.{host_path};
ghost use Rattle.set_disk.specs.Owed.{files_owed, owes_folder, with_file, cut_to, is_at_cut, MadeOrKept, MayOwe};
ghost use Rattle.set_disk.specs.Untold.{without_content};
ghost use Rattle.set_disk.specs.declared.owed.Owed.TheVariants.{All};

use crate::host_files::{cut_file, length_of, overwrite_file, read_file, write_file};
use crate::host_names::path_of;
use crate::host_syncs::{sync_folder, take_folder};
use crate::owed::Owed;
use disk_folder::{DiskFault, FileName, Folder};
use std::alloc::{AllocError, Global};
use std::fs::File;
use std::mem;
use std::rt::Files;

/// A cut that was answered, and is made by the next call: a write at the file's new end makes both at once.
#[derive(Clone, Copy)]
struct PutOff {
    name: FileName,
    len: u64,
}

/// A folder of the host, with a file `s{slot}_{index}.img` for each file name. It tells no content.
///
/// Its first sync or change makes the folder where it is missing, and takes it: as long as this value
/// is there, a sync or change by another fails. Host files of other names are ignored.
#[derive(Drop)]
pub struct HostFolder<R> {
    rt: R,
    path: String,
    /// The folder, opened and locked, once it was taken.
    held: Option<File>,
    owed: Owed,
    cut: Option<PutOff>,
    faults: u64,
}

impl<R: Files<File = File> + AllocGlobal + Clone + Drop> HostFolder<R> {
    /// The folder at the path, without faults so far. No call of the host is made.
    pub fn new(rt: R, alloc: Global, path: &str) -> Result<Self, AllocError>
        ensures rest { IfOk result (λ folder. (folder.rt ≡ rt)
            × ((folder.held ≡ None) × ((folder.owed ≡ All) × ((folder.cut ≡ None) × (folder.faults ≡ 0))))) }
        ensures place { IfOk result (λ folder. string_bytes folder.path ≡ path.now) }
    {
        Ok(HostFolder {
            rt,
            path: String::from_str(alloc, path)?,
            held: None,
            owed: Owed::All,
            cut: None,
            faults: 0,
        })
    }

    /// The path of the file.
    fn path_of(&self, name: FileName) -> Result<String, DiskFault>
        ensures { IfOk result (λ path. string_bytes path ≡ host_path (string_bytes self.now.path) name) }
    {
        Ok(path_of(self.rt.alloc(), self.path.as_str(), name)?)
    }

    /// Makes the cut that was put off. Until then, also after a failure, it is to be made.
    fn make_cut(&mut self) -> Result<(), DiskFault>
        ensures done { OnOk result (self.new.cut ≡ None) }
        ensures kept { OnErr result (self.new.cut ≡ self.old.cut) }
        ensures rest { self.new ≡ record self.old { cut = self.new.cut } }
    {
        let Some(cut) = self.cut else {
            return Ok(());
        };
        let path = self.path_of(cut.name)?;
        cut_file(&self.rt, path.as_str(), cut.len)?;
        self.cut = None;
        Ok(())
    }

    /// The path of a file that is to be read, once the folder is as calls have left it.
    fn path_to_read(&mut self, name: FileName) -> Result<String, DiskFault>
        ensures path { IfOk result (λ path. string_bytes path ≡ host_path (string_bytes self.old.path) name) }
        ensures done { OnOk result (self.new.cut ≡ None) }
        ensures kept { OnErr result (self.new.cut ≡ self.old.cut) }
        ensures rest { self.new ≡ record self.old { cut = self.new.cut } }
    {
        let path = self.path_of(name)?;
        self.make_cut()?;
        Ok(path)
    }

    /// The path of a file that is to be changed, once the folder is there. The next sync owes the file.
    fn path_to_change(&mut self, name: FileName) -> Result<String, DiskFault>
        ensures path { IfOk result (λ path. string_bytes path ≡ host_path (string_bytes self.old.path) name) }
        ensures owes { OnOk result
            (files_owed self.new.owed ≡ option_map (with_file name) (files_owed self.old.owed)) }
        ensures failed { OnErr result (MayOwe name self.old.owed self.new.owed) }
        ensures folder { owes_folder self.new.owed ≡ owes_folder self.old.owed }
        ensures held { OnOk result (IsSome self.new.held) }
        ensures stays { IsSome self.old.held → self.new.held ≡ self.old.held }
        ensures rest { self.new ≡ record self.old { owed = self.new.owed; held = self.new.held } }
    {
        let path = self.path_of(name)?;
        self.owed.add_file(name)?;
        self.take()?;
        Ok(path)
    }

    /// Makes the folder where it is missing, and takes it, at the first sync or change.
    fn take(&mut self) -> Result<(), DiskFault>
        ensures held { OnOk result (IsSome self.new.held) }
        ensures stays { IsSome self.old.held → self.new.held ≡ self.old.held }
        ensures rest { self.new ≡ record self.old { held = self.new.held } }
    {
        if self.held.is_none() {
            self.held = Some(take_folder(&self.rt, self.path.as_str())?);
        }
        Ok(())
    }

    /// Takes down a cut that the next call makes, once the one before it was made.
    fn put_off(&mut self, name: FileName, len: u64) -> Result<(), DiskFault>
        ensures cut { OnOk result (self.new.cut ≡ Some (cut_to name len)) }
        ensures kept { OnErr result (self.new.cut ≡ self.old.cut) }
        ensures owes { OnOk result
            (files_owed self.new.owed ≡ option_map (with_file name) (files_owed self.old.owed)) }
        ensures failed { OnErr result (MayOwe name self.old.owed self.new.owed) }
        ensures folder { owes_folder self.new.owed ≡ owes_folder self.old.owed }
        ensures held { OnOk result (IsSome self.new.held) }
        ensures stays { IsSome self.old.held → self.new.held ≡ self.old.held }
        ensures place { self.new.path ≡ self.old.path }
        ensures faults { self.new.faults ≡ self.old.faults }
    {
        self.path_to_change(name)?;
        self.make_cut()?;
        self.cut = Some(PutOff { name, len });
        Ok(())
    }

    /// Whether the cut that was put off is of this file, to this length.
    fn is_at_cut(&self, name: FileName, at: u64) -> bool
        ensures { result ≡ is_at_cut self.now.cut name at }
    {
        self.cut
            .is_some_and(|cut| cut.name == name && cut.len == at)
    }

    /// Makes the cut that was put off, unless a write there makes it.
    fn make_cut_before(&mut self, name: FileName, at: u64) -> Result<(), DiskFault>
        ensures left { OnOk result
            (self.new.cut ≡ (if is_at_cut self.old.cut name at then self.old.cut else None)) }
        ensures kept { OnErr result (self.new.cut ≡ self.old.cut) }
        ensures rest { self.new ≡ record self.old { cut = self.new.cut } }
    {
        if self.is_at_cut(name, at) {
            return Ok(());
        }
        self.make_cut()
    }

    /// Writes, and answers whether the file was made. A cut to where the write begins is made with it, any
    /// other before it.
    fn write(&mut self, name: FileName, at: u64, bytes: &[u8]) -> Result<bool, DiskFault>
        ensures cut { OnOk result (self.new.cut ≡ None) }
        ensures kept { OnErr result (MatchBool (is_at_cut self.old.cut name at)
            (self.new.cut ≡ self.old.cut) (MadeOrKept self.old.cut self.new.cut)) }
        ensures owes { OnOk result
            (files_owed self.new.owed ≡ option_map (with_file name) (files_owed self.old.owed)) }
        ensures folder { owes_folder self.new.owed ≡ owes_folder self.old.owed }
        ensures held { OnOk result (IsSome self.new.held) }
        ensures stays { IsSome self.old.held → self.new.held ≡ self.old.held }
        ensures place { self.new.path ≡ self.old.path }
        ensures faults { self.new.faults ≡ self.old.faults }
    {
        let path = self.path_to_change(name)?;
        self.make_cut_before(name, at)?;
        let is_made = match self.cut {
            Some(_) => overwrite_file(&self.rt, path.as_str(), at, bytes)?,
            None => write_file(&self.rt, path.as_str(), at, bytes)?,
        };
        self.cut = None;
        Ok(is_made)
    }

    /// Makes durable what is owed. After a failure all is owed, or what was, where the folder can't be taken.
    fn sync_owed(&mut self) -> Result<(), DiskFault>
        ensures files { OnOk result (files_owed self.new.owed ≡ Some []) }
        ensures folder { OnOk result (owes_folder self.new.owed ≡ false) }
        ensures cut { OnOk result (self.new.cut ≡ None) }
        ensures failed { OnErr result ((self.new.owed ≡ All) ⊎ (self.new.owed ≡ self.old.owed)) }
        ensures kept { OnErr result (MadeOrKept self.old.cut self.new.cut) }
        ensures held { OnOk result (IsSome self.new.held) }
        ensures stays { IsSome self.old.held → self.new.held ≡ self.old.held }
        ensures place { self.new.path ≡ self.old.path }
        ensures faults { self.new.faults ≡ self.old.faults }
    {
        self.take()?;
        let owed = mem::replace(&mut self.owed, Owed::All);
        self.make_cut()?;
        let Some(folder) = &self.held else {
            return Err(DiskFault::Failed);
        };
        sync_folder(&self.rt, self.path.as_str(), folder, &owed)?;
        self.owed = Owed::nothing(self.rt.alloc());
        Ok(())
    }

    /// Counts the answer of a write, if it is a fault. The next sync owes the folder where a file was made,
    /// and all where the write failed.
    fn count_write(&mut self, answer: Result<bool, DiskFault>) -> Result<(), DiskFault>
        ensures files { OnOk result (files_owed self.new.owed ≡ files_owed self.old.owed) }
        ensures folder { IfOk answer (λ is_made.
            owes_folder self.new.owed ≡ (is_made || owes_folder self.old.owed)) }
        ensures failed { OnErr result (self.new.owed ≡ All) }
        ensures same { result_err result ≡ result_err answer }
        ensures rest { self.new ≡ record self.old { owed = self.new.owed; faults = self.new.faults } }
        ensures cause { HasCause result self.old.faults self.new.faults }
    {
        match self.count(answer) {
            Ok(true) => self.owed.add_entry(),
            Ok(false) => {}
            Err(fault) => {
                self.owed = Owed::All;
                return Err(fault);
            }
        }
        Ok(())
    }

    /// Counts the answer, if it is a fault.
    fn count<T: Drop>(&mut self, answer: Result<T, DiskFault>) -> Result<T, DiskFault>
        ensures same { result ≡ answer }
        ensures rest { self.new ≡ record self.old { faults = self.new.faults } }
        ensures cause { HasCause result self.old.faults self.new.faults }
    {
        let _in_range = self.faults;
        if let Err(DiskFault::Failed) = &answer {
            self.faults = self.faults.saturating_add(1);
        }
        answer
    }
}

impl<R: Files<File = File> + AllocGlobal + Clone + Drop> Folder for HostFolder<R> {
    ghost seen = { λ folder. without_content folder.faults };

    fn len(&mut self, name: FileName) -> Result<Option<u64>, DiskFault>
        ensures done { OnOk result (self.new.cut ≡ None) }
        ensures kept { OnErr result (MadeOrKept self.old.cut self.new.cut) }
        ensures rest { self.new ≡ record self.old { cut = self.new.cut; faults = self.new.faults } }

        ensures told { IfOk result (λ len. IfSome (without_content self.old.faults).files
            (λ files. len ≡ option_map length (map.get files name))) }
        ensures same { (without_content self.new.faults).files ≡ (without_content self.old.faults).files }
        ensures crash { Passes Same (without_content self.old.faults) (without_content self.new.faults) }
        ensures cause { HasCause result self.old.faults self.new.faults }
        ensures want { result ≡ Err DiskFault.Memory → ⊤ }
    {
        let answer = match self.path_to_read(name) {
            Ok(path) => length_of(&self.rt, path.as_str()),
            Err(fault) => Err(fault),
        };
        self.count(answer)
    }

    fn read_at(&mut self, name: FileName, at: u64, buf: &mut [u8]) -> Result<usize, DiskFault>
        ensures done { OnOk result (self.new.cut ≡ None) }
        ensures kept { OnErr result (MadeOrKept self.old.cut self.new.cut) }
        ensures rest { self.new ≡ record self.old { cut = self.new.cut; faults = self.new.faults } }

        // Of the bytes themselves it tells nothing, so nothing is left of `placed` and `bytes`.
        ensures fits { IfOk result (λ n. n ≤ length buf.old) }
        ensures memory { result ≡ Err DiskFault.Memory → buf.new ≡ buf.old }
        ensures same { (without_content self.new.faults).files ≡ (without_content self.old.faults).files }
        ensures crash { Passes Same (without_content self.old.faults) (without_content self.new.faults) }
        ensures cause { HasCause result self.old.faults self.new.faults }
        ensures want { result ≡ Err DiskFault.Memory → ⊤ }
    {
        let answer = match self.path_to_read(name) {
            Ok(path) => read_file(&self.rt, path.as_str(), at, buf),
            Err(fault) => Err(fault),
        };
        self.count(answer)
    }

    fn write_at(&mut self, name: FileName, at: u64, bytes: &[u8]) -> Result<(), DiskFault>
        ensures owes { OnOk result
            (files_owed self.new.owed ≡ option_map (with_file name) (files_owed self.old.owed)) }
        ensures folder { OnOk result
            (IsTrue (owes_folder self.old.owed) → IsTrue (owes_folder self.new.owed)) }
        ensures owes_all { OnErr result (self.new.owed ≡ All) }
        ensures done { OnOk result (self.new.cut ≡ None) }
        ensures kept { OnErr result (MatchBool (is_at_cut self.old.cut name at)
            (self.new.cut ≡ self.old.cut) (MadeOrKept self.old.cut self.new.cut)) }
        ensures held { OnOk result (IsSome self.new.held) }
        ensures stays { IsSome self.old.held → self.new.held ≡ self.old.held }
        ensures place { self.new.path ≡ self.old.path }

        ensures written { OnOk result
            ((without_content self.new.faults).files ≡ option_map
            (λ files. with_write files name at bytes.now) (without_content self.old.faults).files) }
        ensures failed { result ≡ Err DiskFault.Failed
            → Takes (Torn name at (length bytes.now))
            (without_content self.old.faults).files (without_content self.new.faults).files }
        ensures memory { result ≡ Err DiskFault.Memory
            → (without_content self.new.faults).files ≡ (without_content self.old.faults).files }
        ensures crash { Passes (Torn name at (length bytes.now))
            (without_content self.old.faults) (without_content self.new.faults) }
        ensures memory_crash { result ≡ Err DiskFault.Memory
            → Passes Same (without_content self.old.faults) (without_content self.new.faults) }
        ensures cause { HasCause result self.old.faults self.new.faults }
        ensures want { result ≡ Err DiskFault.Memory → ⊤ }
    {
        let answer = self.write(name, at, bytes);
        self.count_write(answer)
    }

    fn cut(&mut self, name: FileName, len: u64) -> Result<(), DiskFault>
        ensures owes { OnOk result
            (files_owed self.new.owed ≡ option_map (with_file name) (files_owed self.old.owed)) }
        ensures may_owe { OnErr result (MayOwe name self.old.owed self.new.owed) }
        ensures folder { owes_folder self.new.owed ≡ owes_folder self.old.owed }
        ensures put_off { OnOk result (self.new.cut ≡ Some (cut_to name len)) }
        ensures kept { OnErr result (self.new.cut ≡ self.old.cut) }
        ensures held { OnOk result (IsSome self.new.held) }
        ensures stays { IsSome self.old.held → self.new.held ≡ self.old.held }
        ensures place { self.new.path ≡ self.old.path }

        ensures cut { OnOk result
            ((without_content self.new.faults).files ≡ option_map
            (λ files. with_cut files name len) (without_content self.old.faults).files) }
        ensures failed { result ≡ Err DiskFault.Failed
            → Takes (CutOrNot name len)
            (without_content self.old.faults).files (without_content self.new.faults).files }
        ensures memory { result ≡ Err DiskFault.Memory
            → (without_content self.new.faults).files ≡ (without_content self.old.faults).files }
        ensures crash { Passes (CutOrNot name len)
            (without_content self.old.faults) (without_content self.new.faults) }
        ensures memory_crash { result ≡ Err DiskFault.Memory
            → Passes Same (without_content self.old.faults) (without_content self.new.faults) }
        ensures cause { HasCause result self.old.faults self.new.faults }
        ensures want { result ≡ Err DiskFault.Memory → ⊤ }
    {
        let answer = self.put_off(name, len);
        self.count(answer)
    }

    fn sync(&mut self) -> Result<(), DiskFault>
        ensures files { OnOk result (files_owed self.new.owed ≡ Some []) }
        ensures folder { OnOk result (owes_folder self.new.owed ≡ false) }
        ensures done { OnOk result (self.new.cut ≡ None) }
        ensures failed { OnErr result ((self.new.owed ≡ All) ⊎ (self.new.owed ≡ self.old.owed)) }
        ensures kept { OnErr result (MadeOrKept self.old.cut self.new.cut) }
        ensures held { OnOk result (IsSome self.new.held) }
        ensures stays { IsSome self.old.held → self.new.held ≡ self.old.held }
        ensures place { self.new.path ≡ self.old.path }

        ensures durable { OnOk result (IsSettled (without_content self.new.faults)) }
        ensures same { (without_content self.new.faults).files ≡ (without_content self.old.faults).files }
        ensures crash { Passes Same (without_content self.old.faults) (without_content self.new.faults) }
        ensures cause { HasCause result self.old.faults self.new.faults }
        ensures want { result ≡ Err DiskFault.Memory → ⊤ }
    {
        let answer = self.sync_owed();
        self.count(answer)
    }
}
