//! What the next sync of a folder of the host has to make durable.
ghost use Rattle.std.specs.Prelude.{◌≡◌, [], Some, true, false, option_map, OnOk, OnErr};
ghost use Rattle.set_disk.specs.Owed.{files_owed, owes_folder, with_file};

use disk_folder::FileName;
use std::alloc::{AllocError, Global};

/// What is not known to be durable.
#[derive(Drop)]
pub enum Owed {
    /// All that the folder holds, as before the first sync, and after a write or a sync that failed.
    All,
    /// These files, and the folder, where it has a new entry (`man 2 fsync`).
    Changes {
        files: Vec<FileName>,
        has_new_entry: bool,
    },
}

impl Owed {
    /// No change.
    pub fn nothing(alloc: Global) -> Owed
        ensures files { files_owed result ≡ Some [] }
        ensures folder { owes_folder result ≡ false }
    {
        Owed::Changes {
            files: Vec::new(alloc),
            has_new_entry: false,
        }
    }

    /// Adds a file.
    pub fn add_file(&mut self, name: FileName) -> Result<(), AllocError>
        ensures ok { OnOk result (files_owed self.new ≡ option_map (with_file name) (files_owed self.old)) }
        ensures err { OnErr result (files_owed self.new ≡ files_owed self.old) }
        ensures folder { owes_folder self.new ≡ owes_folder self.old }
    {
        if let Owed::Changes { files, .. } = self {
            if !files.contains(&name) {
                files.push(name)?;
            }
        }
        Ok(())
    }

    /// Adds a new entry of the folder, that of a file that was made.
    pub fn add_entry(&mut self)
        ensures files { files_owed self.new ≡ files_owed self.old }
        ensures folder { owes_folder self.new ≡ true }
    {
        if let Owed::Changes { has_new_entry, .. } = self {
            *has_new_entry = true;
        }
    }
}
