ghost use Rattle.std.specs.Prelude.{◌≡◌, IfOk, OnOk, OnErr};
ghost use Rattle.std.specs.Option.{option_copied, option_copied_mut};
ghost use Rattle.std.specs.Borrow.{sem};
ghost use Rattle.std.specs.FinMap as map;
ghost use Rattle.disk_folder.specs.Files.{with_write, with_cut};
ghost use Rattle.disk_folder.specs.FileTable.{LendsFile};
ghost use Rattle.disk_folder.specs.History.{done};

use crate::FileName;
use crate::file_bytes::FileBytes;
use crate::request::Request;
use std::alloc::{AllocError, Global};
use std::collections::BTreeMap;
use std::marker::Model;
use views::duplicate::{Duplicate, duplicate_tree};

/// The files of a folder in memory, by name.
#[derive(Drop)]
pub struct Files {
    table: BTreeMap<FileName, FileBytes>,
}

impl Model for Files {
    ghost use Rattle.std.specs.FinMap as map;
    ghost use Rattle.disk_folder.specs.Files.{FolderFiles as Seen};
    ghost use Rattle.disk_folder.specs.FilesCode.{coded_files};

    ghost Value = { Seen };

    ghost coded = { coded_files };

    ghost view = { λ f. map.from_entries f.table.entries };
}

impl Files {
    /// No files.
    pub fn new(alloc: Global) -> Self
        ensures { result ≡ map.empty }
    {
        Files {
            table: BTreeMap::new(alloc),
        }
    }

    pub fn get(&self, name: FileName) -> Option<&FileBytes>
        ensures { option_copied result ≡ map.get self.now name }
    {
        self.table.get(&name)
    }

    fn get_mut(&mut self, name: FileName) -> Option<&mut FileBytes>
        ensures* writes_back { sem 𝓛 (LendsFile self.entry name result) }
        ensures value { option_copied_mut result ≡ map.get self.old name }
    {
        self.table.get_mut(&name)
    }

    fn insert(&mut self, name: FileName, file: FileBytes) -> Result<(), AllocError>
        ensures ok { OnOk result (self.new ≡ map.insert self.old name file) }
        ensures err { OnErr result (self.new ≡ self.old) }
    {
        self.table.insert(name, file)?;
        Ok(())
    }

    /// Writes over what is there and past the file's end, and makes the file if it is not there. An
    /// offset past the end stands for the end.
    pub fn write_at(
        &mut self,
        alloc: Global,
        name: FileName,
        at: usize,
        bytes: &[u8],
    ) -> Result<(), AllocError>
        ensures ok { OnOk result (self.new ≡ with_write self.old name at bytes.now) }
        ensures err { OnErr result (self.new ≡ self.old) }
    {
        match self.get_mut(name) {
            Some(file) => file.write_at(at, bytes),
            None => {
                let mut file = FileBytes::new(alloc);
                file.write_at(at, bytes)?;
                self.insert(name, file)
            }
        }
    }

    /// Keeps the first bytes of the file, if it is there.
    pub fn cut(&mut self, name: FileName, len: usize)
        ensures { self.new ≡ with_cut self.old name len }
    {
        if let Some(file) = self.get_mut(name) {
            file.cut(len);
        }
    }

    /// Does what a call asks for.
    pub fn apply(&mut self, alloc: Global, request: &Request) -> Result<(), AllocError>
        ensures ok { OnOk result (self.new ≡ done request.now self.old) }
        ensures err { OnErr result (self.new ≡ self.old) }
    {
        match request {
            Request::Look | Request::Sync => Ok(()),
            Request::Write { name, at, bytes } => {
                self.write_at(alloc, *name, *at as usize, bytes.as_slice())
            }
            Request::Cut { name, len } => {
                self.cut(*name, *len as usize);
                Ok(())
            }
        }
    }
}

impl Duplicate for Files {
    fn duplicate(&self, alloc: Global) -> Result<Self, AllocError> {
        Ok(Files {
            table: duplicate_tree(&self.table, alloc)?,
        })
    }
}
