ghost use Rattle.std.specs.Prelude.{◌≡◌, ◌⊎◌, ◌+◌, ◌≤◌, ◌<◌, [], None, Some, Ok, Err, false, IsTrue, length, find, is_some, IsSome, IfSome, IfNone, IfOk, OnOk, OnErr, IsOkUnless, MatchOption, option_map};
ghost use Rattle.std.specs.Option.{option_copied};
ghost use Rattle.std.specs.FinMap as map;
ghost use Rattle.views.specs.NumberMap.{is_above};
ghost use Rattle.vfs_files.specs.declared.limits.TheConstants.{FILE_LIMIT, TOTAL_LIMIT};
ghost use Rattle.vfs_files.specs.Names.{IsNameOf};
ghost use Rattle.vfs_files.specs.FileTable as table;
ghost use Rattle.vfs_files.specs.Keeping.{IsWhole};
ghost use Rattle.views.specs.Bytes.{read_from};

use crate::file_bytes::FileBytes;
use crate::file_fault::FileFault;
use crate::limits::{FILE_LIMIT, LAST_NUMBER};
use crate::names::NameTable;
use crate::store::{add_file, empty_file, existing, piece_at, put_back, remove_file, write_file};
use std::alloc::{AllocError, Global};
use std::marker::Model;
use sys_abi::Transfer;
use sys_abi::flags::O_CREAT;
use views::number_map::NumberMap;

/// All files: numbers under names, bytes under numbers, and the number that the next new file gets.
#[derive(Drop)]
pub struct Files {
    alloc: Global,
    names: NameTable,
    files: NumberMap<FileBytes>,
    next_file: u32,
    /// How many bytes all files have.
    total: u64,
}

impl Model for Files {
    ghost use Rattle.vfs_files.specs.FileTable.{FileTable};
    ghost use Rattle.vfs_files.specs.Keeping.{IsKept, coded_table};

    ghost Value = { FileTable };

    ghost coded = { coded_table };

    ghost view = { λ a. record { names = a.names; files = a.files; next_file = a.next_file } };

    ghost invariant = { λ a. IsKept a.names a.files a.next_file a.total };
}

impl Files {
    /// No files, and no memory yet. The first new file gets the number 1.
    pub fn new(alloc: Global) -> Files
        ensures { result ≡ record { names = map.empty; files = map.empty; next_file = 1 } }
    {
        Files {
            alloc,
            names: NameTable::new(alloc),
            files: NumberMap::new(alloc),
            next_file: 1,
            total: 0,
        }
    }

    /// What is always true of the files. It does nothing.
    pub fn whole(&self)
        ensures { IsWhole self.now }
    {
        self.names.whole();
    }

    /// The number of the file of that name. With O_CREAT an empty file is made where there is none, with
    /// O_EXCL beside it one has to be made. Other flags mean nothing here: O_TRUNC is the caller's.
    pub fn open_file(&mut self, name: &[u8], flags: u32) -> Result<u32, FileFault>
        ensures refused { IfSome (table.open_refusal self.old name.now flags) (λ fault. result ≡ Err fault) }
        ensures granted { IfNone (table.open_refusal self.old name.now flags) (IsOkUnless result FileFault.Memory) }
        ensures number { IfOk result (λ file. file ≡ table.number_of self.old name.now) }
        ensures opened { OnOk result (self.new ≡ table.after_open self.old name.now) }
        ensures err { OnErr result (self.new ≡ self.old) }
    {
        match self.names.file(name) {
            Some(file) => existing(file, flags),
            None => self.make_file(name, flags),
        }
    }

    fn make_file(&mut self, name: &[u8], flags: u32) -> Result<u32, FileFault>
        requires { map.get self.old.names name.now ≡ None }
        ensures refused { IfSome (table.refusal_at self.old flags None) (λ fault. result ≡ Err fault) }
        ensures granted { IfNone (table.refusal_at self.old flags None) (IsOkUnless result FileFault.Memory) }
        ensures number { IfOk result (λ file. file ≡ self.old.next_file) }
        ensures made { OnOk result (self.new ≡ table.with_file self.old name.now) }
        ensures err { OnErr result (self.new ≡ self.old) }
    {
        if flags / O_CREAT % 2 != 1 {
            return Err(FileFault::NoEntry);
        }
        if self.files.len() >= FILE_LIMIT || self.next_file == LAST_NUMBER {
            return Err(FileFault::Space);
        }
        let file = self.next_file;
        let empty = FileBytes::new(self.alloc);
        add_file(
            &mut self.names,
            &mut self.files,
            self.alloc,
            name,
            file,
            empty,
        )?;
        self.next_file = file + 1;
        Ok(file)
    }

    /// Puts the bytes of a file from an offset on, at most n, in the place of what the transfer holds. A file
    /// that is not there gives none.
    pub fn read_at(&self, file: u32, at: u32, n: u32, xfer: &mut Transfer)
        requires { n ≤ 65536 }
        ensures { xfer.new ≡ read_from at n (table.contents self.now.files file) }
    {
        xfer.clear();
        if let Some(bytes) = self.files.get(file) {
            xfer.put(piece_at(bytes.as_slice(), at as usize, n as usize));
        }
    }

    /// Writes the piece at an offset, over what is there and past the end. Zeros fill a gap before it.
    pub fn write_at(&mut self, file: u32, at: u32, piece: &[u8]) -> Result<(), FileFault>
        requires { IsSome (map.get self.old.files file) }
        ensures refused { IsTrue (table.is_too_big self.old.files file at piece.now)
            → result ≡ Err FileFault.Space }
        ensures granted { table.is_too_big self.old.files file at piece.now ≡ false
            → IsOkUnless result FileFault.Memory }
        ensures ok { OnOk result
            (self.new ≡ record self.old { files = table.with_write self.old.files file at piece.now }) }
        ensures err { OnErr result (self.new ≡ self.old) }
    {
        self.total = write_file(&mut self.files, self.total, file, at, piece)?;
        Ok(())
    }

    /// Makes a file empty, if it is there.
    pub fn truncate(&mut self, file: u32)
        ensures { self.new ≡ record self.old { files = table.truncated self.old.files file } }
    {
        self.total -= empty_file(&mut self.files, self.alloc, file);
    }

    /// Takes the name away from its file, which stays, and answers the file's number.
    pub fn unlink(&mut self, name: &[u8]) -> Result<u32, FileFault>
        ensures file { MatchOption (map.get self.old.names name.now)
            (result ≡ Err FileFault.NoEntry) (λ file. result ≡ Ok file) }
        ensures gone { self.new ≡ record self.old { names = map.remove self.old.names name.now } }
    {
        match self.names.remove(name) {
            Some(file) => Ok(file),
            None => Err(FileFault::NoEntry),
        }
    }

    /// Drops a file with its name, if it is there.
    pub fn forget(&mut self, file: u32)
        ensures { self.new ≡ table.after_forget self.old file }
    {
        self.names.forget(file);
        self.total -= remove_file(&mut self.files, file);
    }

    /// How many files there are.
    pub fn count(&self) -> usize
        ensures count { result ≡ map.len self.now.files }
        ensures limit { result ≤ FILE_LIMIT }
    {
        self.files.len()
    }

    /// How many bytes all files have.
    pub fn total(&self) -> u64
        ensures total { result ≡ table.bytes_of self.now.files }
        ensures limit { result ≤ TOTAL_LIMIT }
    {
        self.total
    }

    /// How many bytes a file has.
    pub fn len(&self, file: u32) -> Option<u32>
        ensures { result ≡ option_map length (map.get self.now.files file) }
    {
        match self.files.get(file) {
            Some(bytes) => Some(bytes.len() as u32),
            None => None,
        }
    }

    pub fn bytes(&self, file: u32) -> Option<&[u8]>
        ensures { option_copied result ≡ map.get self.now.files file }
    {
        match self.files.get(file) {
            Some(bytes) => Some(bytes.as_slice()),
            None => None,
        }
    }

    /// The name of a file, empty where it has none.
    pub fn name(&self, file: u32) -> Option<&[u8]>
        ensures there { is_some result ≡ is_some (map.get self.now.files file) }
        ensures of_file { IfSome result (λ name. IsNameOf self.now.names file name.now) }
    {
        if !self.files.contains_key(file) {
            return None;
        }
        Some(self.names.name_of(file))
    }

    /// The least file number above this one.
    pub fn next_above(&self, file: u32) -> Option<u32>
        ensures { result ≡ find (is_above (Some file)) (map.keys self.now.files) }
    {
        self.files.next_above(Some(file))
    }

    /// The number that the next new file gets, above those of all files.
    pub fn next_file(&self) -> u32
        ensures number { result ≡ self.now.next_file }
        ensures above { table.AllBelow self.now.files result }
    {
        self.next_file
    }

    /// Adds a file under its number. The empty name stands for none.
    pub fn restore(&mut self, file: u32, name: &[u8], bytes: &[u8]) -> Result<(), AllocError>
        requires above { table.AllBelow self.old.files file }
        requires below { file < self.old.next_file }
        requires unused { (name.now ≡ []) ⊎ (map.get self.old.names name.now ≡ None) }
        requires count { map.len self.old.files < FILE_LIMIT }
        requires size { table.bytes_of self.old.files + length bytes.now ≤ TOTAL_LIMIT }
        ensures ok { OnOk result (self.new ≡ table.after_restore self.old file name.now bytes.now) }
        ensures err { OnErr result (self.new ≡ self.old) }
    {
        let copy = FileBytes::from_slice(self.alloc, bytes)?;
        put_back(
            &mut self.names,
            &mut self.files,
            self.alloc,
            name,
            file,
            copy,
        )?;
        self.total += bytes.len() as u64;
        Ok(())
    }

    /// Sets the number that the next new file gets.
    pub fn set_next(&mut self, next: u32)
        requires { table.AllBelow self.old.files next }
        ensures { self.new ≡ record self.old { next_file = next } }
    {
        self.next_file = next;
    }
}
