ghost use Rattle.std.specs.Prelude.{◌≡◌, ◌≢◌, ℕ, List, None, Some, OnOk, OnErr};
ghost use Rattle.std.specs.Option.{option_map_or};
ghost use Rattle.std.specs.FinMap as map;
ghost use Rattle.vfs_files.specs.Names.{IsNameOf, IsNamedOnce, without_file};

use id_maps::ByName;
use std::alloc::{AllocError, Global};
use std::marker::Model;
use views::list_of::ListOf;
use views::number_map::NumberMap;

/// The number of the file of each name. A file has at most one name, which is found from its number too.
#[derive(Drop)]
pub(crate) struct NameTable {
    files: ByName<u32>,
    names: NumberMap<ListOf<u8>>,
}

impl Model for NameTable {
    ghost use Rattle.std.specs.Coded.{coded_ℕ, coded_list};
    ghost use Rattle.std.specs.FinMap as map;
    ghost use Rattle.vfs_files.specs.Names.{Names, AreInverse};

    ghost Value = { Names };

    ghost coded = { map.code (coded_list coded_ℕ) coded_ℕ };

    ghost view = { λ a. a.files };

    ghost invariant = { λ a. AreInverse a.files a.names };
}

impl NameTable {
    /// No names.
    pub fn new(alloc: Global) -> Self
        ensures { result ≡ map.empty }
    {
        NameTable {
            files: ByName::new(alloc),
            names: NumberMap::new(alloc),
        }
    }

    /// No file has two names. It does nothing.
    pub fn whole(&self)
        ensures { IsNamedOnce self.now }
    {
        let _ = &self.files;
    }

    /// The number of the file of a name.
    pub fn file(&self, name: &[u8]) -> Option<u32>
        ensures { result ≡ map.get self.now name.now }
    {
        self.files.get(name).copied()
    }

    /// The name of a file, empty where it has none.
    pub fn name_of(&self, file: u32) -> &[u8]
        ensures { IsNameOf self.now file result.now }
    {
        match self.names.get(file) {
            Some(name) => name.as_slice(),
            None => &[],
        }
    }

    /// Names a file that has no name by a name that no file has.
    pub fn insert(&mut self, alloc: Global, name: &[u8], file: u32) -> Result<(), AllocError>
        requires new { map.get self.old name.now ≡ None }
        requires unnamed { (other : List ℕ) → map.get self.old other ≢ Some file }
        ensures ok { OnOk result (self.new ≡ map.insert self.old name.now file) }
        ensures err { OnErr result (self.new ≡ self.old) }
    {
        insert_both(&mut self.files, &mut self.names, alloc, name, file)
    }

    /// Takes the name away from its file, and answers the file.
    pub fn remove(&mut self, name: &[u8]) -> Option<u32>
        ensures file { result ≡ map.get self.old name.now }
        ensures removed { self.new ≡ map.remove self.old name.now }
    {
        remove_both(&mut self.files, &mut self.names, name)
    }

    /// Takes the name away from a file, if it has one.
    pub fn forget(&mut self, file: u32)
        ensures { self.new ≡ without_file self.old file }
    {
        forget_both(&mut self.files, &mut self.names, file);
    }
}

fn insert_both(
    files: &mut ByName<u32>,
    names: &mut NumberMap<ListOf<u8>>,
    alloc: Global,
    name: &[u8],
    file: u32,
) -> Result<(), AllocError>
    requires { map.get files.old name.now ≡ None }
    ensures files { OnOk result (files.new ≡ map.insert files.old name.now file) }
    ensures names { OnOk result (names.new ≡ map.insert names.old file name.now) }
    ensures files_same { OnErr result (files.new ≡ files.old) }
    ensures names_same { OnErr result (names.new ≡ names.old) }
{
    let key = ListOf::from_vec(Vec::from_slice(alloc, name)?);
    let value = ListOf::from_vec(Vec::from_slice(alloc, name)?);
    files.insert(key, file)?;
    if let Err(error) = names.insert(file, value) {
        files.remove(name);
        return Err(error);
    }
    Ok(())
}

fn remove_both(
    files: &mut ByName<u32>,
    names: &mut NumberMap<ListOf<u8>>,
    name: &[u8],
) -> Option<u32>
    ensures file { result ≡ map.get files.old name.now }
    ensures files { files.new ≡ map.remove files.old name.now }
    ensures names { names.new ≡ option_map_or (map.remove names.old) result names.old }
{
    let file = files.remove(name)?;
    names.remove(file);
    Some(file)
}

fn forget_both(files: &mut ByName<u32>, names: &mut NumberMap<ListOf<u8>>, file: u32)
    ensures files { files.new ≡ option_map_or (map.remove files.old) (map.get names.old file) files.old }
    ensures names { names.new ≡ map.remove names.old file }
{
    if let Some(name) = names.remove(file) {
        files.remove(name.as_slice());
    }
}
