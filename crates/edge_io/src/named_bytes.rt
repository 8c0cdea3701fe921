ghost use Rattle.std.specs.Prelude.{◌≡◌, option_map, vec_items, IfOk, OnOk, OnErr};
ghost use Rattle.std.specs.FinMap as map;

use std::alloc::{AllocError, Global};
use std::collections::BTreeMap;
use std::marker::Model;

/// Bytes under names, of which each stands once.
#[derive(Drop)]
pub struct NamedBytes {
    alloc: Global,
    entries: BTreeMap<String, Vec<u8>>,
}

impl Model for NamedBytes {
    ghost use Rattle.std.specs.FinMap as map;
    ghost use Rattle.std.specs.Coded.{coded_ℕ, coded_list};
    ghost use Rattle.edge_io.specs.Inputs.{NamedFiles};
    ghost use Rattle.edge_io.specs.NamedBytes.{files_of};

    ghost Value = { NamedFiles };

    ghost coded = { map.code (coded_list coded_ℕ) (coded_list coded_ℕ) };

    ghost view = { λ s. files_of s.entries.entries };
}

impl NamedBytes {
    /// No names.
    pub fn new(alloc: Global) -> Self
        ensures { result ≡ map.empty }
    {
        NamedBytes {
            alloc,
            entries: BTreeMap::new(alloc),
        }
    }

    /// Puts a copy of the bytes under the name, in place of what stood there.
    pub fn insert(&mut self, name: &str, bytes: &[u8]) -> Result<(), AllocError>
        ensures ok { OnOk result (self.new ≡ map.insert self.old name.now bytes.now) }
        ensures err { OnErr result (self.new ≡ self.old) }
    {
        let name = String::from_str(self.alloc, name)?;
        let bytes = Vec::from_slice(self.alloc, bytes)?;
        self.entries.insert(name, bytes)?;
        Ok(())
    }

    /// A copy of the bytes under the name.
    pub fn copy_of(&self, alloc: Global, name: &str) -> Result<Option<Vec<u8>>, AllocError>
        ensures { IfOk result (λ bytes. option_map vec_items bytes ≡ map.get self.now name.now) }
    {
        match self.entries.get(name) {
            Some(bytes) => Ok(Some(Vec::from_slice(alloc, bytes)?)),
            None => Ok(None),
        }
    }
}
