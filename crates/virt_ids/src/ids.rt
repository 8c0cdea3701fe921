ghost use Rattle.std.specs.Prelude.{◌≡◌, ◌≢◌, ◌↔◌, Err, OnOk, OnErr};
ghost use Rattle.std.specs.Option.{ok_or};
ghost use Rattle.std.specs.FinMap as map;
ghost use Rattle.virt_ids.specs.Pairs.{IsTaken, AreWhole, without_back};

use crate::id_fault::IdFault;
use crate::{ByRealAddress, ByRealPid};
use id_maps::ByAddress;
use id_maps::sys_abi::{RealAddr, RealPid, VirtAddr};
use id_maps::views::number_map::NumberMap;
use std::alloc::Global;
use std::marker::Model;

/// The pairs of virtual and real numbers of processes and threads, and of virtual and real addresses. A
/// look-up on either side goes down a tree.
#[derive(Drop)]
pub struct Ids {
    real_pids: NumberMap<RealPid>,
    virt_pids: ByRealPid<u32>,
    real_addresses: ByAddress<RealAddr>,
    virt_addresses: ByRealAddress<VirtAddr>,
}

impl Model for Ids {
    ghost use Rattle.virt_ids.specs.Pairs.{Pairs, coded_pairs, AreInverse};

    ghost Value = { Pairs };

    ghost coded = { coded_pairs };

    ghost view = { λ ids. record {
      pids = ids.real_pids;
      virts = ids.virt_pids;
      addresses = ids.real_addresses;
      ports = ids.virt_addresses;
    } };

    ghost invariant = { λ ids. AreInverse ids.real_pids ids.virt_pids × AreInverse ids.real_addresses ids.virt_addresses };
}

impl Ids {
    /// No pairs, and no memory yet.
    pub fn new(alloc: Global) -> Ids
        ensures { result ≡ record { pids = map.empty; virts = map.empty; addresses = map.empty; ports = map.empty } }
    {
        Ids {
            real_pids: NumberMap::new(alloc),
            virt_pids: ByRealPid::new(alloc),
            real_addresses: ByAddress::new(alloc),
            virt_addresses: ByRealAddress::new(alloc),
        }
    }

    /// Of every table each way leads back. It does nothing.
    pub fn whole(&self)
        ensures { AreWhole self.now }
    {
        let _ = &self.real_pids;
    }

    /// Pairs the virtual number with the real one.
    ///
    /// # Errors
    /// `Taken` where either is in a pair. After an error all is as before.
    pub fn add_pid(&mut self, v: u32, r: RealPid) -> Result<(), IdFault>
        ensures taken { (result ≡ Err IdFault.Taken) ↔ IsTaken self.old.pids self.old.virts v r }
        ensures never_unknown { result ≢ Err IdFault.Unknown }
        ensures ok { OnOk result (self.new ≡ record self.old {
          pids = map.insert self.old.pids v r;
          virts = map.insert self.old.virts r v;
        }) }
        ensures err { OnErr result (self.new ≡ self.old) }
    {
        if self.real_pids.contains_key(v) {
            return Err(IdFault::Taken);
        }
        if self.virt_pids.contains_key(r) {
            return Err(IdFault::Taken);
        }
        self.real_pids.insert(v, r)?;
        let Ok(_) = self.virt_pids.insert(r, v) else {
            self.real_pids.remove(v);
            return Err(IdFault::Memory);
        };
        Ok(())
    }

    /// Pairs the virtual address with the real one.
    ///
    /// # Errors
    /// `Taken` where either is in a pair. After an error all is as before.
    pub fn add_addr(&mut self, v: VirtAddr, r: RealAddr) -> Result<(), IdFault>
        ensures taken { (result ≡ Err IdFault.Taken) ↔ IsTaken self.old.addresses self.old.ports v r }
        ensures never_unknown { result ≢ Err IdFault.Unknown }
        ensures ok { OnOk result (self.new ≡ record self.old {
          addresses = map.insert self.old.addresses v r;
          ports = map.insert self.old.ports r v;
        }) }
        ensures err { OnErr result (self.new ≡ self.old) }
    {
        if self.real_addresses.contains_key(v) {
            return Err(IdFault::Taken);
        }
        if self.virt_addresses.contains_key(r) {
            return Err(IdFault::Taken);
        }
        self.real_addresses.insert(v, r)?;
        let Ok(_) = self.virt_addresses.insert(r, v) else {
            self.real_addresses.remove(v);
            return Err(IdFault::Memory);
        };
        Ok(())
    }

    /// The real number that is paired with the virtual one.
    ///
    /// # Errors
    /// `Unknown` where none is.
    pub fn real_pid(&self, v: u32) -> Result<RealPid, IdFault>
        ensures { result ≡ ok_or (map.get self.now.pids v) IdFault.Unknown }
    {
        self.real_pids.get(v).copied().ok_or(IdFault::Unknown)
    }

    /// The virtual number that is paired with the real one.
    ///
    /// # Errors
    /// `Unknown` where none is.
    pub fn virt_pid(&self, r: RealPid) -> Result<u32, IdFault>
        ensures { result ≡ ok_or (map.get self.now.virts r) IdFault.Unknown }
    {
        self.virt_pids.get(r).copied().ok_or(IdFault::Unknown)
    }

    /// The real address that is paired with the virtual one.
    ///
    /// # Errors
    /// `Unknown` where none is.
    pub fn real_addr(&self, v: VirtAddr) -> Result<RealAddr, IdFault>
        ensures { result ≡ ok_or (map.get self.now.addresses v) IdFault.Unknown }
    {
        self.real_addresses.get(v).copied().ok_or(IdFault::Unknown)
    }

    /// The virtual address that is paired with the real one.
    ///
    /// # Errors
    /// `Unknown` where none is.
    pub fn virt_addr(&self, r: RealAddr) -> Result<VirtAddr, IdFault>
        ensures { result ≡ ok_or (map.get self.now.ports r) IdFault.Unknown }
    {
        self.virt_addresses.get(r).copied().ok_or(IdFault::Unknown)
    }

    /// Takes out the pair of the virtual number, if there is one. Takes no memory.
    pub fn drop_pid(&mut self, v: u32)
        ensures dropped { self.new ≡ record self.old {
          pids = map.remove self.old.pids v;
          virts = without_back self.old.virts (map.get self.old.pids v);
        } }
    {
        if let Some(r) = self.real_pids.remove(v) {
            self.virt_pids.remove(r);
        }
    }

    /// Takes out the pair of the virtual address, if there is one. Takes no memory.
    pub fn drop_addr(&mut self, v: VirtAddr)
        ensures dropped { self.new ≡ record self.old {
          addresses = map.remove self.old.addresses v;
          ports = without_back self.old.ports (map.get self.old.addresses v);
        } }
    {
        if let Some(r) = self.real_addresses.remove(v) {
            self.virt_addresses.remove(r);
        }
    }
}
