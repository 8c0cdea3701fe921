//! Of which host those are that hold a description, found in one pass over the processes.

ghost use Rattle.std.specs.Prelude.{◌≡◌, IfOk, OnOk, Some, fold, if◌then◌else◌};
ghost use Rattle.std.specs.Ordering.{eq_by_cmp};
ghost use Rattle.std.specs.FinMap as map;
ghost use Rattle.sys_abi.specs.declared.identity.DescId.{DescId};
ghost use Rattle.sys_abi.specs.Orders.{desc_cmp};
ghost use Rattle.shared_reader.specs.HoldersOf.{with_holder, after_process, KnowsHolders};

use id_maps::ByDesc;
use shared_items::ProcessEntry;
use std::alloc::{AllocError, Global};
use sys_abi::DescId;

/// Of which host those are that hold a description.
#[derive(Clone, Copy)]
pub enum Holders {
    OfHost(u32),
    /// They are not of one host.
    Apart,
}

fn with_holder(found: Option<Holders>, host: u32) -> Holders
    ensures { Some result ≡ with_holder found host }
{
    match found {
        None => Holders::OfHost(host),
        Some(Holders::OfHost(other)) => {
            if other == host {
                Holders::OfHost(other)
            } else {
                Holders::Apart
            }
        }
        Some(Holders::Apart) => Holders::Apart,
    }
}

/// Notes that a process of the host holds the description.
fn note_holder(holders: &mut ByDesc<Holders>, id: DescId, host: u32) -> Result<(), AllocError>
    ensures { OnOk result ((key : DescId) → map.get holders.new key
        ≡ (if eq_by_cmp desc_cmp key id then with_holder (map.get holders.old key) host
        else map.get holders.old key)) }
{
    let noted = with_holder(holders.get(id).copied(), host);
    holders.insert(id, noted)?;
    Ok(())
}

/// Notes what the process holds.
fn note_process(holders: &mut ByDesc<Holders>, process: &ProcessEntry) -> Result<(), AllocError>
    ensures { OnOk result ((key : DescId) → map.get holders.new key
        ≡ after_process key (map.get holders.old key) process.now) }
{
    let host = process.host;
    let descriptors = process.descriptors.as_slice();
    for descriptor in descriptors {
        note_holder(holders, descriptor.desc, host)?;
    }
    Ok(())
}

/// The holders of each description.
pub fn holders_of(alloc: Global, processes: &[ProcessEntry]) -> Result<ByDesc<Holders>, AllocError>
    ensures { IfOk result (λ holders. KnowsHolders holders processes.now) }
{
    let mut holders = ByDesc::new(alloc);
    for process in processes {
        note_process(&mut holders, process)?;
    }
    Ok(holders)
}
