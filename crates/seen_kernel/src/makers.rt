//! The makers of processes.
ghost use Rattle.std.specs.Prelude.{◌≡◌, IfOk, OnOk};
ghost use Rattle.plain_tables.specs.Tables as plain;
ghost use Rattle.seen_kernel.specs.Makers as words;

use conn_table::ConnTable;
use id_maps::ByPid;
use plain_tables::Process;
use std::alloc::{AllocError, Global};
use sys_abi::{Maker, VPid};

/// The makers that the table has for these processes. They are all that it has, where it has one for each of
/// the processes and no other.
pub fn seen_makers(
    alloc: Global,
    conns: &ConnTable,
    processes: &ByPid<Process>,
) -> Result<ByPid<Maker>, AllocError>
    ensures { IfOk result (λ makers.
        words.SameKeys conns.now.makers processes.now → makers ≡ conns.now.makers) }
{
    let mut seen = ByPid::new(alloc);
    for p in processes.keys() {
        add_maker(&mut seen, conns, *p)?;
    }
    Ok(seen)
}

/// Adds the maker of the process, if it has one.
fn add_maker(seen: &mut ByPid<Maker>, conns: &ConnTable, p: VPid) -> Result<(), AllocError>
    ensures ok { OnOk result (seen.new ≡ words.with_maker conns.now.makers seen.old p) }
{
    let Some(maker) = conns.maker(p) else {
        return Ok(());
    };
    seen.insert(p, maker)?;
    Ok(())
}
