//! Processes and their threads.
ghost use Rattle.std.specs.Prelude.{◌≡◌, ℕ, IfOk, OnOk};
ghost use Rattle.std.specs.FinMap as map;
ghost use Rattle.plain_tables.specs.declared.process.Process as plain;
ghost use Rattle.plain_tables.specs.Tables.{NOBODY as nobody, Processes, pid};
ghost use Rattle.host_tables.specs.Numbers.{number_of};
ghost use Rattle.seen_kernel.specs.Processes as words;

use id_maps::ByPid;
use plain_tables::{NOBODY, Process};
use proc_book::Procs;
use std::alloc::{AllocError, Global};
use sys_abi::{Life, RealPid, VPid};
use views::number_map::NumberMap;
use virt_ids::Ids;

/// The processes by their virtual numbers, live ones and zombies.
pub fn seen_processes(alloc: Global, procs: &Procs, ids: &Ids) -> Result<ByPid<Process>, AllocError>
    ensures { IfOk result (λ processes.
        (ks : Processes) → words.StandForProcesses ids.now procs.now ks → processes ≡ ks) }
{
    let mut seen = ByPid::new(alloc);
    let mut above = None;
    while let Some(r) = procs.next_process(above) {
        add_process(&mut seen, alloc, procs, ids, r)?;
        above = Some(r);
    }
    Ok(seen)
}

/// Puts the process at its virtual number, if it has one.
fn add_process(
    seen: &mut ByPid<Process>,
    alloc: Global,
    procs: &Procs,
    ids: &Ids,
    r: RealPid,
) -> Result<(), AllocError>
    ensures { OnOk result ((v : ℕ) (x : plain.Process) → words.StandsForProcess ids.now procs.now r v x
        → seen.new ≡ map.insert seen.old (pid v) x) }
{
    let Ok(v) = ids.virt_pid(r) else {
        return Ok(());
    };
    let process = seen_process(alloc, procs, ids, r)?;
    seen.insert(VPid(v), process)?;
    Ok(())
}

fn seen_process(alloc: Global, procs: &Procs, ids: &Ids, r: RealPid) -> Result<Process, AllocError>
    ensures { IfOk result (λ process. (v : ℕ) (x : plain.Process)
        → words.StandsForProcess ids.now procs.now r v x → process ≡ x) }
{
    let threads = seen_threads(alloc, procs, ids, r)?;
    Ok(Process {
        parent: seen_parent(procs, ids, r),
        life: seen_life(procs, r),
        pending: procs.pending_of(r, None),
        threads,
    })
}

/// The virtual number of its parent, or that of nobody.
fn seen_parent(procs: &Procs, ids: &Ids, r: RealPid) -> u32
    ensures { result ≡ number_of ids.now.virts nobody (words.parent_in (map.get procs.now.processes r)) }
{
    let Some(parent) = procs.parent(r) else {
        return NOBODY;
    };
    ids.virt_pid(parent).unwrap_or(NOBODY)
}

fn seen_life(procs: &Procs, r: RealPid) -> Life
    ensures { result ≡ words.life_in (map.get procs.now.processes r) }
{
    match procs.status(r) {
        None => Life::Live,
        Some(status) => Life::Zombie(status),
    }
}

/// The signals that are pending for each of its threads, by their virtual numbers.
fn seen_threads(
    alloc: Global,
    procs: &Procs,
    ids: &Ids,
    r: RealPid,
) -> Result<NumberMap<u32>, AllocError>
    ensures { IfOk result (λ threads. (v : ℕ) (x : plain.Process)
        → words.StandsForProcess ids.now procs.now r v x → threads ≡ x.threads) }
{
    let mut threads = NumberMap::new(alloc);
    let mut above = 0;
    while let Some(number) = procs.next_real_thread(r, above) {
        add_thread(&mut threads, procs, ids, r, number)?;
        above = number;
    }
    Ok(threads)
}

/// Puts the signals of the thread at its virtual number, if it has one.
fn add_thread(
    threads: &mut NumberMap<u32>,
    procs: &Procs,
    ids: &Ids,
    r: RealPid,
    number: u32,
) -> Result<(), AllocError>
    ensures { OnOk result (threads.new
        ≡ words.with_thread ids.now.virts (map.get procs.now.processes r) r.node number threads.old) }
{
    let thread = RealPid {
        node: r.node,
        pid: number,
    };
    let Ok(t) = ids.virt_pid(thread) else {
        return Ok(());
    };
    threads.insert(t, procs.pending_of(r, Some(number)))?;
    Ok(())
}
