//! Which live processes have voted.
ghost use Rattle.std.specs.Prelude.{◌≡◌, IfOk, OnOk};
ghost use Rattle.leader_vote.specs.Voters as words;

use id_maps::ByPid;
use proc_book::Procs;
use std::alloc::{AllocError, Global};
use sys_abi::{RealPid, VPid};
use virt_ids::Ids;

/// The live processes by their virtual numbers, of which none has voted.
pub fn list_voters(alloc: Global, procs: &Procs, ids: &Ids) -> Result<ByPid<bool>, AllocError>
    ensures { IfOk result (words.HasVoters procs.now.processes ids.now.virts) }
{
    let mut voters = ByPid::new(alloc);
    let mut above = None;
    while let Some(r) = procs.next_process(above) {
        list_voter(&mut voters, procs, ids, r)?;
        above = Some(r);
    }
    Ok(voters)
}

/// Lists the process, if it lives and has a virtual number.
fn list_voter(
    voters: &mut ByPid<bool>,
    procs: &Procs,
    ids: &Ids,
    r: RealPid,
) -> Result<(), AllocError>
    ensures ok { OnOk result (voters.new ≡ words.with_voter procs.now.processes ids.now.virts voters.old r) }
{
    if !procs.is_live(r) {
        return Ok(());
    }
    let Ok(v) = ids.virt_pid(r) else {
        return Ok(());
    };
    voters.insert(VPid(v), false)?;
    Ok(())
}

/// The process has voted, if it is listed. Takes no memory.
pub fn mark_voter(voters: &mut ByPid<bool>, p: VPid)
    ensures { voters.new ≡ words.marked voters.old p }
{
    let Some(voted) = voters.get_mut(p) else {
        return;
    };
    *voted = true;
}

pub fn has_voted(voters: &ByPid<bool>, p: VPid) -> bool
    ensures { result ≡ words.has_voted voters.now p }
{
    match voters.get(p) {
        None => false,
        Some(voted) => *voted,
    }
}

/// Whether all that are listed have voted.
pub fn all_voted(voters: &ByPid<bool>) -> bool
    ensures { result ≡ words.all_voted voters.now }
{
    voters.values().all(|voted| *voted)
}
