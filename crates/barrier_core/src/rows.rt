ghost use Rattle.std.specs.Prelude.{◌≡◌, ◌==◌, ◌<◌, ◌≤◌, ◌+◌, find, slice_get, length, vec_capacity, option_map, IsOk, OnOk, OnErr, IfSome};
ghost use Rattle.std.specs.Option.{option_copied};
ghost use Rattle.std.specs.List.{list_all};
ghost use Rattle.std.specs.FinMap as map;
ghost use Rattle.barrier_core.specs.Members.{has_reached, all_reached, changed, with_reached, with_taken};
ghost use Rattle.barrier_core.specs.Rows.{members_of, place, IsRising, IsIndex};

use crate::member::Member;
use crate::stage::{Message, Stage};
use std::alloc::AllocError;
use sys_abi::VPid;

fn find_row(rows: &[(VPid, Member)], p: VPid) -> Option<&(VPid, Member)>
    ensures { option_copied result ≡ find (λ row. row.0.0 == p.0) rows.now }
{
    rows.iter().find(|row| row.0.0 == p.0)
}

/// How far a process has come, if it is there.
pub fn member_of(rows: &[(VPid, Member)], p: VPid) -> Option<Member>
    ensures { result ≡ map.get (members_of rows.now) p }
{
    let row = find_row(rows, p)?;
    Some(row.1)
}

fn each_has_reached(rows: &[(VPid, Member)], stage: Stage) -> bool
    ensures { result ≡ list_all (λ row. has_reached stage row.1) rows.now }
{
    rows.iter().all(|row| row.1.has_reached(stage))
}

/// Whether every member has reached the stage.
pub fn all_have_reached(rows: &[(VPid, Member)], stage: Stage) -> bool
    requires { IsRising rows.now }
    ensures { result ≡ all_reached (members_of rows.now) stage }
{
    each_has_reached(rows, stage)
}

#[tactic(auto, using(crate::proofs::RowLaws::counts))]
pub fn count(rows: &[(VPid, Member)]) -> usize
    requires { IsRising rows.now }
    ensures { result ≡ map.len (members_of rows.now) }
{
    rows.len()
}

/// Where the row of a process stands, or belongs: after those with lower numbers.
fn place_of(rows: &[(VPid, Member)], p: VPid) -> usize
    ensures place { result ≡ place p rows.now }
    ensures within { result ≤ length rows.now }
{
    for (place, row) in rows.iter().enumerate() {
        if row.0.0 >= p.0 {
            return place;
        }
    }
    rows.len()
}

fn row_at(rows: &[(VPid, Member)], place: usize) -> Option<&(VPid, Member)>
    ensures { option_copied result ≡ slice_get rows.now place }
{
    rows.get(place)
}

/// Where the row of a process stands, if it is there.
fn index_of(rows: &[(VPid, Member)], p: VPid) -> Option<usize>
    requires { IsRising rows.now }
    ensures index { IsIndex p rows.now result }
    ensures within { IfSome result (λ index. index < length rows.now) }
{
    let place = place_of(rows, p);
    let row = row_at(rows, place)?;
    if row.0.0 == p.0 { Some(place) } else { None }
}

/// Puts a member in its place, or in that of the one of its number. It takes no memory where there is room.
pub fn put_row(rows: &mut Vec<(VPid, Member)>, p: VPid, member: Member) -> Result<(), AllocError>
    requires { IsRising rows.old.items }
    ensures ok { OnOk result (members_of rows.new.items ≡ map.insert (members_of rows.old.items) p member) }
    ensures rising { IsRising rows.new.items }
    ensures err { OnErr result (rows.new.items ≡ rows.old.items) }
    ensures capacity { vec_capacity rows.old ≤ vec_capacity rows.new }
    ensures succeeds { map.len (members_of rows.old.items) < vec_capacity rows.old → IsOk result }
{
    match index_of(rows, p) {
        Some(index) => {
            rows[index] = (p, member);
            Ok(())
        }
        None => {
            let place = place_of(rows, p);
            rows.insert(place, (p, member))?;
            Ok(())
        }
    }
}

/// The row of a process is gone.
pub fn remove_row(rows: &mut Vec<(VPid, Member)>, p: VPid)
    requires { IsRising rows.old.items }
    ensures members { members_of rows.new.items ≡ map.remove (members_of rows.old.items) p }
    ensures rising { IsRising rows.new.items }
    ensures capacity { vec_capacity rows.new ≡ vec_capacity rows.old }
{
    rows.retain(|row| row.0.0 != p.0);
}

pub fn set_reached(rows: &mut [(VPid, Member)], p: VPid, stage: Stage)
    requires { IsRising rows.old }
    ensures members { members_of rows.new ≡ changed (members_of rows.old) p (with_reached stage) }
    ensures rising { IsRising rows.new }
{
    if let Some(index) = index_of(rows, p) {
        rows[index].1.reached = Some(stage);
    }
}

pub fn set_taken(rows: &mut [(VPid, Member)], p: VPid, message: Message)
    requires { IsRising rows.old }
    ensures members { members_of rows.new ≡ changed (members_of rows.old) p (with_taken message) }
    ensures rising { IsRising rows.new }
{
    if let Some(index) = index_of(rows, p) {
        rows[index].1.taken = Some(message);
    }
}
