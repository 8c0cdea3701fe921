ghost use Rattle.std.specs.Prelude.{◌≡◌, ◌<◌, ◌≤◌, ◌↔◌, ◌==◌, length, find, IsTrue, IfOk};
ghost use Rattle.std.specs.FinMap as map;
ghost use Rattle.barrier_core.specs.Members as members;

use crate::member::Member;
use crate::rows::{
    all_have_reached, count, member_of, put_row, remove_row, set_reached, set_taken,
};
use crate::stage::{Message, Stage};
use std::alloc::{AllocError, Global};
use std::marker::Model;
use sys_abi::VPid;

/// How many processes belong to a request at most.
pub const MEMBER_LIMIT: usize = 128;

const LATEST_FIRST: [Stage; 5] = [
    Stage::Refilled,
    Stage::Written,
    Stage::Drained,
    Stage::Elected,
    Stage::Suspended,
];

/// The members of a request by their numbers, with room for 128.
#[derive(Drop)]
pub struct Members {
    rows: Vec<(VPid, Member)>,
}

impl Model for Members {
    ghost use Rattle.std.specs.Prelude.{◌≤◌, vec_capacity};
    ghost use Rattle.std.specs.FinMap as map;
    ghost use Rattle.sys_abi.specs.Orders.{vpid_cmp, coded_vpid};
    ghost use Rattle.barrier_core.specs.contracts.member.Member as member;
    ghost use Rattle.barrier_core.specs.declared.member.Member.{Member};
    ghost use Rattle.barrier_core.specs.declared.members.TheConstants.{MEMBER_LIMIT};

    ghost Value = { map.FinMap vpid_cmp Member };

    ghost coded = { map.code coded_vpid member.the_row.coded };

    ghost use Rattle.barrier_core.specs.Rows.{members_of, IsRising};

    ghost view = { λ m. members_of m.rows.items };

    ghost invariant = { λ m. IsRising m.rows.items × (MEMBER_LIMIT ≤ vec_capacity m.rows) };
}

impl Members {
    /// No members, and the room for all.
    #[tactic(auto, unfolding(crate::specs::Rows::members_of, crate::specs::Rows::IsRising))]
    pub fn new(alloc: Global) -> Result<Members, AllocError>
        ensures { IfOk result (λ members. members ≡ map.empty) }
    {
        Ok(Members {
            rows: Vec::with_capacity(alloc, MEMBER_LIMIT)?,
        })
    }

    pub fn len(&self) -> usize
        ensures { result ≡ map.len self.now }
    {
        count(self.rows.as_slice())
    }

    pub fn get(&self, p: VPid) -> Option<Member>
        ensures { result ≡ map.get self.now p }
    {
        member_of(self.rows.as_slice(), p)
    }

    fn all_reached(&self, stage: Stage) -> bool
        ensures { result ≡ members.all_reached self.now stage }
    {
        all_have_reached(self.rows.as_slice(), stage)
    }

    /// The greatest stage that all have reached. There is none where nobody is.
    pub fn latest_reached(&self) -> Option<Stage>
        ensures { result ≡ members.latest_reached self.now }
    {
        if self.len() == 0 {
            return None;
        }
        latest_of(&LATEST_FIRST, self)
    }

    #[tactic(auto, unfolding(crate::specs::Rows::members_of, crate::specs::Rows::IsRising))]
    pub fn clear(&mut self)
        ensures { self.new ≡ map.empty }
    {
        self.rows.clear();
    }

    /// Puts a process there as one that has not reached anything. Like the other changes it takes no memory.
    pub fn insert(&mut self, p: VPid)
        requires { map.len self.old < MEMBER_LIMIT }
        ensures { self.new ≡ map.insert self.old p members.fresh }
    {
        let _ = put_row(&mut self.rows, p, Member::fresh());
    }

    pub fn remove(&mut self, p: VPid)
        ensures { self.new ≡ map.remove self.old p }
    {
        remove_row(&mut self.rows, p);
    }

    /// Notes the stage that a process has reached, if it is there.
    pub fn set_reached(&mut self, p: VPid, stage: Stage)
        ensures { self.new ≡ members.changed self.old p (members.with_reached stage) }
    {
        set_reached(self.rows.as_mut_slice(), p, stage);
    }

    /// Notes the message that a process has taken, if it is there.
    pub fn set_taken(&mut self, p: VPid, message: Message)
        ensures { self.new ≡ members.changed self.old p (members.with_taken message) }
    {
        set_taken(self.rows.as_mut_slice(), p, message);
    }
}

/// The first of the stages that all have reached.
fn latest_of(stages: &[Stage], among: &Members) -> Option<Stage>
    ensures { result ≡ find (members.all_reached among.now) stages.now }
{
    stages
        .iter()
        .copied()
        .find(|stage| among.all_reached(*stage))
}

/// Puts each of these processes there, one that stands twice once.
pub fn insert_all(into: &mut Members, live: &[VPid])
    requires nobody { into.old ≡ map.empty }
    requires few { length live.now ≤ MEMBER_LIMIT }
    ensures { into.new ≡ members.asked live.now }
{
    for p in live.iter().rev() {
        into.insert(*p);
    }
}
