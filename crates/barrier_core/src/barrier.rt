ghost use Rattle.std.specs.Prelude.{◌≡◌, ◌<◌, ◌≤◌, ◌↔◌, not, length, false, Some, None, IsTrue, IfOk, IfSome};
ghost use Rattle.std.specs.FinMap as map;
ghost use Rattle.barrier_core.specs.declared.stage.Stage.TheVariants.{Suspended};
ghost use Rattle.barrier_core.specs.Barriers as barriers;

use crate::members::{MEMBER_LIMIT, Members, insert_all};
use crate::stage::{Message, Stage, next_stage};
use std::alloc::{AllocError, Global};
use std::marker::Model;
use sys_abi::VPid;

/// The barrier that all processes of a checkpoint keep. Its room is taken when it is made, and no later call
/// takes memory.
#[derive(Drop)]
pub struct Barrier {
    is_open: bool,
    members: Members,
}

impl Model for Barrier {
    ghost use Rattle.barrier_core.specs.Barriers.{BarrierState, coded_state, IsLawful};
    ghost use Rattle.barrier_core.specs.declared.members.TheConstants.{MEMBER_LIMIT};

    ghost Value = { BarrierState };

    ghost coded = { coded_state };

    ghost view = { λ b. record { is_open = b.is_open; members = b.members } };

    ghost invariant = { λ b. IsLawful MEMBER_LIMIT (record { is_open = b.is_open; members = b.members }) };
}

impl Barrier {
    /// A barrier at rest, with room for 128 processes.
    pub fn new(alloc: Global) -> Result<Barrier, AllocError>
        ensures { IfOk result (λ barrier. barrier ≡ barriers.at_rest) }
    {
        Ok(Barrier {
            is_open: false,
            members: Members::new(alloc)?,
        })
    }

    /// Opens a request, whose members are the processes that live, each once. False exactly where one is
    /// open.
    pub fn ask(&mut self, live: &[VPid]) -> bool
        requires { length live.now ≤ MEMBER_LIMIT }
        ensures opened { result ≡ not self.old.is_open }
        ensures after { self.new ≡ barriers.after_ask self.old live.now }
        ensures lawful { barriers.IsLawful MEMBER_LIMIT self.new }
    {
        if self.is_open {
            return false;
        }
        self.members.clear();
        insert_all(&mut self.members, live);
        self.is_open = true;
        true
    }

    /// Notes that a process has reached a stage. False exactly where the process does not belong to the open
    /// request, the stage is not the one waited for, or the process has reached it.
    pub fn reached(&mut self, p: VPid, s: Stage) -> bool
        ensures noted { result ≡ barriers.awaits self.old p s }
        ensures refused { (result ≡ false) ↔ barriers.IsOutOfPlace self.old p s }
        ensures after { self.new ≡ barriers.after_reached self.old p s }
        ensures lawful { barriers.IsLawful MEMBER_LIMIT self.new }
    {
        if !self.awaits(p, s) {
            return false;
        }
        self.members.set_reached(p, s);
        true
    }

    /// A child enters as one that has not reached anything.
    pub fn joined(&mut self, p: VPid)
        requires early { barriers.waited self.old ≡ Some Suspended }
        requires child { map.get self.old.members p ≡ None }
        requires room { map.len self.old.members < MEMBER_LIMIT }
        ensures after { self.new ≡ barriers.after_joined self.old p }
        ensures lawful { barriers.IsLawful MEMBER_LIMIT self.new }
    {
        self.members.insert(p);
    }

    /// An ended process leaves. Where it is no member nothing changes.
    pub fn left(&mut self, p: VPid)
        ensures after { self.new ≡ barriers.after_left self.old p }
        ensures lawful { barriers.IsLawful MEMBER_LIMIT self.new }
    {
        self.members.remove(p);
    }

    /// The greatest stage that all members have reached. None exactly where no request is open, no member is
    /// left, or not all have reached `Suspended`.
    pub fn released(&self) -> Option<Stage>
        ensures released { result ≡ barriers.released self.now }
        ensures some { IfSome result (barriers.IsReleased self.now) }
        ensures none { (result ≡ None) ↔ barriers.IsHeldUp self.now }
        ensures lawful { barriers.IsLawful MEMBER_LIMIT self.now }
    {
        if !self.is_open {
            return None;
        }
        self.members.latest_reached()
    }

    /// The next message to a process, in order. `Suspend` is due from `ask` or `joined` on, each later one
    /// once the stage before it is released. None exactly where the process is no member or no due one is
    /// left.
    pub fn take(&mut self, p: VPid) -> Option<Message>
        ensures due { result ≡ barriers.due self.old p }
        ensures none { (result ≡ None) ↔ barriers.HasNoneDue self.old p }
        ensures after { self.new ≡ barriers.after_take self.old p }
        ensures lawful { barriers.IsLawful MEMBER_LIMIT self.new }
    {
        let message = self.due(p)?;
        self.members.set_taken(p, message);
        Some(message)
    }

    /// Ends the request: once all members have reached `Refilled`, or no member is left, or, to give it up,
    /// while `Suspended` is the stage that all have reached.
    pub fn close(&mut self)
        requires { barriers.IsClosable self.old }
        ensures { self.new ≡ barriers.at_rest }
    {
        self.members.clear();
        self.is_open = false;
    }

    /// Whether a request is open.
    pub fn is_open(&self) -> bool
        ensures { result ≡ self.now.is_open }
    {
        self.is_open
    }

    /// Whether no member is left.
    pub fn is_empty(&self) -> bool
        ensures { IsTrue result ↔ (self.now.members ≡ map.empty) }
    {
        self.members.len() == 0
    }

    /// Whether the process is a member that is still to reach the stage, and the stage is the one waited for:
    /// exactly where `reached` would answer true.
    pub fn awaits(&self, p: VPid, s: Stage) -> bool
        ensures { result ≡ barriers.awaits self.now p s }
    {
        let waited = self.waited();
        match self.members.get(p) {
            None => false,
            Some(member) => member.lacks(s, waited),
        }
    }

    fn waited(&self) -> Option<Stage>
        ensures { result ≡ barriers.waited self.now }
    {
        if !self.is_open {
            return None;
        }
        next_stage(self.released())
    }

    fn due(&self, p: VPid) -> Option<Message>
        ensures { result ≡ barriers.due self.now p }
    {
        let released = self.released();
        let member = self.members.get(p)?;
        member.due(released)
    }
}
