ghost use Rattle.std.specs.Prelude.{◌≡◌, ℕ, Some, is_some, IfOk, true};
ghost use Rattle.sys_abi.specs.declared.flags.TheConstants.{CLONE_CHILD_SETTID};
ghost use Rattle.sys_abi.specs.declared.reply.Reply.TheVariants.{Value};
ghost use Rattle.sys_abi.specs.Flags.{has_flag};
ghost use Rattle.plain_process.specs.Buffers.{lent, span, can_write};
ghost use Rattle.plain_process.specs.declared.user_part.UserPart.{UserPart};
ghost use Rattle.plain_process.specs.Put.{made_by};
ghost use Rattle.plain_process.specs.Threads.{child_memory, child_of};
ghost use Rattle.plain_process.specs.Twins.{twin_of};
ghost use Rattle.plain_process.specs.Rows.Mappings.{with_memory};
ghost use Rattle.guest_proc.specs.Guests.{HasThread, with_user};

use crate::guest::Guest;
use call_table::Request;
use std::alloc::{AllocError, Global};
use sys_abi::{Tid, VPid};

impl Guest {
    /// The child that this thread's fork makes, while its number isn't known: its memory, break and actions
    /// are its parent's, and its one thread stands at the call still.
    pub fn fork_guest(&self, alloc: Global, t: Tid) -> Result<Guest, AllocError>
        ensures { IfOk result (λ guest. guest ≡ record { pid = self.now.pid; user = twin_of self.now.user t.0; spare = 0 }) }
    {
        Ok(Guest {
            pid: self.pid,
            memory: self.memory.try_clone(alloc)?,
            group: self.group.twin(alloc, t)?,
        })
    }

    /// Gives the child that `fork_guest` made the number that its parent's call answers: a fork that has all
    /// buffers that it needs. The child's thread then stands behind the call. Takes no memory.
    #[tactic(auto, unfolding(plain_process::specs::Put::made_by, plain_process::specs::Threads::child_of))]
    pub fn settle(&mut self, child: VPid, request: &Request)
        requires fork { made_by request.now (Value child.0) ≡ Some child.0 }
        requires lent { is_some (lent self.old.user.memory request.now) ≡ true }
        ensures user { (parent : UserPart) (t : ℕ) → HasThread parent t → self.old.user ≡ twin_of parent t
            → self.new.user ≡ child_of parent t child.0 request.now }
        ensures pid { self.new.pid ≡ child }
        ensures spare { self.new.spare ≡ self.old.spare }
    {
        match *request {
            Request::Clone {
                flags,
                stack,
                tls,
                child_tid,
                ..
            } => {
                self.put_number(child.0, flags, child_tid);
                self.group.settle(child.0, flags, stack, tls, child_tid);
                self.pid = child;
            }
            _ => unreachable!(),
        }
    }

    /// Puts the child's number where the flags ask for it.
    fn put_number(&mut self, number: u32, flags: u32, child_tid: u32)
        requires { has_flag flags CLONE_CHILD_SETTID ≡ true
            → can_write self.old.user.memory (span child_tid 4) ≡ true }
        ensures { self.new ≡
            with_user self.old (with_memory self.old.user (child_memory self.old.user.memory flags child_tid number)) }
    {
        self.memory.put_child_number(number, flags, child_tid);
    }
}
