ghost use Rattle.std.specs.Prelude.{◌≡◌, ◌-◌, ◌≤◌, max, Some, None, OnOk, OnErr};
ghost use Rattle.std.specs.FinMap as map;
ghost use Rattle.sys_abi.specs.declared.reply.Reply.TheVariants.{Value};
ghost use Rattle.plain_process.specs.Put.{added_thread};
ghost use Rattle.plain_process.specs.Threads.{with_called_thread, with_called_thread_by, with_new_thread};
ghost use Rattle.guest_proc.specs.Guests.{HasThread};

use crate::guest::Guest;
use call_table::Request;
use std::alloc::{AllocError, Global};
use sys_abi::Tid;

impl Guest {
    /// Makes room for one more thread and its saved contexts, if there is none.
    pub fn reserve_thread(&mut self, alloc: Global) -> Result<(), AllocError>
        ensures ok { OnOk result (self.new ≡ record self.old { spare = max 1 self.old.spare }) }
        ensures err { OnErr result (self.new ≡ self.old) }
    {
        self.group.reserve(alloc)
    }

    /// Adds the thread that a clone makes of its caller, which still stands at the call, into room that is
    /// there. The new thread goes on after the call, with 0 in a0. Takes no memory.
    #[tactic(auto, unfolding(plain_process::specs::Put::added_thread, plain_process::specs::Threads::with_called_thread))]
    pub fn add_thread(&mut self, t: Tid, new: Tid, request: &Request)
        requires thread { HasThread self.old.user t.0 }
        requires clone { added_thread request.now (Value new.0) ≡ Some new.0 }
        requires free { map.get self.old.user.threads new.0 ≡ None }
        requires spare { 1 ≤ self.old.spare }
        ensures user { self.new.user ≡ with_called_thread self.old.user t.0 new.0 request.now }
        ensures pid { self.new.pid ≡ self.old.pid }
        ensures spare { self.new.spare ≡ self.old.spare - 1 }
    {
        match *request {
            Request::Clone {
                flags,
                stack,
                tls,
                child_tid,
                ..
            } => self.add_called(t, new.0, flags, stack, tls, child_tid),
            _ => unreachable!(),
        }
    }

    /// Adds the thread that a clone with these arguments makes of its caller, which still stands at the call.
    fn add_called(&mut self, t: Tid, new: u32, flags: u32, stack: u32, tls: u32, child_tid: u32)
        requires thread { HasThread self.old.user t.0 }
        requires free { map.get self.old.user.threads new ≡ None }
        requires spare { 1 ≤ self.old.spare }
        ensures { self.new ≡ record {
          pid = self.old.pid;
          user = with_called_thread_by self.old.user new flags stack tls child_tid (map.get self.old.user.threads t.0);
          spare = self.old.spare - 1;
        } }
    {
        self.group.add_called(t, new, flags, stack, tls, child_tid);
    }

    /// Adds the thread that a clone with these arguments makes of its caller, whose call has its answer.
    pub(crate) fn add_clone(
        &mut self,
        t: Tid,
        new: u32,
        flags: u32,
        stack: u32,
        tls: u32,
        child_tid: u32,
    )
        requires thread { HasThread self.old.user t.0 }
        requires free { map.get self.old.user.threads new ≡ None }
        requires spare { 1 ≤ self.old.spare }
        ensures { self.new ≡ record {
          pid = self.old.pid;
          user = with_new_thread self.old.user t.0 new flags stack tls child_tid;
          spare = self.old.spare - 1;
        } }
    {
        self.group.add_clone(t, new, flags, stack, tls, child_tid);
    }
}
