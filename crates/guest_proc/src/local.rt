//! The calls that a process answers alone.
ghost use Rattle.std.specs.Prelude.{◌≡◌, [], is_some, true, OnOk, OnErr};
ghost use Rattle.sys_abi.specs.declared.reply.Reply.TheVariants.{Error};
ghost use Rattle.plain_process.specs.Attempts.{Gives};
ghost use Rattle.plain_process.specs.Buffers.{lent};
ghost use Rattle.plain_process.specs.Local.{local_row, local_settled};
ghost use Rattle.plain_process.specs.Put.{put};
ghost use Rattle.plain_process.specs.declared.user_part.UserPart.{UserPart};
ghost use Rattle.thread_group.specs.Local.{FitsAnswer, MakesCall, answer_told};
ghost use Rattle.guest_proc.specs.Guests.{HasThread, with_user};

use crate::guest::Guest;
use call_table::Request;
use plain_process::handlers::{action_bytes, mask_bytes};
use std::alloc::{AllocError, Global};
use sys_abi::errors::EFAULT;
use sys_abi::{Errno, Reply, Tid};
use thread_group::LocalAnswer;
use thread_group::process_memory::LocalFault;

impl Guest {
    /// Whether each buffer of the call is readable or writable as it needs.
    fn is_lendable(&self, request: &Request) -> bool
        ensures { result ≡ is_some (lent self.now.user.memory request.now) }
    {
        self.memory.is_lendable(request)
    }

    /// Makes the call, but for its answer.
    fn call_alone(
        &mut self,
        alloc: Global,
        t: Tid,
        request: &Request,
    ) -> Result<LocalAnswer, LocalFault>
        requires thread { HasThread self.old.user t.0 }
        requires lent { is_some (lent self.old.user.memory request.now) ≡ true }
        ensures call { MakesCall self.old.user self.new.user t.0 request.now result }
        ensures pid { self.new.pid ≡ self.old.pid }
        ensures spare { self.new.spare ≡ self.old.spare }
    {
        self.group.call_alone(alloc, &mut self.memory, t, request)
    }

    /// Puts the answer of a call that was made.
    fn put_local(&mut self, t: Tid, request: &Request, answer: LocalAnswer)
        requires { FitsAnswer self.old.user.memory request.now answer }
        ensures { (before : UserPart) → self.new ≡ with_user self.old (local_settled before t.0 request.now (Gives (answer_told self.old.user answer))) }
    {
        match answer {
            LocalAnswer::Value(value) => self.put(t, request, Reply::Value(value), &[]),
            LocalAnswer::Action(action) => {
                self.put(t, request, Reply::Value(0), &action_bytes(action))
            }
            LocalAnswer::Mask(mask) => self.put(t, request, Reply::Value(0), &mask_bytes(mask)),
            LocalAnswer::Stays => {}
        }
    }

    /// Puts an error.
    fn put_error(&mut self, t: Tid, request: &Request, errno: Errno)
        ensures { self.new ≡ with_user self.old (put self.old.user t.0 request.now (Error errno) []) }
    {
        self.put(t, request, Reply::Error(errno), &[]);
    }

    /// Answers a call that the process answers alone. Where memory was wanted all is as before.
    pub fn local(&mut self, alloc: Global, t: Tid, request: &Request) -> Result<(), AllocError>
        ensures ok { OnOk result (self.new ≡ with_user self.old (local_row self.old.user t.0 request.now)) }
        ensures err { OnErr result (self.new ≡ self.old) }
    {
        if !self.has_thread(t) {
            return Ok(());
        }
        if !self.is_lendable(request) {
            self.put_error(t, request, Errno(EFAULT));
            return Ok(());
        }
        match self.call_alone(alloc, t, request) {
            Ok(answer) => self.put_local(t, request, answer),
            Err(LocalFault::Refused(errno)) => self.put_error(t, request, errno),
            Err(LocalFault::Memory) => return Err(AllocError),
        }
        Ok(())
    }
}
