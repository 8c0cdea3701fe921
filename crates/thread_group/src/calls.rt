//! The calls that a process answers alone, on its threads and a memory that they are lent.
ghost use Rattle.std.specs.Prelude.{◌≡◌, is_some, true};
ghost use Rattle.std.specs.FinMap as map;
ghost use Rattle.plain_process.specs.Buffers as buffers;
ghost use Rattle.plain_process.specs.Rows.Futex as futex;
ghost use Rattle.call_table.specs.declared.request.Request.TheVariants.{Futex};
ghost use Rattle.thread_group.specs.Groups.{joined};
ghost use Rattle.thread_group.specs.Local.{MakesCall};

use crate::group::ThreadGroup;
use crate::local_answer::{LocalAnswer, action_answer, mask_answer, no_answer, value_answer};
use call_table::Request;
use process_memory::{LocalFault, ProcessMemory, UNKNOWN};
use std::alloc::Global;
use sys_abi::Tid;

fn is_wait(operation: u32) -> bool
    ensures { result ≡ buffers.is_wait operation }
{
    operation == 0 || operation == 128
}

fn is_wake(operation: u32) -> bool
    ensures { result ≡ futex.is_wake operation }
{
    operation == 1 || operation == 129
}

impl ThreadGroup {
    fn futex(
        &mut self,
        memory: &ProcessMemory,
        t: Tid,
        address: u32,
        operation: u32,
        value: u32,
        timeout: u32,
    ) -> Result<LocalAnswer, LocalFault>
        ensures call { MakesCall (joined memory.now self.old) (joined memory.now self.new) t.0
            (Futex address operation value timeout) result }
        ensures spare { self.new.spare ≡ self.old.spare }
    {
        if is_wait(operation) {
            let word = memory.word_at(address);
            return no_answer(self.futex_wait(t, address, word, value, timeout));
        }
        if is_wake(operation) {
            return value_answer(self.futex_wake(address, value));
        }
        Err(UNKNOWN)
    }

    /// Makes a call that the process answers alone, but for its answer.
    pub fn call_alone(
        &mut self,
        alloc: Global,
        memory: &mut ProcessMemory,
        t: Tid,
        request: &Request,
    ) -> Result<LocalAnswer, LocalFault>
        requires thread { is_some (map.get self.old.threads t.0) ≡ true }
        requires lent { is_some (buffers.lent memory.old.pages request.now) ≡ true }
        ensures call { MakesCall (joined memory.old self.old) (joined memory.new self.new) t.0 request.now result }
        ensures spare { self.new.spare ≡ self.old.spare }
    {
        match *request {
            Request::SetTidAddress { place } => {
                Ok(LocalAnswer::Value(self.set_tid_address(t, place)))
            }
            Request::Futex {
                address,
                operation,
                value,
                timeout,
            } => self.futex(memory, t, address, operation, value, timeout),
            Request::SchedYield => Ok(LocalAnswer::Value(0)),
            Request::RtSigaction {
                signal,
                action,
                size,
                ..
            } => {
                let new = memory.new_action(action);
                action_answer(self.sigaction(signal, new, size))
            }
            Request::RtSigprocmask { how, set, size, .. } => {
                let new = memory.new_set(set);
                mask_answer(self.sigprocmask(t, how, new, size))
            }
            Request::RtSigreturn => no_answer(self.sigreturn(t)),
            Request::Gettid => Ok(LocalAnswer::Value(t.0)),
            Request::Brk { address } => value_answer(memory.brk(alloc, address)),
            Request::Munmap { address, length } => value_answer(memory.munmap(address, length)),
            Request::Mmap {
                length,
                protection,
                flags,
                ..
            } => value_answer(memory.mmap(length, protection, flags)),
            _ => Err(UNKNOWN),
        }
    }
}
