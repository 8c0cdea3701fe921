//! A system that stands for a kernel part.
ghost use Rattle.std.specs.Prelude.{◌≡◌, true, false};
ghost use Rattle.plain_machine.specs.declared.kernel.PlainKernel.{PlainKernel};
ghost use Rattle.plain_machine.specs.Kernel as plain;
ghost use Rattle.plain_machine.specs.RowLaws.{IsAsked};
ghost use Rattle.plain_machine.specs.Serve.{row};
ghost use Rattle.wrap_passing.specs.OfWrapNames.Wrapping as words;

use crate::serving::serve_call;
use call_table::Request;
use host_tables::{KernelReply, System};
use std::marker::Model;
use sys_abi::transfer::Transfer;
use sys_abi::{Signal, Tid, VPid};
use wrap_passing::taking::take_signal;
use wrap_passing::{Change, Stood};

/// A system that stands for a kernel part, which is what a caller sees of it.
pub struct Wrapped {
    pub(crate) system: System,
    pub(crate) next_id: u32,
    pub(crate) stood: Stood,
}

// Written out, so that to other crates it is one call to drop a system.
impl Drop for Wrapped {
    fn drop(self) {
        let Wrapped {
            system: _,
            next_id: _,
            stood: _,
        } = self;
    }
}

impl Model for Wrapped {
    ghost use Rattle.plain_machine.specs.declared.kernel.PlainKernel.{PlainKernel};
    ghost use Rattle.wrap_passing.specs.OfWrapNames.Codes.{kernel_code};
    ghost use Rattle.wrap_passing.specs.OfWrapNames.Wrapping.{IsWrapped};

    ghost Value = { PlainKernel };

    ghost coded = { kernel_code };

    ghost view = { λ w. w.stood.kernel };

    ghost invariant = { λ w. IsWrapped w.system w.next_id w.stood.kernel };
}

impl Wrapped {
    ghost use Rattle.wrap_passing.specs.OfWrapNames.Wrapping.{Answers, IsWrapped};
    ghost use Rattle.call_table.specs.Requests.{is_local};

    /// The system stands for the kernel part that the caller's proof names, whose next number is this one.
    pub fn new(system: System, next_id: u32) -> Wrapped
        ghost kernel: { PlainKernel }
        requires { IsWrapped system next_id kernel }
        ensures { result ≡ kernel }
    {
        Wrapped {
            system,
            next_id,
            stood: Stood::of(),
        }
    }

    /// The system with the next number.
    pub fn into_system(self) -> (System, u32)
        ensures { IsWrapped result.0 result.1 self }
    {
        let Wrapped {
            system,
            next_id,
            stood: _,
        } = self;
        (system, next_id)
    }

    /// The system, which stands for the kernel part.
    pub fn system(&self) -> &System
        ensures { IsWrapped result.now self.now.next_id self.now }
    {
        &self.system
    }

    /// The number that the next new process or thread gets.
    pub fn next_id(&self) -> u32
        ensures { result ≡ self.now.next_id }
    {
        self.next_id
    }

    /// Takes a pending signal away, of the thread if it has it and else of its process. Takes no memory.
    pub fn take(&mut self, p: VPid, t: Tid, signal: Signal)
        requires alive { plain.is_live self.old p ≡ true }
        requires thread { plain.has_thread self.old p t.0 ≡ true }
        ensures { self.new ≡ plain.after_take self.old p t.0 signal.0 }
    {
        let next = self.stood.then(&Change::Take(p, t, signal));
        take_signal(&mut self.system, &self.stood, self.next_id, p, t, signal);
        self.stood = next;
    }

    /// Serves a guest's call of the kernel. After want of memory all is as before.
    pub fn call(
        &mut self,
        p: VPid,
        t: Tid,
        request: &Request,
        transfer: &mut Transfer,
    ) -> KernelReply
        requires asked { IsAsked self.old p t.0 request.now transfer.old }
        requires kernels { is_local request.now ≡ false }
        ensures { Answers self.old self.new transfer.old transfer.new result
            (row self.old p t.0 request.now transfer.old) }
    {
        let next = self
            .stood
            .then(&Change::Call(p, t, request, transfer.as_slice()));
        let reply = serve_call(
            &mut self.system,
            &self.stood,
            &mut self.next_id,
            p,
            t,
            request,
            transfer,
        );
        if is_memory(reply) {
            return reply;
        }
        self.stood = next;
        reply
    }
}

/// Whether memory was wanted.
fn is_memory(reply: KernelReply) -> bool
    ensures { result ≡ words.is_memory reply }
{
    match reply {
        KernelReply::Memory => true,
        _ => false,
    }
}
