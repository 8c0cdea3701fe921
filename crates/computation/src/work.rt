ghost use Rattle.std.specs.Prelude.{◌≡◌, ◌≢◌, ℕ, ◌<◌, ◌≤◌, true, Some, None, is_some, IsErrOf, OnOk, OnErr, Err, if◌then◌else◌};
ghost use Rattle.views.specs.Faults.{IsFaultOf};
ghost use Rattle.call_table.specs.Requests.{is_local};
ghost use Rattle.sys_abi.specs.declared.record.Record.TheVariants as a_record;
ghost use Rattle.plain_process.specs.Buffers.{lent};
ghost use Rattle.plain_process.specs.declared.user_part.UserPart.{UserPart};
ghost use Rattle.plain_machine.specs.Kernel.{is_live};
ghost use Rattle.plain_machine.specs.Records.{step};
ghost use Rattle.edge_io.specs.Sunk.{sunk};
ghost use Rattle.computation.specs.Takes.{CanDeliver, Takes, Breaks};
ghost use Rattle.computation.specs.Parts.{AsksAt, StandsAt, kernel_after, guests_after};

use crate::computation::{Computation, Stop};
use crate::looks::place_after;
use crate::parts::deliver_to;
use call_table::{Delivered, Request, is_local};
use edge_io::Sink;
use guest_proc::{LendFault, Ran};
use std::alloc::Global;
use sys_abi::errors::EFAULT;
use sys_abi::{Errno, Record, Reply, Signal, Tid, VPid};
use trace_log::Trace;

/// How many instructions a thread runs at most in one record.
const QUANTUM: u32 = 4_096;

impl Computation {
    ghost use Rattle.computation.specs.Computations.{plain_of, user_at, IsReady};

    /// Runs a quantum of the thread's instructions, fewer where it comes to a call or a trap, and tells where
    /// it stands then.
    pub(crate) fn run_quantum(&mut self, p: VPid, t: Tid, trace: &mut Trace) -> Ran
        requires ready { IsReady self.old }
        requires runs { StandsAt (plain_of self.old).users p t.0 Ran.Whole }
        requires room { 0 < trace.old.room }
        ensures took { (n : ℕ) × ((taken : _) → Takes (plain_of self.old) (plain_of self.new)
            (a_record.User p t n) trace.old trace.new (sunk taken taken)) }
        ensures ready { IsReady self.new }
        ensures told { StandsAt (plain_of self.new).users p t.0 result }
    {
        let Some(guest) = self.guests.get_mut(p) else {
            unreachable!();
        };
        let (n, ran) = guest.run(t, QUANTUM);
        let stands = place_after(guest, t, ran);
        trace.append(Record::User { p, t, n });
        stands
    }

    /// Delivers a signal to a thread: that of the trap at which it stands, or a pending one.
    pub(crate) fn deliver(&mut self, p: VPid, t: Tid, s: Signal, trace: &mut Trace)
        requires ready { IsReady self.old }
        requires due { CanDeliver (plain_of self.old) p t s }
        requires room { 0 < trace.old.room }
        ensures took { (taken : _) → Takes (plain_of self.old) (plain_of self.new)
            (a_record.Deliver p t s) trace.old trace.new (sunk taken taken) }
        ensures ready { IsReady self.new }
    {
        let Some(guest) = self.guests.get_mut(p) else {
            unreachable!();
        };
        let delivered = deliver_to(&mut self.kernel, p, guest, t, s);
        self.end_if_killed(p, delivered);
        trace.append(Record::Deliver { p, t, s });
    }

    /// Ends the process if the signal killed it.
    fn end_if_killed(&mut self, p: VPid, delivered: Delivered)
        requires { is_live self.old.kernel p ≡ true }
        ensures kernel { self.new.kernel ≡ kernel_after self.old.kernel p delivered }
        ensures guests { self.new.guests ≡ guests_after self.old.guests p delivered }
    {
        match delivered {
            Delivered::Kills(status) => {
                self.kernel.end_process(p, status);
                self.guests.remove(p);
            }
            _ => {}
        }
    }

    /// Serves the call at which a thread stands.
    pub(crate) fn call<O: Sink>(
        &mut self,
        alloc: Global,
        p: VPid,
        t: Tid,
        request: &Request,
        out: &mut O,
        trace: &mut Trace,
    ) -> Result<(), Stop>
        requires ready { IsReady self.old }
        requires asks { AsksAt (plain_of self.old).users p t.0 request.now }
        requires goes { is_some (step (plain_of self.old) (a_record.Call p t)) ≡ true }
        requires room { 0 < trace.old.room }
        ensures ok { OnOk result (Takes (plain_of self.old) (plain_of self.new)
            (a_record.Call p t) trace.old trace.new (sunk (O.seen out.old).taken (O.seen out.new).taken)) }
        ensures ready { OnOk result (IsReady self.new) }
        ensures failed { IsErrOf result Stop.Sink → Breaks (plain_of self.old) (plain_of self.new)
            (a_record.Call p t) trace.old trace.new (sunk (O.seen out.old).taken (O.seen out.new).taken) }
        ensures memory { IsErrOf result Stop.Memory →
            (trace.new ≡ trace.old) × ((O.seen out.new).taken ≡ (O.seen out.old).taken) }
        ensures same { IsErrOf result Stop.Memory → plain_of self.new ≡ plain_of self.old }
        ensures cause { IsFaultOf result Stop.Sink (O.seen out.old).faults (O.seen out.new).faults }
        ensures later { (O.seen out.old).faults ≤ (O.seen out.new).faults }
    {
        if is_local(request) {
            return self.local_call(alloc, p, t, request, trace);
        }
        match self.lend(p, t, request) {
            Ok(()) => self.kernel_call(alloc, p, t, request, out, trace),
            Err(LendFault::Fault) => {
                self.refuse(p, t, request, trace);
                Ok(())
            }
            Err(LendFault::Memory) => Err(Stop::Memory),
        }
    }

    /// Copies what a call reads from its process's memory.
    pub(crate) fn lend(&mut self, p: VPid, t: Tid, request: &Request) -> Result<(), LendFault>
        requires { AsksAt (plain_of self.old).users p t.0 request.now }
        ensures ok { OnOk result ((user : UserPart) → user_at self.old p ≡ Some user
            → lent user.memory request.now ≡ Some self.new.transfer) }
        ensures fault { result ≡ Err LendFault.Fault → (user : UserPart) → user_at self.old p ≡ Some user
            → lent user.memory request.now ≡ None }
        ensures memory { result ≢ Err LendFault.Memory }
        ensures kernel { self.new.kernel ≡ self.old.kernel }
        ensures guests { self.new.guests ≡ self.old.guests }
    {
        let Some(guest) = self.guests.get_mut(p) else {
            unreachable!();
        };
        guest.lend(t, request, &mut self.transfer)
    }

    /// Answers a call with a buffer that isn't readable or writable as it needs.
    pub(crate) fn refuse(&mut self, p: VPid, t: Tid, request: &Request, trace: &mut Trace)
        requires ready { IsReady self.old }
        requires asks { AsksAt (plain_of self.old).users p t.0 request.now }
        requires fault { (user : UserPart) → user_at self.old p ≡ Some user
            → lent user.memory request.now ≡ None }
        requires room { 0 < trace.old.room }
        ensures took { (taken : _) → Takes (plain_of self.old) (plain_of self.new)
            (a_record.Call p t) trace.old trace.new (sunk taken taken) }
        ensures ready { IsReady self.new }
    {
        self.transfer.clear();
        let Some(guest) = self.guests.get_mut(p) else {
            unreachable!();
        };
        guest.answer(t, request, Reply::Error(Errno(EFAULT)), &self.transfer);
        trace.append(Record::Call { p, t });
    }

    /// Serves a call that the process answers alone, which reads its buffers itself.
    pub(crate) fn local_call(
        &mut self,
        alloc: Global,
        p: VPid,
        t: Tid,
        request: &Request,
        trace: &mut Trace,
    ) -> Result<(), Stop>
        requires ready { IsReady self.old }
        requires asks { AsksAt (plain_of self.old).users p t.0 request.now }
        requires local { is_local request.now ≡ true }
        requires room { 0 < trace.old.room }
        ensures ok { OnOk result ((taken : _) → Takes (plain_of self.old) (plain_of self.new)
            (a_record.Call p t) trace.old trace.new (sunk taken taken)) }
        ensures ready { OnOk result (IsReady self.new) }
        ensures memory { OnErr result (trace.new ≡ trace.old) }
        ensures same { OnErr result (plain_of self.new ≡ plain_of self.old) }
        ensures kind { result ≢ Err Stop.Sink }
    {
        let Some(guest) = self.guests.get_mut(p) else {
            unreachable!();
        };
        guest.local(alloc, t, request)?;
        trace.append(Record::Call { p, t });
        Ok(())
    }
}
