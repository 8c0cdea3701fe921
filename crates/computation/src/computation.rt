ghost use Rattle.std.specs.Prelude.{◌≡◌, ◌≢◌, ℕ, ◌<◌, ◌≤◌, List, [], ◌∷◌, ◌++◌, length, All, not, nat_lt, true, Option, None, Some, find, option_map, is_some, IsErrOf, IfOk, IfSome, OnOk, OnErr};
ghost use Rattle.std.specs.FinMap as map;
ghost use Rattle.views.specs.Faults.{IsFaultOf};
ghost use Rattle.views.specs.NumberMap.{is_above};
ghost use Rattle.sys_abi.specs.declared.record.Record.TheVariants as a_record;
ghost use Rattle.plain_machine.specs.Kernel.{is_live};
ghost use Rattle.plain_machine.specs.Tests.{ended};
ghost use Rattle.edge_io.specs.Sunk.{sunk};
ghost use Rattle.trace_log.specs.Turns.{coming, due_signal, goes_on, missing_in, threads_in};
ghost use Rattle.computation.specs.Takes.{CanDeliver, Takes};

use crate::looks::{is_idle, signal_due};
use edge_io::Sink;
use guest_proc::{Guest, Ran};
use id_maps::ByPid;
use std::alloc::{AllocError, Global};
use sys_abi::{Dir, Record, Signal, Tid, Transfer, VPid};
use trace_log::Trace;
use wrap_calls::Wrapped;

/// Why a turn made no record, or the last one.
#[derive(Clone, Copy)]
pub enum Stop {
    /// The console failed.
    Sink,
    /// There was no memory.
    Memory,
}

impl From<AllocError> for Stop {
    ghost use Rattle.std.specs.Prelude.{◌≡◌};
    ghost use Rattle.computation.specs.declared.computation.Stop.TheVariants.{Memory};

    ghost from_gives = { λ _ stop. stop ≡ Memory };

    fn from(_error: AllocError) -> Stop {
        Stop::Memory
    }
}

/// What comes next in a thread's turn.
#[derive(Clone, Copy)]
pub enum Next {
    /// The signal is delivered with which the turn begins.
    Deliver(Signal),
    /// The thread goes on where it stands.
    GoOn(Ran),
}

/// What a record of a thread's turn was.
#[derive(Clone, Copy)]
pub enum Did {
    /// A signal was delivered.
    Delivered,
    /// A call was served.
    Served,
    /// Instructions ran, and the thread stands there.
    Ran(Ran),
}

/// A distributed computation: the part that all processes share, each live process's own part, and the buffer
/// of their calls.
pub struct Computation {
    pub kernel: Wrapped,
    pub guests: ByPid<Guest>,
    pub transfer: Transfer,
}

// Written out, so that to other crates it is one call to drop a computation.
impl Drop for Computation {
    fn drop(self) {
        let Computation {
            kernel: _,
            guests: _,
            transfer: _,
        } = self;
    }
}

impl Computation {
    ghost use Rattle.computation.specs.Computations.{plain_of, user_at, CanGoOn, CanWork, Failed, IsReady, Worked};
    ghost use Rattle.computation.specs.Parts.{StandsAt};

    /// The part that all processes share.
    pub fn into_kernel(self) -> Wrapped
        ensures { result ≡ self.kernel }
    {
        let Computation {
            kernel,
            guests: _,
            transfer: _,
        } = self;
        kernel
    }

    /// Whether a process lives.
    pub fn lives(&self) -> bool
        requires { IsReady self.now }
        ensures { result ≡ not (ended (plain_of self.now)) }
    {
        self.kernel.has_life()
    }

    /// Whether this process lives.
    pub fn is_live(&self, p: VPid) -> bool
        ensures { result ≡ is_live self.now.kernel p }
    {
        self.kernel.is_live(p)
    }

    /// The least number above this one of a thread of the process, if there is one.
    pub fn next_thread(&self, p: VPid, above: u32) -> Option<Tid>
        ensures { option_map (λ t. t.0) result ≡ find (is_above (Some above)) (threads_in (user_at self.now p)) }
    {
        let Some(guest) = self.guests.get(p) else {
            return None;
        };
        guest.next_thread(above)
    }

    /// The least of the signals pending for the thread or its process that the thread's mask lets through.
    pub fn due_signal(&self, p: VPid, t: Tid) -> Option<Signal>
        requires { IsReady self.now }
        ensures due { option_map (λ s. s.0) result ≡ due_signal (plain_of self.now) p t.0 (user_at self.now p) }
        ensures can { IfSome result (λ s. CanDeliver (plain_of self.now) p t s) }
    {
        let Some(guest) = self.guests.get(p) else {
            return None;
        };
        signal_due(&self.kernel, p, guest, t)
    }

    /// Where the thread stands, if it can go on there: its next instruction does, or it stands at a trap or
    /// at a call that is ready.
    pub fn ready_at(&self, p: VPid, t: Tid) -> Option<Ran>
        requires { IsReady self.now }
        ensures goes { is_some result ≡ goes_on (plain_of self.now) p t.0 (user_at self.now p) }
        ensures can { IfSome result (λ ran. CanGoOn (plain_of self.now) p t ran) }
    {
        let Some(guest) = self.guests.get(p) else {
            return None;
        };
        if !guest.has_thread(t) {
            return None;
        }
        let ran = guest.look(t);
        if is_idle(&self.kernel, p, guest, t, &ran) {
            return None;
        }
        Some(ran)
    }

    /// Whether the thread, which stands there, can go on. Looks at no instruction.
    pub fn goes_on_at(&self, p: VPid, t: Tid, ran: &Ran) -> bool
        requires { StandsAt (plain_of self.now).users p t.0 ran.now }
        ensures { result ≡ goes_on (plain_of self.now) p t.0 (user_at self.now p) }
    {
        let Some(guest) = self.guests.get(p) else {
            unreachable!();
        };
        !is_idle(&self.kernel, p, guest, t, ran)
    }

    /// Makes one record of the thread's turn: the delivery of the signal with which the turn begins, or the
    /// call, the trap or the quantum of instructions that is due where the thread stands.
    pub fn work<O: Sink>(
        &mut self,
        alloc: Global,
        p: VPid,
        t: Tid,
        next: Next,
        out: &mut O,
        trace: &mut Trace,
    ) -> Result<Did, Stop>
        requires ready { IsReady self.old }
        requires turn { CanWork (plain_of self.old) p t next }
        requires room { 0 < trace.old.room }
        ensures ok { IfOk result (λ did. Worked (plain_of self.old) (plain_of self.new) p t next did
            trace.old trace.new (sunk (O.seen out.old).taken (O.seen out.new).taken)) }
        ensures ready { OnOk result (IsReady self.new) }
        ensures failed { IsErrOf result Stop.Sink → Failed (plain_of self.old) (plain_of self.new) p t next
            trace.old trace.new (sunk (O.seen out.old).taken (O.seen out.new).taken) }
        ensures memory { IsErrOf result Stop.Memory →
            (trace.new ≡ trace.old) × ((O.seen out.new).taken ≡ (O.seen out.old).taken) }
        ensures same { IsErrOf result Stop.Memory → plain_of self.new ≡ plain_of self.old }
        ensures cause { IsFaultOf result Stop.Sink (O.seen out.old).faults (O.seen out.new).faults }
        ensures later { (O.seen out.old).faults ≤ (O.seen out.new).faults }
    {
        match next {
            Next::Deliver(signal) => {
                self.deliver(p, t, signal, trace);
                Ok(Did::Delivered)
            }
            Next::GoOn(Ran::Asks(request)) => {
                self.call(alloc, p, t, &request, out, trace)?;
                Ok(Did::Served)
            }
            Next::GoOn(Ran::Trapped(signal)) => {
                self.deliver(p, t, signal, trace);
                Ok(Did::Delivered)
            }
            Next::GoOn(Ran::Whole) => {
                let stands = self.run_quantum(p, t, trace);
                Ok(Did::Ran(stands))
            }
            Next::GoOn(Ran::Waits) => unreachable!(),
            Next::GoOn(Ran::Memory) => unreachable!(),
        }
    }

    /// The first direction of which bytes are missing, if there is one.
    pub fn first_missing(&self) -> Option<Dir>
        ensures some { IfSome result (λ dir. (rest : _) × (coming (plain_of self.now) ≡ dir ∷ rest)) }
        ensures none { result ≡ None → coming (plain_of self.now) ≡ [] }
    {
        let mut above = None;
        while let Some(dir) = self.kernel.next_dir(above) {
            if self.kernel.missing(dir) > 0 {
                return Some(dir);
            }
            above = Some(dir);
        }
        None
    }

    /// Has all missing bytes of a direction arrive. Takes no memory, and changes no process's own part.
    pub fn arrive(&mut self, dir: Dir, trace: &mut Trace)
        requires ready { IsReady self.old }
        requires missing { (rest : _) × (coming (plain_of self.old) ≡ dir ∷ rest) }
        requires room { 0 < trace.old.room }
        ensures took { (taken : _) → Takes (plain_of self.old) (plain_of self.new)
            (a_record.Arrive dir (missing_in (map.get self.old.kernel.directions dir)))
            trace.old trace.new (sunk taken taken) }
        ensures rest { (rest : _) → coming (plain_of self.old) ≡ dir ∷ rest → coming (plain_of self.new) ≡ rest }
        ensures guests { self.new.guests ≡ self.old.guests }
        ensures ready { IsReady self.new }
    {
        let n = self.kernel.missing(dir);
        self.kernel.arrive(dir, n);
        trace.append(Record::Arrive { dir, n });
    }
}
