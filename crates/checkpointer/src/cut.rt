ghost use Rattle.std.specs.Prelude.{◌≡◌, ◌≢◌, ◌+◌, ◌-◌, ◌*◌, ◌^◌, ◌<◌, ◌≤◌, ◌⊎◌, ℕ, suc, Option, None, List, [], length, take, Err, IsTrue, IfOk, IfErr, OnOk, OnErr};
ghost use Rattle.views.specs.Faults.{IsFaultOf};
ghost use Rattle.plain_machine.specs.declared.plain.Plain.{Plain};
ghost use Rattle.plain_machine.specs.Tests.{full_arrive};
ghost use Rattle.trace_log.specs.Spelling.{is_spellable};
ghost use Rattle.trace_log.specs.LogText.{line_of, after, after_all};
ghost use Rattle.trace_log.specs.Requests.{tally_after, CanBeHeld, Requested};
ghost use Rattle.trace_log.specs.Turns.{Upcoming};
ghost use Rattle.image_store.specs.StoreStates.{FitsFolder, next_generation};
ghost use Rattle.image_store.specs.StoreCrashes.{ChangesNothing};
ghost use Rattle.disk_folder.specs.Moments.{LeavesOnly};
ghost use Rattle.staged_cut.specs.HandedOn.{plain_of, IsReady, state_of, CanBegin};
ghost use Rattle.edge_io.specs.Sunk.{Sunk, sunk, Took, TookFront};
ghost use Rattle.trace_log.specs.Trace.{with_record};
ghost use Rattle.checkpointer.specs.Keeping.{IsKept, HasNoLater, IsPut, Counts, IsOutside, cause_told};
ghost use Rattle.checkpointer.specs.Marks.{marks_of, with_marks};
ghost use Rattle.checkpointer.specs.Settling.{told_of, Settles};
ghost use Rattle.checkpointer.specs.UnderWay.{IsUnderWay, IsBrokenOff, IsSettled};

use crate::checkpointer::Checkpointer;
use crate::marks::Pass;
use crate::set_files::images;
use disk_folder::Folder;
use edge_io::Sink;
use image_store::{Store, StoreFault};
use staged_cut::{Computation, PutOutcome, Start, Stop, hold, release};
use std::alloc::Global;
use sys_abi::{Cause, Record};
use trace_log::Trace;

impl Checkpointer {
    /// Makes the cut of a computation, which is held meanwhile, and its set.
    pub(crate) fn cut<L: Sink, F: Folder>(
        &mut self,
        alloc: Global,
        computation: &mut Computation,
        log: &mut L,
        disk: &mut F,
        trace: &mut Trace,
    ) -> Result<(), Stop>
        requires ready { IsReady computation.old }
        requires held { CanBeHeld (plain_of computation.old) }
        requires arrived { full_arrive (plain_of computation.old) ≡ plain_of computation.old }
        requires room { 0 < trace.old.room }
        requires below { self.old.tally.greatest < 2 ^ 64 - 2 }
        requires work { self.old.tally.work + 2 < 2 ^ 64 }
        requires request { self.old.lines.request + 1 < 2 ^ 64 }
        requires drained { self.old.lines.drained ≡ 0 }
        requires kept { IsKept self.old (F.seen disk.old) }

        ensures ok { OnOk result ((g : Plain) (upcoming : Upcoming) (sink : Sunk) (had : Option (List ℕ))
            (first : F) →
            (before : IsUnderWay self.old.schedule g (plain_of computation.old) upcoming self.old trace.old sink
            (sunk had (L.seen log.old).taken) (F.seen first) (F.seen disk.old))
            → before.running.requests.phase ≡ Requested []
            → (after : IsUnderWay self.old.schedule g (plain_of computation.old) upcoming self.new trace.new sink
            (sunk had (L.seen log.new).taken) (F.seen first) (F.seen disk.new))
            × IsSettled after.running.requests trace.new) }
        ensures kept { OnOk result (IsKept self.new (F.seen disk.new)) }
        ensures err { OnErr result ((g : Plain) (upcoming : Upcoming) (sink : Sunk) (had : Option (List ℕ))
            (first : F) →
            (before : IsUnderWay self.old.schedule g (plain_of computation.old) upcoming self.old trace.old sink
            (sunk had (L.seen log.old).taken) (F.seen first) (F.seen disk.old))
            → before.running.requests.phase ≡ Requested []
            → IsBrokenOff self.old.schedule g (plain_of computation.old) upcoming trace.new sink
            (sunk had (L.seen log.new).taken) (F.seen first) (F.seen disk.new)) }
        ensures same { computation.new ≡ computation.old }
        ensures size { length trace.new.records + trace.new.room ≡ length trace.old.records + trace.old.room }
        ensures room { trace.new.room ≤ trace.old.room }
        ensures schedule { self.new.schedule ≡ self.old.schedule }
        ensures cause { IsFaultOf result Stop.Sink (L.seen log.old).faults (L.seen log.new).faults }
        ensures later { (L.seen log.old).faults ≤ (L.seen log.new).faults }
    {
        let Ok(held) = hold(alloc, computation) else {
            let cause = Cause::Memory;
            return self.conclude(alloc, Record::Refused { cause }, log, trace);
        };
        let (outcome, told) = self.make_set(alloc, &held.start, log, disk, trace);
        release(computation, held, outcome);
        told
    }

    /// Puts the cut, its marks and its set where they belong, and what came of it on the trace and the log, as
    /// far as the trace has room. It tells how the writing ended.
    fn make_set<L: Sink, F: Folder>(
        &mut self,
        alloc: Global,
        start: &Start,
        log: &mut L,
        disk: &mut F,
        trace: &mut Trace,
    ) -> (PutOutcome, Result<(), Stop>)
        requires ready { CanBegin start.now }
        requires held { CanBeHeld (state_of start.now) }
        requires arrived { full_arrive (state_of start.now) ≡ state_of start.now }
        requires room { 0 < trace.old.room }
        requires below { self.old.tally.greatest < 2 ^ 64 - 2 }
        requires work { self.old.tally.work + 2 < 2 ^ 64 }
        requires request { self.old.lines.request + 1 < 2 ^ 64 }
        requires drained { self.old.lines.drained ≡ 0 }
        requires kept { IsKept self.old (F.seen disk.old) }

        ensures ok { OnOk result.1 ((g : Plain) (upcoming : Upcoming) (sink : Sunk) (had : Option (List ℕ))
            (first : F) →
            (before : IsUnderWay self.old.schedule g (state_of start.now) upcoming self.old trace.old sink
            (sunk had (L.seen log.old).taken) (F.seen first) (F.seen disk.old))
            → before.running.requests.phase ≡ Requested []
            → (after : IsUnderWay self.old.schedule g (state_of start.now) upcoming self.new trace.new sink
            (sunk had (L.seen log.new).taken) (F.seen first) (F.seen disk.new))
            × IsSettled after.running.requests trace.new) }
        ensures kept { OnOk result.1 (IsKept self.new (F.seen disk.new)) }
        ensures err { OnErr result.1 ((g : Plain) (upcoming : Upcoming) (sink : Sunk) (had : Option (List ℕ))
            (first : F) →
            (before : IsUnderWay self.old.schedule g (state_of start.now) upcoming self.old trace.old sink
            (sunk had (L.seen log.old).taken) (F.seen first) (F.seen disk.old))
            → before.running.requests.phase ≡ Requested []
            → IsBrokenOff self.old.schedule g (state_of start.now) upcoming trace.new sink
            (sunk had (L.seen log.new).taken) (F.seen first) (F.seen disk.new)) }
        ensures size { length trace.new.records + trace.new.room ≡ length trace.old.records + trace.old.room }
        ensures room { trace.new.room ≤ trace.old.room }
        ensures schedule { self.new.schedule ≡ self.old.schedule }
        ensures cause { IsFaultOf result.1 Stop.Sink (L.seen log.old).faults (L.seen log.new).faults }
        ensures later { (L.seen log.old).faults ≤ (L.seen log.new).faults }
    {
        match self.open(alloc, disk) {
            Ok(store) => self.write_set(alloc, start, store, log, disk, trace),
            Err(cause) => {
                let told = Record::Refused { cause };
                (outcome_of(told), self.conclude(alloc, told, log, trace))
            }
        }
    }

    /// Makes the cut and writes its set, where the trace has room left behind the marks of what was drained.
    fn write_set<L: Sink, F: Folder>(
        &mut self,
        alloc: Global,
        start: &Start,
        store: Store,
        log: &mut L,
        disk: &mut F,
        trace: &mut Trace,
    ) -> (PutOutcome, Result<(), Stop>)
        requires ready { CanBegin start.now }
        requires held { CanBeHeld (state_of start.now) }
        requires arrived { full_arrive (state_of start.now) ≡ state_of start.now }
        requires room { 0 < trace.old.room }
        requires below { self.old.tally.greatest < 2 ^ 64 - 2 }
        requires work { self.old.tally.work + 1 < 2 ^ 64 }
        requires request { self.old.lines.request + 1 < 2 ^ 64 }
        requires drained { self.old.lines.drained ≡ 0 }
        requires fits { FitsFolder store (F.seen disk.old) }
        requires next { next_generation store ≡ suc self.old.tally.greatest }
        requires none { self.old.store ≡ None }
        requires above { HasNoLater self.old.tally.greatest (F.seen disk.old) }

        ensures ok { OnOk result.1 ((g : Plain) (upcoming : Upcoming) (sink : Sunk) (had : Option (List ℕ))
            (first : F) →
            (before : IsUnderWay self.old.schedule g (state_of start.now) upcoming self.old trace.old sink
            (sunk had (L.seen log.old).taken) (F.seen first) (F.seen disk.old))
            → before.running.requests.phase ≡ Requested []
            → (after : IsUnderWay self.old.schedule g (state_of start.now) upcoming self.new trace.new sink
            (sunk had (L.seen log.new).taken) (F.seen first) (F.seen disk.new))
            × IsSettled after.running.requests trace.new) }
        ensures kept { OnOk result.1 (IsKept self.new (F.seen disk.new)) }
        ensures err { OnErr result.1 ((g : Plain) (upcoming : Upcoming) (sink : Sunk) (had : Option (List ℕ))
            (first : F) →
            (before : IsUnderWay self.old.schedule g (state_of start.now) upcoming self.old trace.old sink
            (sunk had (L.seen log.old).taken) (F.seen first) (F.seen disk.old))
            → before.running.requests.phase ≡ Requested []
            → IsBrokenOff self.old.schedule g (state_of start.now) upcoming trace.new sink
            (sunk had (L.seen log.new).taken) (F.seen first) (F.seen disk.new)) }
        ensures size { length trace.new.records + trace.new.room ≡ length trace.old.records + trace.old.room }
        ensures room { trace.new.room ≤ trace.old.room }
        ensures schedule { self.new.schedule ≡ self.old.schedule }
        ensures cause { IsFaultOf result.1 Stop.Sink (L.seen log.old).faults (L.seen log.new).faults }
        ensures later { (L.seen log.old).faults ≤ (L.seen log.new).faults }
    {
        let generation = store.next();
        self.mark_cut(generation, start, trace);
        if trace.room() == 0 {
            return (PutOutcome::Memory, Ok(()));
        }
        let written = put(alloc, start, store, disk);
        let told = told_of(generation, &written);
        self.store = written.ok();
        (
            outcome_of(told),
            self.settle(alloc, start, told, log, trace),
        )
    }

    /// Puts the cut on the trace and, as far as this has room, the marks of what was drained.
    fn mark_cut(&mut self, generation: u64, start: &Start, trace: &mut Trace)
        requires ready { CanBegin start.now }
        requires room { 0 < trace.old.room }
        requires work { self.old.tally.work + 1 < 2 ^ 64 }
        requires request { self.old.lines.request + 1 < 2 ^ 64 }
        requires drained { self.old.lines.drained ≡ 0 }
        ensures checkpointer { self.new ≡ record self.old {
          tally = tally_after self.old.tally (Record.Cut generation);
          lines = after_all self.old.lines (take (trace.old.room - 1)
              (marks_of Pass.Drain (state_of start.now)));
        } }
        ensures trace { trace.new ≡ with_marks (with_record trace.old (Record.Cut generation))
            (marks_of Pass.Drain (state_of start.now)) }
        ensures drained { self.new.lines.drained + trace.new.room * 2 ^ 32 ≤ 2 ^ 64 }
    {
        self.mark(Record::Cut { generation }, trace);
        // What there is room for bounds the bytes that the marks count.
        prove!(trace.room() <= u32::MAX);
        self.mark_all(start, Pass::Drain, trace);
    }

    /// Puts the marks of what is refilled on the trace, as far as it has room, and the outcome behind them
    /// where it has more.
    fn settle<L: Sink>(
        &mut self,
        alloc: Global,
        start: &Start,
        outcome: Record,
        log: &mut L,
        trace: &mut Trace,
    ) -> Result<(), Stop>
        requires ready { CanBegin start.now }
        requires spellable { IsTrue (is_spellable outcome) }
        requires work { self.old.tally.work + 1 < 2 ^ 64 }
        requires request { self.old.lines.request + 1 < 2 ^ 64 }
        requires drained { self.old.lines.drained + trace.old.room * 2 ^ 32 ≤ 2 ^ 64 }
        ensures settled { Settles (state_of start.now) outcome result self.old self.new trace.old trace.new
            (L.seen log.old).taken (L.seen log.new).taken }
        ensures size { length trace.new.records + trace.new.room ≡ length trace.old.records + trace.old.room }
        ensures room { trace.new.room ≤ trace.old.room }
        ensures schedule { self.new.schedule ≡ self.old.schedule }
        ensures cause { IsFaultOf result Stop.Sink (L.seen log.old).faults (L.seen log.new).faults }
        ensures later { (L.seen log.old).faults ≤ (L.seen log.new).faults }
    {
        self.mark_all(start, Pass::Refill, trace);
        if trace.room() == 0 {
            return Ok(());
        }
        self.conclude(alloc, outcome, log, trace)
    }

    /// The store, which is opened again where there is none.
    fn open<F: Folder>(&mut self, alloc: Global, disk: &mut F) -> Result<Store, Cause>
        requires kept { IsKept self.old (F.seen disk.old) }
        ensures ok { IfOk result (λ store. FitsFolder store (F.seen disk.new)
            × (next_generation store ≡ suc self.old.tally.greatest)) }
        ensures err { OnErr result (self.old.store ≡ None) }
        ensures kind { IfErr result IsOutside }
        ensures checkpointer { self.new ≡ record self.old { store = None } }
        ensures nothing { ChangesNothing (F.seen disk.old) (F.seen disk.new) }
        ensures crash { LeavesOnly (F.seen disk.old) (F.seen disk.new) (F.seen disk.old).may_leave }
        ensures counts { Counts (F.seen disk.old).faults (F.seen disk.new).faults }
        ensures cause { IsFaultOf result Cause.DiskFault (F.seen disk.old).faults (F.seen disk.new).faults }
    {
        match self.store.take() {
            Some(store) => Ok(store),
            None => match Store::open_store(alloc, disk, self.tally.greatest) {
                Ok(store) => Ok(store),
                Err(fault) => Err(cause_of(fault)),
            },
        }
    }

    /// Puts the outcome of a request on the trace and its line on the log.
    pub(crate) fn conclude<L: Sink>(
        &mut self,
        alloc: Global,
        outcome: Record,
        log: &mut L,
        trace: &mut Trace,
    ) -> Result<(), Stop>
        requires room { 0 < trace.old.room }
        requires spellable { IsTrue (is_spellable outcome) }
        requires work { self.old.tally.work + 1 < 2 ^ 64 }
        requires request { self.old.lines.request + 1 < 2 ^ 64 }
        requires drained { self.old.lines.drained + 2 ^ 32 ≤ 2 ^ 128 }
        ensures trace { trace.new ≡ with_record trace.old outcome }
        ensures checkpointer { OnOk result (self.new ≡ record self.old {
          tally = tally_after self.old.tally outcome;
          lines = after self.old.lines outcome;
        }) }
        ensures schedule { self.new.schedule ≡ self.old.schedule }
        ensures ok { OnOk result (Took (sunk (L.seen log.old).taken (L.seen log.new).taken)
            (line_of self.old.lines outcome)) }
        ensures err { OnErr result (TookFront (sunk (L.seen log.old).taken (L.seen log.new).taken)
            (line_of self.old.lines outcome)) }
        ensures cause { IsFaultOf result Stop.Sink (L.seen log.old).faults (L.seen log.new).faults }
        ensures later { (L.seen log.old).faults ≤ (L.seen log.new).faults }
    {
        self.mark(outcome, trace);
        let line = self.lines.line_of(alloc, &outcome)?;
        self.lines.pass(&outcome);
        match log.put(line.as_bytes()) {
            Ok(()) => Ok(()),
            Err(_) => Err(Stop::Sink),
        }
    }
}

/// Writes the set of the state at which this start is.
fn put<F: Folder>(alloc: Global, start: &Start, store: Store, disk: &mut F) -> Result<Store, Cause>
    requires ready { CanBegin start.now }
    requires held { CanBeHeld (state_of start.now) }
    requires arrived { full_arrive (state_of start.now) ≡ state_of start.now }
    requires fits { FitsFolder store (F.seen disk.old) }
    requires room { next_generation store < 2 ^ 64 - 1 }
    ensures ok { IfOk result (λ done. FitsFolder done (F.seen disk.new)
        × (next_generation done ≡ suc (next_generation store))) }
    ensures put { IsPut (state_of start.now) (next_generation store) result (F.seen disk.old)
        (F.seen disk.new)
        ⊎ ((result ≡ Err Cause.Memory) × (disk.new ≡ disk.old)) }
    ensures kind { IfErr result IsOutside }
    ensures counts { Counts (F.seen disk.old).faults (F.seen disk.new).faults }
    ensures cause { IsFaultOf result Cause.DiskFault (F.seen disk.old).faults (F.seen disk.new).faults }
{
    let Ok(set) = images(alloc, start) else {
        return Err(Cause::Memory);
    };
    match store.put_set(alloc, disk, &set) {
        Ok((store, _)) => Ok(store),
        Err(fault) => Err(cause_of(fault)),
    }
}

/// What is told of a set that was put, or refused.
fn told_of(generation: u64, put: &Result<Store, Cause>) -> Record
    ensures { result ≡ told_of generation put.now }
{
    match put {
        Ok(_) => Record::Complete { generation },
        Err(cause) => Record::Refused { cause: *cause },
    }
}

/// How the writing of a set ended of which this is told.
fn outcome_of(told: Record) -> PutOutcome {
    match told {
        Record::Complete { generation } => PutOutcome::Put(generation),
        Record::Refused {
            cause: Cause::DiskFault,
        } => PutOutcome::DiskFault,
        _ => PutOutcome::Memory,
    }
}

/// Why a checkpoint is refused where the store is.
fn cause_of(fault: StoreFault) -> Cause
    ensures told { result ≡ cause_told fault }
    ensures kind { IsOutside result }
{
    match fault {
        StoreFault::DiskFault => Cause::DiskFault,
        StoreFault::NoSet => Cause::Memory,
        StoreFault::Damaged(_) => Cause::Memory,
        StoreFault::Memory => Cause::Memory,
    }
}
