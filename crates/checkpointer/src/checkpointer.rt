ghost use Rattle.std.specs.Prelude.{◌≡◌, ◌≢◌, ◌+◌, ◌-◌, ◌^◌, ◌<◌, ◌≤◌, ℕ, None, Option, List, [], length, IfSome, OnOk, OnErr};
ghost use Rattle.views.specs.Faults.{IsFaultOf};
ghost use Rattle.plain_machine.specs.declared.plain.Plain.{Plain};
ghost use Rattle.trace_log.specs.LogText.{at_start};
ghost use Rattle.trace_log.specs.Requests.{first_tally, one_more_work, CanBeHeld, Requested};
ghost use Rattle.trace_log.specs.Turns.{Upcoming};
ghost use Rattle.staged_cut.specs.HandedOn.{plain_of, IsReady};
ghost use Rattle.edge_io.specs.Sunk.{Sunk, sunk};
ghost use Rattle.checkpointer.specs.Keeping.{IsKept};
ghost use Rattle.checkpointer.specs.UnderWay.{IsUnderWay, IsBrokenOff, WaitsIfAsked, IsSettled};

use crate::unsupported::first_unsupported;
use disk_folder::Folder;
use edge_io::Sink;
use image_store::Store;
use staged_cut::{Computation, Stop};
use std::alloc::Global;
use sys_abi::{Cause, Record};
use trace_log::{Progress, Schedule, Tally, Trace};

/// What makes a run's checkpoints: when they are asked for, where their sets go, and how far their lines on
/// the log have come.
#[derive(Drop)]
pub struct Checkpointer {
    pub schedule: Schedule,
    pub tally: Tally,
    /// Where the next set goes. The folder is to be opened again where there is none.
    pub store: Option<Store>,
    pub lines: Progress,
}

impl Checkpointer {
    /// Before a run, with the store of its sets.
    pub fn new(schedule: Schedule, store: Option<Store>) -> Checkpointer
        ensures schedule { result.schedule ≡ schedule }
        ensures tally { result.tally ≡ first_tally schedule }
        ensures store { result.store ≡ store }
        ensures lines { result.lines ≡ at_start }
    {
        Checkpointer {
            schedule,
            tally: schedule.first_tally(),
            store,
            lines: Progress::at_start(),
        }
    }

    /// Counts a record of work.
    pub fn count(&mut self)
        requires { self.old.tally.work + 1 < 2 ^ 64 }
        ensures { self.new ≡ record self.old { tally = one_more_work self.old.tally } }
    {
        self.tally.work += 1;
    }

    /// Serves the request that the last record of work made, if it made one, as far as the trace has room.
    /// Bytes may arrive meanwhile; each process's own part stays, and whose turn it is in the rounds.
    pub fn serve<L: Sink, F: Folder>(
        &mut self,
        alloc: Global,
        computation: &mut Computation,
        log: &mut L,
        disk: &mut F,
        trace: &mut Trace,
    ) -> Result<(), Stop>
        requires ready { IsReady computation.old }
        requires every { IfSome self.old.schedule.every (λ every. 0 < every) }
        requires work { self.old.tally.work + 2 < 2 ^ 64 }
        requires request { self.old.lines.request + 1 < 2 ^ 64 }
        requires drained { self.old.lines.drained ≡ 0 }
        requires kept { self.old.schedule.every ≢ None → IsKept self.old (F.seen disk.old) }

        ensures ok { OnOk result ((g : Plain) (upcoming : Upcoming) (sink : Sunk) (had : Option (List ℕ))
            (first : F) →
            (before : IsUnderWay self.old.schedule g (plain_of computation.old) upcoming self.old trace.old sink
            (sunk had (L.seen log.old).taken) (F.seen first) (F.seen disk.old))
            → WaitsIfAsked self.old.schedule before.running.requests
            → (after : IsUnderWay self.old.schedule g (plain_of computation.new) upcoming self.new trace.new sink
            (sunk had (L.seen log.new).taken) (F.seen first) (F.seen disk.new))
            × IsSettled after.running.requests trace.new) }
        ensures kept { OnOk result (self.old.schedule.every ≢ None → IsKept self.new (F.seen disk.new)) }
        ensures err { OnErr result ((g : Plain) (upcoming : Upcoming) (sink : Sunk) (had : Option (List ℕ))
            (first : F) →
            (before : IsUnderWay self.old.schedule g (plain_of computation.old) upcoming self.old trace.old sink
            (sunk had (L.seen log.old).taken) (F.seen first) (F.seen disk.old))
            → WaitsIfAsked self.old.schedule before.running.requests
            → IsBrokenOff self.old.schedule g (plain_of computation.new) upcoming trace.new sink
            (sunk had (L.seen log.new).taken) (F.seen first) (F.seen disk.new)) }
        ensures ready { IsReady computation.new }
        ensures size { length trace.new.records + trace.new.room ≡ length trace.old.records + trace.old.room }
        ensures room { trace.new.room ≤ trace.old.room }
        ensures guests { computation.new.guests ≡ computation.old.guests }
        ensures schedule { self.new.schedule ≡ self.old.schedule }
        ensures untouched { self.old.schedule.every ≡ None → disk.new ≡ disk.old }
        ensures unchanged { self.old.schedule.every ≡ None → computation.new ≡ computation.old }
        ensures cause { IsFaultOf result Stop.Sink (L.seen log.old).faults (L.seen log.new).faults }
        ensures later { (L.seen log.old).faults ≤ (L.seen log.new).faults }
    {
        if !self.schedule.asks(self.tally) {
            return Ok(());
        }
        if trace.room() == 0 {
            return Ok(());
        }
        if !computation.lives() {
            return self.conclude(alloc, Record::Lapsed, log, trace);
        }
        if let Some(found) = first_unsupported(computation) {
            let cause = Cause::Unsupported {
                p: found.p,
                fd: found.fd,
                kind: found.kind,
            };
            return self.conclude(alloc, Record::Refused { cause }, log, trace);
        }
        self.checkpoint(alloc, computation, log, disk, trace)
    }

    /// Has all bytes arrive that are missing, and makes the cut where none is any more.
    fn checkpoint<L: Sink, F: Folder>(
        &mut self,
        alloc: Global,
        computation: &mut Computation,
        log: &mut L,
        disk: &mut F,
        trace: &mut Trace,
    ) -> Result<(), Stop>
        requires ready { IsReady computation.old }
        requires held { CanBeHeld (plain_of computation.old) }
        requires below { self.old.tally.greatest < 2 ^ 64 - 2 }
        requires work { self.old.tally.work + 2 < 2 ^ 64 }
        requires request { self.old.lines.request + 1 < 2 ^ 64 }
        requires drained { self.old.lines.drained ≡ 0 }
        requires kept { IsKept self.old (F.seen disk.old) }

        ensures ok { OnOk result ((g : Plain) (upcoming : Upcoming) (sink : Sunk) (had : Option (List ℕ))
            (first : F) →
            (before : IsUnderWay self.old.schedule g (plain_of computation.old) upcoming self.old trace.old sink
            (sunk had (L.seen log.old).taken) (F.seen first) (F.seen disk.old))
            → before.running.requests.phase ≡ Requested []
            → (after : IsUnderWay self.old.schedule g (plain_of computation.new) upcoming self.new trace.new sink
            (sunk had (L.seen log.new).taken) (F.seen first) (F.seen disk.new))
            × IsSettled after.running.requests trace.new) }
        ensures kept { OnOk result (IsKept self.new (F.seen disk.new)) }
        ensures err { OnErr result ((g : Plain) (upcoming : Upcoming) (sink : Sunk) (had : Option (List ℕ))
            (first : F) →
            (before : IsUnderWay self.old.schedule g (plain_of computation.old) upcoming self.old trace.old sink
            (sunk had (L.seen log.old).taken) (F.seen first) (F.seen disk.old))
            → before.running.requests.phase ≡ Requested []
            → IsBrokenOff self.old.schedule g (plain_of computation.new) upcoming trace.new sink
            (sunk had (L.seen log.new).taken) (F.seen first) (F.seen disk.new)) }
        ensures ready { IsReady computation.new }
        ensures size { length trace.new.records + trace.new.room ≡ length trace.old.records + trace.old.room }
        ensures room { trace.new.room ≤ trace.old.room }
        ensures guests { computation.new.guests ≡ computation.old.guests }
        ensures schedule { self.new.schedule ≡ self.old.schedule }
        ensures cause { IsFaultOf result Stop.Sink (L.seen log.old).faults (L.seen log.new).faults }
        ensures later { (L.seen log.old).faults ≤ (L.seen log.new).faults }
    {
        for _arrival in 0..trace.room() {
            let Some(dir) = computation.first_missing() else {
                return self.cut(alloc, computation, log, disk, trace);
            };
            computation.arrive(dir, trace);
        }
        Ok(())
    }
}
