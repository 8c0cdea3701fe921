ghost use Rattle.std.specs.Prelude.{◌≡◌, ◌≢◌, ◌+◌, ◌^◌, ◌<◌, ◌≤◌, ◌⊎◌, ℕ, List, [], length, Option, None, IsErrOf, IfErr, IfSome, OnOk};
ghost use Rattle.views.specs.Faults.{Rose};
ghost use Rattle.plain_machine.specs.declared.plain.Plain.{Plain};
ghost use Rattle.trace_log.specs.declared.requests.Schedule.{Schedule};
ghost use Rattle.trace_log.specs.LogText.{at_start};
ghost use Rattle.trace_log.specs.Requests.{first_tally};
ghost use Rattle.trace_log.specs.Turns.{Upcoming};
ghost use Rattle.drive.specs.HandedOn.{plain_of, IsReady};
ghost use Rattle.edge_io.specs.Sunk.{sunk};
ghost use Rattle.drive.specs.Scheduling.{CanTake, IsCome, IsToldOf};
ghost use Rattle.checkpointer.specs.Keeping.{IsKept, IsSafe};
ghost use Rattle.checkpointer.specs.Rounds.{GoesInRounds};
ghost use Rattle.drive.specs.RunEnds.{EndsAt, EndsRun};
ghost use Rattle.drive.specs.Pace.{KeepsPace};
ghost use Rattle.drive.specs.Going.{IsGoing, IsChosen, HasEnded, end_of};

use crate::loop_end::LoopEnd;
use crate::start::Start;
use crate::{Chosen, Made, Rounds, Stop};
use disk_folder::Folder;
use edge_io::Sink;
use std::alloc::Global;
use trace_log::Trace;

impl Start {
    /// Makes record after record, until nobody lives or can go on, or the trace is full, and the checkpoints
    /// that the records of work ask for.
    pub fn run<O: Sink, L: Sink, F: Folder>(
        &mut self,
        alloc: Global,
        out: &mut O,
        log: &mut L,
        disk: &mut F,
        trace: &mut Trace,
    ) -> LoopEnd
        requires ready { IsReady self.old.computation }
        requires every { IfSome self.old.checkpointer.schedule.every (λ every. 0 < every) }
        requires tally { self.old.checkpointer.tally ≡ first_tally self.old.checkpointer.schedule }
        requires lines { self.old.checkpointer.lines ≡ at_start }
        requires kept { self.old.checkpointer.schedule.every ≢ None
            → IsKept self.old.checkpointer (F.seen disk.old) }
        requires empty { trace.old.records ≡ [] }
        ensures ends { EndsRun result self.old.checkpointer.schedule
            (plain_of self.old.computation) trace.old.room trace.new.records
            (sunk (O.seen out.old).taken (O.seen out.new).taken)
            (sunk (L.seen log.old).taken (L.seen log.new).taken) }
        ensures pace { KeepsPace result (plain_of self.old.computation) trace.new.records
            (sunk (O.seen out.old).taken (O.seen out.new).taken)
            (sunk (L.seen log.old).taken (L.seen log.new).taken) }
        ensures in_rounds { GoesInRounds self.old.checkpointer.schedule
            (plain_of self.old.computation) trace.new.records }
        ensures state { EndsAt result (plain_of self.old.computation) trace.new.records
            (plain_of self.new.computation) }
        ensures safe { IsSafe (plain_of self.old.computation) trace.new.records (F.seen disk.old)
            (F.seen disk.new) }
        ensures untouched { self.old.checkpointer.schedule.every ≡ None → disk.new ≡ disk.old }
        ensures cause { result ≡ LoopEnd.SinkFault
            → Rose (O.seen out.old).faults (O.seen out.new).faults
            ⊎ Rose (L.seen log.old).faults (L.seen log.new).faults }
        ensures later { (O.seen out.old).faults ≤ (O.seen out.new).faults }
        ensures log_later { (L.seen log.old).faults ≤ (L.seen log.new).faults }
    {
        let Ok(mut rounds) = Rounds::new(alloc) else {
            return LoopEnd::Memory;
        };
        self.go_on(alloc, &mut rounds, out, log, disk, trace)
    }

    /// Makes record after record from the beginning of the first round on.
    fn go_on<O: Sink, L: Sink, F: Folder>(
        &mut self,
        alloc: Global,
        rounds: &mut Rounds,
        out: &mut O,
        log: &mut L,
        disk: &mut F,
        trace: &mut Trace,
    ) -> LoopEnd
        requires ready { IsReady self.old.computation }
        requires every { IfSome self.old.checkpointer.schedule.every (λ every. 0 < every) }
        requires tally { self.old.checkpointer.tally ≡ first_tally self.old.checkpointer.schedule }
        requires lines { self.old.checkpointer.lines ≡ at_start }
        requires kept { self.old.checkpointer.schedule.every ≢ None
            → IsKept self.old.checkpointer (F.seen disk.old) }
        requires empty { trace.old.records ≡ [] }
        requires come { IsCome rounds.old (plain_of self.old.computation) Upcoming.NewRound }
        requires told { IsToldOf rounds.old.come (plain_of self.old.computation).users }
        ensures ended { HasEnded result self.old.checkpointer.schedule (plain_of self.old.computation)
            trace.old.room trace.new.records (plain_of self.new.computation)
            (sunk (O.seen out.old).taken (O.seen out.new).taken)
            (sunk (L.seen log.old).taken (L.seen log.new).taken) (F.seen disk.old) (F.seen disk.new) }
        ensures untouched { self.old.checkpointer.schedule.every ≡ None → disk.new ≡ disk.old }
        ensures cause { result ≡ LoopEnd.SinkFault
            → Rose (O.seen out.old).faults (O.seen out.new).faults
            ⊎ Rose (L.seen log.old).faults (L.seen log.new).faults }
        ensures later { (O.seen out.old).faults ≤ (O.seen out.new).faults }
        ensures log_later { (L.seen log.old).faults ≤ (L.seen log.new).faults }
    {
        let room = trace.room();
        for _record in 0..room {
            match self.make_record(alloc, rounds, out, log, disk, trace) {
                Ok(()) => {}
                Err(end) => return end,
            }
        }
        if self.computation.lives() {
            LoopEnd::Budget
        } else {
            LoopEnd::Done
        }
    }

    /// Makes the next record and the checkpoint that it asks for, or tells how the run ends here.
    fn make_record<O: Sink, L: Sink, F: Folder>(
        &mut self,
        alloc: Global,
        rounds: &mut Rounds,
        out: &mut O,
        log: &mut L,
        disk: &mut F,
        trace: &mut Trace,
    ) -> Result<(), LoopEnd>
        requires ready { IsReady self.old.computation }
        requires told { IsToldOf rounds.old.come (plain_of self.old.computation).users }
        requires every { IfSome self.old.checkpointer.schedule.every (λ every. 0 < every) }
        requires work { self.old.checkpointer.tally.work + 3 < 2 ^ 64 }
        requires request { self.old.checkpointer.lines.request + 1 < 2 ^ 64 }
        requires drained { 0 < trace.old.room → self.old.checkpointer.lines.drained ≡ 0 }
        requires kept { self.old.checkpointer.schedule.every ≢ None
            → IsKept self.old.checkpointer (F.seen disk.old) }
        ensures going { OnOk result (
            (schedule : Schedule) (g : Plain) (had told : Option (List ℕ)) (first : F)
            → IsGoing schedule g self.old rounds.old trace.old
            (sunk had (O.seen out.old).taken) (sunk told (L.seen log.old).taken) (F.seen first)
            (F.seen disk.old)
            → IsGoing schedule g self.new rounds.new trace.new
            (sunk had (O.seen out.new).taken) (sunk told (L.seen log.new).taken) (F.seen first)
            (F.seen disk.new)) }
        ensures ready { OnOk result (IsReady self.new.computation) }
        ensures told { OnOk result (IsToldOf rounds.new.come (plain_of self.new.computation).users) }
        ensures kept { OnOk result (self.old.checkpointer.schedule.every ≢ None
            → IsKept self.new.checkpointer (F.seen disk.new)) }
        ensures ended { IfErr result (λ end. (schedule : Schedule) (g : Plain) (room : ℕ)
            (had told : Option (List ℕ)) (first : F)
            → IsGoing schedule g self.old rounds.old trace.old
            (sunk had (O.seen out.old).taken) (sunk told (L.seen log.old).taken) (F.seen first)
            (F.seen disk.old)
            → length trace.old.records + trace.old.room ≡ room
            → HasEnded end schedule g room trace.new.records (plain_of self.new.computation)
            (sunk had (O.seen out.new).taken) (sunk told (L.seen log.new).taken) (F.seen first)
            (F.seen disk.new)) }
        ensures size { OnOk result (length trace.new.records + trace.new.room
            ≡ length trace.old.records + trace.old.room) }
        ensures less { OnOk result (trace.new.room < trace.old.room) }
        ensures schedule { self.new.checkpointer.schedule ≡ self.old.checkpointer.schedule }
        ensures untouched { self.old.checkpointer.schedule.every ≡ None → disk.new ≡ disk.old }
        ensures cause { IsErrOf result LoopEnd.SinkFault
            → Rose (O.seen out.old).faults (O.seen out.new).faults
            ⊎ Rose (L.seen log.old).faults (L.seen log.new).faults }
        ensures later { (O.seen out.old).faults ≤ (O.seen out.new).faults }
        ensures log_later { (L.seen log.old).faults ≤ (L.seen log.new).faults }
    {
        if !self.computation.lives() {
            return Err(LoopEnd::Done);
        }
        if trace.room() == 0 {
            return Err(LoopEnd::Budget);
        }
        let Some(choice) = rounds.choose(&self.computation) else {
            return Err(LoopEnd::Stuck);
        };
        match self.step(alloc, rounds, choice, out, log, disk, trace) {
            Ok(()) => Ok(()),
            Err(stop) => Err(ended_by(stop)),
        }
    }

    /// Makes the record that was chosen, and the checkpoint that it asks for.
    fn step<O: Sink, L: Sink, F: Folder>(
        &mut self,
        alloc: Global,
        rounds: &mut Rounds,
        choice: Chosen,
        out: &mut O,
        log: &mut L,
        disk: &mut F,
        trace: &mut Trace,
    ) -> Result<(), Stop>
        requires ready { IsReady self.old.computation }
        requires can { CanTake (plain_of self.old.computation) choice }
        requires every { IfSome self.old.checkpointer.schedule.every (λ every. 0 < every) }
        requires work { self.old.checkpointer.tally.work + 3 < 2 ^ 64 }
        requires request { self.old.checkpointer.lines.request + 1 < 2 ^ 64 }
        requires drained { self.old.checkpointer.lines.drained ≡ 0 }
        requires kept { self.old.checkpointer.schedule.every ≢ None
            → IsKept self.old.checkpointer (F.seen disk.old) }
        requires room { 0 < trace.old.room }
        ensures ok { OnOk result ((schedule : Schedule) (g : Plain) (had told : Option (List ℕ)) (first : F)
            → IsChosen schedule g self.old rounds.old choice trace.old
            (sunk had (O.seen out.old).taken) (sunk told (L.seen log.old).taken) (F.seen first)
            (F.seen disk.old)
            → IsGoing schedule g self.new rounds.new trace.new
            (sunk had (O.seen out.new).taken) (sunk told (L.seen log.new).taken) (F.seen first)
            (F.seen disk.new)) }
        ensures ready { OnOk result (IsReady self.new.computation) }
        ensures told { OnOk result (IsToldOf rounds.new.come (plain_of self.new.computation).users) }
        ensures kept { OnOk result (self.old.checkpointer.schedule.every ≢ None
            → IsKept self.new.checkpointer (F.seen disk.new)) }
        ensures ended { IfErr result (λ stop. (schedule : Schedule) (g : Plain) (room : ℕ)
            (had told : Option (List ℕ)) (first : F)
            → IsChosen schedule g self.old rounds.old choice trace.old
            (sunk had (O.seen out.old).taken) (sunk told (L.seen log.old).taken) (F.seen first)
            (F.seen disk.old)
            → length trace.old.records + trace.old.room ≡ room
            → HasEnded (end_of stop) schedule g room trace.new.records (plain_of self.new.computation)
            (sunk had (O.seen out.new).taken) (sunk told (L.seen log.new).taken) (F.seen first)
            (F.seen disk.new)) }
        ensures size { OnOk result (length trace.new.records + trace.new.room
            ≡ length trace.old.records + trace.old.room) }
        ensures less { OnOk result (trace.new.room < trace.old.room) }
        ensures schedule { self.new.checkpointer.schedule ≡ self.old.checkpointer.schedule }
        ensures untouched { self.old.checkpointer.schedule.every ≡ None → disk.new ≡ disk.old }
        ensures cause { IsErrOf result Stop.Sink
            → Rose (O.seen out.old).faults (O.seen out.new).faults
            ⊎ Rose (L.seen log.old).faults (L.seen log.new).faults }
        ensures later { (O.seen out.old).faults ≤ (O.seen out.new).faults }
        ensures log_later { (L.seen log.old).faults ≤ (L.seen log.new).faults }
    {
        match rounds.take(alloc, choice, &mut self.computation, out, trace) {
            Ok(Made::Arrival) => Ok(()),
            Ok(Made::Work) => {
                self.checkpointer.count();
                self.checkpointer
                    .serve(alloc, &mut self.computation, log, disk, trace)
            }
            Err(stop) => Err(stop),
        }
    }
}

/// How a run ends that stopped so.
fn ended_by(stop: Stop) -> LoopEnd
    ensures { result ≡ end_of stop }
{
    match stop {
        Stop::Sink => LoopEnd::SinkFault,
        Stop::Memory => LoopEnd::Memory,
    }
}
