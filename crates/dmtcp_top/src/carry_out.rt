ghost use Rattle.std.specs.Prelude.{◌≡◌, ◌≢◌, ◌≤◌, ◌⊎◌, List, [], None, IfErr, IsSome, OnOk};
ghost use Rattle.views.specs.Faults.{Rose};
ghost use Rattle.option_words.specs.Options.{Text};
ghost use Rattle.endings.specs.Endings.{status_of};
ghost use Rattle.drive.specs.declared.loop_end.LoopEnd.TheVariants as loop_ended;
ghost use Rattle.drive.specs.Driving.{end_told};
ghost use Rattle.dmtcp_top.specs.Endings.{IsCarriedOut, IsLeft, ending_by, ending_in};
ghost use Rattle.dmtcp_top.specs.Jobs.{Asks, IsOneRun, IsQuiet, settings_of};
ghost use Rattle.dmtcp_top.specs.Loads.{OnlyLooks};
ghost use Rattle.dmtcp_top.specs.Sessions.{outside};

use crate::loading::begin;
use crate::settings::Settings;
use disk_folder::Folder;
use drive::{RunEnd, RunStatus, Wrapped, drive};
use edge_io::{Inputs, Sink};
use endings::{Ending, Status};
use job_words::Job;
use std::alloc::Global;
use trace_log::{Schedule, Trace};

/// Makes the run that a job asks for, to the last line of the log, which is left out. Where nobody lives at
/// its end it gives the system as it is then.
pub(crate) fn carry_out<'a, I: Inputs, O: Sink, L: Sink, F: Folder>(
    alloc: Global,
    job: &'a Job,
    inputs: &mut I,
    out: &mut O,
    log: &mut L,
    disk: &mut F,
    trace: &mut Trace,
) -> Result<Wrapped, Ending<'a>>
    requires empty { trace.old.records ≡ [] }
    requires asked { (words : List Text) × Asks words job.now }
    requires run { IsOneRun job.now }
    ensures ends { (words : List Text) → Asks words job.now → IsCarriedOut result words trace.new.records
        (outside (I.seen inputs.old) (O.seen out.old) (L.seen log.old) (F.seen disk.old))
        (outside (I.seen inputs.new) (O.seen out.new) (L.seen log.new) (F.seen disk.new)) }
    ensures input { IfErr result (λ ending. status_of ending ≡ Status.InputFault
        → Rose (I.seen inputs.old).faults (I.seen inputs.new).faults) }
    ensures sink { IfErr result (λ ending. status_of ending ≡ Status.SinkFault
        → Rose (O.seen out.old).faults (O.seen out.new).faults
        ⊎ Rose (L.seen log.old).faults (L.seen log.new).faults) }
    ensures disk { IfErr result (λ ending. status_of ending ≡ Status.DiskFault
        → Rose (F.seen disk.old).faults (F.seen disk.new).faults) }
    ensures untouched { IsQuiet job.now → disk.new ≡ disk.old }
    ensures looks { (settings_of job.now).every ≡ None → OnlyLooks (F.seen disk.old) (F.seen disk.new) }
    ensures same { (I.seen inputs.new).files ≡ (I.seen inputs.old).files }
    ensures later { (O.seen out.old).faults ≤ (O.seen out.new).faults }
    ensures log_later { (L.seen log.old).faults ≤ (L.seen log.new).faults }
{
    let records = Settings::of(job).records;
    if trace.reserve(records).is_err() {
        return Err(Ending::Memory);
    }
    let start = match begin(alloc, job, inputs, disk) {
        Ok(start) => start,
        Err(ending) => return Err(ending),
    };
    let Schedule { every, opening } = start.checkpoints.schedule;
    let (back, status) = drive(
        alloc,
        start.system,
        start.guests,
        every,
        opening,
        start.checkpoints.store,
        out,
        log,
        disk,
        trace,
    );
    left_by(back, status, records)
}

/// The system that came back, where nobody lives, or how the call ends whose run ended otherwise.
fn left_by<'a>(
    back: Option<Wrapped>,
    status: RunStatus,
    records: u32,
) -> Result<Wrapped, Ending<'a>>
    requires { IsSome back }
    ensures { IsLeft result back (end_told status) records }
{
    let Some(system) = back else {
        unreachable!();
    };
    match ended_by(status, records) {
        Ok(()) => Ok(system),
        Err(ending) => Err(ending),
    }
}

/// How the call ends whose run ended so, where that is not for want of live processes.
fn ended_by<'a>(status: RunStatus, records: u32) -> Result<(), Ending<'a>>
    ensures done { OnOk result (end_told status ≡ loop_ended.Done) }
    ensures otherwise { IfErr result (λ ending. (ending ≡ ending_by (end_told status) records)
        × (end_told status ≢ loop_ended.Done)) }
{
    match status {
        RunStatus::Ended(RunEnd::Done) => Ok(()),
        RunStatus::Ended(RunEnd::Budget) => Err(Ending::Budget(records)),
        RunStatus::Ended(RunEnd::Stuck) => Err(Ending::Stuck),
        RunStatus::Ended(RunEnd::Memory) => Err(Ending::Memory),
        RunStatus::SinkFault => Err(Ending::SinkFault),
    }
}

/// How the call ends whose run was made so.
pub(crate) fn ending_of<'a>(carried: Result<Wrapped, Ending<'a>>) -> Ending<'a>
    ensures { result ≡ ending_in carried.entry }
{
    match carried {
        Ok(_) => Ending::Done,
        Err(ending) => ending,
    }
}
