ghost use Rattle.std.specs.Prelude.{◌≡◌, ◌≢◌, ◌≤◌, ◌⊎◌, List, [], None, IfOk, IfErr};
ghost use Rattle.views.specs.Faults.{Rose};
ghost use Rattle.edge_io.specs.Inputs.{SeenInputs};
ghost use Rattle.edge_io.specs.Sunk.{sunk};
ghost use Rattle.option_words.specs.Options.{Text};
ghost use Rattle.job_words.specs.declared.job.Job.TheVariants.{Ring};
ghost use Rattle.job_words.specs.declared.job.RingJob.{RingJob};
ghost use Rattle.endings.specs.Endings.{status_of};
ghost use Rattle.launch_start.specs.Values.{content_named, summary};
ghost use Rattle.dmtcp_top.specs.Jobs.{Asks, IsOneRun, settings_of};
ghost use Rattle.dmtcp_top.specs.Loads.{OnlyLooks};
ghost use Rattle.dmtcp_top.specs.Ring.{IsRing};
ghost use Rattle.dmtcp_top.specs.RingEndings.{AreHalves, HalfEnds, HalvesEnd, RingComesToEnd, Telling, half_outside};
ghost use Rattle.dmtcp_top.specs.Sessions.{outside};

use crate::carry_out::carry_out;
use disk_folder::Folder;
use drive::Wrapped;
use edge_io::Sink;
use endings::{Ending, Status};
use job_words::{Job, RingJob};
use launch_start::{Discard, RingInputs, launch_job, restart_job, summary};
use seen_kernel::files::seen_names;
use std::alloc::{AllocError, Global};
use trace_log::Trace;
use views::list_of::ListOf;

/// The file in which the processes of a ring leave the value of their counter.
const VALUE: &[u8; 5] = b"value";

/// What the two halves of a ring left in the file of the value.
#[derive(Drop)]
pub struct Values {
    pub launched: ListOf<u8>,
    pub restarted: ListOf<u8>,
}

/// The worked ring: a launch of its programs, and where that comes to its end with nobody alive a restart
/// from the last set. A line on the console tells what both left.
pub(crate) fn run_ring<O: Sink, L: Sink, F: Folder>(
    alloc: Global,
    ring: RingJob,
    out: &mut O,
    log: &mut L,
    disk: &mut F,
    trace: &mut Trace,
) -> Status
    requires empty { trace.old.records ≡ [] }
    requires asked { (words : List Text) × Asks words (Ring ring) }
    ensures { (inputs : SeenInputs) → IsRing result ring trace.new.records
        (outside inputs (O.seen out.old) (L.seen log.old) (F.seen disk.old))
        (outside inputs (O.seen out.new) (L.seen log.new) (F.seen disk.new)) }
{
    let Ok(launch) = launch_job(alloc, ring) else {
        return Ending::Memory.conclude(log);
    };
    let launch = Job::Launch(launch);
    let restart = Job::Restart(restart_job(ring));
    let ending = go_round(alloc, ring, &launch, &restart, out, log, disk, trace);
    ending.conclude(log)
}

/// Both halves of a ring, and the line that tells what they left; not the last line of the log.
fn go_round<'a, O: Sink, L: Sink, F: Folder>(
    alloc: Global,
    ring: RingJob,
    launch: &'a Job,
    restart: &'a Job,
    out: &mut O,
    log: &mut L,
    disk: &mut F,
    trace: &mut Trace,
) -> Ending<'a>
    requires empty { trace.old.records ≡ [] }
    requires halves { AreHalves ring launch.now restart.now }
    ensures ends { RingComesToEnd result ring trace.new.records (F.seen disk.old) (F.seen disk.new)
        (sunk (O.seen out.old).taken (O.seen out.new).taken)
        (sunk (L.seen log.old).taken (L.seen log.new).taken) }
    ensures sink { status_of result ≡ Status.SinkFault
        → Rose (O.seen out.old).faults (O.seen out.new).faults
        ⊎ Rose (L.seen log.old).faults (L.seen log.new).faults }
    ensures disk { status_of result ≡ Status.DiskFault
        → Rose (F.seen disk.old).faults (F.seen disk.new).faults }
    ensures log_later { (L.seen log.old).faults ≤ (L.seen log.new).faults }
{
    match both_halves(alloc, launch, restart, log, disk, trace) {
        Ok(values) => tell_values(alloc, ring.processes, &values, out),
        Err(ending) => ending,
    }
}

/// Puts the line on the console that tells what the halves left.
fn tell_values<'a, O: Sink>(
    alloc: Global,
    processes: u32,
    values: &Values,
    out: &mut O,
) -> Ending<'a>
    ensures told { Telling result (summary processes values.now.launched values.now.restarted)
        (sunk (O.seen out.old).taken (O.seen out.new).taken) }
    ensures cause { status_of result ≡ Status.SinkFault → Rose (O.seen out.old).faults (O.seen out.new).faults }
{
    let line = match summary(
        alloc,
        processes,
        values.launched.as_slice(),
        values.restarted.as_slice(),
    ) {
        Ok(line) => line,
        Err(_) => return Ending::Memory,
    };
    match out.put(line.as_slice()) {
        Ok(()) => Ending::Done,
        Err(_) => Ending::SinkFault,
    }
}

/// The launch, and where nobody lives at its end the restart.
fn both_halves<'a, L: Sink, F: Folder>(
    alloc: Global,
    launch: &'a Job,
    restart: &'a Job,
    log: &mut L,
    disk: &mut F,
    trace: &mut Trace,
) -> Result<Values, Ending<'a>>
    requires empty { trace.old.records ≡ [] }
    requires halves { (ring : RingJob) × AreHalves ring launch.now restart.now }
    ensures ends { (ring : RingJob) → AreHalves ring launch.now restart.now → HalvesEnd result ring trace.new.records
        (F.seen disk.old) (F.seen disk.new) (sunk (L.seen log.old).taken (L.seen log.new).taken) }
    ensures sink { IfErr result (λ ending. status_of ending ≡ Status.SinkFault
        → Rose (L.seen log.old).faults (L.seen log.new).faults) }
    ensures disk { IfErr result (λ ending. status_of ending ≡ Status.DiskFault
        → Rose (F.seen disk.old).faults (F.seen disk.new).faults) }
    ensures log_later { (L.seen log.old).faults ≤ (L.seen log.new).faults }
{
    let launched = half(alloc, launch, log, disk, trace)?;
    *trace = Trace::new(alloc);
    let restarted = half(alloc, restart, log, disk, trace)?;
    Ok(Values {
        launched,
        restarted,
    })
}

/// A half of a ring, to the last line of the log. Where nobody lives at its end it gives what was left in the
/// file of the value.
fn half<'a, L: Sink, F: Folder>(
    alloc: Global,
    job: &'a Job,
    log: &mut L,
    disk: &mut F,
    trace: &mut Trace,
) -> Result<ListOf<u8>, Ending<'a>>
    requires empty { trace.old.records ≡ [] }
    requires asked { (words : List Text) × Asks words job.now }
    requires run { IsOneRun job.now }
    ensures ends { (words : List Text) → Asks words job.now → HalfEnds result words trace.new.records
        (half_outside (L.seen log.old) (F.seen disk.old)) (half_outside (L.seen log.new) (F.seen disk.new)) }
    ensures input { IfErr result (λ ending. status_of ending ≢ Status.InputFault) }
    ensures sink { IfErr result (λ ending. status_of ending ≡ Status.SinkFault
        → Rose (L.seen log.old).faults (L.seen log.new).faults) }
    ensures disk { IfErr result (λ ending. status_of ending ≡ Status.DiskFault
        → Rose (F.seen disk.old).faults (F.seen disk.new).faults) }
    ensures looks { (settings_of job.now).every ≡ None → OnlyLooks (F.seen disk.old) (F.seen disk.new) }
    ensures log_later { (L.seen log.old).faults ≤ (L.seen log.new).faults }
{
    let mut inputs = RingInputs;
    let mut console = Discard;
    let system = carry_out(alloc, job, &mut inputs, &mut console, log, disk, trace)?;
    Ok(content_of(alloc, &system, VALUE)?)
}

/// The bytes of the file of this name, none where there is no such file.
fn content_of(alloc: Global, kernel: &Wrapped, name: &[u8]) -> Result<ListOf<u8>, AllocError>
    ensures { IfOk result (λ content. content ≡ content_named kernel.now name.now) }
{
    let files = &kernel.system().kernel.files;
    let names = seen_names(alloc, files)?;
    let Some(number) = names.get(name) else {
        return Ok(ListOf::new(alloc));
    };
    match files.bytes(*number) {
        Some(bytes) => Ok(ListOf::from_vec(Vec::from_slice(alloc, bytes)?)),
        None => Ok(ListOf::new(alloc)),
    }
}
