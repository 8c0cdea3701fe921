ghost use Rattle.std.specs.Prelude.{◌≡◌, List, [], map, string_bytes};
ghost use Rattle.option_words.specs.Options.{Text};
ghost use Rattle.dmtcp_top.specs.AsAsked.{DoesAsAsked};
ghost use Rattle.dmtcp_top.specs.Sessions.{outside};
ghost use Rattle.dmtcp_top.specs.Promise.{IsPromised};
ghost use Rattle.dmtcp_top.specs.Jobs.{Asks, IsOneRun, IsQuiet, MakesNoCheckpoints};

use crate::carry_out::{carry_out, ending_of};
use crate::help::tell_forms;
use crate::job::read_job;
use crate::ring::run_ring;
use disk_folder::Folder;
use edge_io::{Inputs, Sink};
use endings::Status;
use job_words::Job;
use std::alloc::Global;
use std::sync::Wait;
use std::thread::Threads;
use trace_log::Trace;

/// Does what the words of a command line ask for.
///
/// `launch` runs the programs in the inputs that its words name, with their arguments and files, until nobody
/// lives or can go on, or the trace has no room. `restart` goes on in the same way from the last complete set
/// in `disk`. After every so many records of work, where the words ask for it, a set of the whole state goes
/// to `disk`. `ring` does both with a job of its own, and tells on `out` what it came to; `help` tells the
/// forms of the command line there.
///
/// The bytes that the programs write go to `out`. `log` gets a line for each outcome of a request for a
/// checkpoint, and how the call ended in one last line. `trace` gets a record for each step of the run, and
/// the marks of each request.
pub fn dmtcp<R: Wait + Threads + Sync, I: Inputs, O: Sink, L: Sink, F: Folder>(
    rt: &R,
    alloc: Global,
    words: &[String],
    inputs: &mut I,
    out: &mut O,
    log: &mut L,
    disk: &mut F,
    trace: &mut Trace,
) -> Status
    requires { trace.old.records ≡ [] }

    // What one run, the ring and help are promised, field by field: `specs/AsAsked.antt`, and of a run what
    // the status says of the trace, the console and the log, in which order the records come, what a crash at
    // any moment leaves of the folder of sets, and which status comes where: `specs/Promise.antt`.
    ensures answered { DoesAsAsked result (map string_bytes words.now) trace.new.records
        (outside (I.seen inputs.old) (O.seen out.old) (L.seen log.old) (F.seen disk.old))
        (outside (I.seen inputs.new) (O.seen out.new) (L.seen log.new) (F.seen disk.new)) }

    // Without checkpoints, and without a restart, the folder is not touched.
    ensures untouched { MakesNoCheckpoints (map string_bytes words.now) → disk.new ≡ disk.old }
{
    let _ = rt;
    run_words(alloc, words, inputs, out, log, disk, trace)
}

/// The same without threads of the host: it always returns.
pub fn run_words<I: Inputs, O: Sink, L: Sink, F: Folder>(
    alloc: Global,
    words: &[String],
    inputs: &mut I,
    out: &mut O,
    log: &mut L,
    disk: &mut F,
    trace: &mut Trace,
) -> Status
    requires { trace.old.records ≡ [] }
    ensures answered { DoesAsAsked result (map string_bytes words.now) trace.new.records
        (outside (I.seen inputs.old) (O.seen out.old) (L.seen log.old) (F.seen disk.old))
        (outside (I.seen inputs.new) (O.seen out.new) (L.seen log.new) (F.seen disk.new)) }

    // Without checkpoints, and without a restart, the folder is not touched.
    ensures untouched { MakesNoCheckpoints (map string_bytes words.now) → disk.new ≡ disk.old }
{
    let job = match read_job(alloc, words) {
        Ok(job) => job,
        Err(ending) => return ending.conclude(log),
    };
    match &job {
        Job::Ring(ring) => run_ring(alloc, *ring, out, log, disk, trace),
        Job::Help => tell_forms(out, log),
        _ => run_job(alloc, &job, inputs, out, log, disk, trace),
    }
}

/// Makes the run that a job asks for.
fn run_job<I: Inputs, O: Sink, L: Sink, F: Folder>(
    alloc: Global,
    job: &Job,
    inputs: &mut I,
    out: &mut O,
    log: &mut L,
    disk: &mut F,
    trace: &mut Trace,
) -> Status
    requires empty { trace.old.records ≡ [] }
    requires asked { (words : List Text) × Asks words job.now }
    requires run { IsOneRun job.now }
    ensures promise { (words : List Text) → Asks words job.now → IsPromised result words trace.new.records
        (outside (I.seen inputs.old) (O.seen out.old) (L.seen log.old) (F.seen disk.old))
        (outside (I.seen inputs.new) (O.seen out.new) (L.seen log.new) (F.seen disk.new)) }
    ensures untouched { IsQuiet job.now → disk.new ≡ disk.old }
{
    let ending = ending_of(carry_out(alloc, job, inputs, out, log, disk, trace));
    ending.conclude(log)
}
