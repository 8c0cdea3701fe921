ghost use Rattle.std.specs.Prelude.{◌≡◌, ◌≤◌, ◌⊎◌, [], None, IfOk, IsSome};
ghost use Rattle.std.specs.FinMap as map;
ghost use Rattle.views.specs.Faults.{Rose};
ghost use Rattle.drive.specs.HandedOn.{sunk, IsSafe, GoesInRounds};
ghost use Rattle.drive.specs.RunEnds.{EndsRun};
ghost use Rattle.drive.specs.Pace.{KeepsPace};
ghost use Rattle.drive.specs.Driving.{schedule_of, state_of, end_told, CanDrive, StandsAtEnd};

use crate::run_status::{RunEnd, RunStatus, status_of};
use crate::{Checkpointer, Computation, Start, Wrapped};
use checkpointer::Guest;
use disk_folder::Folder;
use edge_io::Sink;
use id_maps::ByPid;
use image_store::Store;
use std::alloc::{AllocError, Global};
use sys_abi::{Transfer, VPid};
use trace_log::{Schedule, Trace};
use views::list_of::ListOf;

/// Runs the processes of a system until nobody lives or can go on, or the trace is full. `guests` are the own
/// parts of the live processes, each under its number.
///
/// The bytes that they write go to `out`. Where `every` is there a checkpoint is asked for after each so many
/// records of work: its set goes to `disk` by the store, with a generation above `opening`, and `log` gets a
/// line for it. `trace` gets a record for each step of the run, and the marks of each checkpoint.
///
/// The system always comes back: a checkpoint is done whole before the next record, so that no stage of one
/// holds the system at the end.
pub fn drive<O: Sink, L: Sink, F: Folder>(
    alloc: Global,
    wrapped: Wrapped,
    guests: ListOf<(VPid, Guest)>,
    every: Option<u32>,
    opening: u64,
    store: Option<Store>,
    out: &mut O,
    log: &mut L,
    disk: &mut F,
    trace: &mut Trace,
) -> (Option<Wrapped>, RunStatus)
    requires can { CanDrive wrapped guests (schedule_of every opening) store (F.seen disk.old) }
    requires empty { trace.old.records ≡ [] }

    // How it ended is told as it is, by the trace, the console and the log.
    ensures ends { EndsRun (end_told result.1) (schedule_of every opening) (state_of wrapped guests)
        trace.old.room trace.new.records
        (sunk (O.seen out.old).taken (O.seen out.new).taken)
        (sunk (L.seen log.old).taken (L.seen log.new).taken) }
    ensures pace { KeepsPace (end_told result.1) (state_of wrapped guests) trace.new.records
        (sunk (O.seen out.old).taken (O.seen out.new).taken)
        (sunk (L.seen log.old).taken (L.seen log.new).taken) }
    ensures in_rounds { GoesInRounds (schedule_of every opening) (state_of wrapped guests) trace.new.records }

    // The system comes back, and stands for the kernel part at the end of the run, however it ended.
    ensures back { IsSome result.0 }
    ensures state { StandsAtEnd (state_of wrapped guests) trace.new.records result.0 }

    // A crash at any moment leaves the set that counted before, or one of a cut of this run.
    ensures safe { IsSafe (state_of wrapped guests) trace.new.records (F.seen disk.old) (F.seen disk.new) }
    ensures untouched { every ≡ None → disk.new ≡ disk.old }
    ensures cause { result.1 ≡ RunStatus.SinkFault
        → Rose (O.seen out.old).faults (O.seen out.new).faults
        ⊎ Rose (L.seen log.old).faults (L.seen log.new).faults }
    ensures later { (O.seen out.old).faults ≤ (O.seen out.new).faults }
    ensures log_later { (L.seen log.old).faults ≤ (L.seen log.new).faults }
{
    let Ok((guests, transfer)) = parts_of(alloc, guests) else {
        return (Some(wrapped), RunStatus::Ended(RunEnd::Memory));
    };
    let mut start = Start {
        computation: Computation {
            kernel: wrapped,
            guests,
            transfer,
        },
        checkpointer: Checkpointer::new(Schedule { every, opening }, store),
    };
    let end = start.run(alloc, out, log, disk, trace);
    (Some(start.computation.into_kernel()), status_of(end))
}

/// The guests by their numbers, and a buffer for their calls.
fn parts_of(
    alloc: Global,
    guests: ListOf<(VPid, Guest)>,
) -> Result<(ByPid<Guest>, Transfer), AllocError>
    ensures { IfOk result (λ parts. parts.0 ≡ map.from_entries guests) }
{
    let guests = by_number(alloc, guests)?;
    Ok((guests, Transfer::new(alloc)?))
}

/// The guests by their numbers. The first of several under one number counts.
fn by_number(alloc: Global, guests: ListOf<(VPid, Guest)>) -> Result<ByPid<Guest>, AllocError>
    ensures { IfOk result (λ by_number. by_number ≡ map.from_entries guests) }
{
    let mut by_number = ByPid::new(alloc);
    let mut guests = guests.into_vec();
    while let Some((p, guest)) = guests.pop() {
        by_number.insert(p, guest)?;
    }
    Ok(by_number)
}
