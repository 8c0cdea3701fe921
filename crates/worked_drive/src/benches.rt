//! What a run is made on, and the run of a launch.
ghost use Rattle.std.specs.Prelude.{◌≡◌, suc, ◌<◌, [], is_some, IfOk, IfSome};
ghost use Rattle.image_store.specs.StoreStates.{FitsFolder, next_generation};
ghost use Rattle.worked_drive.specs.Ready.{IsReady};

use crate::jobs::{Beginning, Program, begun};
use disk_folder::{Folder, MemFolder};
use drive::{RunStatus, Wrapped, drive};
use edge_io::{MemSink, Sink};
use image_store::Store;
use std::alloc::{AllocError, Global};
use std::test::Fail;
use trace_log::Trace;

/// How many records a run has room for.
const ROOM: u32 = 200;

/// The streams, the folder and the trace of a run.
pub struct Bench {
    pub console: MemSink,
    pub log: MemSink,
    pub disk: MemFolder,
    pub trace: Trace,
}

// Written out, so that it is one call to drop a bench.
impl Drop for Bench {
    fn drop(self) {
        let Bench {
            console: _,
            log: _,
            disk: _,
            trace: _,
        } = self;
    }
}

/// How a run ended, and the system as it is then.
pub struct Outcome {
    pub status: RunStatus,
    pub system: Wrapped,
}

// Written out, so that it is one call to drop what a run left.
impl Drop for Outcome {
    fn drop(self) {
        let Outcome {
            status: _,
            system: _,
        } = self;
    }
}

impl Bench {
    pub fn new(alloc: Global) -> Result<Box<Bench>, AllocError>
        ensures { IfOk result (λ bench. bench.value.trace.records ≡ []) }
    {
        let bench = Bench {
            trace: empty_trace(alloc)?,
            disk: MemFolder::new(alloc, &[])?,
            console: MemSink::new(alloc, &[])?,
            log: MemSink::new(alloc, &[])?,
        };
        Ok(Box::new(alloc, bench)?)
    }

    /// Runs the launch with these words, with a checkpoint after each so many records of work, if any.
    pub fn launch(
        &mut self,
        alloc: Global,
        words: &[&str],
        programs: &[Program],
        every: Option<u32>,
    ) -> Result<Box<Outcome>, Fail>
        requires every { IfSome every (λ every. 0 < every) }
        requires empty { self.old.trace.records ≡ [] }
    {
        run_on(
            alloc,
            begun(alloc, words, programs)?,
            every,
            &mut self.console,
            &mut self.log,
            &mut self.disk,
            &mut self.trace,
        )
    }
}

fn empty_trace(alloc: Global) -> Result<Trace, AllocError>
    ensures { IfOk result (λ trace. trace.records ≡ []) }
{
    let mut trace = Trace::new(alloc);
    trace.reserve(ROOM)?;
    Ok(trace)
}

/// A run with the store of the folder's sets, which is opened where there are checkpoints.
fn run_on<O: Sink, L: Sink, F: Folder>(
    alloc: Global,
    beginning: Box<Beginning>,
    every: Option<u32>,
    out: &mut O,
    log: &mut L,
    disk: &mut F,
    trace: &mut Trace,
) -> Result<Box<Outcome>, Fail>
    requires ready { IsReady beginning.value.system beginning.value.guests }
    requires every { IfSome every (λ every. 0 < every) }
    requires empty { trace.old.records ≡ [] }
{
    let (store, opening) = opened(alloc, every, disk)?;
    let Beginning { system, guests } = Box::into_inner(beginning);
    let (back, status) = drive(
        alloc, system, guests, every, opening, store, out, log, disk, trace,
    );
    outcome_of(alloc, back, status)
}

fn outcome_of(
    alloc: Global,
    back: Option<Wrapped>,
    status: RunStatus,
) -> Result<Box<Outcome>, Fail> {
    match back {
        Some(system) => Ok(Box::new(alloc, Outcome { status, system })?),
        None => Err(Fail::from("no system")),
    }
}

fn opened<F: Folder>(
    alloc: Global,
    every: Option<u32>,
    disk: &mut F,
) -> Result<(Option<Store>, u64), Fail>
    ensures stored { IfOk result (λ opened. is_some opened.0 ≡ is_some every) }
    ensures follows { IfOk result (λ opened. IfSome opened.0
        (λ store. next_generation store ≡ suc opened.1)) }
    ensures fits { IfOk result (λ opened. IfSome opened.0 (λ store. FitsFolder store (F.seen disk.new))) }
{
    if every.is_none() {
        return Ok((None, 0));
    }
    let store = Store::open_store(alloc, disk, 0)?;
    let opening = opening_of(&store);
    Ok((Some(store), opening))
}

/// The generation of the set that counts, if one does.
fn opening_of(store: &Store) -> u64
    requires { store.now.floor ≡ 0 }
    ensures { next_generation store.now ≡ suc result }
{
    match store.last() {
        Some(info) => info.generation,
        None => 0,
    }
}
