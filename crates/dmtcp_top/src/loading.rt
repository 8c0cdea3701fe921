ghost use Rattle.std.specs.Prelude.{◌≡◌, ◌≢◌, List, None, Some, IfOk, IfErr, All};
ghost use Rattle.std.specs.Option.{option_map_or};
ghost use Rattle.views.specs.Faults.{Rose};
ghost use Rattle.plain_process.specs.Valid.{IsByte};
ghost use Rattle.image_store.specs.FoundSets.{last_set, HasSet};
ghost use Rattle.image_store.specs.StoreStates.{FitsFolder};
ghost use Rattle.option_words.specs.Options.{Text};
ghost use Rattle.job_words.specs.declared.job.Job.TheVariants.{Launch};
ghost use Rattle.launch_start.specs.HandedOn.{state_of, CanBegin};
ghost use Rattle.rebuild_tables.specs.Hosts.{IsHosts};
ghost use Rattle.endings.specs.Endings.{status_of};
ghost use Rattle.dmtcp_top.specs.Jobs.{Asks, IsOneRun, IsQuiet, settings_of};
ghost use Rattle.dmtcp_top.specs.Launches.{schedule_of};
ghost use Rattle.dmtcp_top.specs.Loads.{Begins, BeginsAt, HasStore, IsMade, IsOriginIn, IsUnmade, Launches, OnlyLooks, Reopened, Restarts, Restored, store_for};

use crate::hosts::{launch_hosts, restart_hosts};
use crate::settings::Settings;
use crate::start::{Checkpoints, Start};
use disk_folder::Folder;
use drive::restored;
use edge_io::Inputs;
use endings::{Ending, Status};
use host_tables::Hosts;
use image_codec::{ReadFault, SetBytes};
use image_store::{SetInfo, Store, StoreFault};
use job_words::{Job, LaunchJob};
use launch_start::{Start as Origin, load, look_at_bytes};
use rebuild::decode_set;
use std::alloc::{AllocError, Global};
use views::list_of::ListOf;

/// The start of the run that a job asks for.
pub(crate) fn begin<'a, I: Inputs, F: Folder>(
    alloc: Global,
    job: &'a Job,
    inputs: &mut I,
    disk: &mut F,
) -> Result<Start, Ending<'a>>
    requires asked { (words : List Text) × Asks words job.now }
    requires run { IsOneRun job.now }
    ensures begins { Begins result job.now (I.seen inputs.old).files (F.seen disk.old).files }
    ensures stored { IfOk result (λ start. HasStore start.checkpoints (F.seen disk.new)) }
    ensures input { IfErr result (λ ending. status_of ending ≡ Status.InputFault
        → Rose (I.seen inputs.old).faults (I.seen inputs.new).faults) }
    ensures sink { IfErr result (λ ending. status_of ending ≢ Status.SinkFault) }
    ensures disk { IfErr result (λ ending. status_of ending ≡ Status.DiskFault
        → Rose (F.seen disk.old).faults (F.seen disk.new).faults) }
    ensures looks { OnlyLooks (F.seen disk.old) (F.seen disk.new) }
    ensures untouched { IsQuiet job.now → disk.new ≡ disk.old }
    ensures same { (I.seen inputs.new).files ≡ (I.seen inputs.old).files }
{
    let settings = Settings::of(job);
    match job {
        Job::Launch(job) => launch(alloc, job, settings, inputs, disk),
        Job::Restart(job) => restart(alloc, &restart_hosts(job), settings, disk),
        Job::Ring(_) | Job::Help => unreachable!(),
    }
}

/// The run at the start of this job, with its settings.
fn launch<'a, I: Inputs, F: Folder>(
    alloc: Global,
    job: &'a LaunchJob,
    settings: Settings,
    inputs: &mut I,
    disk: &mut F,
) -> Result<Start, Ending<'a>>
    requires asked { (words : List Text) × Asks words (Launch job.now) }
    requires set { settings ≡ settings_of (Launch job.now) }
    ensures launches { Launches result (I.seen inputs.old).files (F.seen disk.old).files job.now }
    ensures stored { IfOk result (λ start. HasStore start.checkpoints (F.seen disk.new)) }
    ensures input { IfErr result (λ ending. status_of ending ≡ Status.InputFault
        → Rose (I.seen inputs.old).faults (I.seen inputs.new).faults) }
    ensures disk { IfErr result (λ ending. status_of ending ≡ Status.DiskFault
        → Rose (F.seen disk.old).faults (F.seen disk.new).faults) }
    ensures looks { OnlyLooks (F.seen disk.old) (F.seen disk.new) }
    ensures untouched { job.now.every ≡ None → disk.new ≡ disk.old }
    ensures same { (I.seen inputs.new).files ≡ (I.seen inputs.old).files }
{
    let origin = load(alloc, job, inputs)?;
    let checkpoints = first_checkpoints(alloc, settings, disk)?;
    let start = start_at(alloc, origin, &launch_hosts(job), checkpoints)?;
    Ok(start)
}

/// The run that begins at this state on these hosts.
fn start_at(
    alloc: Global,
    origin: Origin,
    hosts: &Hosts,
    checkpoints: Checkpoints,
) -> Result<Start, AllocError>
    requires can { CanBegin origin }
    requires hosts { IsHosts hosts.now }
    ensures { IfOk result (BeginsAt (state_of origin) checkpoints) }
{
    let (system, guests) = origin.into_system(alloc, hosts)?;
    Ok(Start {
        system,
        guests,
        checkpoints,
    })
}

/// The checkpoints of a launch. The folder is not looked at where there are none.
fn first_checkpoints<'a, F: Folder>(
    alloc: Global,
    settings: Settings,
    disk: &mut F,
) -> Result<Checkpoints, Ending<'a>>
    ensures made { IfOk result (IsMade (F.seen disk.old).files settings) }
    ensures unmade { IfErr result (IsUnmade settings) }
    ensures stored { IfOk result (λ checkpoints. HasStore checkpoints (F.seen disk.new)) }
    ensures disk { IfErr result (λ ending. status_of ending ≡ Status.DiskFault
        → Rose (F.seen disk.old).faults (F.seen disk.new).faults) }
    ensures looks { OnlyLooks (F.seen disk.old) (F.seen disk.new) }
    ensures untouched { settings.every ≡ None → disk.new ≡ disk.old }
{
    match settings.every {
        None => Ok(no_checkpoints(settings)),
        Some(_) => Ok(checkpoints_after(settings, open(alloc, disk)?)),
    }
}

fn no_checkpoints(settings: Settings) -> Checkpoints
    ensures schedule { result.schedule ≡ schedule_of settings 0 }
    ensures store { result.store ≡ None }
{
    Checkpoints {
        schedule: settings.schedule(0),
        store: None,
    }
}

/// The store of the folder's sets.
fn open<'a, F: Folder>(alloc: Global, disk: &mut F) -> Result<Store, Ending<'a>>
    ensures opens { Reopened result (F.seen disk.old).files }
    ensures fits { IfOk result (λ store. FitsFolder store (F.seen disk.new)) }
    ensures disk { IfErr result (λ ending. status_of ending ≡ Status.DiskFault
        → Rose (F.seen disk.old).faults (F.seen disk.new).faults) }
    ensures looks { OnlyLooks (F.seen disk.old) (F.seen disk.new) }
{
    match Store::open_store(alloc, disk, 0) {
        Ok(store) => Ok(store),
        Err(StoreFault::DiskFault) => Err(Ending::DiskFault),
        Err(_) => Err(Ending::Memory),
    }
}

/// The checkpoints of a run whose sets follow those of this store.
fn checkpoints_after(settings: Settings, store: Store) -> Checkpoints
    ensures schedule { result.schedule ≡ schedule_of settings
        (option_map_or (λ (info : SetInfo). info.generation) store.last 0) }
    ensures store { result.store ≡ store_for settings.every store }
{
    let opening = match store.last() {
        Some(info) => info.generation,
        None => 0,
    };
    Checkpoints {
        schedule: settings.schedule(opening),
        store: store_for(settings.every, store),
    }
}

/// The store, where checkpoints are asked for.
fn store_for(every: Option<u32>, store: Store) -> Option<Store>
    ensures { result ≡ store_for every store }
{
    match every {
        None => None,
        Some(_) => Some(store),
    }
}

/// The run at the state that the set which counts spells, on these hosts.
fn restart<'a, F: Folder>(
    alloc: Global,
    hosts: &Hosts,
    settings: Settings,
    disk: &mut F,
) -> Result<Start, Ending<'a>>
    requires { IsHosts hosts.now }
    ensures restarts { Restarts result (F.seen disk.old).files settings }
    ensures stored { IfOk result (λ start. HasStore start.checkpoints (F.seen disk.new)) }
    ensures disk { IfErr result (λ ending. status_of ending ≡ Status.DiskFault
        → Rose (F.seen disk.old).faults (F.seen disk.new).faults) }
    ensures looks { OnlyLooks (F.seen disk.old) (F.seen disk.new) }
{
    let store = open(alloc, disk)?;
    let Some(info) = store.last() else {
        return Err(Ending::NoSet);
    };
    let origin = restore(alloc, &store, info, disk)?;
    let start = start_at(alloc, origin, hosts, checkpoints_after(settings, store))?;
    Ok(start)
}

/// The state that the set which counts spells.
fn restore<'a, F: Folder>(
    alloc: Global,
    store: &Store,
    info: SetInfo,
    disk: &mut F,
) -> Result<Origin, Ending<'a>>
    requires last { store.now.last ≡ Some info }
    requires fits { FitsFolder store.now (F.seen disk.old) }
    ensures restored { Restored result info (F.seen disk.old).files }
    ensures fits { FitsFolder store.now (F.seen disk.new) }
    ensures disk { IfErr result (λ ending. status_of ending ≡ Status.DiskFault
        → Rose (F.seen disk.old).faults (F.seen disk.new).faults) }
    ensures looks { OnlyLooks (F.seen disk.old) (F.seen disk.new) }
{
    let set = match store.get_set(alloc, disk) {
        Ok(set) => set,
        Err(StoreFault::DiskFault) => return Err(Ending::DiskFault),
        Err(StoreFault::NoSet) => unreachable!(),
        Err(StoreFault::Damaged(damage)) => return Err(Ending::Damaged(info.slot, damage)),
        Err(StoreFault::Memory) => return Err(Ending::Memory),
    };
    origin_in(alloc, info.slot, &set)
}

/// The state that the files of a set in this slot spell.
fn origin_in<'a>(alloc: Global, slot: u32, set: &SetBytes) -> Result<Origin, Ending<'a>>
    ensures { IsOriginIn result slot set.now.files }
{
    look_at_files(set.files.as_slice());
    let decoded = match decode_set(alloc, set) {
        Ok(decoded) => decoded,
        Err(ReadFault::Damaged(damage)) => return Err(Ending::Damaged(slot, damage)),
        Err(ReadFault::Memory) => return Err(Ending::Memory),
    };
    match restored(alloc, decoded) {
        Ok(origin) => Ok(origin),
        Err(_) => Err(Ending::Memory),
    }
}

/// Looks at each file, so that it is known to be one of bytes.
fn look_at_files(files: &[ListOf<u8>])
    ensures { All (λ file. All IsByte file) files.now }
{
    for file in files {
        look_at_bytes(file.as_slice());
    }
}
