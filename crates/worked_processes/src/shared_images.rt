// The shared images beside which images of processes are read.
use image_codec::{ProcessEntry, Shared, ThreadEntry};
use std::alloc::{AllocError, Global};
use sys_abi::{Life, VPid};
use views::list_of::ListOf;

/// A process: its number, its life and its threads.
type Process = (u32, Life, &'static [u32]);

/// The next number of a process or thread, and the processes.
pub type Processes = (u32, &'static [Process]);

/// Process 40001 is live, and 40000 a zombie.
pub static LIVE_AFTER_ZOMBIE: Processes = (
    40002,
    &[(40000, Life::Zombie(0), &[]), (40001, Life::Live, &[40001])],
);

/// Process 40000 with the threads 40000, 40003 and 40007.
pub static WITH_THREE_THREADS: Processes = (40008, &[(40000, Life::Live, &[40000, 40003, 40007])]);

/// The shared image with these processes and nothing else.
pub fn shared_of(alloc: Global, processes: Processes) -> Result<Box<Shared>, AllocError> {
    let (next_id, rows) = processes;
    let mut shared = Box::new(alloc, nothing_shared(alloc, next_id))?;
    put_processes(&mut shared.processes, alloc, rows)?;
    Ok(shared)
}

fn nothing_shared(alloc: Global, next_id: u32) -> Shared {
    Shared {
        next_id,
        next_file: 1,
        files: ListOf::new(alloc),
        channels: ListOf::new(alloc),
        descriptions: ListOf::new(alloc),
        processes: ListOf::new(alloc),
    }
}

fn put_processes(
    processes: &mut ListOf<ProcessEntry>,
    alloc: Global,
    rows: &[Process],
) -> Result<(), AllocError> {
    for row in rows {
        processes.push(process(alloc, *row)?)?;
    }
    Ok(())
}

fn process(alloc: Global, row: Process) -> Result<ProcessEntry, AllocError> {
    let (number, life, tids) = row;
    Ok(ProcessEntry {
        pid: VPid(number),
        parent: 1,
        host: 0,
        made: 1,
        life,
        pending: 0,
        threads: thread_entries(alloc, tids)?,
        descriptors: ListOf::new(alloc),
    })
}

fn thread_entries(alloc: Global, tids: &[u32]) -> Result<ListOf<ThreadEntry>, AllocError> {
    let mut threads = ListOf::new(alloc);
    for tid in tids {
        threads.push(ThreadEntry {
            tid: *tid,
            pending: 0,
        })?;
    }
    Ok(threads)
}
