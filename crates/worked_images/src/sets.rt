// Whole sets, read back.
use crate::asserts::holds;
use crate::damages::{damage_at, longer};
use crate::shared_images::START;
use image_codec::{ProcImage, ReadFault, SetBytes};
use rebuild::{Decoded, decode_set};
use std::alloc::{AllocError, Global};
use std::process::Abort;
use views::list_of::ListOf;

/// The image of two processes that live and a zombie: 40000 with the console on 0, 1 and 2, its child 40001
/// with it on 0, and its child 40002, which has ended with status 7.
static THREE: [u8; 216] = [
    b'D', b'M', b'T', b'S', b'H', b'R', b'0', b'1', 0x43, 0x9C, 0, 0, 1, 0, 0, 0,
    // No file, no channel, and the console, open for both.
    0, 0, 0, 0, 0, 0, 0, 0, 1, 0, 0, 0, 0x40, 0x9C, 0, 0, 0, 0, 0, 0, 0, 2, 0, 0, 0, 0, 0, 0, 0,
    // Three processes: 40000, with its thread and its descriptors.
    3, 0, 0, 0, 0x40, 0x9C, 0, 0, 1, 0, 0, 0, 0, 0, 0, 0, 1, 0, 0, 0, 0, 0, 0, 0, 0, 0, 0, 0, 0, 1,
    0, 0, 0, 0x40, 0x9C, 0, 0, 0, 0, 0, 0, 3, 0, 0, 0, //
    0, 0, 0, 0, 0x40, 0x9C, 0, 0, 0, 0, 0, 0, 0, //
    1, 0, 0, 0, 0x40, 0x9C, 0, 0, 0, 0, 0, 0, 0, //
    2, 0, 0, 0, 0x40, 0x9C, 0, 0, 0, 0, 0, 0, 0,
    // Its child, with its thread and its descriptor.
    0x41, 0x9C, 0, 0, 0x40, 0x9C, 0, 0, 0, 0, 0, 0, 0, 0, 0, 0, 0, 0, 0, 0, 0, 0, 0, 0, 0, 1, 0, 0,
    0, 0x41, 0x9C, 0, 0, 0, 0, 0, 0, 1, 0, 0, 0, //
    0, 0, 0, 0, 0x40, 0x9C, 0, 0, 0, 0, 0, 0, 0,
    // The child that has ended.
    0x42, 0x9C, 0, 0, 0x40, 0x9C, 0, 0, 0, 0, 0, 0, 0, 0, 0, 0, 1, 7, 0, 0, 0, 0, 0, 0, 0, 0, 0, 0,
    0, 0, 0, 0, 0,
];

/// The image of a process with one thread of its own number, and no page but the one that a handler returns
/// to.
fn process_bytes(alloc: Global, pid: u32) -> Result<Vec<u8>, AllocError> {
    let pid = pid.to_le_bytes();
    let pieces: [&[u8]; 10] = [
        b"DMTPRC01",
        // The process, its break from 0 to 0, and the page 0x80000 with rights 5: `addi a7, zero, 139`,
        // `ecall`.
        &pid,
        &[0, 0, 0, 0, 0, 0, 0, 0],
        &[1, 0, 0, 0, 0, 0, 8, 0, 5],
        &[0x93, 0x08, 0xB0, 0x08, 0x73, 0, 0, 0],
        &[0; 4088],
        // The signals, no waiter, and its thread with no saved context.
        &[0; 372],
        &[0, 0, 0, 0, 1, 0, 0, 0],
        &pid,
        &[0; 140],
    ];
    pieces.concat(alloc)
}

/// A file of a set behind its manifest.
enum File {
    Start,
    Three,
    /// The image of the process of this number.
    Process(u32),
    /// The same with a byte behind it.
    Longer(u32),
}

fn bytes_of(alloc: Global, file: &File) -> Result<Vec<u8>, AllocError> {
    match *file {
        File::Start => START.to_vec(alloc),
        File::Three => THREE.to_vec(alloc),
        File::Process(pid) => process_bytes(alloc, pid),
        File::Longer(pid) => {
            let bytes = process_bytes(alloc, pid)?;
            longer(alloc, bytes.as_slice())
        }
    }
}

/// The set of these files behind its manifest.
fn set_of(alloc: Global, files: &[File]) -> Result<SetBytes, AllocError> {
    let mut all = Vec::new(alloc);
    for file in files {
        all.push(ListOf::from_vec(bytes_of(alloc, file)?))?;
    }
    Ok(SetBytes::of_files(ListOf::from_vec(all)))
}

/// Files of a set, the next number, how many processes there are, and the numbers of those that live.
type Whole = (&'static [File], u32, usize, &'static [u32]);

fn have_pids(processes: &[ProcImage], pids: &[u32]) -> bool {
    if processes.len() != pids.len() {
        return false;
    }
    for (process, pid) in processes.iter().zip(pids) {
        if process.pid.0 != *pid {
            return false;
        }
    }
    true
}

fn is_of(set: &Decoded, whole: &Whole) -> bool {
    let (_, next_id, processes, pids) = *whole;
    set.shared.next_id == next_id
        && set.shared.processes.len() == processes
        && have_pids(set.procs.as_slice(), pids)
}

/// Whether the files spell such a set.
fn is_whole(alloc: Global, whole: &Whole) -> Result<bool, ReadFault> {
    let set = set_of(alloc, whole.0)?;
    let found = decode_set(alloc, &set)?;
    Ok(is_of(&found, whole))
}

static ONE_PROCESS: Whole = (&[File::Start, File::Process(40000)], 40001, 1, &[40000]);

#[test]
fn set_of_one_process(rt: HostRuntime) {
    holds(&rt, is_whole(rt.alloc(), &ONE_PROCESS) == Ok(true));
}

static TWO_PROCESSES: Whole = (
    &[File::Three, File::Process(40000), File::Process(40001)],
    40003,
    3,
    &[40000, 40001],
);

#[test]
fn set_of_two_processes_and_a_zombie(rt: HostRuntime) {
    holds(&rt, is_whole(rt.alloc(), &TWO_PROCESSES) == Ok(true));
}

/// Files of a set, and the file and the place at which it is damaged.
type Broken = (&'static [File], u32, u64);

fn fault_of(alloc: Global, files: &[File]) -> Result<Option<ReadFault>, AllocError> {
    let set = set_of(alloc, files)?;
    Ok(decode_set(alloc, &set).err())
}

fn assert_broken(rt: &(impl Abort + AllocGlobal), sets: &[Broken]) {
    for (files, file, offset) in sets {
        let fault = fault_of(rt.alloc(), files);
        holds(rt, fault == Ok(damage_at(*file, *offset)));
    }
}

static TOO_FEW_OR_TOO_MANY: [Broken; 4] = [
    (&[], 1, 0),
    (&[File::Start], 1, 129),
    (&[File::Three, File::Process(40000)], 1, 216),
    (
        &[
            File::Three,
            File::Process(40000),
            File::Process(40000),
            File::Process(40000),
        ],
        1,
        216,
    ),
];

#[test]
fn sets_with_too_few_files_or_too_many(rt: HostRuntime) {
    assert_broken(&rt, &TOO_FEW_OR_TOO_MANY);
}

static DAMAGED_PROCESS: [Broken; 1] = [(
    &[File::Three, File::Process(40000), File::Longer(40001)],
    3,
    4649,
)];

#[test]
fn set_with_a_damaged_process(rt: HostRuntime) {
    assert_broken(&rt, &DAMAGED_PROCESS);
}

static OUT_OF_ORDER: [Broken; 1] = [(
    &[File::Three, File::Process(40001), File::Longer(40000)],
    2,
    8,
)];

#[test]
fn set_of_processes_out_of_order(rt: HostRuntime) {
    assert_broken(&rt, &OUT_OF_ORDER);
}
