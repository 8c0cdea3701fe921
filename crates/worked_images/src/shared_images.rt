// Shared images.
use crate::asserts::holds;
use image_codec::{ProcessEntry, ReadFault, Shared, write_shared};
use shared_reader::read_shared;
use std::alloc::Global;
use sys_abi::{DescId, VPid};

/// The image of a start: process 40000, with the console on descriptors 0, 1 and 2.
pub static START: [u8; 129] = [
    b'D', b'M', b'T', b'S', b'H', b'R', b'0', b'1', 0x41, 0x9C, 0, 0, 1, 0, 0, 0,
    // No file, no channel, and the console, open for both.
    0, 0, 0, 0, 0, 0, 0, 0, 1, 0, 0, 0, 0x40, 0x9C, 0, 0, 0, 0, 0, 0, 0, 2, 0, 0, 0, 0, 0, 0, 0,
    // One process: its parent, host, running number, state, status and pending signals.
    1, 0, 0, 0, 0x40, 0x9C, 0, 0, 1, 0, 0, 0, 0, 0, 0, 0, 1, 0, 0, 0, 0, 0, 0, 0, 0, 0, 0, 0, 0,
    // One thread, and three descriptors.
    1, 0, 0, 0, 0x40, 0x9C, 0, 0, 0, 0, 0, 0, 3, 0, 0, 0, //
    0, 0, 0, 0, 0x40, 0x9C, 0, 0, 0, 0, 0, 0, 0, //
    1, 0, 0, 0, 0x40, 0x9C, 0, 0, 0, 0, 0, 0, 0, //
    2, 0, 0, 0, 0x40, 0x9C, 0, 0, 0, 0, 0, 0, 0,
];

const CONSOLE: DescId = DescId {
    pid: VPid(40000),
    num: 0,
};

/// Whether it is the process of a start.
fn is_process_of_start(process: &ProcessEntry) -> bool {
    if process.pid != VPid(40000) || process.descriptors.len() != 3 {
        return false;
    }
    for descriptor in &process.descriptors {
        if descriptor.desc != CONSOLE {
            return false;
        }
    }
    true
}

fn is_start(image: &Shared) -> bool {
    if image.next_id != 40001 || image.next_file != 1 || image.processes.len() != 1 {
        return false;
    }
    for process in &image.processes {
        if !is_process_of_start(process) {
            return false;
        }
    }
    true
}

/// Whether the bytes spell the image of a start, which is written as they are.
fn spells_start(alloc: Global, bytes: &[u8]) -> Result<bool, ReadFault> {
    let image = read_shared(alloc, bytes)?;
    let written = write_shared(alloc, &image)?;
    Ok(is_start(&image) && written.as_slice() == bytes)
}

#[test]
fn image_of_a_start(rt: HostRuntime) {
    holds(&rt, spells_start(rt.alloc(), &START) == Ok(true));
}
