use plain_machine::{FIRST_PID, PlainKernel};
use plain_tables::Object;
use std::alloc::{AllocError, Global};
use sys_abi::{DescId, Descriptor, Tid, VPid};
use views::list_of::ListOf;

/// The process that calls.
pub const FIRST: VPid = VPid(FIRST_PID);

pub const THREAD: Tid = Tid(FIRST_PID);

/// The number of the file.
pub const FILE: u32 = 1;

/// A kernel part with the process and the file.
pub fn begin(alloc: Global) -> Result<Box<PlainKernel>, AllocError> {
    let mut kernel = Box::new(alloc, PlainKernel::empty(alloc))?;
    kernel.add_process(alloc, FIRST_PID, 0)?;
    add_file(alloc, &mut kernel)?;
    Ok(kernel)
}

fn add_file(alloc: Global, kernel: &mut PlainKernel) -> Result<(), AllocError> {
    let name = ListOf::from_vec(b"file".to_vec(alloc)?);
    let bytes = ListOf::from_vec(b"hello".to_vec(alloc)?);
    kernel.names.insert(name, FILE)?;
    kernel.files.insert(FILE, bytes)?;
    kernel.next_file = 2;
    Ok(())
}

/// A descriptor refers to a new description.
pub fn refer(
    kernel: &mut PlainKernel,
    fd: u32,
    object: Object,
    flags: u32,
) -> Result<(), AllocError> {
    if !kernel.has_numbers(FIRST) {
        return Ok(());
    }
    let num = kernel.made_of(FIRST);
    kernel.count_made(FIRST, 1)?;
    let descriptor = Descriptor {
        desc: DescId { pid: FIRST, num },
        cloexec: false,
    };
    kernel.place(FIRST, fd, descriptor, object, flags)
}
