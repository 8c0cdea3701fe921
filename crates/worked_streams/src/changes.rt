//! What the lines change that are no calls of these rows, and what they show.
use crate::answers::bytes_text;
use crate::lines::Line;
use crate::setting::{FILE, FIRST, THREAD, refer};
use plain_machine::PlainKernel;
use plain_tables::{Direction, Object};
use std::alloc::{AllocError, Global};
use sys_abi::flags::O_RDWR;
use sys_abi::{Dir, Maker, VirtAddr};

/// What came of the line, None where it is another one.
pub fn change_of(
    alloc: Global,
    kernel: &mut PlainKernel,
    line: &Line,
) -> Result<Option<String>, AllocError> {
    match line.name {
        "open" => open(kernel, line)?,
        "socket" => refer(kernel, line.first, SOCKET, O_RDWR)?,
        "close" => kernel.close_descriptor(alloc, FIRST, line.first),
        "fill" => fill(kernel, line.first)?,
        "number" => set_number(kernel, line.first)?,
        "arrive" => arrive(alloc, kernel)?,
        "file" => return Ok(Some(file_text(alloc, kernel)?)),
        "pending" => return Ok(Some(pending_text(alloc, kernel)?)),
        _ => return Ok(None),
    }
    Ok(Some(String::new(alloc)))
}

const SOCKET: Object = Object::Socket {
    address: VirtAddr { host: 0, port: 0 },
};

fn open(kernel: &mut PlainKernel, line: &Line) -> Result<(), AllocError> {
    let object = Object::File {
        number: FILE,
        offset: line.rest.parse::<u32>().unwrap_or(0),
    };
    refer(kernel, line.first, object, line.second)
}

fn fill(kernel: &mut PlainKernel, end: u32) -> Result<(), AllocError> {
    for fd in 0..end {
        if kernel.held_at(FIRST, fd).is_none() {
            refer(kernel, fd, Object::Console, O_RDWR)?;
        }
    }
    Ok(())
}

fn set_number(kernel: &mut PlainKernel, made: u32) -> Result<(), AllocError> {
    kernel.makers.insert(FIRST, Maker { host: 0, made })?;
    Ok(())
}

fn arrive(alloc: Global, kernel: &mut PlainKernel) -> Result<(), AllocError> {
    let mut places = Vec::new(alloc);
    for at in kernel.directions.keys() {
        places.push(*at)?;
    }
    for at in places {
        arrive_at(kernel, at);
    }
    Ok(())
}

fn arrive_at(kernel: &mut PlainKernel, at: Dir) {
    if let Some(direction) = kernel.directions.get_mut(at) {
        all_arrived(direction);
    }
}

fn all_arrived(direction: &mut Direction) {
    direction.arrived = direction.left.len() as u64;
}

fn file_text(alloc: Global, kernel: &PlainKernel) -> Result<String, AllocError> {
    match kernel.files.get(FILE) {
        None => format!(in alloc; ": none"),
        Some(bytes) => bytes_text(alloc, bytes.as_slice()),
    }
}

fn pending_text(alloc: Global, kernel: &PlainKernel) -> Result<String, AllocError> {
    let pending = kernel.pending(FIRST, THREAD);
    format!(in alloc; ": {pending}")
}
