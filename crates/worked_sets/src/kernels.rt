// A kernel part, a line for each entry of its maps.
use crate::objects::{add_channels, add_descriptions};
use image_codec::{ReadFault, restored_kernel};
use plain_machine::PlainKernel;
use plain_tables::Process;
use shared_reader::read_shared;
use std::alloc::{AllocError, Global};
use std::io;
use sys_abi::{Life, VPid};

/// Adds a line, where there was memory to make it.
pub fn add_line(text: &mut String, line: Result<String, AllocError>) -> Result<(), AllocError> {
    let line = line?;
    text.push_str("\n  ")?;
    text.push_str(line.as_str())
}

/// The bytes in hex digits.
pub fn digits(alloc: Global, bytes: &[u8]) -> Result<String, AllocError> {
    let mut text = String::new(alloc);
    for byte in bytes {
        text.push_str(format!(in alloc; "{byte:02X}")?.as_str())?;
    }
    Ok(text)
}

/// The kernel part for which the bytes stand.
pub fn told(alloc: Global, bytes: &[u8]) -> io::Result<String> {
    match kernel_of(alloc, bytes) {
        Ok(kernel) => Ok(kernel_text(alloc, &kernel)?),
        Err(fault) => Ok(format!(in alloc; "{fault}")?),
    }
}

fn kernel_of(alloc: Global, bytes: &[u8]) -> Result<PlainKernel, ReadFault> {
    let image = read_shared(alloc, bytes)?;
    Ok(restored_kernel(alloc, &image)?)
}

fn kernel_text(alloc: Global, k: &PlainKernel) -> Result<String, AllocError> {
    let mut text = format!(in alloc;
        "next process {}, next file {}, {} inboxes",
        k.next_id,
        k.next_file,
        k.inboxes.len()
    )?;
    add_entries(alloc, &mut text, k)?;
    Ok(text)
}

fn add_entries(alloc: Global, text: &mut String, k: &PlainKernel) -> Result<(), AllocError> {
    add_names(alloc, text, k)?;
    add_files(alloc, text, k)?;
    add_channels(alloc, text, k)?;
    add_descriptions(alloc, text, k)?;
    add_processes(alloc, text, k)?;
    add_descriptors(alloc, text, k)
}

fn add_names(alloc: Global, text: &mut String, k: &PlainKernel) -> Result<(), AllocError> {
    for (name, number) in k.names.iter() {
        let name = digits(alloc, name.as_slice())?;
        add_line(text, format!(in alloc; "name {name}: file {number}"))?;
    }
    Ok(())
}

fn add_files(alloc: Global, text: &mut String, k: &PlainKernel) -> Result<(), AllocError> {
    for (number, bytes) in k.files.iter() {
        let bytes = digits(alloc, bytes.as_slice())?;
        add_line(text, format!(in alloc; "file {number}: {bytes}"))?;
    }
    Ok(())
}

fn add_processes(alloc: Global, text: &mut String, k: &PlainKernel) -> Result<(), AllocError> {
    for (pid, process) in k.processes.iter() {
        add_process(alloc, text, *pid, process)?;
    }
    for (pid, maker) in k.makers.iter() {
        let line = format!(in alloc; "maker {}: host {}, made {}", pid.0, maker.host, maker.made);
        add_line(text, line)?;
    }
    Ok(())
}

fn add_process(
    alloc: Global,
    text: &mut String,
    pid: VPid,
    process: &Process,
) -> Result<(), AllocError> {
    let life = life_text(alloc, process.life)?;
    let line = format!(in alloc;
        "process {}: parent {}, {life}, pending {:X}",
        pid.0, process.parent, process.pending
    );
    add_line(text, line)?;
    for (tid, pending) in process.threads.iter() {
        let line = format!(in alloc; "thread {tid} of {}: pending {pending:X}", pid.0);
        add_line(text, line)?;
    }
    Ok(())
}

fn life_text(alloc: Global, life: Life) -> Result<String, AllocError> {
    match life {
        Life::Live => format!(in alloc; "lives"),
        Life::Zombie(status) => format!(in alloc; "ended with {status}"),
    }
}

fn add_descriptors(alloc: Global, text: &mut String, k: &PlainKernel) -> Result<(), AllocError> {
    for (slot, descriptor) in k.descriptors.iter() {
        let closing = if descriptor.cloexec {
            ", closed on exec"
        } else {
            ""
        };
        let line = format!(in alloc;
            "descriptor {} of {}: description {} {}{closing}",
            slot.fd, slot.pid.0, descriptor.desc.pid.0, descriptor.desc.num
        );
        add_line(text, line)?;
    }
    Ok(())
}
