// Inputs and sinks, in memory and of the host.
use crate::asserting::{holds, same_bytes};
use edge_io::host_inputs::LONGEST_FILE;
use edge_io::{HostInputs, HostSink, InputFault, Inputs, MemInputs, MemSink, Sink, SinkFault};
use std::alloc::{AllocGlobal, Global};
use std::fs;
use std::fs::OpenFile;
use std::process::Abort;
use std::test::Fail;

/// What a reading gives.
enum Reading {
    /// These bytes.
    Bytes(&'static [u8]),
    /// So many bytes.
    Long(u64),
    /// There is no such file.
    Missing,
    Failed,
}

/// Whether a reading of the file gives that.
fn gives(alloc: Global, inputs: &mut impl Inputs, name: &str, want: &Reading) -> bool {
    match inputs.read(alloc, name) {
        Ok(Some(file)) => match *want {
            Reading::Bytes(bytes) => file.as_slice() == bytes,
            Reading::Long(length) => file.len() as u64 == length,
            _ => false,
        },
        Ok(None) => matches!(want, Reading::Missing),
        Err(InputFault::Failed) => matches!(want, Reading::Failed),
        Err(InputFault::Memory) => false,
    }
}

/// Each reading of a file by its name gives what stands beside it.
fn read_each(
    rt: &(impl Abort + AllocGlobal),
    inputs: &mut impl Inputs,
    readings: &[(&str, Reading)],
) {
    for (name, want) in readings {
        holds(rt, gives(rt.alloc(), inputs, name, want));
    }
}

static IN_MEMORY: [(&str, Reading); 3] = [
    ("a.elf", Reading::Bytes(b"new")),
    ("a.elf", Reading::Failed),
    ("b.elf", Reading::Missing),
];

#[test]
fn inputs_in_memory(rt: HostRuntime) {
    let mut inputs = MemInputs::new(rt.alloc(), &[2]).expect(&rt, "memory");
    inputs.add("a.elf", b"old").expect(&rt, "memory");
    inputs.add("a.elf", b"new").expect(&rt, "memory");
    read_each(&rt, &mut inputs, &IN_MEMORY);
}

/// The pieces that are put, and what each answers.
static PIECES: [(&[u8], Result<(), SinkFault>); 4] = [
    (b"ab", Ok(())),
    (b"cd", Err(SinkFault::Failed)),
    (b"", Err(SinkFault::Failed)),
    (b"ef", Ok(())),
];

/// Each put of a piece answers what stands beside it.
fn put_each(rt: &impl Abort, sink: &mut MemSink, pieces: &[(&[u8], Result<(), SinkFault>)]) {
    for (piece, answer) in pieces {
        holds(rt, sink.put(piece) == *answer);
    }
}

#[test]
fn sink_in_memory(rt: HostRuntime) {
    let mut sink = MemSink::new(rt.alloc(), &[3, 2]).expect(&rt, "memory");
    put_each(&rt, &mut sink, &PIECES);
    same_bytes(&rt, sink.bytes(), b"abef");
    holds(&rt, sink.refusals() == 0);
}

/// A file of the host that is so long.
fn make_long(rt: &HostRuntime, length: u64) -> Result<(), Fail> {
    fs::create(rt, "worked_long")?.set_len(length)?;
    Ok(())
}

static SHORT: [(&str, Reading); 1] = [("worked_short", Reading::Bytes(b"hello\n"))];

static LONG: [(&str, Reading); 1] = [("worked_long", Reading::Long(LONGEST_FILE))];

static TOO_LONG: [(&str, Reading); 3] = [
    ("worked_long", Reading::Failed),
    (".", Reading::Failed),
    ("worked_missing", Reading::Missing),
];

#[test]
fn files_of_the_host(rt: HostRuntime) -> Result<(), Fail> {
    let mut inputs = HostInputs::new(&rt);
    fs::write(&rt, "worked_short", "hello\n")?;
    read_each(&rt, &mut inputs, &SHORT);
    make_long(&rt, LONGEST_FILE)?;
    read_each(&rt, &mut inputs, &LONG);
    make_long(&rt, LONGEST_FILE + 1)?;
    read_each(&rt, &mut inputs, &TOO_LONG);
    fs::remove_file(&rt, "worked_short")?;
    fs::remove_file(&rt, "worked_long")?;
    Ok(())
}

// That the bytes arrive is shown where the program is run: its stored run and the scripts of docs/TRIALS.md.
#[test]
fn streams_of_the_host_take_a_piece(rt: HostRuntime) -> Result<(), Fail> {
    HostSink::new(rt.stdout()).put(b"to standard output\n")?;
    HostSink::new(rt.stderr()).put(b"to standard error\n")?;
    Ok(())
}
