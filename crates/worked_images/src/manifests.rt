// Manifests.
use crate::asserts::holds;
use crate::damages::{Change, changed, cut, damage_at, longer};
use image_codec::{ReadFault, read_manifest, write_manifest};
use std::alloc::{AllocError, Global};
use std::process::Abort;

/// Generation 1, with files of 129 and 271,214 bytes.
static MANIFEST: [u8; 36] = [
    0x01, 0x44, 0x4D, 0x54, 0x53, 0x45, 0x54, 0x31, 1, 0, 0, 0, 0, 0, 0, 0, 2, 0, 0, 0, 0x81, 0, 0,
    0, 0, 0, 0, 0, 0x6E, 0x23, 0x04, 0, 0, 0, 0, 0,
];

/// The gate, the magic, the count, and a count that promises more than there is.
static CHANGES: [Change; 9] = [
    (0, 0, 0),
    (0, 2, 0),
    (1, 0x45, 1),
    (7, 0x32, 1),
    (16, 0, 16),
    (16, 130, 16),
    (19, 1, 16),
    (16, 3, 36),
    (16, 1, 28),
];

static CUTS: [usize; 7] = [0, 1, 7, 12, 19, 27, 35];

fn fault_of(alloc: Global, bytes: &[u8]) -> Option<ReadFault> {
    read_manifest(alloc, bytes).err()
}

/// Whether the bytes spell a manifest with this generation and these lengths, which is written as they are.
fn both_ways(
    alloc: Global,
    bytes: &[u8],
    generation: u64,
    lengths: &[u64],
) -> Result<bool, ReadFault> {
    let read = read_manifest(alloc, bytes)?;
    let written = write_manifest(alloc, &read)?;
    Ok(
        read.generation == generation
            && read.lengths.as_slice() == lengths
            && written.as_slice() == bytes,
    )
}

#[test]
fn manifest_both_ways(rt: HostRuntime) {
    let answer = both_ways(rt.alloc(), &MANIFEST, 1, &[129, 271_214]);
    holds(&rt, answer == Ok(true));
}

/// Whether the manifest is damaged so after the change.
fn is_damaged(alloc: Global, change: &Change) -> Result<bool, AllocError> {
    let (at, value, offset) = *change;
    let bytes = changed(alloc, &MANIFEST, at, value)?;
    Ok(fault_of(alloc, bytes.as_slice()) == damage_at(0, offset))
}

#[test]
fn damaged_manifests(rt: HostRuntime) {
    for change in &CHANGES {
        holds(&rt, is_damaged(rt.alloc(), change) == Ok(true));
    }
}

fn assert_cuts(rt: &(impl Abort + AllocGlobal), cuts: &[usize]) {
    for len in cuts {
        let fault = fault_of(rt.alloc(), cut(&MANIFEST, *len));
        holds(rt, fault == damage_at(0, *len as u64));
    }
}

/// Why the bytes with another one behind them are refused.
fn fault_of_longer(alloc: Global, bytes: &[u8]) -> Result<Option<ReadFault>, AllocError> {
    let longer = longer(alloc, bytes)?;
    Ok(fault_of(alloc, longer.as_slice()))
}

#[test]
fn manifests_that_end_too_early_or_too_late(rt: HostRuntime) {
    assert_cuts(&rt, &CUTS);
    let fault = fault_of_longer(rt.alloc(), &MANIFEST);
    holds(&rt, fault == Ok(damage_at(0, 36)));
}
